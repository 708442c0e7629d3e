//! Analyses.

ghost use Rattle.std.specs.Prelude.{◌≡◌, ⊤, true, false, IfErr, IsErrOf, OnOk};
ghost use Rattle.outside_words.specs.Faults.{HasCause, HidesNoFault};
ghost use Rattle.disk_words.specs.Disk as disks;
ghost use Rattle.notary_link.specs.Notary as notaries;
ghost use Rattle.stmt_text.specs.declared.line.Line.TheVariants as lines;
ghost use Rattle.stmt_text.specs.declared.stmt.Stmt.TheVariants as stmts;
ghost use Rattle.stmt_text.specs.Statements.{may_name_era};
ghost use Rattle.validator.specs.Desk.{KeepsSound, desk};
ghost use Rattle.forensic_report.specs.declared.fail.AnalyseFail.TheVariants as analyses;
ghost use Rattle.forensic_report.specs.Fails.{disk_in_doubt, notary_in_doubt};
ghost use Rattle.store_world.specs.declared.fail.LineFail.TheVariants.{DiskFault, NotaryFault};
ghost use Rattle.store_world.specs.Stepping.{HidesNone};
ghost use Rattle.store_world.specs.Answers.{IsReported};
ghost use Rattle.store_world.specs.Parts.{StepsWithout};
ghost use Rattle.store_world.specs.Standing.{OpenWorld};
ghost use Rattle.store_world.specs.Steps.{algorithm_of};
ghost use Rattle.store_world.specs.ByBytes.{TellsReport};

use crate::answered::{Answered, not_reported, reported};
use crate::fail::LineFail;
use disk_model::Disk;
use forensic_report::{Algorithm, AnalyseFail, Report, analyse, reports_show};
use notary_link::Notary;
use std::alloc::Global;
use stmt_text::LineAlgorithm;

/// The algorithm that a statement names.
fn algorithm_of(algorithm: LineAlgorithm) -> Algorithm
    ensures value { result ≡ algorithm_of algorithm }
{
    match algorithm {
        LineAlgorithm::Mono => Algorithm::Mono,
        LineAlgorithm::Tiled => Algorithm::Tiled,
        LineAlgorithm::TiledExactly { kappa } => Algorithm::TiledExactly { kappa },
        LineAlgorithm::A3d => Algorithm::A3d,
    }
}

/// A fault has no reply, and a report or a refusal is told.
fn answer_to(alloc: Global, answer: Result<Report, AnalyseFail>) -> Result<Answered, LineFail>
    ensures value { IsReported answer result }
    ensures disk_only { IsErrOf result DiskFault → IsErrOf answer analyses.DiskFault }
    ensures notary_only { IsErrOf result NotaryFault → IsErrOf answer analyses.NotaryFault }
    ensures disk_sure { OnOk result (IfErr answer (λ fail. disk_in_doubt fail ≡ false)) }
    ensures notary_sure { OnOk result (IfErr answer (λ fail. notary_in_doubt fail ≡ false)) }
{
    match answer {
        Ok(report) => Ok(reported(report)),
        Err(AnalyseFail::DiskFault) => Err(LineFail::DiskFault),
        Err(AnalyseFail::NotaryFault) => Err(LineFail::NotaryFault),
        Err(AnalyseFail::NoMemory) => Err(LineFail::NoMemory),
        Err(fail) => Ok(not_reported(alloc, fail)?),
    }
}

/// Analyses what is stored under an id, the tiles of one era or all, at these clock seconds.
pub(crate) fn answer_analysis<D: Disk, N: Notary>(
    alloc: Global,
    disk: &mut D,
    notary: &mut N,
    id: u64,
    algorithm: LineAlgorithm,
    era: Option<u32>,
    now: u64,
) -> Result<Answered, LineFail>
    requires era { may_name_era algorithm era ≡ true }
    ensures report { TellsReport id (algorithm_of algorithm) era now result
        (desk (D.state disk.old) (N.state notary.old)) (desk (D.state disk.new) (N.state notary.new)) }
    ensures told { StepsWithout (lines.Plain (stmts.Analyse algorithm era)) now result id
        (D.state disk.old) (D.state disk.new) (N.state notary.old) (N.state notary.new) }
    ensures sound { KeepsSound (λ before. ⊤)
        (desk (D.state disk.old) (N.state notary.old)) (desk (D.state disk.new) (N.state notary.new)) }
    ensures disk_frame { disks.GoesOn (D.state disk.old) (D.state disk.new) }
    ensures notary_frame { notaries.GoesOn (N.state notary.old) (N.state notary.new) }
    ensures disk_cause { HasCause DiskFault (D.state disk.old).faults (D.state disk.new).faults result }
    ensures disk_counted { HidesNoFault (D.state disk.old).faults (D.state disk.new).faults result }
    ensures notary_cause { HasCause NotaryFault (N.state notary.old).faults (N.state notary.new).faults result }
    ensures notary_counted { HidesNone (N.state notary.old) (N.state notary.new) result }
{
    reports_show();
    let answer = analyse(alloc, disk, notary, id, algorithm_of(algorithm), era, now);
    answer_to(alloc, answer)
}
