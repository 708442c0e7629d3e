//! Lines, with a store and without one.

ghost use Rattle.std.specs.Prelude.{◌≡◌, ◌↔◌, ⊤, false, IsTrue, IsNone, IfSome, IfErr, IfOk, OnOk};
ghost use Rattle.outside_words.specs.Faults.{HasCause, HidesNoFault};
ghost use Rattle.disk_words.specs.Disk as disks;
ghost use Rattle.notary_link.specs.Notary as notaries;
ghost use Rattle.stmt_text.specs.Fits.{FitsParts};
ghost use Rattle.stmt_text.specs.Kinds.{line_kind};
ghost use Rattle.session_model.specs.Standing.{IsStatementLine};
ghost use Rattle.validator.specs.Desk.{KeepsSound, desk};
ghost use Rattle.store_world.specs.declared.fail.LineFail.TheVariants.{DiskFault, NotaryFault, NoMemory};
ghost use Rattle.store_world.specs.Answers.{refusal};
ghost use Rattle.store_world.specs.Faults.{MayEndIn};
ghost use Rattle.store_world.specs.Standing.{StandsOver};
ghost use Rattle.store_world.specs.Steps.{IsWorldLine, why_none};
ghost use Rattle.store_world.specs.Stepping.{HidesNone, StepsFor};
ghost use Rattle.store_world.specs.Parts.{alone, no_store, asking};
ghost use Rattle.store_world.specs.ByBytes.{NeedsStore, IsToldNone, GoesByBytes};

use crate::analyses::answer_analysis;
use crate::answered::{Answered, no_open_store};
use crate::audits::{answer_notarization, answer_policy, answer_validation};
use crate::fail::LineFail;
use crate::pieces::answer_audit;
use crate::statements::answer_statement;
use audit_steps::Auditor;
use disk_model::Disk;
use notary_link::Notary;
use session_core::Sessions;
use std::alloc::Global;
use stmt_text::{Line, LineKind, NotaryLine, WorldPart};
use store_engine::Store;

/// What a line asks of the notary, if it does.
fn asked_of_notary(line: &Line) -> Option<NotaryLine>
    ensures asked { IfSome result (λ asks. line.now ≡ asking asks) }
    ensures none { IsNone result → IsWorldLine line.now → IsStatementLine line.now }
{
    match line.kind() {
        LineKind::InWorld {
            part: WorldPart::Notary { asks },
        } => Some(asks),
        _ => None,
    }
}

/// Carries out a line over an open store, at these clock seconds.
pub(crate) fn answer_with_store<D: Disk, N: Notary>(
    alloc: Global,
    sessions: &mut Sessions,
    store: &mut Store,
    auditor: &mut Auditor,
    disk: &mut D,
    notary: &mut N,
    line: &Line,
    now: u64,
) -> Result<Answered, LineFail>
    requires open { store.old.at.is_closed ≡ false }
    requires is_line { IsWorldLine line.now }
    requires fits { FitsParts line.now }
    ensures open { OnOk result (store.new.at.is_closed ≡ false) }
    ensures header { store.new.header ≡ store.old.header }
    ensures bytes { GoesByBytes line.now store.old.header.id auditor.old auditor.new now result
        (desk (D.state disk.old) (N.state notary.old)) (desk (D.state disk.new) (N.state notary.new)) }
    ensures unasked { IsStatementLine line.now → N.state notary.new ≡ N.state notary.old }
    ensures only { IfErr result (MayEndIn (line_kind line.now) ⊤) }
    ensures told { StepsFor line.now now result
        (alone sessions.old store.old auditor.old) (alone sessions.new store.new auditor.new)
        (desk (D.state disk.old) (N.state notary.old)) (desk (D.state disk.new) (N.state notary.new)) }
    ensures sound { KeepsSound (StandsOver (alone sessions.old store.old auditor.old))
        (desk (D.state disk.old) (N.state notary.old)) (desk (D.state disk.new) (N.state notary.new)) }
    ensures disk_frame { disks.GoesOn (D.state disk.old) (D.state disk.new) }
    ensures notary_frame { notaries.GoesOn (N.state notary.old) (N.state notary.new) }
    ensures disk_cause { HasCause DiskFault (D.state disk.old).faults (D.state disk.new).faults result }
    ensures disk_counted { HidesNoFault (D.state disk.old).faults (D.state disk.new).faults result }
    ensures notary_cause { HasCause NotaryFault (N.state notary.old).faults (N.state notary.new).faults result }
    ensures notary_counted { HidesNone (N.state notary.old) (N.state notary.new) result }
{
    match asked_of_notary(line) {
        Some(NotaryLine::Notarize) => answer_notarization(alloc, store, disk, notary, now),
        Some(NotaryLine::Policy { k, algs }) => {
            answer_policy(alloc, store, disk, notary, k, algs)
        }
        Some(NotaryLine::Validate) => {
            let id = store.header().id;
            answer_validation(alloc, disk, notary, id, now)
        }
        Some(NotaryLine::Audit) => {
            let id = store.header().id;
            answer_audit(alloc, auditor, disk, notary, id, now)
        }
        Some(NotaryLine::Analyse { algorithm, era }) => {
            let id = store.header().id;
            answer_analysis(alloc, disk, notary, id, algorithm, era, now)
        }
        None => answer_statement(alloc, sessions, store, disk, line, now),
    }
}

/// What is told where a store is needed, and there is none that lines go over.
fn no_answer(alloc: Global, is_old: bool) -> Result<Answered, LineFail>
    ensures value { IfOk result (λ answered. answered ≡ refusal (why_none is_old)) }
    ensures only_memory { IfErr result (λ fail. fail ≡ NoMemory) }
{
    Ok(no_open_store(alloc, is_old)?)
}

/// Carries out a line where there is no store of this id.
pub(crate) fn answer_without_store<D: Disk, N: Notary>(
    alloc: Global,
    auditor: &mut Auditor,
    disk: &mut D,
    notary: &mut N,
    id: u64,
    is_old: bool,
    line: &Line,
    now: u64,
) -> Result<Answered, LineFail>
    requires is_line { IsWorldLine line.now }
    requires fits { FitsParts line.now }
    ensures none { NeedsStore line.now → IsToldNone is_old result
        (desk (D.state disk.old) (N.state notary.old)) (desk (D.state disk.new) (N.state notary.new)) }
    ensures bytes { GoesByBytes line.now id auditor.old auditor.new now result
        (desk (D.state disk.old) (N.state notary.old)) (desk (D.state disk.new) (N.state notary.new)) }
    ensures only { IfErr result (MayEndIn (line_kind line.now) ⊤) }
    ensures told { StepsFor line.now now result (no_store id is_old auditor.old) (no_store id is_old auditor.new)
        (desk (D.state disk.old) (N.state notary.old)) (desk (D.state disk.new) (N.state notary.new)) }
    ensures sound { KeepsSound (λ before. ⊤)
        (desk (D.state disk.old) (N.state notary.old)) (desk (D.state disk.new) (N.state notary.new)) }
    ensures disk_frame { disks.GoesOn (D.state disk.old) (D.state disk.new) }
    ensures notary_frame { notaries.GoesOn (N.state notary.old) (N.state notary.new) }
    ensures disk_cause { HasCause DiskFault (D.state disk.old).faults (D.state disk.new).faults result }
    ensures disk_counted { HidesNoFault (D.state disk.old).faults (D.state disk.new).faults result }
    ensures notary_cause { HasCause NotaryFault (N.state notary.old).faults (N.state notary.new).faults result }
    ensures notary_counted { HidesNone (N.state notary.old) (N.state notary.new) result }
{
    match asked_of_notary(line) {
        Some(NotaryLine::Validate) => answer_validation(alloc, disk, notary, id, now),
        Some(NotaryLine::Audit) => answer_audit(alloc, auditor, disk, notary, id, now),
        Some(NotaryLine::Analyse { algorithm, era }) => {
            answer_analysis(alloc, disk, notary, id, algorithm, era, now)
        }
        Some(NotaryLine::Notarize | NotaryLine::Policy { .. }) | None => no_answer(alloc, is_old),
    }
}

/// Whether a world takes a line: a statement on tables, `notarize`, `policy`, `validate`, `audit` or
/// `analyse`, or any line of a session.
pub fn is_world_line(line: &Line) -> bool
    ensures value { IsTrue result ↔ IsWorldLine line.now }
{
    matches!(line.kind(), LineKind::InWorld { .. })
}
