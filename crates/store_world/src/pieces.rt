//! Pieces of an audit.

ghost use Rattle.std.specs.Prelude.{⊤};
ghost use Rattle.outside_words.specs.Faults.{HasCause, HidesNoFault};
ghost use Rattle.disk_words.specs.Disk as disks;
ghost use Rattle.notary_link.specs.Notary as notaries;
ghost use Rattle.step_count.specs.Blank.{IsBlankOf};
ghost use Rattle.validator.specs.Desk.{KeepsSound, desk};
ghost use Rattle.store_world.specs.declared.fail.LineFail.TheVariants.{DiskFault, NotaryFault};
ghost use Rattle.store_world.specs.Stepping.{HidesNone};
ghost use Rattle.store_world.specs.Parts.{StepsAuditing};
ghost use Rattle.store_world.specs.ByBytes.{TellsPiece};

use crate::answered::{Answered, piece_told};
use crate::audits::answer_to;
use crate::fail::LineFail;
use audit_steps::Auditor;
use disk_model::Disk;
use notary_link::Notary;
use std::alloc::Global;
use std::marker::Brand;
use step_count::{Blank, Ledger, Steps};

/// Audits a piece of what is stored under an id, at these clock seconds.
pub(crate) fn answer_audit<D: Disk, N: Notary>(
    alloc: Global,
    auditor: &mut Auditor,
    disk: &mut D,
    notary: &mut N,
    id: u64,
    now: u64,
) -> Result<Answered, LineFail>
    ensures piece { TellsPiece id auditor.old auditor.new now result
        (desk (D.state disk.old) (N.state notary.old)) (desk (D.state disk.new) (N.state notary.new)) }
    ensures told { StepsAuditing now result id auditor.old auditor.new
        (desk (D.state disk.old) (N.state notary.old)) (desk (D.state disk.new) (N.state notary.new)) }
    ensures sound { KeepsSound (λ before. ⊤)
        (desk (D.state disk.old) (N.state notary.old)) (desk (D.state disk.new) (N.state notary.new)) }
    ensures disk_frame { disks.GoesOn (D.state disk.old) (D.state disk.new) }
    ensures notary_frame { notaries.GoesOn (N.state notary.old) (N.state notary.new) }
    ensures disk_cause { HasCause DiskFault (D.state disk.old).faults (D.state disk.new).faults result }
    ensures disk_counted { HidesNoFault (D.state disk.old).faults (D.state disk.new).faults result }
    ensures notary_cause { HasCause NotaryFault (N.state notary.old).faults (N.state notary.new).faults result }
    ensures notary_counted { HidesNone (N.state notary.old) (N.state notary.new) result }
{
    audit_counted::<D, N, Brand>(alloc, auditor, disk, notary, id, now, Blank::new(1))
}

/// The same, by a count of its steps.
fn audit_counted<D: Disk, N: Notary, L: Ledger>(
    alloc: Global,
    auditor: &mut Auditor,
    disk: &mut D,
    notary: &mut N,
    id: u64,
    now: u64,
    blank: Blank,
) -> Result<Answered, LineFail>
    requires blank { IsBlankOf L.name L.parts blank }
    ensures piece { TellsPiece id auditor.old auditor.new now result
        (desk (D.state disk.old) (N.state notary.old)) (desk (D.state disk.new) (N.state notary.new)) }
    ensures told { StepsAuditing now result id auditor.old auditor.new
        (desk (D.state disk.old) (N.state notary.old)) (desk (D.state disk.new) (N.state notary.new)) }
    ensures sound { KeepsSound (λ before. ⊤)
        (desk (D.state disk.old) (N.state notary.old)) (desk (D.state disk.new) (N.state notary.new)) }
    ensures disk_frame { disks.GoesOn (D.state disk.old) (D.state disk.new) }
    ensures notary_frame { notaries.GoesOn (N.state notary.old) (N.state notary.new) }
    ensures disk_cause { HasCause DiskFault (D.state disk.old).faults (D.state disk.new).faults result }
    ensures disk_counted { HidesNoFault (D.state disk.old).faults (D.state disk.new).faults result }
    ensures notary_cause { HasCause NotaryFault (N.state notary.old).faults (N.state notary.new).faults result }
    ensures notary_counted { HidesNone (N.state notary.old) (N.state notary.new) result }
{
    let mut steps = Steps::<L>::new(blank);
    match auditor.step(alloc, disk, notary, id, now, &mut steps) {
        Ok(audit) => Ok(piece_told(alloc, audit)?),
        Err(fail) => answer_to(alloc, fail),
    }
}
