//! Notarizations, policies and validations.

ghost use Rattle.std.specs.Prelude.{◌≡◌, ◌≤◌, ℕ, ⊤, false, List, Option, OnOk, IsErrOf};
ghost use Rattle.outside_words.specs.Faults.{HasCause, HidesNoFault};
ghost use Rattle.disk_words.specs.Disk as disks;
ghost use Rattle.notary_link.specs.Notary as notaries;
ghost use Rattle.tuple_bytes.specs.declared.item.Item.{Item};
ghost use Rattle.store_engine.specs.Opened.{IsOpenOn};
ghost use Rattle.stmt_text.specs.declared.line.Line.TheVariants as lines;
ghost use Rattle.stmt_text.specs.declared.stmt.Stmt.TheVariants as stmts;
ghost use Rattle.session_model.specs.Standing.{Machine};
ghost use Rattle.validator.specs.declared.fail.AuditFail.TheVariants as audits;
ghost use Rattle.validator.specs.Desk.{KeepsSound, desk};
ghost use Rattle.validator.specs.Fails.{disk_in_doubt, notary_in_doubt};
ghost use Rattle.audit_steps.specs.declared.auditing.Auditing.{Auditing};
ghost use Rattle.store_world.specs.declared.fail.LineFail.TheVariants.{DiskFault, NotaryFault};
ghost use Rattle.store_world.specs.Answers.{IsAnswerTo};
ghost use Rattle.store_world.specs.Stepping.{HidesNone, StepsFor};
ghost use Rattle.store_world.specs.Parts.{alone, StepsWithout};
ghost use Rattle.store_world.specs.Standing.{OpenWorld};
ghost use Rattle.store_world.specs.ByBytes.{TellsVerdict};

use crate::answered::{Answered, found, refused, sealed, turned};
use crate::fail::LineFail;
use disk_model::Disk;
use notary_link::Notary;
use std::alloc::Global;
use store_engine::Store;
use validator::{AuditFail, notarize, policy, validate};

/// A fault has no reply, and a refusal is told. An open store never answers Closed.
pub(crate) fn answer_to(alloc: Global, fail: AuditFail) -> Result<Answered, LineFail>
    ensures value { IsAnswerTo fail result }
    ensures disk_only { IsErrOf result DiskFault → fail ≡ audits.DiskFault }
    ensures notary_only { IsErrOf result NotaryFault → fail ≡ audits.NotaryFault }
    ensures disk_sure { OnOk result (disk_in_doubt fail ≡ false) }
    ensures notary_sure { OnOk result (notary_in_doubt fail ≡ false) }
{
    match fail {
        AuditFail::DiskFault => Err(LineFail::DiskFault),
        AuditFail::NotaryFault => Err(LineFail::NotaryFault),
        AuditFail::NoMemory | AuditFail::Closed => Err(LineFail::NoMemory),
        _ => Ok(refused(alloc, fail)?),
    }
}

/// Notarizes an open store at these clock seconds.
pub(crate) fn answer_notarization<D: Disk, N: Notary>(
    alloc: Global,
    store: &mut Store,
    disk: &mut D,
    notary: &mut N,
    now: u64,
) -> Result<Answered, LineFail>
    requires open { store.old.at.is_closed ≡ false }
    ensures open { OnOk result (store.new.at.is_closed ≡ false) }
    ensures header { store.new.header ≡ store.old.header }
    ensures told { (kept : Machine) (auditing : Option Auditing) → StepsFor (lines.Plain stmts.Notarize) now result
        (alone kept store.old auditing) (alone kept store.new auditing)
        (desk (D.state disk.old) (N.state notary.old)) (desk (D.state disk.new) (N.state notary.new)) }
    ensures sound { KeepsSound (λ before. (items : List Item) × IsOpenOn store.old items before)
        (desk (D.state disk.old) (N.state notary.old)) (desk (D.state disk.new) (N.state notary.new)) }
    ensures disk_frame { disks.GoesOn (D.state disk.old) (D.state disk.new) }
    ensures notary_frame { notaries.GoesOn (N.state notary.old) (N.state notary.new) }
    ensures disk_cause { HasCause DiskFault (D.state disk.old).faults (D.state disk.new).faults result }
    ensures disk_counted { HidesNoFault (D.state disk.old).faults (D.state disk.new).faults result }
    ensures notary_cause { HasCause NotaryFault (N.state notary.old).faults (N.state notary.new).faults result }
    ensures notary_counted { HidesNone (N.state notary.old) (N.state notary.new) result }
{
    match notarize(alloc, store, disk, notary, now) {
        Ok(tiles) => Ok(sealed(alloc, tiles)?),
        Err(fail) => answer_to(alloc, fail),
    }
}

/// Stores a policy in an open store: tiles of so many granules, and these chains, from the next tile on.
pub(crate) fn answer_policy<D: Disk, N: Notary>(
    alloc: Global,
    store: &mut Store,
    disk: &mut D,
    notary: &mut N,
    k: u8,
    algs: u8,
) -> Result<Answered, LineFail>
    requires open { store.old.at.is_closed ≡ false }
    requires exponent { k ≤ 10 }
    requires chains { algs ≤ 3 }
    ensures open { OnOk result (store.new.at.is_closed ≡ false) }
    ensures header { store.new.header ≡ store.old.header }
    ensures told { (now : ℕ) (kept : Machine) (auditing : Option Auditing) → StepsFor (lines.Plain (stmts.Policy k algs)) now result
        (alone kept store.old auditing) (alone kept store.new auditing)
        (desk (D.state disk.old) (N.state notary.old)) (desk (D.state disk.new) (N.state notary.new)) }
    ensures sound { KeepsSound (λ before. (items : List Item) × IsOpenOn store.old items before)
        (desk (D.state disk.old) (N.state notary.old)) (desk (D.state disk.new) (N.state notary.new)) }
    ensures disk_frame { disks.GoesOn (D.state disk.old) (D.state disk.new) }
    ensures notary_frame { notaries.GoesOn (N.state notary.old) (N.state notary.new) }
    ensures disk_cause { HasCause DiskFault (D.state disk.old).faults (D.state disk.new).faults result }
    ensures disk_counted { HidesNoFault (D.state disk.old).faults (D.state disk.new).faults result }
    ensures notary_cause { HasCause NotaryFault (N.state notary.old).faults (N.state notary.new).faults result }
    ensures notary_counted { HidesNone (N.state notary.old) (N.state notary.new) result }
{
    match policy(alloc, store, disk, notary, k, algs) {
        Ok(era) => Ok(turned(alloc, era)?),
        Err(fail) => answer_to(alloc, fail),
    }
}

/// Validates what is stored under an id, at these clock seconds.
pub(crate) fn answer_validation<D: Disk, N: Notary>(
    alloc: Global,
    disk: &mut D,
    notary: &mut N,
    id: u64,
    now: u64,
) -> Result<Answered, LineFail>
    ensures verdict { TellsVerdict id now result
        (desk (D.state disk.old) (N.state notary.old)) (desk (D.state disk.new) (N.state notary.new)) }
    ensures told { StepsWithout (lines.Plain stmts.Validate) now result id
        (D.state disk.old) (D.state disk.new) (N.state notary.old) (N.state notary.new) }
    ensures sound { KeepsSound (λ before. ⊤)
        (desk (D.state disk.old) (N.state notary.old)) (desk (D.state disk.new) (N.state notary.new)) }
    ensures disk_frame { disks.GoesOn (D.state disk.old) (D.state disk.new) }
    ensures notary_frame { notaries.GoesOn (N.state notary.old) (N.state notary.new) }
    ensures disk_cause { HasCause DiskFault (D.state disk.old).faults (D.state disk.new).faults result }
    ensures disk_counted { HidesNoFault (D.state disk.old).faults (D.state disk.new).faults result }
    ensures notary_cause { HasCause NotaryFault (N.state notary.old).faults (N.state notary.new).faults result }
    ensures notary_counted { HidesNone (N.state notary.old) (N.state notary.new) result }
{
    match validate(alloc, disk, notary, id, now) {
        Ok(verdict) => Ok(found(alloc, verdict)?),
        Err(fail) => answer_to(alloc, fail),
    }
}
