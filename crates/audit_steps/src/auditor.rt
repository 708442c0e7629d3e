//! The auditor.

ghost use Rattle.std.specs.Prelude.{◌≡◌, ◌⊎◌, ◌≤◌, ◌+◌, ⊤, None, IfSome, IfOk, IfErr, length};
ghost use Rattle.outside_words.specs.Faults.{HasCause};
ghost use Rattle.outside_words.specs.Shown.{ShowsFaults};
ghost use Rattle.outside_words.specs.Told.{WhereTold};
ghost use Rattle.disk_words.specs.Disk as disks;
ghost use Rattle.notary_link.specs.Notary as notaries;
ghost use Rattle.history_model.specs.History.{txns};
ghost use Rattle.history_model.specs.Stored.{stored};
ghost use Rattle.digest_model.specs.Layout.{max_later};
ghost use Rattle.audit_model.specs.Altered.{history_with};
ghost use Rattle.validator.specs.declared.fail.AuditFail.TheVariants.{DiskFault, NotaryFault};
ghost use Rattle.validator.specs.Fails.{disk_in_doubt, notary_in_doubt};
ghost use Rattle.validator.specs.Desk.{KeepsSound, desk};
ghost use Rattle.validator.specs.Verdicts.{Validates, MakesMark, IsOfValidation, ValidatesNone, sealed_in};
ghost use Rattle.audit_steps.specs.Auditing.{IsAuditOf, GranulesRise, read_by};
ghost use Rattle.audit_steps.specs.PieceSize.{piece};
ghost use Rattle.audit_steps.specs.Pieces.{HasMore, IsGoing, GoesOnWith, WhereLast, StandsAt, asks};

use crate::audit::Audit;
use crate::auditing::Auditing;
use crate::concluding::conclude;
use crate::next::{Next, read_next};
use disk_model::Disk;
use notary_link::Notary;
use std::alloc::Global;
use std::marker::Model;
use std::mem;
use step_count::{Ledger, Steps};
use validator::AuditFail;

/// Holds a store against what was filed, in pieces.
#[derive(Drop)]
pub struct Auditor {
    auditing: Option<Auditing>,
}

impl Model for Auditor {
    ghost use Rattle.std.specs.Prelude.{Option, IfSome};
    ghost use Rattle.audit_steps.specs.declared.auditing.Auditing.{Auditing};
    ghost use Rattle.audit_steps.specs.Steps.{FitsTogether};

    ghost Value = { Option Auditing };

    ghost view = { λ a. a.auditing };

    ghost invariant = { λ a. IfSome a.auditing FitsTogether };
}

impl Auditor {
    /// Nothing is read.
    pub fn new() -> Auditor
        ensures value { result ≡ None }
    {
        Auditor { auditing: None }
    }

    /// Reads the next items, at most 256. Behind the last one it validates, and is as new then; so it is
    /// after a refusal.
    pub fn step<D: Disk, N: Notary, L: Ledger>(
        &mut self,
        alloc: Global,
        disk: &mut D,
        notary: &mut N,
        id: u64,
        now: u64,
        steps: &mut Steps<L>,
    ) -> Result<Audit, AuditFail>
        ensures more { IfSome (D.state disk.old).reads (λ bytes. IsAuditOf id self.old bytes → HasMore id self.old bytes
            → GoesOnWith (read_by self.old + piece) result) }
        ensures going { IfSome (D.state disk.old).reads (λ bytes. IsAuditOf id self.old bytes → IsGoing result → HasMore id self.old bytes) }
        ensures told { IfSome (D.state disk.old).reads (λ bytes. IsAuditOf id self.old bytes
            → WhereTold (N.state notary.old).lists (N.state notary.new).lists (λ lists later.
            WhereLast (λ found. Validates id now (N.state notary.old).limits (stored bytes) found (N.state notary.old).trace (N.state notary.new).trace lists later) result)) }
        ensures quiet { IsGoing result → (N.state notary.new) ≡ (N.state notary.old) }
        ensures unasked { IfSome (D.state disk.old).reads (λ bytes. IsAuditOf id self.old bytes → HasMore id self.old bytes → (N.state notary.new) ≡ (N.state notary.old)) }
        ensures goes_on { IfSome (D.state disk.old).reads (λ bytes. IsAuditOf id self.old bytes → IsAuditOf id self.new bytes) }
        ensures stands { StandsAt result self.new }
        ensures nowhere { IfSome (D.state disk.old).reads (λ bytes. IsAuditOf id self.old bytes → history_with id (stored bytes) ≡ None → WhereLast ValidatesNone result) }
        ensures none_other { IfErr result IsOfValidation }
        ensures trace { WhereTold (N.state notary.old).trace (N.state notary.new).trace (λ old new. WhereLast (λ found. MakesMark id now found old new) result) }
        ensures same { disks.Unchanged (D.state disk.old) (D.state disk.new) }
        ensures sound { KeepsSound (λ before. ⊤)
            (desk (D.state disk.old) (N.state notary.old)) (desk (D.state disk.new) (N.state notary.new)) }
        ensures asked { IfOk result (λ audit. (N.state notary.new).asked ≤ (N.state notary.old).asked + asks (λ n. max_later) audit) }
        ensures few { IfSome (D.state disk.old).reads (λ bytes. IsAuditOf id self.old bytes
            → IfOk result (λ audit. (N.state notary.new).asked ≤ (N.state notary.old).asked + asks (sealed_in (history_with id (stored bytes))) audit)) }
        ensures steps { IfSome (D.state disk.old).reads (λ bytes. IsAuditOf id self.old bytes → IsGoing result ⊎ GranulesRise bytes → steps.new ≤ steps.old + 512) }
        ensures most { IfSome (D.state disk.old).reads (λ bytes. IsAuditOf id self.old bytes → steps.new ≤ steps.old + (512 + length (txns (stored bytes).items))) }
        ensures disk_frame { disks.GoesOn (D.state disk.old) (D.state disk.new) }
        ensures notary_frame { notaries.GoesOn (N.state notary.old) (N.state notary.new) }
        ensures disk_cause { HasCause DiskFault (D.state disk.old).faults (D.state disk.new).faults result }
        ensures disk_counted { ShowsFaults disk_in_doubt (D.state disk.old).faults (D.state disk.new).faults result }
        ensures notary_cause { HasCause NotaryFault (N.state notary.old).faults (N.state notary.new).faults result }
        ensures notary_counted { notaries.IsCounted notary_in_doubt (N.state notary.old) (N.state notary.new) result }
    {
        let under_way = mem::replace(&mut self.auditing, None);
        match read_next(alloc, disk, id, under_way, steps)? {
            Next::Going { auditing } => {
                let read = auditing.read;
                self.auditing = Some(auditing);
                Ok(Audit::Going { read })
            }
            Next::Last { auditing } => {
                let verdict = conclude(alloc, disk, notary, id, auditing, now, steps)?;
                Ok(Audit::Found { verdict })
            }
        }
    }
}
