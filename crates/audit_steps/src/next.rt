//! What follows a piece of an audit.

ghost use Rattle.std.specs.Prelude.{◌≡◌, ◌≤◌, ◌+◌, None, IfSome, IfOk, IfErr};
ghost use Rattle.outside_words.specs.Faults.{HasCause, HidesNoFault};
ghost use Rattle.disk_words.specs.Disk.{Unchanged, GoesOn};
ghost use Rattle.history_model.specs.Stored.{stored};
ghost use Rattle.audit_model.specs.Altered.{history_with};
ghost use Rattle.segment_file.specs.declared.fail.SegmentFail.TheVariants as segments;
ghost use Rattle.segment_file.specs.Fail.{IsOfReading};
ghost use Rattle.audit_steps.specs.Auditing.{IsAuditOf, IsUnderWay, read_by};
ghost use Rattle.audit_steps.specs.Steps.{FitsTogether, NextIs, FitsNext};

use crate::auditing::Auditing;
use crate::piece::{begin, read_piece};
use disk_model::Disk;
use segment_file::SegmentFail;
use std::alloc::Global;
use step_count::{Ledger, Steps};

/// What follows a piece.
#[derive(Drop)]
pub(crate) enum Next {
    /// Some items are left.
    Going { auditing: Auditing },
    /// All is read. There is no audit where no header with the id is stored.
    Last { auditing: Option<Auditing> },
}

/// The audit under way, or one of which nothing is read; none where there is no header with the id.
fn take_up<D: Disk>(
    alloc: Global,
    disk: &mut D,
    id: u64,
    under_way: Option<Auditing>,
) -> Result<Option<Auditing>, SegmentFail>
    requires fits { IfSome under_way FitsTogether }
    ensures value { IfSome (D.state disk.old).reads (λ bytes. IsAuditOf id under_way bytes → IfOk result (λ taken. IfSome taken (λ a. IsUnderWay id bytes a × (a.read ≡ read_by under_way)))) }
    ensures none { IfSome (D.state disk.old).reads (λ bytes. IfOk result (λ taken. taken ≡ None → history_with id (stored bytes) ≡ None)) }
    ensures fits { IfOk result (λ taken. IfSome taken FitsTogether) }
    ensures none_other { IfErr result IsOfReading }
    ensures same { Unchanged (D.state disk.old) (D.state disk.new) }
    ensures frame { GoesOn (D.state disk.old) (D.state disk.new) }
    ensures cause { HasCause segments.DiskFault (D.state disk.old).faults (D.state disk.new).faults result }
    ensures counted { HidesNoFault (D.state disk.old).faults (D.state disk.new).faults result }
{
    match under_way {
        Some(auditing) => Ok(Some(auditing)),
        None => begin(alloc, disk, id),
    }
}

/// Reads the next piece, and answers what follows it.
pub(crate) fn read_next<D: Disk, L: Ledger>(
    alloc: Global,
    disk: &mut D,
    id: u64,
    under_way: Option<Auditing>,
    steps: &mut Steps<L>,
) -> Result<Next, SegmentFail>
    requires fits { IfSome under_way FitsTogether }
    ensures value { IfSome (D.state disk.old).reads (λ bytes. IsAuditOf id under_way bytes → IfOk result (NextIs id bytes under_way)) }
    ensures fits { IfOk result FitsNext }
    ensures steps { IfSome (D.state disk.old).reads (λ bytes. IsAuditOf id under_way bytes → steps.new ≤ steps.old + 512) }
    ensures none_other { IfErr result IsOfReading }
    ensures same { Unchanged (D.state disk.old) (D.state disk.new) }
    ensures frame { GoesOn (D.state disk.old) (D.state disk.new) }
    ensures cause { HasCause segments.DiskFault (D.state disk.old).faults (D.state disk.new).faults result }
    ensures counted { HidesNoFault (D.state disk.old).faults (D.state disk.new).faults result }
{
    match take_up(alloc, disk, id, under_way)? {
        Some(auditing) => {
            let piece = read_piece(alloc, disk, auditing, steps)?;
            let auditing = piece.auditing;
            if piece.last {
                Ok(Next::Last {
                    auditing: Some(auditing),
                })
            } else {
                Ok(Next::Going { auditing })
            }
        }
        None => Ok(Next::Last { auditing: None }),
    }
}
