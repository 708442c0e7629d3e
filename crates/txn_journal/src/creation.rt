//! Making a file of gated records.
//!
//! The gate of the head is closed first, then all that stands behind it is written, and then it is
//! opened, each with a sync behind it: a crash at any moment leaves the new head, or none, or one that
//! stood on the device already.

ghost use Rattle.std.specs.Prelude.{◌≡◌, [], ◌∷◌, ◌++◌, drop, slice_index, IsTrue, IfSome, IfOk};
ghost use Rattle.outside_words.specs.Faults.{HasCause, HidesNoFault};
ghost use Rattle.outside_words.specs.Told.{WhereTold};
ghost use Rattle.disk_words.specs.declared.DiskFail.TheVariants.{Failed};
ghost use Rattle.disk_words.specs.Disk.{GoesOn, Unchanged};
ghost use Rattle.disk_model.specs.Moments.{Secures};
ghost use Rattle.byte_grammar.specs.Gated.{open_gate};
ghost use Rattle.txn_journal.specs.declared.fail.JournalFail.TheVariants.{DiskFault};
ghost use Rattle.txn_journal.specs.Append.{closed_gate};
ghost use Rattle.txn_journal.specs.Create.{is_free, IsFreeOrTaken, IsOfCreation, creation, Creates};

use crate::gate::{CLOSED, OPEN};
use crate::{JournalFail, Shape};
use disk_model::{Disk, DiskFail, write_durably};

/// Makes a file of this head and no payload. Its device has at most one byte, or at most 65 of which
/// the first is no open gate; every other device is refused as `AlreadyThere`.
pub fn create<D: Disk, S: Shape>(disk: &mut D, head: &[u8; 64]) -> Result<(), JournalFail>
    requires gate { slice_index head.now 0 ≡ open_gate }
    requires head { IsTrue (S.is_head head.now) }
    ensures none_other { IsOfCreation result }
    ensures told { WhereTold (D.state disk.old).reads (D.state disk.new).reads
        (Creates S.is_head S.shape head.now result (D.state disk.old) (D.state disk.new)) }
    ensures frame { GoesOn (D.state disk.old) (D.state disk.new) }
    ensures cause { HasCause DiskFault (D.state disk.old).faults (D.state disk.new).faults result }
    ensures counted { HidesNoFault (D.state disk.old).faults (D.state disk.new).faults result }
{
    if !is_free(disk)? {
        return Err(JournalFail::AlreadyThere);
    }
    make(disk, head)?;
    Ok(())
}

/// Whether a file may be made on the device.
#[tactic(auto, using(disk_words::proofs::Frame::goes_on_then, disk_words::proofs::Steady::unchanged_then))]
pub fn is_free<D: Disk>(disk: &mut D) -> Result<bool, DiskFail>
    ensures value { IfSome (D.state disk.old).reads (λ bytes. IfOk result (λ free. free ≡ is_free bytes)) }
    ensures meaning { IfSome (D.state disk.old).reads (λ bytes.
        IfOk result (λ free. IsFreeOrTaken free bytes)) }
    ensures same { Unchanged (D.state disk.old) (D.state disk.new) }
    ensures frame { GoesOn (D.state disk.old) (D.state disk.new) }
    ensures cause { HasCause Failed (D.state disk.old).faults (D.state disk.new).faults result }
    ensures counted { HidesNoFault (D.state disk.old).faults (D.state disk.new).faults result }
{
    let length = disk.length()?;
    if length <= 1 {
        return Ok(true);
    }
    if length > 65 {
        return Ok(false);
    }
    let mut first = [CLOSED];
    disk.read_at(0, &mut first)?;
    Ok(first[0] != OPEN)
}

#[tactic(auto, using(disk_words::proofs::Frame::goes_on_then))]
fn make<D: Disk>(disk: &mut D, head: &[u8; 64]) -> Result<(), DiskFail>
    ensures told { WhereTold (D.state disk.old).reads (D.state disk.new).reads
        (Secures (creation head.now) result (D.state disk.old) (D.state disk.new)) }
    ensures frame { GoesOn (D.state disk.old) (D.state disk.new) }
    ensures cause { HasCause Failed (D.state disk.old).faults (D.state disk.new).faults result }
    ensures counted { HidesNoFault (D.state disk.old).faults (D.state disk.new).faults result }
{
    close_head(disk)?;
    fill_head(disk, head)?;
    open_head(disk)
}

fn close_head<D: Disk>(disk: &mut D) -> Result<(), DiskFail>
    ensures told { WhereTold (D.state disk.old).reads (D.state disk.new).reads
        (Secures ((0, closed_gate ∷ []) ∷ []) result (D.state disk.old) (D.state disk.new)) }
    ensures frame { GoesOn (D.state disk.old) (D.state disk.new) }
    ensures cause { HasCause Failed (D.state disk.old).faults (D.state disk.new).faults result }
    ensures counted { HidesNoFault (D.state disk.old).faults (D.state disk.new).faults result }
{
    write_durably(disk, 0, &[CLOSED])
}

fn fill_head<D: Disk>(disk: &mut D, head: &[u8; 64]) -> Result<(), DiskFail>
    ensures told { WhereTold (D.state disk.old).reads (D.state disk.new).reads
        (Secures ((1, drop 1 head.now ++ closed_gate ∷ []) ∷ []) result
        (D.state disk.old) (D.state disk.new)) }
    ensures frame { GoesOn (D.state disk.old) (D.state disk.new) }
    ensures cause { HasCause Failed (D.state disk.old).faults (D.state disk.new).faults result }
    ensures counted { HidesNoFault (D.state disk.old).faults (D.state disk.new).faults result }
{
    let mut bytes = [CLOSED; 64];
    bytes[..63].copy_from_slice(&head[1..]);
    write_durably(disk, 1, &bytes)
}

fn open_head<D: Disk>(disk: &mut D) -> Result<(), DiskFail>
    ensures told { WhereTold (D.state disk.old).reads (D.state disk.new).reads
        (Secures ((0, open_gate ∷ []) ∷ []) result (D.state disk.old) (D.state disk.new)) }
    ensures frame { GoesOn (D.state disk.old) (D.state disk.new) }
    ensures cause { HasCause Failed (D.state disk.old).faults (D.state disk.new).faults result }
    ensures counted { HidesNoFault (D.state disk.old).faults (D.state disk.new).faults result }
{
    write_durably(disk, 0, &[OPEN])
}
