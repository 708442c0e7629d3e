//! The writes by which a record comes behind all others, each with a sync behind it.
//!
//! A closed gate stands at the end while the record is written, so that a crash leaves no part of it.
//! Once the record is durable, and a closed gate behind it, its own gate is opened.

ghost use Rattle.std.specs.Prelude.{◌≡◌, ◌+◌, ◌<◌, ◌^◌, true, false, [], ◌∷◌, length, IfOk, IsErrOf};
ghost use Rattle.outside_words.specs.Faults.{HasCause, HidesNoFault};
ghost use Rattle.outside_words.specs.Told.{WhereTold};
ghost use Rattle.disk_words.specs.declared.DiskFail.TheVariants.{Failed, NoMemory};
ghost use Rattle.disk_words.specs.Disk.{GoesOn};
ghost use Rattle.disk_model.specs.Moments.{Secures};
ghost use Rattle.txn_journal.specs.Append.{closed_gate, behind_gate, writes_at};

use crate::gate::{CLOSED, OPEN};
use disk_model::{Disk, DiskFail, write_durably, write_gated};
use std::alloc::{AllocError, Global};

/// What stands behind the gate of a record: its length, its payload, and the next gate, which is closed.
pub(crate) fn record_bytes(alloc: Global, payload: &[u8]) -> Result<Vec<u8>, AllocError>
    requires { length payload.now < 2 ^ 32 }
    ensures value { IfOk result (λ bytes. bytes.items ≡ behind_gate payload.now) }
{
    let mut bytes = (payload.len() as u32).to_be_bytes().to_vec(alloc)?;
    bytes.extend_from_slice(payload)?;
    bytes.push(CLOSED)?;
    Ok(bytes)
}

/// Writes what stands behind the gate at the end, and opens that gate. An open one is closed first.
pub(crate) fn add<D: Disk>(
    disk: &mut D,
    gate_is_open: bool,
    end: u64,
    bytes: &[u8],
) -> Result<(), DiskFail>
    requires room { end + 1 < 2 ^ 64 }
    ensures told { WhereTold (D.state disk.old).reads (D.state disk.new).reads
        (Secures (writes_at gate_is_open end bytes.now) result (D.state disk.old) (D.state disk.new)) }
    ensures frame { GoesOn (D.state disk.old) (D.state disk.new) }
    ensures cause { HasCause Failed (D.state disk.old).faults (D.state disk.new).faults result }
    ensures counted { HidesNoFault (D.state disk.old).faults (D.state disk.new).faults result }
    ensures memory { IsErrOf result NoMemory → D.takes_memory ≡ true }
{
    if gate_is_open {
        close_and_add(disk, end, bytes)
    } else {
        add_behind_closed(disk, end, bytes)
    }
}

#[tactic(auto, using(disk_words::proofs::Frame::goes_on_then))]
fn close_and_add<D: Disk>(disk: &mut D, end: u64, bytes: &[u8]) -> Result<(), DiskFail>
    requires room { end + 1 < 2 ^ 64 }
    ensures told { WhereTold (D.state disk.old).reads (D.state disk.new).reads
        (Secures (writes_at true end bytes.now) result (D.state disk.old) (D.state disk.new)) }
    ensures frame { GoesOn (D.state disk.old) (D.state disk.new) }
    ensures cause { HasCause Failed (D.state disk.old).faults (D.state disk.new).faults result }
    ensures counted { HidesNoFault (D.state disk.old).faults (D.state disk.new).faults result }
    ensures memory { IsErrOf result NoMemory → D.takes_memory ≡ true }
{
    close_gate(disk, end)?;
    add_behind_closed(disk, end, bytes)
}

/// Closes the gate, and syncs.
fn close_gate<D: Disk>(disk: &mut D, end: u64) -> Result<(), DiskFail>
    ensures told { WhereTold (D.state disk.old).reads (D.state disk.new).reads
        (Secures ((end, closed_gate ∷ []) ∷ []) result (D.state disk.old) (D.state disk.new)) }
    ensures frame { GoesOn (D.state disk.old) (D.state disk.new) }
    ensures cause { HasCause Failed (D.state disk.old).faults (D.state disk.new).faults result }
    ensures counted { HidesNoFault (D.state disk.old).faults (D.state disk.new).faults result }
    ensures memory { IsErrOf result NoMemory → D.takes_memory ≡ true }
{
    write_durably(disk, end, &[CLOSED])
}

/// Writes the record, syncs, opens the gate, and syncs.
fn add_behind_closed<D: Disk>(disk: &mut D, end: u64, bytes: &[u8]) -> Result<(), DiskFail>
    requires room { end + 1 < 2 ^ 64 }
    ensures told { WhereTold (D.state disk.old).reads (D.state disk.new).reads
        (Secures (writes_at false end bytes.now) result (D.state disk.old) (D.state disk.new)) }
    ensures frame { GoesOn (D.state disk.old) (D.state disk.new) }
    ensures cause { HasCause Failed (D.state disk.old).faults (D.state disk.new).faults result }
    ensures counted { HidesNoFault (D.state disk.old).faults (D.state disk.new).faults result }
    ensures memory { IsErrOf result NoMemory → D.takes_memory ≡ true }
{
    write_gated(disk, end, OPEN, bytes)
}
