//! A piece that a crash leaves whole or not at all.
ghost use Rattle.std.specs.Prelude.{◌≡◌, ◌+◌, ◌<◌, ◌^◌, true, [], ◌∷◌, IsErrOf};
ghost use Rattle.outside_words.specs.Faults.{HasCause, HidesNoFault};
ghost use Rattle.outside_words.specs.Told.{WhereTold};
ghost use Rattle.disk_words.specs.declared.DiskFail.TheVariants.{Failed, NoMemory};
ghost use Rattle.disk_words.specs.Disk.{GoesOn};
ghost use Rattle.disk_model.specs.Moments.{Secures};
ghost use Rattle.disk_model.specs.Gate.{gated_writes, ShowsAllOrNothing};

use crate::{Disk, DiskFail, write_durably};

/// Writes a piece behind a closed gate, syncs, opens the gate, and syncs.
///
/// The gate is one byte, and `open_byte` the value that opens it. A crash at any moment leaves a
/// closed gate with all before it as it was, or the open gate with the whole piece behind it.
pub fn write_gated<D: Disk>(
    disk: &mut D,
    gate: u64,
    open_byte: u8,
    piece: &[u8],
) -> Result<(), DiskFail>
    requires room { gate + 1 < 2 ^ 64 }
    ensures told { WhereTold (D.state disk.old).reads (D.state disk.new).reads
        (Secures (gated_writes gate open_byte piece.now) result (D.state disk.old) (D.state disk.new)) }
    ensures images { WhereTold (D.state disk.old).reads (D.state disk.new).reads
        (ShowsAllOrNothing gate open_byte piece.now result (D.state disk.old) (D.state disk.new)) }
    ensures frame { GoesOn (D.state disk.old) (D.state disk.new) }
    ensures cause { HasCause Failed (D.state disk.old).faults (D.state disk.new).faults result }
    ensures counted { HidesNoFault (D.state disk.old).faults (D.state disk.new).faults result }
    ensures memory { IsErrOf result NoMemory → D.takes_memory ≡ true }
{
    write_in_turn(disk, gate + 1, piece, gate, &[open_byte])
}

// Writes a piece, syncs, writes a second one, and syncs.
#[tactic(auto, using(disk_words::proofs::Frame::goes_on_then))]
fn write_in_turn<D: Disk>(
    disk: &mut D,
    place: u64,
    piece: &[u8],
    second_place: u64,
    second: &[u8],
) -> Result<(), DiskFail>
    ensures told { WhereTold (D.state disk.old).reads (D.state disk.new).reads
        (Secures ((place, piece.now) ∷ (second_place, second.now) ∷ []) result
        (D.state disk.old) (D.state disk.new)) }
    ensures frame { GoesOn (D.state disk.old) (D.state disk.new) }
    ensures cause { HasCause Failed (D.state disk.old).faults (D.state disk.new).faults result }
    ensures counted { HidesNoFault (D.state disk.old).faults (D.state disk.new).faults result }
    ensures memory { IsErrOf result NoMemory → D.takes_memory ≡ true }
{
    write_durably(disk, place, piece)?;
    write_durably(disk, second_place, second)
}
