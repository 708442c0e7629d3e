//! What a crash leaves by a choice of 2 or more: other bytes at each touched place.
ghost use Rattle.std.specs.Prelude.{◌≡◌, ◌+◌, ◌%◌, IfOk, if◌then◌else◌};
ghost use Rattle.disk_words.specs.Record.{is_past, garbled};
ghost use Rattle.disk_model.specs.Calls.{trace_of};

use crate::calls::{Made, is_covered};
use std::alloc::{AllocError, Global};

/// Changes each byte that a write since the last sync covered, or that lies past the length
/// of then.
pub(crate) fn garbled(
    alloc: Global,
    bytes: &[u8],
    made: &[Made],
    synced: u64,
    choice: u64,
) -> Result<Vec<u8>, AllocError>
    ensures value { IfOk result (λ left. left.items
        ≡ garbled (is_past (trace_of made.now) synced) choice 0 bytes.now) }
{
    let mut left = Vec::new(alloc);
    for (p, b) in bytes.iter().enumerate() {
        left.push(byte_left(made, synced, choice, p as u64, *b))?;
    }
    Ok(left)
}

fn byte_left(made: &[Made], synced: u64, choice: u64, place: u64, byte: u8) -> u8
    ensures value { result
        ≡ (if is_past (trace_of made.now) synced place then (choice + place) % 256 else byte) }
{
    if synced <= place || is_covered(made, place) {
        garbage(choice, place)
    } else {
        byte
    }
}

// The sum of the two may not fit, its last eight bits do.
fn garbage(choice: u64, place: u64) -> u8
    ensures value { result ≡ (choice + place) % 256 }
{
    ((choice % 256 + place % 256) % 256) as u8
}
