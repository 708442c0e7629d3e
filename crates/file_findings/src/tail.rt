//! What stands after the gate that ends a run of records.

ghost use Rattle.std.specs.Prelude.{◌≡◌, ◌+◌, ◌<◌, ◌≤◌, ◌^◌, ◌++◌, OnOk, length};
ghost use Rattle.file_findings.specs.Tail.{filled, hidden, is_odd, tail_of};

use crate::finding::Finding;
use crate::gated::{OPEN, payload_after};
use crate::listing::{Made, note};
use txn_journal::Shape;

/// The gate that ends a run, and the last place that an append writes that is cut off there.
#[derive(Clone, Copy, Debug, PartialEq, Eq)]
pub struct Ending {
    pub segment: u32,
    pub gate: u64,
    pub reach: u64,
    pub is_open: bool,
}

/// How many bytes there are up to the last that is not 0.
fn filled(bytes: &[u8]) -> usize
    ensures value { result ≡ filled bytes.now }
    ensures few { result ≤ length bytes.now }
{
    let mut count = 0;
    for (i, byte) in bytes.iter().enumerate() {
        if *byte != 0 {
            count = i + 1;
        }
    }
    count
}

/// How many whole records follow a gate, if it is read as an open one.
fn hidden<S: Shape>(gate: u64, after: &[u8]) -> u64
    requires fits { gate + length after.now < 2 ^ 64 }
    ensures value { result ≡ hidden S.shape gate after.now }
{
    let mut count = 0;
    let mut at = 0;
    'records: while let Some(payload) = payload_after::<S>(gate + at as u64, &after[at..]) {
        count += 1;
        let next = at + 4 + payload.len();
        if after[next] != OPEN {
            return count;
        }
        at = next + 1;
    }
    count
}

/// Adds the finding of the bytes after a gate, if any.
pub fn note_tail<S: Shape>(found: &mut Vec<Finding>, ending: Ending, after: &[u8]) -> Made<()>
    requires fits { ending.gate + 1 + length after.now < 2 ^ 64 }
    ensures value { OnOk result (found.new.items ≡ found.old.items ++ tail_of S.shape ending after.now) }
{
    let Ending {
        segment,
        gate,
        reach,
        is_open,
    } = ending;
    let bytes = filled(after) as u64;
    let byte = gate + 1;
    let records = hidden::<S>(gate, after);
    if is_open || reach < gate + bytes {
        found.push(Finding::Trailing(segment, byte, bytes, records))?;
        return Ok(());
    }
    note(
        found,
        bytes > 0,
        Finding::CutOff(segment, byte, bytes, records),
    )
}
