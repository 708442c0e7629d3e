//! Where the runs of records of a store file lie.

ghost use Rattle.std.specs.Prelude.{◌≡◌, ◌==◌, ◌&&◌, ◌+◌, ◌<◌, ◌≤◌, not, length, take, slice_index};
ghost use Rattle.byte_grammar.specs.Gated.{open_gate};
ghost use Rattle.history_model.specs.Stored.{max_file, header_length};
ghost use Rattle.history_model.specs.Segments.{segment_start};
ghost use Rattle.store_inspect.specs.Runs.{runs_in, limit_of, reach_of, is_begun};

use history_model::Format;
use tuple_bytes::{MAX_FILE, MAX_PAYLOAD};

/// The bytes of a segment.
const SEGMENT: usize = 65_536;

/// The number of the last one that a file may have.
const LAST: usize = 1_023;

/// How many runs a file has.
pub(crate) fn runs_in(format: Format, bytes: &[u8]) -> usize
    ensures value { result ≡ runs_in format bytes.now }
    ensures few { result ≤ 1024 }
{
    match format {
        Format::One => 1,
        Format::Two => 1 + (bytes.len().saturating_sub(1) / SEGMENT).min(LAST),
    }
}

/// Where the first record of a run stands.
pub(crate) fn run_start(run: usize) -> usize
    requires few { run ≤ 1023 }
    ensures value { result ≡ segment_start run }
{
    match run {
        0 => 64,
        _ => run * SEGMENT,
    }
}

/// The place that no byte of a run reaches.
fn limit_of(format: Format, run: usize) -> usize
    requires few { run ≤ 1023 }
    ensures value { result ≡ limit_of format run }
{
    match format {
        Format::One => MAX_FILE,
        Format::Two => (run + 1) * SEGMENT,
    }
}

/// The bytes up to the end of a run.
pub(crate) fn up_to_end(format: Format, run: usize, bytes: &[u8]) -> &[u8]
    requires few { run ≤ 1023 }
    ensures value { result.now ≡ take (limit_of format run) bytes.now }
{
    &bytes[..bytes.len().min(limit_of(format, run))]
}

/// The last place that a cut-off append or group writes after a gate.
pub(crate) fn reach_of(format: Format, gate: u64) -> u64
    requires within { gate < max_file }
    ensures value { result ≡ reach_of format gate }
{
    match format {
        Format::One => gate + 5 + MAX_PAYLOAD as u64,
        Format::Two => (gate / SEGMENT as u64 + 1) * SEGMENT as u64,
    }
}

/// Whether the gate stands where an append has begun a segment, with so many bytes after it.
pub(crate) fn is_begun(format: Format, gate: u64, bytes: usize) -> bool
    requires within { gate < max_file }
    ensures value { result ≡ is_begun format gate bytes }
{
    match format {
        Format::One => false,
        Format::Two => {
            let before = gate.saturating_sub(1);
            (before / SEGMENT as u64 + 1) * SEGMENT as u64 == gate && bytes == 0
        }
    }
}
