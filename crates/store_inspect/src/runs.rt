//! The runs of records of a store file: their items, and what stands after the gate of each.

ghost use Rattle.std.specs.Prelude.{◌≡◌, ◌==◌, ◌&&◌, ◌+◌, ◌<◌, ◌≤◌, ◌++◌, IfOk, OnOk, length, drop, slice_index, not};
ghost use Rattle.byte_grammar.specs.Gated.{records};
ghost use Rattle.history_model.specs.Heads.{is_segmented, format_by};
ghost use Rattle.history_model.specs.Stored.{store_shape, max_file, header_length, items_of, found_behind};
ghost use Rattle.store_inspect.specs.Reading.{IsRun};
ghost use Rattle.store_inspect.specs.Runs.{runs_in, run_of, ending_of, tail_at, tails_of};

use crate::layout::{is_begun, reach_of, run_start, runs_in, up_to_end};
use file_findings::{Ending, Finding, Made, note_tail, payload_at};
use history_model::{Format, Spelled};
use std::alloc::Global;
use txn_journal::StoreShape;

/// The value of an open gate.
const OPEN: u8 = 0xA7;

/// The items of the runs, and what stands after their gates.
#[derive(Drop)]
pub(crate) struct Runs {
    pub items: Spelled,
    pub tails: Vec<Finding>,
}

/// Adds the items of the records from a place on, and answers the place of the gate that ends them.
fn read_run(alloc: Global, items: &mut Spelled, start: usize, bytes: &[u8]) -> Made<usize>
    requires inside { start < length bytes.now }
    ensures value { IfOk result (IsRun items.old (records store_shape start 0 (drop start bytes.now)) items.new) }
    ensures within { IfOk result (λ gate. gate < length bytes.now) }
{
    let mut place = start;
    'records: while let Some(payload) = payload_at::<StoreShape>(place as u64, &bytes[place..]) {
        items.push(alloc, payload)?;
        place += 5 + payload.len();
    }
    Ok(place)
}

/// The gate that ends a run, whose bytes these are up to its end.
fn ending(format: Format, run: usize, gate: usize, bytes: &[u8]) -> Ending
    requires few { run ≤ 1023 }
    requires inside { gate < length bytes.now }
    requires within { gate < max_file }
    ensures value { result ≡ ending_of format run gate (slice_index bytes.now gate) (length (drop (gate + 1) bytes.now)) }
{
    let after = bytes.len() - (gate + 1);
    Ending {
        segment: run as u32,
        gate: gate as u64,
        reach: reach_of(format, gate as u64),
        is_open: bytes[gate] == OPEN && !is_begun(format, gate as u64, after),
    }
}

impl Runs {
    fn take_run(&mut self, alloc: Global, format: Format, run: usize, bytes: &[u8]) -> Made<()>
        requires long { header_length < length bytes.now }
        requires short { length bytes.now ≤ max_file }
        requires has { run < runs_in format bytes.now }
        ensures items { OnOk result (self.new.items ≡ self.old.items ++ items_of (run_of format run bytes.now).0) }
        ensures tails { OnOk result (self.new.tails.items ≡ self.old.tails.items ++ tail_at format bytes.now run) }
    {
        let own = up_to_end(format, run, bytes);
        let gate = read_run(alloc, &mut self.items, run_start(run), own)?;
        let ending = ending(format, run, gate, own);
        note_tail::<StoreShape>(&mut self.tails, ending, &own[gate + 1..])
    }
}

/// Reads all runs of a file that has a header.
pub(crate) fn read_runs(alloc: Global, format: Format, bytes: &[u8]) -> Made<Runs>
    requires long { header_length < length bytes.now }
    requires short { length bytes.now ≤ max_file }
    requires format { format ≡ format_by (is_segmented bytes.now) }
    ensures items { IfOk result (λ runs. runs.items ≡ items_of (found_behind bytes.now).0) }
    ensures tails { IfOk result (λ runs. runs.tails.items ≡ tails_of format bytes.now) }
{
    let mut runs = Runs {
        items: Spelled::new(alloc),
        tails: Vec::new(alloc),
    };
    for run in 0..runs_in(format, bytes) {
        runs.take_run(alloc, format, run, bytes)?;
    }
    Ok(runs)
}
