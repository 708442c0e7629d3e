//! The call `inspect`.

ghost use Rattle.std.specs.Prelude.{◌≡◌, map};
ghost use Rattle.std.specs.List.{AllZip};
ghost use Rattle.std.specs.Option.{option_map};
ghost use Rattle.outside_io.specs.Sink as sinks;
ghost use Rattle.outside_io.specs.Clock as clocks;
ghost use Rattle.inspect_call.specs.Looked.{Same, WhereNamed};
ghost use Rattle.inspect_call.specs.Told.{status_code, fault_text, by_found, text_of};
ghost use Rattle.inspect_call.specs.Called.{Says, Tells, Inspects, HasCauses, Explains};

use crate::looking::{LookFail, Looked, look};
use disk_model::Disk;
use file_findings::{Found, Kind, explain, report};
use outside_io::{Clock, Sink, StreamFail, write_whole};
use std::alloc::Global;

/// How a look ends.
#[derive(Clone, Copy, Debug, PartialEq, Eq)]
pub enum Inspected {
    /// Nothing is odd.
    Clean,
    /// Something is.
    Odd,
    /// The store can't be read.
    DiskFault,
    /// A book can't be read.
    NotaryFault,
    /// The output failed.
    WriteFault,
    NoMemory,
}

impl Inspected {
    /// The number that the process ends with.
    pub fn code(&self) -> u8
        ensures value { result ≡ status_code self.now }
    {
        match self {
            Inspected::Clean => 0,
            Inspected::DiskFault => 5,
            Inspected::NotaryFault => 6,
            Inspected::WriteFault => 8,
            Inspected::NoMemory => 9,
            Inspected::Odd => 25,
        }
    }
}

fn fault_text(end: Inspected) -> &'static [u8]
    ensures value { result.now ≡ fault_text end }
{
    match end {
        Inspected::Clean | Inspected::Odd => b"",
        Inspected::DiskFault => b"fault DiskFault\n",
        Inspected::NotaryFault => b"fault NotaryFault\n",
        Inspected::WriteFault => b"fault WriteFault\n",
        Inspected::NoMemory => b"fault NoMemory\n",
    }
}

/// Writes the text, and then ends so.
fn say<O: Sink>(out: &mut O, text: &[u8], end: Inspected) -> Inspected
    ensures says { Says end text.now result (O.state out.old) (O.state out.new) }
    ensures frame { sinks.GoesOn (O.state out.old) (O.state out.new) }
{
    match write_whole(out, text) {
        Ok(()) => end,
        Err(StreamFail::Failed) => Inspected::WriteFault,
        Err(StreamFail::NoMemory) => Inspected::NoMemory,
    }
}

fn by_found(found: &[Found]) -> Inspected
    ensures value { result ≡ by_found found.now }
{
    match found {
        [] => Inspected::Clean,
        _ => Inspected::Odd,
    }
}

fn refuse<O: Sink>(out: &mut O, end: Inspected) -> Inspected
    ensures says { Says end (fault_text end) result (O.state out.old) (O.state out.new) }
    ensures frame { sinks.GoesOn (O.state out.old) (O.state out.new) }
{
    say(out, fault_text(end), end)
}

/// Writes what was found, or why there was no memory for it.
fn tell<O: Sink>(alloc: Global, out: &mut O, looked: &Looked) -> Inspected
    ensures tells { Tells looked.now result (O.state out.old) (O.state out.new) }
    ensures frame { sinks.GoesOn (O.state out.old) (O.state out.new) }
{
    match report(alloc, looked.items, looked.entries, &looked.found) {
        Ok(text) => say(out, &text, by_found(&looked.found)),
        Err(_) => refuse(out, Inspected::NoMemory),
    }
}

/// Looks at a store and at its books, where they are named, and writes what is odd about them. It
/// changes nothing, and asks the clock once.
pub fn inspect<S: Disk, B: Disk, C: Clock, O: Sink>(
    alloc: Global,
    id: Option<u64>,
    store: &mut Option<S>,
    books: &mut [B],
    clock: &mut C,
    out: &mut O,
) -> Inspected
    ensures exact { Inspects id result (option_map (λ s. (S.state s).reads) store.old) (map (λ b. (B.state b).reads) books.old)
        (C.state clock.old) (C.state clock.new) (O.state out.old) (O.state out.new) }
    ensures store { WhereNamed (λ old new. Same (S.state old) (S.state new)) store.old store.new }
    ensures books { AllZip (λ old new. Same (B.state old) (B.state new)) books.old books.new }
    ensures cause { HasCauses result (option_map (λ s. (S.state s).faults) store.old) (option_map (λ s. (S.state s).faults) store.new)
        (map (λ b. (B.state b).faults) books.old) (map (λ b. (B.state b).faults) books.new) (O.state out.old) (O.state out.new) }
    ensures clock { clocks.GoesOn (C.state clock.old) (C.state clock.new) }
    ensures out { sinks.GoesOn (O.state out.old) (O.state out.new) }
{
    let second = clock.now();
    match look(alloc, id, second, store, books) {
        Ok(looked) => tell(alloc, out, &looked),
        Err(LookFail::DiskFault) => refuse(out, Inspected::DiskFault),
        Err(LookFail::NotaryFault) => refuse(out, Inspected::NotaryFault),
        Err(LookFail::NoMemory) => refuse(out, Inspected::NoMemory),
    }
}

/// Writes what the table says of a kind.
pub fn explain_kind<O: Sink>(alloc: Global, kind: Kind, out: &mut O) -> Inspected
    ensures explains { Explains kind result (O.state out.old) (O.state out.new) }
    ensures frame { sinks.GoesOn (O.state out.old) (O.state out.new) }
{
    match explain(alloc, &kind.row()) {
        Ok(text) => say(out, &text, Inspected::Clean),
        Err(_) => refuse(out, Inspected::NoMemory),
    }
}
