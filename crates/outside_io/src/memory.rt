//! A sink in memory, which fails where it is told to.
ghost use Rattle.std.specs.Prelude.{◌≡◌};

use crate::{Sink, StreamFail};
use std::alloc::Global;

/// A sink in memory, which fails the writes whose numbers, from 1, are listed, and no other.
#[derive(Drop)]
pub struct MemSink {
    bytes: Vec<u8>,
    failing: Vec<u64>,
    writes: u64,
    faults: u64,
}

impl MemSink {
    ghost use Rattle.std.specs.Prelude.{[], Some};
    ghost use Rattle.outside_io.specs.Memory.{state_of, listed_of};

    /// An empty sink, which fails the writes of these numbers. It takes no memory.
    pub fn new(alloc: Global, failing: Vec<u64>) -> Self
        ensures fresh { state_of result ≡ record { held = Some []; faults = 0 } }
        ensures listed { listed_of result ≡ record { made = 0; failing = failing.items } }
    {
        MemSink {
            bytes: Vec::new(alloc),
            failing,
            writes: 0,
            faults: 0,
        }
    }

    /// All that was written.
    pub fn bytes(&self) -> &[u8]
        ensures value { (state_of self.now).held ≡ Some result.now }
    {
        &self.bytes
    }
}

impl Sink for MemSink {
    ghost use Rattle.std.specs.Prelude.{length, IfOk, OnErr};
    ghost use Rattle.outside_words.specs.Faults.{HasCause, HidesNoFault};
    ghost use Rattle.outside_words.specs.Listed.{counted, FailsAsListed};
    ghost use Rattle.outside_io.specs.declared.sink.StreamFail.TheVariants.{Failed};
    ghost use Rattle.outside_io.specs.Sink.{Writes, Unchanged, GoesOn};
    ghost use Rattle.outside_io.specs.Memory.{state_of, listed_of};

    ghost state = { state_of };

    fn write(&mut self, piece: &[u8]) -> Result<usize, StreamFail>
        ensures value { IfOk result (Writes piece.now (state_of self.old) (state_of self.new)) }
        ensures whole { IfOk result (λ n. n ≡ length piece.now) }
        ensures kept { OnErr result (Unchanged (state_of self.old) (state_of self.new)) }
        ensures frame { GoesOn (state_of self.old) (state_of self.new) }
        ensures cause { HasCause Failed (state_of self.old).faults (state_of self.new).faults result }
        ensures counted { HidesNoFault (state_of self.old).faults (state_of self.new).faults result }
        ensures listed { FailsAsListed Failed (listed_of self.old) result }
        ensures numbered { listed_of self.new ≡ counted (listed_of self.old) }
    {
        self.writes = self.writes.saturating_add(1);
        if self.failing.contains(&self.writes) {
            self.faults = self.faults.saturating_add(1);
            return Err(StreamFail::Failed);
        }
        match self.bytes.extend_from_slice(piece) {
            Ok(()) => Ok(piece.len()),
            Err(_) => Err(StreamFail::NoMemory),
        }
    }
}
