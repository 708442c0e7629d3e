//! A source in memory, which gives its bytes in pieces and fails where it is told to.
ghost use Rattle.std.specs.Prelude.{◌≡◌, ◌≤◌, length};

use crate::{Source, StreamFail};

/// A source in memory, which fails the reads whose numbers, from 1, are listed, and no other.
#[derive(Drop)]
pub struct MemSource {
    bytes: Vec<u8>,
    passed: usize,
    piece: usize,
    failing: Vec<u64>,
    reads: u64,
    faults: u64,
    ghost within: { passed ≤ length bytes.items },
}

impl MemSource {
    ghost use Rattle.std.specs.Prelude.{Some, max};
    ghost use Rattle.outside_io.specs.MemSource.{state_of, listed_of, piece_of};

    /// A source of these bytes, which gives at most `piece` of them a read, and at least one, and
    /// fails the reads of these numbers. It takes no memory.
    pub fn new(bytes: Vec<u8>, piece: usize, failing: Vec<u64>) -> Self
        ensures fresh { state_of result ≡ record { rest = Some bytes.items; faults = 0 } }
        ensures listed { listed_of result ≡ record { made = 0; failing = failing.items } }
        ensures piece { piece_of result ≡ max piece 1 }
    {
        MemSource {
            bytes,
            passed: 0,
            piece,
            failing,
            reads: 0,
            faults: 0,
        }
    }
}

impl Source for MemSource {
    ghost use Rattle.std.specs.Prelude.{IfOk, OnErr, IsErrOf};
    ghost use Rattle.outside_words.specs.Faults.{HasCause, HidesNoFault};
    ghost use Rattle.outside_words.specs.Listed.{counted, FailsAsListed};
    ghost use Rattle.outside_io.specs.declared.sink.StreamFail.TheVariants.{Failed, NoMemory};
    ghost use Rattle.outside_io.specs.Source.{Reads, Unchanged, GoesOn};
    ghost use Rattle.outside_io.specs.MemSource.{state_of, listed_of, piece_of};

    ghost state = { state_of };

    fn read(&mut self, into: &mut [u8]) -> Result<usize, StreamFail>
        ensures value { IfOk result (Reads into.new (state_of self.old) (state_of self.new)) }
        ensures kept { OnErr result (Unchanged (state_of self.old) (state_of self.new)) }
        ensures frame { GoesOn (state_of self.old) (state_of self.new) }
        ensures cause { HasCause Failed (state_of self.old).faults (state_of self.new).faults result }
        ensures counted { HidesNoFault (state_of self.old).faults (state_of self.new).faults result }
        ensures listed { FailsAsListed Failed (listed_of self.old) result }
        ensures no_memory { ¬ IsErrOf result NoMemory }
        ensures numbered { listed_of self.new ≡ counted (listed_of self.old) }
        ensures piece { IfOk result (λ n. n ≤ piece_of self.old) }
        ensures same { piece_of self.new ≡ piece_of self.old }
    {
        self.reads = self.reads.saturating_add(1);
        if self.failing.contains(&self.reads) {
            self.faults = self.faults.saturating_add(1);
            return Err(StreamFail::Failed);
        }
        let rest = &self.bytes[self.passed..];
        let count = rest.len().min(into.len()).min(self.piece.max(1));
        into[..count].copy_from_slice(&rest[..count]);
        self.passed += count;
        Ok(count)
    }
}
