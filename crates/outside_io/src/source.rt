//! A source as its callers see it.
ghost use Rattle.std.specs.Prelude.{IfOk, OnErr};
ghost use Rattle.outside_words.specs.Faults.{HasCause, HidesNoFault};
ghost use Rattle.outside_io.specs.declared.sink.StreamFail.TheVariants.{Failed};
ghost use Rattle.outside_io.specs.Source.{State, Reads, Unchanged, GoesOn};

use crate::StreamFail;

/// Where bytes come in.
pub trait Source {
    /// The bytes that are left, where it tells them, and how often it has failed.
    ghost state: { Self → State };

    /// Moves the first bytes that are left into the front of `into`, and answers how many. 0 for
    /// an `into` that isn't empty is the end of input. Behind what was moved `into` holds anything.
    fn read(&mut self, into: &mut [u8]) -> Result<usize, StreamFail>
        ensures value { IfOk result (Reads into.new (state self.old) (state self.new)) }
        ensures kept { OnErr result (Unchanged (state self.old) (state self.new)) }
        ensures frame { GoesOn (state self.old) (state self.new) }
        ensures cause { HasCause Failed (state self.old).faults (state self.new).faults result }
        ensures counted { HidesNoFault (state self.old).faults (state self.new).faults result };
}
