//! The reader of lines.

ghost use Rattle.std.specs.Prelude.{◌≡◌, ◌<◌, [], false, Ok, OnErr, IfOk, IsTrue, IsFalse, IsErrOf};
ghost use Rattle.outside_words.specs.Faults.{HasCause, HidesNoFault};
ghost use Rattle.outside_io.specs.Source.{GoesOn};
ghost use Rattle.line_input.specs.declared.fail.InputFail.TheVariants.{ReadFault, InputLimit};
ghost use Rattle.line_input.specs.Limits.{input_limit};
ghost use Rattle.line_input.specs.Lines.{IsFeedless};
ghost use Rattle.line_input.specs.Gathering.{reading_of};
ghost use Rattle.line_input.specs.Reader.{Tells, Takes, IsAtLimit, IsAtOnce, GivesMore, SeesEnd, IsPast};

use crate::InputFail;
use crate::gathering::Gathering;
use outside_io::Source;
use std::alloc::Global;
use std::marker::Model;

/// A reader of the lines of an input.
#[derive(Drop)]
pub struct LineReader {
    gathering: Gathering,
    is_given: bool,
    ghost past: { IsTrue gathering.is_ended → IsPast (reading_of is_given gathering) },
}

impl Model for LineReader {
    ghost use Rattle.line_input.specs.Reader.{Reading};
    ghost use Rattle.line_input.specs.Gathering.{reading_of};

    ghost Value = { Reading };

    ghost view = { λ r. reading_of r.is_given r.gathering };
}

impl LineReader {
    /// A reader that has taken nothing yet. It takes no memory.
    pub fn new(alloc: Global) -> Self
        ensures fresh { result ≡ record { line = []; pending = []; taken = 0; is_ended = false } }
    {
        LineReader {
            gathering: Gathering::new(alloc),
            is_given: false,
        }
    }

    /// The line that was given out last: nothing before the first, at the end and after a refusal.
    pub fn line(&self) -> &[u8]
        ensures value { result.now ≡ self.now.line }
    {
        if self.is_given {
            &self.gathering.line
        } else {
            &[]
        }
    }

    /// Reads the next line of an input, and answers whether there is one. It can be called again
    /// after a refusal, and goes on where it stood. Once it saw the end of the input it reads no more.
    pub fn read_line<I: Source>(&mut self, input: &mut I) -> Result<bool, InputFail>
        ensures told { Tells result self.old self.new (I.state input.old) (I.state input.new) }
        ensures feedless { IsFeedless self.new.line }
        ensures kept { OnErr result (self.new.line ≡ []) }
        ensures taken { Takes self.old self.new (I.state input.old) (I.state input.new) }
        ensures at_once { IsAtOnce result self.old self.new }
        ensures more { GivesMore result self.old self.new }
        ensures end { IfOk result (λ found. IsFalse found → self.new.taken < input_limit) }
        ensures sees { SeesEnd result self.old self.new }
        ensures at_end { IsTrue self.old.is_ended → (result ≡ Ok false) × (input.new ≡ input.old) }
        ensures input_limit { IsErrOf result InputLimit → IsAtLimit self.new }
        ensures read_fault { IsErrOf result ReadFault → IsFeedless self.new.pending }
        ensures frame { GoesOn (I.state input.old) (I.state input.new) }
        ensures cause { HasCause ReadFault (I.state input.old).faults (I.state input.new).faults result }
        ensures counted { HidesNoFault (I.state input.old).faults (I.state input.new).faults result }
    {
        if self.is_given {
            self.gathering.line.clear();
            self.is_given = false;
        }
        if self.gathering.is_ended {
            return Ok(false);
        }
        let found = self.gathering.advance(input)?;
        self.is_given = found;
        Ok(found)
    }
}
