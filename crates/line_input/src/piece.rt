//! A piece of input: what one read gave.

ghost use Rattle.std.specs.Prelude.{◌≤◌, length};
ghost use Rattle.line_input.specs.Limits.{piece_limit};

use crate::InputFail;
use outside_io::Source;
use std::alloc::Global;

/// What the last read gave, as far as it wasn't looked at.
#[derive(Drop)]
pub struct Piece {
    pub bytes: Vec<u8>,
    pub from: usize,
    pub end: usize,
    ghost ordered: { from ≤ end },
    ghost within: { end ≤ length bytes.items },
    ghost small: { end ≤ piece_limit },
}

impl Piece {
    ghost use Rattle.std.specs.Prelude.{◌≡◌, ◌<◌, [], IfOk, OnErr};
    ghost use Rattle.outside_words.specs.Faults.{HasCause, HidesNoFault};
    ghost use Rattle.outside_io.specs.Source.{Unchanged, GoesOn};
    ghost use Rattle.line_input.specs.declared.fail.InputFail.TheVariants.{ReadFault, InputLimit};
    ghost use Rattle.line_input.specs.Piece.{rest_of, IsNext};

    /// Nothing was read yet.
    pub fn new(alloc: Global) -> Piece
        ensures value { rest_of result ≡ [] }
    {
        Piece {
            bytes: Vec::new(alloc),
            from: 0,
            end: 0,
        }
    }

    /// The bytes that were not looked at.
    pub fn rest(&self) -> &[u8]
        ensures value { result.now ≡ rest_of self.now }
    {
        &self.bytes[self.from..self.end]
    }

    /// Reads the next piece, of at most so many bytes, and answers how many came: none where the
    /// input is at its end.
    pub fn refill<I: Source>(&mut self, input: &mut I, most: usize) -> Result<usize, InputFail>
        requires used { rest_of self.old ≡ [] }
        requires some { 0 < most }
        requires small { most ≤ piece_limit }
        ensures value { IfOk result (IsNext most self.new (I.state input.old) (I.state input.new)) }
        ensures kept { OnErr result (rest_of self.new ≡ []) }
        ensures same { OnErr result (Unchanged (I.state input.old) (I.state input.new)) }
        ensures no_limit { result ≡ Err InputLimit → ⊥ }
        ensures frame { GoesOn (I.state input.old) (I.state input.new) }
        ensures cause { HasCause ReadFault (I.state input.old).faults (I.state input.new).faults result }
        ensures counted { HidesNoFault (I.state input.old).faults (I.state input.new).faults result }
    {
        self.bytes.resize(most, 0)?;
        self.from = 0;
        self.end = 0;
        let count = input.read(&mut self.bytes)?;
        self.end = count;
        Ok(count)
    }
}
