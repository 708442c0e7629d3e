//! A line that is gathered from pieces of input.

ghost use Rattle.std.specs.Prelude.{◌≤◌};
ghost use Rattle.line_input.specs.Limits.{input_limit};
ghost use Rattle.line_input.specs.Lines.{IsFeedless};

use crate::InputFail;
use crate::limits::{INPUT_LIMIT, PIECE_LIMIT};
use crate::piece::Piece;
use memchr::memchr;
use outside_io::Source;
use std::alloc::Global;

/// The line that is being read, the piece that it goes on in, how many bytes were taken in all, and
/// whether the end of the input was seen.
#[derive(Drop)]
pub struct Gathering {
    pub line: Vec<u8>,
    pub piece: Piece,
    pub taken: usize,
    pub is_ended: bool,
    ghost feedless: { IsFeedless line.items },
    ghost limited: { taken ≤ input_limit },
}

impl Gathering {
    ghost use Rattle.std.specs.Prelude.{◌≡◌, ◌<◌, [], false, IfOk, IfErr, OnErr, IsErrOf, IsTrue, IsFalse};
    ghost use Rattle.outside_words.specs.Faults.{HasCause, HidesNoFault};
    ghost use Rattle.outside_io.specs.Source.{GoesOn};
    ghost use Rattle.line_input.specs.declared.fail.InputFail.TheVariants.{ReadFault, InputLimit};
    ghost use Rattle.line_input.specs.Reader.{IsAtLimit, IsPast};
    ghost use Rattle.line_input.specs.Gathering.{reading_of, is_found, Moves, HasNoEnd, Gathers, IsUntouched, TakesPiece, TakesNothing};
    ghost use Rattle.line_input.specs.Piece.{rest_of};

    /// Nothing was taken yet.
    pub fn new(alloc: Global) -> Gathering
        ensures fresh { reading_of false result ≡ record { line = []; pending = []; taken = 0; is_ended = false } }
    {
        Gathering {
            line: Vec::new(alloc),
            piece: Piece::new(alloc),
            taken: 0,
            is_ended: false,
        }
    }

    /// Gathers the next line, and answers whether there is one.
    pub fn advance<I: Source>(&mut self, input: &mut I) -> Result<bool, InputFail>
        requires before_end { self.old.is_ended ≡ false }
        ensures moves { Moves result self.old self.new (I.state input.old) (I.state input.new) }
        ensures end { IfOk result (λ found. IsFalse found → self.new.taken < input_limit) }
        ensures past { IsTrue self.new.is_ended → IsPast (reading_of (is_found result) self.new) }
        ensures input_limit { IsErrOf result InputLimit → IsAtLimit (reading_of false self.new) }
        ensures read_fault { IsErrOf result ReadFault → HasNoEnd self.new }
        ensures frame { GoesOn (I.state input.old) (I.state input.new) }
        ensures cause { HasCause ReadFault (I.state input.old).faults (I.state input.new).faults result }
        ensures counted { HidesNoFault (I.state input.old).faults (I.state input.new).faults result }
    {
        while !self.gather()? {
            if !self.take_piece(input)? {
                return Ok(!self.line.is_empty());
            }
        }
        Ok(true)
    }

    /// Moves what the piece has before its first feed into the line, or all of it, and answers
    /// whether there is a feed.
    fn gather(&mut self) -> Result<bool, InputFail>
        ensures value { IfOk result (Gathers self.old self.new) }
        ensures no_memory { IfErr result (IsUntouched self.old self.new) }
        ensures taken { self.new.taken ≡ self.old.taken }
        ensures is_ended { self.new.is_ended ≡ self.old.is_ended }
    {
        let rest = self.piece.rest();
        match memchr(b'\n', rest) {
            Some(at) => {
                self.line.extend_from_slice(&rest[..at])?;
                self.piece.from += at + 1;
                Ok(true)
            }
            None => {
                self.line.extend_from_slice(rest)?;
                self.piece.from = self.piece.end;
                Ok(false)
            }
        }
    }

    /// Takes the next piece, and answers whether there is one.
    fn take_piece<I: Source>(&mut self, input: &mut I) -> Result<bool, InputFail>
        requires { rest_of self.old.piece ≡ [] }
        ensures line { self.new.line ≡ self.old.line }
        ensures value { IfOk result (TakesPiece self.old self.new (I.state input.old) (I.state input.new)) }
        ensures kept { OnErr result (TakesNothing self.old self.new (I.state input.old) (I.state input.new)) }
        ensures input_limit { IsErrOf result InputLimit → self.new.taken ≡ input_limit }
        ensures frame { GoesOn (I.state input.old) (I.state input.new) }
        ensures cause { HasCause ReadFault (I.state input.old).faults (I.state input.new).faults result }
        ensures counted { HidesNoFault (I.state input.old).faults (I.state input.new).faults result }
    {
        if self.taken == INPUT_LIMIT {
            return Err(InputFail::InputLimit);
        }
        let most = PIECE_LIMIT.min(INPUT_LIMIT - self.taken);
        let count = self.piece.refill(input, most)?;
        self.taken += count;
        self.is_ended = count == 0;
        Ok(count > 0)
    }
}
