//! Pieces that lend their rows from the tables.

ghost use Rattle.std.specs.Prelude.{◌≡◌, ◌++◌, IfOk, OnOk, length};
ghost use Rattle.sequenced_query.specs.Merging.{same_row};

use crate::piece::{Piece, Pieces};
use std::alloc::{AllocError, Global};
use std::marker::Model;
use tuple_bytes::{Row, Value};

/// A row of one table, or a left row with a right row behind it.
#[derive(Debug, Drop)]
pub(crate) struct LentRow<'a> {
    pub(crate) left: &'a [Value],
    pub(crate) right: &'a [Value],
}

impl<'a> Model for LentRow<'a> {
    ghost use Rattle.std.specs.Prelude.{List, ◌++◌};
    ghost use Rattle.tuple_bytes.specs.declared.value.Value.{Value as AValue};

    ghost Value = { List AValue };

    ghost view = { λ r. r.left.now ++ r.right.now };
}

// Whether two rows are the same, value by value.
fn are_same(a: &[Value], b: &[Value]) -> bool
    ensures value { result ≡ same_row a.now b.now }
{
    a.cmp(b).is_eq()
}

// Whether a row is these two, one behind the other.
fn is_row_of(row: &[Value], left: &[Value], right: &[Value]) -> bool
    ensures value { result ≡ same_row row.now (left.now ++ right.now) }
{
    if row.len() < left.len() {
        return false;
    }
    let (first, rest) = row.split_at(left.len());
    are_same(first, left) && are_same(rest, right)
}

fn push_values(alloc: Global, values: &mut Vec<Value>, more: &[Value]) -> Result<(), AllocError>
    ensures value { OnOk result (values.new.items ≡ values.old.items ++ more.now) }
{
    for value in more {
        values.push(value.copy(alloc)?)?;
    }
    Ok(())
}

impl<'a> LentRow<'a> {
    /// A row of one table.
    pub(crate) fn of(row: &'a [Value]) -> LentRow<'a>
        ensures value { result ≡ row.now }
    {
        LentRow {
            left: row,
            right: &[],
        }
    }

    /// Whether two rows are the same, value by value.
    pub(crate) fn is_same(&self, other: &LentRow<'a>) -> bool
        ensures value { result ≡ same_row self.now other.now }
    {
        if other.left.len() <= self.left.len() {
            let (first, rest) = self.left.split_at(other.left.len());
            are_same(first, other.left) && is_row_of(other.right, rest, self.right)
        } else {
            let (first, rest) = other.left.split_at(self.left.len());
            are_same(self.left, first) && is_row_of(self.right, rest, other.right)
        }
    }

    /// An equal row.
    pub(crate) fn copy(&self, alloc: Global) -> Result<Row, AllocError>
        ensures value { IfOk result (λ copied. copied ≡ self.now) }
    {
        let (left, right) = (self.left, self.right);
        let mut values = Vec::with_capacity(alloc, left.len() + right.len())?;
        push_values(alloc, &mut values, left)?;
        push_values(alloc, &mut values, right)?;
        Ok(Row::from_vec(values))
    }
}

/// A piece that lends its row.
#[derive(Debug, Drop)]
pub(crate) struct LentPiece<'a> {
    pub(crate) start: u64,
    pub(crate) stop: u64,
    pub(crate) row: LentRow<'a>,
}

impl<'a> Model for LentPiece<'a> {
    ghost use Rattle.sequenced_query.specs.declared.piece.Piece.{Piece as APiece};

    ghost Value = { APiece };

    ghost view = { λ p. record { start = p.start; stop = p.stop; row = p.row } };
}

impl<'a> LentPiece<'a> {
    // An equal piece.
    fn copy(&self, alloc: Global) -> Result<Piece, AllocError>
        ensures value { IfOk result (λ copied. copied ≡ self.now) }
    {
        Ok(Piece {
            start: self.start,
            stop: self.stop,
            row: self.row.copy(alloc)?,
        })
    }
}

/// The pieces of an answer, in the order of the left key, then of the right key, then of their starts. Their rows are
/// those of the tables, and none is copied.
#[derive(Debug, Drop)]
pub struct LentPieces<'a> {
    pieces: Vec<LentPiece<'a>>,
}

impl<'a> Model for LentPieces<'a> {
    ghost use Rattle.std.specs.Prelude.{List};
    ghost use Rattle.sequenced_query.specs.declared.piece.Piece.{Piece as APiece};

    ghost Value = { List APiece };

    ghost view = { λ p. p.pieces.items };
}

impl<'a> LentPieces<'a> {
    /// These pieces, without a copy.
    pub(crate) fn from_vec(pieces: Vec<LentPiece<'a>>) -> LentPieces<'a>
        ensures value { result ≡ pieces.entry.items }
    {
        LentPieces { pieces }
    }

    /// How many there are.
    pub fn len(&self) -> usize
        ensures value { result ≡ length self.now }
    {
        self.pieces.len()
    }

    /// Equal pieces, which have rows of their own.
    pub fn copy(&self, alloc: Global) -> Result<Pieces, AllocError>
        ensures value { IfOk result (λ copied. copied ≡ self.now) }
    {
        let mut copied = Vec::with_capacity(alloc, self.pieces.len())?;
        for piece in &self.pieces {
            copied.push(piece.copy(alloc)?)?;
        }
        Ok(Pieces::from_vec(copied))
    }
}
