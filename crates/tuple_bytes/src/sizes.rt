//! How many bytes an operation and a transaction are spelled by, counted without spelling them.

ghost use Rattle.std.specs.Prelude.{◌≡◌, ◌+◌, ◌<◌, ◌≤◌, ◌^◌, ℕ, length, SomeIff};
ghost use Rattle.tuple_bytes.specs.Limits.{max_payload};
ghost use Rattle.tuple_bytes.specs.Spelling.{spell_word, spell_value, spell_column, spell_columns, spell_row, spell_op, spell_txn};
ghost use Rattle.tuple_bytes.specs.Writing.{txn_by};

use crate::limits::MAX_PAYLOAD;
use crate::op::{Column, Op, Ops};
use crate::value::Value;
use crate::word::Word;

/// The bytes of a transaction in front of its operations: its tag, its number, its moment, and their count.
pub const TXN_HEAD: usize = 15;

fn word_size(word: &Word) -> usize
    ensures value { result ≡ length (spell_word word.now) }
    ensures short { result < 2 ^ 8 }
{
    1 + word.as_slice().len()
}

fn column_size(column: &Column) -> usize
    ensures value { result ≡ length (spell_column column.now) }
    ensures short { result < 2 ^ 9 }
{
    word_size(&column.name) + 1
}

fn value_size(value: &Value) -> usize
    ensures value { result ≡ length (spell_value value.now) }
    ensures short { result < 2 ^ 63 + 3 }
{
    match value {
        Value::Null => 1,
        Value::Int(_) => 9,
        Value::Text(text) => 3 + text.as_slice().len(),
        Value::Bytes(bytes) => 3 + bytes.as_slice().len(),
        Value::Bool(_) => 2,
    }
}

#[tactic(auto, using(crate::proofs::Counting::sized_next, crate::proofs::Counting::sized_all))]
fn columns_size(columns: &[Column]) -> Option<usize>
    ensures value { SomeIff result (length (spell_columns columns.now) ≤ max_payload) (length (spell_columns columns.now)) }
{
    let mut size = 1;
    for column in columns {
        size += column_size(column);
        if size > MAX_PAYLOAD {
            return None;
        }
    }
    Some(size)
}

#[tactic(auto, using(crate::proofs::Counting::sized_next, crate::proofs::Counting::sized_all))]
fn row_size(row: &[Value]) -> Option<usize>
    ensures value { SomeIff result (length (spell_row row.now) ≤ max_payload) (length (spell_row row.now)) }
{
    let mut size = 1;
    for value in row {
        size += value_size(value);
        if size > MAX_PAYLOAD {
            return None;
        }
    }
    Some(size)
}

/// The bytes of an operation's spelling, where they are at most `MAX_PAYLOAD`.
pub fn op_size(op: &Op) -> Option<usize>
    ensures value { SomeIff result (length (spell_op op.now) ≤ max_payload) (length (spell_op op.now)) }
{
    let (table, rest) = match op {
        Op::Create { table, columns } => (table, columns_size(columns.as_slice())?),
        Op::Put { table, row } => (table, row_size(row.as_slice())?),
        Op::Remove { table, key } => (table, value_size(key)),
    };
    if rest > MAX_PAYLOAD {
        return None;
    }
    let size = 1 + word_size(table) + rest;
    if size > MAX_PAYLOAD {
        return None;
    }
    Some(size)
}

/// The bytes of a transaction of these operations, whatever its number and its moment, where they are at most
/// `MAX_PAYLOAD`.
#[tactic(auto, using(crate::proofs::Counting::sized_next, crate::proofs::Counting::sized_all))]
pub fn txn_size(ops: &Ops) -> Option<usize>
    ensures value { (number moment : ℕ) → SomeIff result
        (length (spell_txn (txn_by number moment ops.now)) ≤ max_payload)
        (length (spell_txn (txn_by number moment ops.now))) }
{
    let ops = ops.as_slice();
    let mut size = TXN_HEAD;
    for op in ops {
        size += op_size(op)?;
        if size > MAX_PAYLOAD {
            return None;
        }
    }
    Some(size)
}
