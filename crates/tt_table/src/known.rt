//! What is known of pending operations at a key, so that they need not be gone over.

ghost use Rattle.std.specs.Prelude.{◌≡◌, ℕ, true, None, Option, List, drop, take};
ghost use Rattle.tuple_bytes.specs.declared.value.Value.{Value as AValue};
ghost use Rattle.history_model.specs.Glance.{after_glances};
ghost use Rattle.history_model.specs.Values.{key_of, same_key};
ghost use Rattle.tt_table.specs.Known.{IsKnown, NoneCreates, NoneOfKey, creates, is_of_key, seen_with, settles};

use history_model::{Glance, glance_over, is_fitting_row, may_be_columns};
use std::slice;
use tuple_bytes::{Column, Op, Ops, Value, Word};

/// Two places among pending operations, for a key of a table.
#[derive(Clone, Copy, Debug, Drop)]
pub struct Known {
    /// No operation before this place creates the table.
    pub creates_from: usize,
    /// None from this place on is of the key.
    pub changes_to: usize,
}

impl Known {
    /// Of these operations nothing is known.
    pub fn nothing(pending: &Ops) -> Known
        ensures value { (name : List ℕ) (key : AValue) → IsKnown name key result pending.now }
    {
        Known {
            creates_from: 0,
            changes_to: pending.as_slice().len(),
        }
    }

    /// None of them is of a key that is new, and of another nothing is known.
    pub fn of_new(pending: &Ops, is_new: bool) -> Known
        ensures value { (name : List ℕ) (key : AValue) → (is_new ≡ true → NoneOfKey name key pending.now) → IsKnown name key result pending.now }
    {
        if is_new {
            Known {
                creates_from: 0,
                changes_to: 0,
            }
        } else {
            Known::nothing(pending)
        }
    }
}

// Whether a row has the key. One without a value counts as one of the key Null.
fn has_key(row: &[Value], key: &Value) -> bool
    ensures value { result ≡ same_key (key_of row.now) key.now }
{
    match row {
        [first, ..] => first.cmp(key).is_eq(),
        [] => Value::Null.cmp(key).is_eq(),
    }
}

fn is_of_key(op: &Op, name: &Word, key: &Value) -> bool
    ensures value { result ≡ is_of_key name.now key.now op.now }
{
    match op {
        Op::Create { .. } => false,
        Op::Put { table, row } => table.cmp(name).is_eq() && has_key(row.as_slice(), key),
        Op::Remove {
            table,
            key: removed,
        } => table.cmp(name).is_eq() && removed.cmp(key).is_eq(),
    }
}

// Whether an operation says which row the key has, whatever it had before.
fn settles(columns: &[Column], op: &Op, name: &Word, key: &Value) -> bool
    ensures value { result ≡ settles columns.now name.now key.now op.now }
{
    is_of_key(op, name, key)
        && match op {
            Op::Put { row, .. } => is_fitting_row(columns, row.as_slice()),
            _ => true,
        }
}

// How many of the operations there are up to the last one of the key, if none from a place on is of it.
fn up_to_last(pending: &[Op], changes_to: usize, name: &Word, key: &Value) -> usize
    requires changes { NoneOfKey name.now key.now (drop changes_to pending.now) }
    ensures value { NoneOfKey name.now key.now (drop result pending.now) }
{
    let mut last = if changes_to < pending.len() {
        changes_to
    } else {
        pending.len()
    };
    while last > 0 && !is_of_key(&pending[last - 1], name, key) {
        last -= 1;
    }
    last
}

/// Those of the operations that count at a key of a table that is there: the last one of the key, if it settles.
pub(crate) fn counting<'a>(
    columns: &[Column],
    pending: &'a [Op],
    changes_to: usize,
    name: &Word,
    key: &Value,
) -> &'a [Op]
    requires changes { NoneOfKey name.now key.now (drop changes_to pending.now) }
    ensures value { (row : Option (List AValue)) → after_glances name.now key.now result.now (seen_with columns.now row)
        ≡ after_glances name.now key.now pending.now (seen_with columns.now row) }
{
    let last = up_to_last(pending, changes_to, name, key);
    if last == 0 {
        return &[];
    }
    match pending.get(last - 1) {
        Some(op) if settles(columns, op, name, key) => slice::from_ref(op),
        _ => pending,
    }
}

fn creates(op: &Op, name: &Word) -> bool
    ensures value { result ≡ creates name.now op.now }
{
    match op {
        Op::Create { table, .. } => table.cmp(name).is_eq(),
        _ => false,
    }
}

// The place of the first operation that creates the table, if none before a place does.
fn first_create(pending: &[Op], creates_from: usize, name: &Word) -> usize
    requires created { NoneCreates name.now (take creates_from pending.now) }
    ensures value { NoneCreates name.now (take result pending.now) }
{
    let mut first = creates_from;
    while first < pending.len() && !creates(&pending[first], name) {
        first += 1;
    }
    first
}

/// What is seen of a table that is not there, with operations over it that may create it.
pub(crate) fn glance_created<'a>(
    pending: &'a [Op],
    known: &Known,
    name: &Word,
    key: &Value,
) -> Option<Glance<'a>>
    requires known { IsKnown name.now key.now known.now pending.now }
    ensures value { result ≡ after_glances name.now key.now pending.now None }
{
    let first = first_create(pending, known.creates_from, name);
    match pending.get(first) {
        Some(Op::Create { table, columns })
            if table.cmp(name).is_eq() && may_be_columns(columns.as_slice()) => {
            let created = first + 1;
            let changes_to = known.changes_to.saturating_sub(created);
            let (_, later) = pending.split_at(created);
            let counting = counting(columns.as_slice(), later, changes_to, name, key);
            glance_over(Some(Glance::new(columns, None)), counting, name, key)
        }
        Some(_) => glance_over(None, pending, name, key),
        None => None,
    }
}
