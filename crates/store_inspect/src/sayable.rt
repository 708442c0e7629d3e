//! What a statement may spell.

ghost use Rattle.std.specs.Prelude.{◌≡◌};
ghost use Rattle.std.specs.List.{list_all};
ghost use Rattle.stmt_text.specs.Values.{is_text, is_text_byte};
ghost use Rattle.store_inspect.specs.Items.{is_sayable, is_sayable_op};

use tuple_bytes::{Op, Text, Value};

fn is_text_byte(byte: u8) -> bool
    ensures value { result ≡ is_text_byte byte }
{
    byte >= 32 && byte != 127
}

fn are_text_bytes(bytes: &[u8]) -> bool
    ensures value { result ≡ list_all is_text_byte bytes.now }
{
    bytes.iter().all(|byte| is_text_byte(*byte))
}

/// Whether a text has no control character; it is UTF-8.
fn is_text(text: &Text) -> bool
    ensures value { result ≡ is_text text.now }
{
    are_text_bytes(text.as_slice())
}

fn is_sayable(value: &Value) -> bool
    ensures value { result ≡ is_sayable value.now }
{
    match value {
        Value::Text(text) => is_text(text),
        Value::Null | Value::Int(_) | Value::Bytes(_) | Value::Bool(_) => true,
    }
}

fn are_sayable(values: &[Value]) -> bool
    ensures value { result ≡ list_all is_sayable values.now }
{
    values.iter().all(|value| is_sayable(value))
}

/// Whether a statement may spell the values of the operation.
pub(crate) fn is_sayable_op(op: &Op) -> bool
    ensures value { result ≡ is_sayable_op op.now }
{
    match op {
        Op::Create { .. } => true,
        Op::Put { row, .. } => are_sayable(row.as_slice()),
        Op::Remove { key, .. } => is_sayable(key),
    }
}
