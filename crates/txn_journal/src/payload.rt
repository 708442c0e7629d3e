//! The record at the front of some bytes.

ghost use Rattle.std.specs.Prelude.{◌≡◌, IfSome};
ghost use Rattle.byte_grammar.specs.Reading.{Gives};
ghost use Rattle.byte_grammar.specs.Gated.{payload_at};
ghost use Rattle.txn_journal.specs.Reading.{limited};
ghost use Rattle.txn_journal.specs.Front.{gated_length, framed_length, IsAtFront};

use crate::Shape;
use crate::gate::OPEN;

/// The length that stands behind an open gate.
fn gated_length(bytes: &[u8]) -> Option<u32>
    ensures value { result ≡ gated_length bytes.now }
{
    match bytes {
        [gate, a, b, c, d, ..] if *gate == OPEN => Some(u32::from_be_bytes([*a, *b, *c, *d])),
        _ => None,
    }
}

/// The same, where the record stands whole and in its limits.
fn framed_length<S: Shape>(place: u64, limit: u64, bytes: &[u8]) -> Option<usize>
    ensures value { result ≡ framed_length (limited S.shape limit) place bytes.now }
{
    let size = gated_length(bytes)?;
    let next = place.saturating_add(5 + u64::from(size));
    if size > S::PAYLOAD || next >= limit {
        return None;
    }
    let size = size as usize;
    if bytes.len() <= 5 + size {
        return None;
    }
    Some(size)
}

/// The payload of the valid record at the front of the bytes, which stand at this place of their
/// file. No gate reaches the limit.
pub fn payload_of<S: Shape>(place: u64, limit: u64, bytes: &[u8]) -> Option<&[u8]>
    ensures value { Gives (λ payload. payload.now) result
        (payload_at (limited S.shape limit) place bytes.now) }
    ensures fits { IfSome result
        (λ payload. IsAtFront (limited S.shape limit) place bytes.now payload.now) }
{
    let size = framed_length::<S>(place, limit, bytes)?;
    let payload = &bytes[5..5 + size];
    if S::accepts(payload) {
        Some(payload)
    } else {
        None
    }
}
