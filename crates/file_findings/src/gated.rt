//! Records in memory, one by one.

ghost use Rattle.std.specs.Prelude.{◌≡◌, ◌∷◌, IfSome};
ghost use Rattle.byte_grammar.specs.Gated.{open_gate, payload_at};
ghost use Rattle.byte_grammar.specs.Reading.{Gives};
ghost use Rattle.txn_journal.specs.Front.{framed_length, IsAtFront};

use byte_grammar::{byte_of, u32_of};
use txn_journal::Shape;

/// The value of an open gate.
pub(crate) const OPEN: u8 = 0xA7;

/// The length of the payload of a record that stands whole and in its limits.
fn size_after<S: Shape>(place: u64, after: &[u8]) -> Option<usize>
    ensures value { result ≡ framed_length S.shape place (open_gate ∷ after.now) }
{
    let (length, rest) = u32_of(after)?;
    let size = length as usize;
    let next = place.saturating_add(5 + u64::from(length));
    if length > S::PAYLOAD || rest.len() <= size || next >= S::WHOLE {
        return None;
    }
    Some(size)
}

/// The payload of the valid record whose open gate stands at this place, before these bytes.
pub fn payload_after<S: Shape>(place: u64, after: &[u8]) -> Option<&[u8]>
    ensures value { Gives (λ payload. payload.now) result (payload_at S.shape place (open_gate ∷ after.now)) }
    ensures fits { IfSome result (λ payload. IsAtFront S.shape place (open_gate ∷ after.now) payload.now) }
{
    let size = size_after::<S>(place, after)?;
    let payload = &after[4..4 + size];
    if S::accepts(payload) {
        Some(payload)
    } else {
        None
    }
}

/// The payload of the valid record at the front of the bytes, which stand at this place.
pub fn payload_at<S: Shape>(place: u64, bytes: &[u8]) -> Option<&[u8]>
    ensures value { Gives (λ payload. payload.now) result (payload_at S.shape place bytes.now) }
    ensures fits { IfSome result (λ payload. IsAtFront S.shape place bytes.now payload.now) }
{
    let (gate, after) = byte_of(bytes)?;
    if gate != OPEN {
        return None;
    }
    payload_after::<S>(place, after)
}
