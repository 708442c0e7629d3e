//! The policy that a payload spells, read where it stands, without memory.

ghost use Rattle.std.specs.Prelude.{◌≡◌, ◌≤◌, IfSome, List, Some, None};
ghost use Rattle.byte_grammar.specs.Reading.{Gives};
ghost use Rattle.tuple_bytes.specs.HeaderBytes.{small_at};
ghost use Rattle.tuple_bytes.specs.Items.{item_by, item_of};
ghost use Rattle.digest_model.specs.Layout.{Policy};
ghost use Rattle.policy_eras.specs.Policy.{as_item, with_payload};

use crate::era::Era;
use byte_grammar::{byte_of, u32_of};
use tuple_bytes::{MAX_ALGORITHMS, MAX_EXPONENT};

/// One byte, up to the limit.
#[tactic(auto, unfolding(tuple_bytes::specs::HeaderBytes::small_at, byte_grammar::specs::Reading::checked))]
fn small_of(limit: u8, bytes: &[u8]) -> Option<(u8, &[u8])>
    ensures value { Gives (λ x. (x.0, x.1.now)) result (small_at limit bytes.now) }
    ensures small { IfSome result (λ x. x.0 ≤ limit) }
{
    let (number, rest) = byte_of(bytes)?;
    if number > limit {
        return None;
    }
    Some((number, rest))
}

/// The fields behind the tag of a policy: tile, granule, exponent, algorithms.
#[tactic(auto, unfolding(tuple_bytes::specs::Items::item_by, byte_grammar::specs::Reading::mapped, byte_grammar::specs::Reading::seq))]
fn fields_of(bytes: &[u8]) -> Option<(Era, &[u8])>
    ensures value { Gives (λ x. (as_item x.0, x.1.now)) result (item_by 3 bytes.now) }
    ensures small { IfSome result (λ x. x.0.k ≤ 10) }
{
    let (tile, rest) = u32_of(bytes)?;
    let (granule, rest) = u32_of(rest)?;
    let (k, rest) = small_of(MAX_EXPONENT, rest)?;
    let (algs, rest) = small_of(MAX_ALGORITHMS, rest)?;
    Some((
        Era {
            tile,
            granule,
            k,
            algs,
        },
        rest,
    ))
}

/// The policy that the payload spells; none where it spells another item, or no item.
pub(crate) fn policy_of(payload: &[u8]) -> Option<Era>
    ensures some { IfSome result (λ e. item_of payload.now ≡ Some (as_item e)) }
    ensures small { IfSome result (λ e. e.k ≤ 10) }
    ensures none { result ≡ None → (p : Policy) → with_payload p payload.now ≡ p }
{
    let (tag, rest) = byte_of(payload)?;
    if tag != 3 {
        return None;
    }
    let (era, rest) = fields_of(rest)?;
    if !rest.is_empty() {
        return None;
    }
    Some(era)
}
