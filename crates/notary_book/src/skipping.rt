//! Going over a payload without memory: each function gives the bytes behind what it went over.

ghost use Rattle.std.specs.Prelude.{◌≡◌, is_some};
ghost use Rattle.byte_grammar.specs.Reading.{Gives, rest_of, many};
ghost use Rattle.notary_book.specs.Calls.{seal_at, seals_at, outcome_at, call_at, call_of};

use crate::limits::MAX_SEALS_OF_BATCH;
use crate::reading::{outcome_of, seal_of};
use byte_grammar::{byte_of, is_count, u16_of, u32_of, u64_of};

fn skip_seal(bytes: &[u8]) -> Option<&[u8]>
    ensures { Gives (λ r. r.now) result (rest_of (seal_at bytes.now)) }
{
    let (_, rest) = seal_of(bytes)?;
    Some(rest)
}

fn skip_each_seal(count: u16, bytes: &[u8]) -> Option<&[u8]>
    ensures { Gives (λ r. r.now) result (rest_of (many seal_at count bytes.now)) }
{
    let mut rest = bytes;
    for _ in 0..count {
        rest = skip_seal(rest)?;
    }
    Some(rest)
}

#[tactic(auto, unfolding(crate::specs::Calls::seals_at, byte_grammar::specs::Reading::counted))]
fn skip_seals(bytes: &[u8]) -> Option<&[u8]>
    ensures { Gives (λ r. r.now) result (rest_of (seals_at bytes.now)) }
{
    let (count, rest) = u16_of(bytes)?;
    if !is_count(MAX_SEALS_OF_BATCH, count) {
        return None;
    }
    skip_each_seal(count, rest)
}

fn skip_outcome(bytes: &[u8]) -> Option<&[u8]>
    ensures { Gives (λ r. r.now) result (rest_of (outcome_at bytes.now)) }
{
    let (_, rest) = outcome_of(bytes)?;
    Some(rest)
}

#[tactic(auto, unfolding(crate::specs::Calls::call_at, crate::specs::Calls::call_by, byte_grammar::specs::Reading::tagged), using(crate::proofs::Skips::call_by_other, byte_grammar::proofs::Skips::behind))]
fn skip_call(bytes: &[u8]) -> Option<&[u8]>
    ensures { Gives (λ r. r.now) result (rest_of (call_at bytes.now)) }
{
    let (tag, rest) = byte_of(bytes)?;
    match tag {
        1 => {
            let (_, rest) = u64_of(rest)?;
            let (_, rest) = u32_of(rest)?;
            let (_, rest) = u64_of(rest)?;
            skip_seals(rest)
        }
        2 => {
            let (_, rest) = u64_of(rest)?;
            let (_, rest) = u64_of(rest)?;
            let (_, rest) = u32_of(rest)?;
            skip_outcome(rest)
        }
        _ => None,
    }
}

/// Whether the bytes spell a call, all of them. Takes no memory.
#[tactic(auto, using(crate::proofs::CallLaws::call_of_rest))]
pub(crate) fn is_call(bytes: &[u8]) -> bool
    ensures value { result ≡ is_some (call_of bytes.now) }
{
    match skip_call(bytes) {
        Some(rest) => rest.is_empty(),
        None => false,
    }
}
