//! The lists of an entry as they are read: each function gives what was read and the bytes after it.

ghost use Rattle.std.specs.Prelude.{◌≡◌, IfOk};
ghost use Rattle.std.specs.Int.{w32};
ghost use Rattle.byte_grammar.specs.Reading.{Gives, many, number, sized};
ghost use Rattle.evidence_file.specs.Reading.{spelled_moment, txn_at, list_at, second_by, second_at};

use byte_grammar::{byte_of, part_of, u32_of};
use history_model::moment_of;
use std::alloc::{AllocError, Global};
use tuple_bytes::{Blob, MAX_PAYLOAD, Payloads, is_item};

/// The moment of the transaction that the bytes spell, or none where they spell none.
pub(crate) fn spelled_moment(bytes: &[u8]) -> Option<u64>
    ensures value { result ≡ spelled_moment bytes.now }
{
    if !is_item(bytes) {
        return None;
    }
    moment_of(bytes)
}

/// A length of four bytes, and that many bytes.
#[tactic(auto, unfolding(byte_grammar::specs::Reading::sized))]
fn long_of(bytes: &[u8]) -> Option<(&[u8], &[u8])>
    ensures { Gives (λ x. (x.0.now, x.1.now)) result (sized (number w32) bytes.now) }
{
    let (len, rest) = u32_of(bytes)?;
    part_of(len as usize, rest)
}

#[tactic(auto, unfolding(crate::specs::Reading::txn_at, byte_grammar::specs::Reading::checked))]
fn txn_of(alloc: Global, bytes: &[u8]) -> Result<Option<(Blob, &[u8])>, AllocError>
    ensures { IfOk result (λ r. Gives (λ x. (x.0, x.1.now)) r (txn_at bytes.now)) }
{
    let Some((spelled, rest)) = long_of(bytes) else {
        return Ok(None);
    };
    if spelled.len() > MAX_PAYLOAD {
        return Ok(None);
    }
    match spelled_moment(spelled) {
        Some(_) => Ok(Some((Blob::from_vec(spelled.to_vec(alloc)?), rest))),
        None => Ok(None),
    }
}

fn each_txn_of(
    alloc: Global,
    count: u32,
    bytes: &[u8],
) -> Result<Option<(Payloads, &[u8])>, AllocError>
    ensures { IfOk result (λ r. Gives (λ x. (x.0, x.1.now)) r (many txn_at count bytes.now)) }
{
    let mut all = Payloads::new(alloc);
    let mut rest = bytes;
    for _ in 0..count {
        match txn_of(alloc, rest)? {
            Some((txn, after)) => {
                all.push(txn)?;
                rest = after;
            }
            None => return Ok(None),
        }
    }
    Ok(Some((all, rest)))
}

#[tactic(auto, unfolding(crate::specs::Reading::list_at, byte_grammar::specs::Reading::counted))]
pub(crate) fn list_of(alloc: Global, bytes: &[u8]) -> Result<Option<(Payloads, &[u8])>, AllocError>
    ensures { IfOk result (λ r. Gives (λ x. (x.0, x.1.now)) r (list_at bytes.now)) }
{
    match u32_of(bytes) {
        Some((count, rest)) => each_txn_of(alloc, count, rest),
        None => Ok(None),
    }
}

#[tactic(auto, unfolding(crate::specs::Reading::second_by, byte_grammar::specs::Reading::mapped))]
fn some_list_of(
    alloc: Global,
    bytes: &[u8],
) -> Result<Option<(Option<Payloads>, &[u8])>, AllocError>
    ensures { IfOk result (λ r. Gives (λ x. (x.0, x.1.now)) r (second_by 1 bytes.now)) }
{
    match list_of(alloc, bytes)? {
        Some((list, rest)) => Ok(Some((Some(list), rest))),
        None => Ok(None),
    }
}

#[tactic(auto, unfolding(crate::specs::Reading::second_at, crate::specs::Reading::second_by, byte_grammar::specs::Reading::tagged, byte_grammar::specs::Reading::mapped), using(crate::proofs::Skips::second_by_other))]
pub(crate) fn second_of(
    alloc: Global,
    bytes: &[u8],
) -> Result<Option<(Option<Payloads>, &[u8])>, AllocError>
    ensures { IfOk result (λ r. Gives (λ x. (x.0, x.1.now)) r (second_at bytes.now)) }
{
    let Some((tag, rest)) = byte_of(bytes) else {
        return Ok(None);
    };
    match tag {
        0 => Ok(Some((None, rest))),
        1 => some_list_of(alloc, rest),
        _ => Ok(None),
    }
}
