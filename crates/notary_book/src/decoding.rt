//! Reading payloads into memory.

ghost use Rattle.std.specs.Prelude.{IfOk, IfSome};
ghost use Rattle.byte_grammar.specs.Reading.{Gives, many};
ghost use Rattle.notary_book.specs.Calls.{seal_at, seals_at, call_by, call_at, call_of};
ghost use Rattle.notary_book.specs.Entries.{call_in};
ghost use Rattle.notary_book.specs.Spelling.{FitsCall};

use crate::entry::Entry;
use crate::limits::MAX_SEALS_OF_BATCH;
use crate::reading::{outcome_of, seal_of};
use byte_grammar::{byte_of, is_count, u16_of, u32_of, u64_of};
use notary_link::{Mark, Seals};
use std::alloc::{AllocError, Global};

fn each_seal_of(
    alloc: Global,
    count: u16,
    bytes: &[u8],
) -> Result<Option<(Seals, &[u8])>, AllocError>
    ensures { IfOk result (λ r. Gives (λ x. (x.0, x.1.now)) r (many seal_at count bytes.now)) }
{
    let mut all = Seals::new(alloc);
    let mut rest = bytes;
    for _ in 0..count {
        match seal_of(rest) {
            Some((seal, after)) => {
                all.push(seal)?;
                rest = after;
            }
            None => return Ok(None),
        }
    }
    Ok(Some((all, rest)))
}

#[tactic(auto, unfolding(crate::specs::Calls::seals_at, byte_grammar::specs::Reading::counted))]
fn seals_of(alloc: Global, bytes: &[u8]) -> Result<Option<(Seals, &[u8])>, AllocError>
    ensures { IfOk result (λ r. Gives (λ x. (x.0, x.1.now)) r (seals_at bytes.now)) }
{
    match u16_of(bytes) {
        Some((count, rest)) if is_count(MAX_SEALS_OF_BATCH, count) => each_seal_of(
            alloc, count, rest,
        ),
        _ => Ok(None),
    }
}

#[tactic(auto, unfolding(crate::specs::Calls::call_by, byte_grammar::specs::Reading::mapped, byte_grammar::specs::Reading::seq))]
fn file_of(alloc: Global, bytes: &[u8]) -> Result<Option<(Entry, &[u8])>, AllocError>
    ensures { IfOk result (λ r. Gives (λ x. (call_in x.0, x.1.now)) r (call_by 1 bytes.now)) }
{
    let Some((id, rest)) = u64_of(bytes) else {
        return Ok(None);
    };
    let Some((index, rest)) = u32_of(rest) else {
        return Ok(None);
    };
    let Some((moment, rest)) = u64_of(rest) else {
        return Ok(None);
    };
    match seals_of(alloc, rest)? {
        Some((seals, rest)) => Ok(Some((
            Entry::File {
                id,
                index,
                moment,
                seals,
            },
            rest,
        ))),
        None => Ok(None),
    }
}

#[tactic(auto, unfolding(crate::specs::Calls::call_by, byte_grammar::specs::Reading::mapped, byte_grammar::specs::Reading::seq))]
fn note_of(bytes: &[u8]) -> Option<(Entry, &[u8])>
    ensures { Gives (λ x. (call_in x.0, x.1.now)) result (call_by 2 bytes.now) }
{
    let (id, rest) = u64_of(bytes)?;
    let (moment, rest) = u64_of(rest)?;
    let (tiles, rest) = u32_of(rest)?;
    let (outcome, rest) = outcome_of(rest)?;
    let mark = Mark {
        moment,
        tiles,
        outcome,
    };
    Some((Entry::Note { id, mark }, rest))
}

#[tactic(auto, unfolding(crate::specs::Calls::call_at, crate::specs::Calls::call_by, byte_grammar::specs::Reading::tagged, byte_grammar::specs::Reading::mapped, byte_grammar::specs::Reading::seq), using(crate::proofs::Skips::call_by_other))]
fn entry_of(alloc: Global, bytes: &[u8]) -> Result<Option<(Entry, &[u8])>, AllocError>
    ensures { IfOk result (λ r. Gives (λ x. (call_in x.0, x.1.now)) r (call_at bytes.now)) }
{
    let Some((tag, rest)) = byte_of(bytes) else {
        return Ok(None);
    };
    match tag {
        1 => file_of(alloc, rest),
        2 => Ok(note_of(rest)),
        _ => Ok(None),
    }
}

#[tactic(auto, unfolding(crate::specs::Calls::call_of, byte_grammar::specs::Reading::whole))]
fn whole_entry(alloc: Global, bytes: &[u8]) -> Result<Option<Entry>, AllocError>
    ensures { IfOk result (λ found. Gives call_in found (call_of bytes.now)) }
{
    match entry_of(alloc, bytes)? {
        Some((entry, rest)) if rest.is_empty() => Ok(Some(entry)),
        _ => Ok(None),
    }
}

/// What a payload says, all of it, or nothing where it spells no call.
pub fn decode(alloc: Global, bytes: &[u8]) -> Result<Option<Entry>, AllocError>
    ensures value { IfOk result (λ found. Gives call_in found (call_of bytes.now)) }
    ensures fits { IfOk result (λ found. IfSome found (λ entry. FitsCall (call_in entry))) }
{
    whole_entry(alloc, bytes)
}
