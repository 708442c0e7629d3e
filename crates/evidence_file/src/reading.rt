//! The parts of an evidence file as they are read: each function gives what was read and the bytes after it.

ghost use Rattle.std.specs.Prelude.{IfOk};
ghost use Rattle.byte_grammar.specs.Reading.{Gives, many};
ghost use Rattle.evidence_file.specs.Reading.{fields_at, era_at, eras_at, granule_at, entry_at, entries_at, parts_at};

use crate::entry::{Entries, Entry};
use crate::evidence::{Evidence, LaterEras};
use crate::lists::{list_of, second_of};
use byte_grammar::{byte_of, constant_of, u32_of, u64_of};
use policy_eras::{Era, MAX_LATER};
use std::alloc::{AllocError, Global};
use tuple_bytes::{Header, MAX_ALGORITHMS, MAX_EXPONENT, MAX_GRANULES, MAX_MOMENT, MAX_WIDTH};

/// The letters of the format.
pub(crate) const TEXT: [u8; 8] = *b"DRAGEVD1";

/// The header fields, as they stand in a store.
#[tactic(auto, unfolding(crate::specs::Reading::fields_at, tuple_bytes::specs::HeaderBytes::epoch_at, tuple_bytes::specs::HeaderBytes::width_at, tuple_bytes::specs::HeaderBytes::small_at, byte_grammar::specs::Reading::checked, byte_grammar::specs::Reading::mapped, byte_grammar::specs::Reading::seq))]
fn fields_of(bytes: &[u8]) -> Option<(Header, &[u8])>
    ensures { Gives (λ x. (x.0, x.1.now)) result (fields_at bytes.now) }
{
    let (id, rest) = u64_of(bytes)?;
    let (epoch, rest) = u64_of(rest)?;
    if epoch > MAX_MOMENT {
        return None;
    }
    let (width, rest) = u32_of(rest)?;
    if width < 1 || width > MAX_WIDTH {
        return None;
    }
    let (k, rest) = byte_of(rest)?;
    if k > MAX_EXPONENT {
        return None;
    }
    let (algs, rest) = byte_of(rest)?;
    if algs > MAX_ALGORITHMS {
        return None;
    }
    let header = Header {
        id,
        epoch,
        width,
        k,
        algs,
    };
    Some((header, rest))
}

/// An era, as it stands behind the tag of a policy.
#[tactic(auto, unfolding(crate::specs::Reading::era_at, tuple_bytes::specs::HeaderBytes::small_at, byte_grammar::specs::Reading::checked, byte_grammar::specs::Reading::mapped, byte_grammar::specs::Reading::seq))]
fn era_of(bytes: &[u8]) -> Option<(Era, &[u8])>
    ensures { Gives (λ x. (x.0, x.1.now)) result (era_at bytes.now) }
{
    let (tile, rest) = u32_of(bytes)?;
    let (granule, rest) = u32_of(rest)?;
    let (k, rest) = byte_of(rest)?;
    if k > MAX_EXPONENT {
        return None;
    }
    let (algs, rest) = byte_of(rest)?;
    if algs > MAX_ALGORITHMS {
        return None;
    }
    let era = Era {
        tile,
        granule,
        k,
        algs,
    };
    Some((era, rest))
}

fn each_era_of(
    alloc: Global,
    count: u32,
    bytes: &[u8],
) -> Result<Option<(LaterEras, &[u8])>, AllocError>
    ensures { IfOk result (λ r. Gives (λ x. (x.0, x.1.now)) r (many era_at count bytes.now)) }
{
    let mut all = LaterEras::new(alloc);
    let mut rest = bytes;
    for _ in 0..count {
        match era_of(rest) {
            Some((era, after)) => {
                all.push(era)?;
                rest = after;
            }
            None => return Ok(None),
        }
    }
    Ok(Some((all, rest)))
}

#[tactic(auto, unfolding(crate::specs::Reading::eras_at, byte_grammar::specs::Reading::counted))]
fn eras_of(alloc: Global, bytes: &[u8]) -> Result<Option<(LaterEras, &[u8])>, AllocError>
    ensures { IfOk result (λ r. Gives (λ x. (x.0, x.1.now)) r (eras_at bytes.now)) }
{
    match u32_of(bytes) {
        Some((count, rest)) if count as usize <= MAX_LATER => each_era_of(alloc, count, rest),
        _ => Ok(None),
    }
}

#[tactic(auto, unfolding(crate::specs::Reading::granule_at, byte_grammar::specs::Reading::checked))]
fn granule_of(bytes: &[u8]) -> Option<(u32, &[u8])>
    ensures { Gives (λ x. (x.0, x.1.now)) result (granule_at bytes.now) }
{
    let (granule, rest) = u32_of(bytes)?;
    if granule >= MAX_GRANULES {
        return None;
    }
    Some((granule, rest))
}

#[tactic(auto, unfolding(crate::specs::Reading::entry_at, byte_grammar::specs::Reading::mapped, byte_grammar::specs::Reading::seq))]
fn entry_of(alloc: Global, bytes: &[u8]) -> Result<Option<(Entry, &[u8])>, AllocError>
    ensures { IfOk result (λ r. Gives (λ x. (x.0, x.1.now)) r (entry_at bytes.now)) }
{
    let Some((granule, rest)) = granule_of(bytes) else {
        return Ok(None);
    };
    let Some((shown, rest)) = list_of(alloc, rest)? else {
        return Ok(None);
    };
    match second_of(alloc, rest)? {
        Some((original, rest)) => Ok(Some((
            Entry {
                granule,
                shown,
                original,
            },
            rest,
        ))),
        None => Ok(None),
    }
}

fn each_entry_of(
    alloc: Global,
    count: u32,
    bytes: &[u8],
) -> Result<Option<(Entries, &[u8])>, AllocError>
    ensures { IfOk result (λ r. Gives (λ x. (x.0, x.1.now)) r (many entry_at count bytes.now)) }
{
    let mut all = Entries::new(alloc);
    let mut rest = bytes;
    for _ in 0..count {
        match entry_of(alloc, rest)? {
            Some((entry, after)) => {
                all.push(entry)?;
                rest = after;
            }
            None => return Ok(None),
        }
    }
    Ok(Some((all, rest)))
}

#[tactic(auto, unfolding(crate::specs::Reading::entries_at, byte_grammar::specs::Reading::counted))]
fn entries_of(alloc: Global, bytes: &[u8]) -> Result<Option<(Entries, &[u8])>, AllocError>
    ensures { IfOk result (λ r. Gives (λ x. (x.0, x.1.now)) r (entries_at bytes.now)) }
{
    match u32_of(bytes) {
        Some((count, rest)) => each_entry_of(alloc, count, rest),
        None => Ok(None),
    }
}

/// The parts of an evidence file, one after the other.
#[tactic(auto, unfolding(crate::specs::Reading::parts_at, byte_grammar::specs::Reading::mapped, byte_grammar::specs::Reading::seq))]
pub(crate) fn parts_of(alloc: Global, bytes: &[u8]) -> Result<Option<(Evidence, &[u8])>, AllocError>
    ensures { IfOk result (λ r. Gives (λ x. (x.0, x.1.now)) r (parts_at bytes.now)) }
{
    let Some(rest) = constant_of(&TEXT, bytes) else {
        return Ok(None);
    };
    let Some((header, rest)) = fields_of(rest) else {
        return Ok(None);
    };
    let Some((eras, rest)) = eras_of(alloc, rest)? else {
        return Ok(None);
    };
    match entries_of(alloc, rest)? {
        Some((entries, rest)) => Ok(Some((
            Evidence {
                header,
                eras,
                entries,
            },
            rest,
        ))),
        None => Ok(None),
    }
}
