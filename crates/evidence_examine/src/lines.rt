//! The lines of an examination, of answers that are at hand.

ghost use Rattle.std.specs.Prelude.{◌≡◌, ◌++◌, IfOk, OnOk};
ghost use Rattle.std.specs.List.{flat_map, count_by};
ghost use Rattle.evidence_examine.specs.Texts.{called, last_line};
ghost use Rattle.evidence_examine.specs.Judging.{listed_words, judged_line, is_other, judged_text};

use crate::judged::{Judged, Listed};
use byte_grammar::put_numbered;
use notary_link::Answer;
use std::alloc::{AllocError, Global};
use tuple_bytes::Blob;

/// What a list is called.
fn put_called(out: &mut Vec<u8>, answer: Answer) -> Result<(), AllocError>
    ensures ok { OnOk result (out.new.items ≡ out.old.items ++ called answer) }
{
    match answer {
        Answer::Same => out.extend_from_slice(b" as notarized")?,
        Answer::Differs => out.extend_from_slice(b" not as notarized")?,
        Answer::Absent => {}
    }
    Ok(())
}

/// The second list, where there is one.
fn put_original(
    alloc: Global,
    out: &mut Vec<u8>,
    original: Option<Listed>,
) -> Result<(), AllocError>
    ensures ok { OnOk result (out.new.items ≡ out.old.items ++ listed_words original) }
{
    match original {
        Some(listed) => {
            put_numbered(alloc, out, b" original ", listed.count as u64)?;
            put_called(out, listed.answer)
        }
        None => Ok(()),
    }
}

/// The line of an entry.
fn put_entry(alloc: Global, out: &mut Vec<u8>, judged: &Judged) -> Result<(), AllocError>
    ensures ok { OnOk result (out.new.items ≡ out.old.items ++ judged_line judged.now) }
{
    put_numbered(alloc, out, b"granule ", u64::from(judged.granule))?;
    put_called(out, judged.shown.answer)?;
    put_numbered(alloc, out, b" shown ", judged.shown.count as u64)?;
    put_original(alloc, out, judged.original)?;
    out.push(b'\n')?;
    Ok(())
}

fn put_entries(alloc: Global, out: &mut Vec<u8>, all: &[Judged]) -> Result<(), AllocError>
    ensures ok { OnOk result (out.new.items ≡ out.old.items ++ flat_map judged_line all.now) }
{
    for judged in all {
        put_entry(alloc, out, judged)?;
    }
    Ok(())
}

/// Whether what is shown for a granule is not as notarized.
fn is_other(judged: &Judged) -> bool
    ensures value { result ≡ is_other judged.now }
{
    match judged.shown.answer {
        Answer::Differs => true,
        Answer::Same | Answer::Absent => false,
    }
}

fn count_others(all: &[Judged]) -> usize
    ensures value { result ≡ count_by is_other all.now }
{
    let mut count = 0;
    for judged in all {
        if is_other(judged) {
            count += 1;
        }
    }
    count
}

/// The last line.
fn put_last(
    alloc: Global,
    out: &mut Vec<u8>,
    entries: usize,
    confirmed: usize,
) -> Result<(), AllocError>
    ensures ok { OnOk result (out.new.items ≡ out.old.items ++ last_line entries confirmed) }
{
    put_numbered(alloc, out, b"examined ", entries as u64)?;
    put_numbered(alloc, out, b" confirmed ", confirmed as u64)?;
    out.push(b'\n')?;
    Ok(())
}

/// A line for each entry, and the last one.
#[tactic(auto, unfolding(crate::specs::Judging::judged_text))]
pub(crate) fn write_lines(alloc: Global, all: &[Judged]) -> Result<Blob, AllocError>
    ensures value { IfOk result (λ text. text ≡ judged_text all.now) }
{
    let mut out = Vec::new(alloc);
    put_entries(alloc, &mut out, all)?;
    put_last(alloc, &mut out, all.len(), count_others(all))?;
    Ok(Blob::from_vec(out))
}
