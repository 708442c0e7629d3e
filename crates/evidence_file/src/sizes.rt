//! How long the spelling of an evidence file is, counted up to the limit of a file.
#![tactic(auto, using(crate::proofs::Counting::counted_twice, crate::proofs::Counting::counted_none, crate::proofs::Counting::length_word))]

ghost use Rattle.std.specs.Prelude.{◌≡◌, ◌≤◌, length};
ghost use Rattle.digest_model.specs.Layout.{max_later};
ghost use Rattle.digest_model.specs.Digests.{behind_length};
ghost use Rattle.tuple_bytes.specs.Limits.{max_file};
ghost use Rattle.evidence_file.specs.Evidence.{spell_eras, spell_list, spell_second, spell_entry, spell_entries, spell_evidence};
ghost use Rattle.evidence_file.specs.Writing.{counted_on};

use crate::entry::Entry;
use crate::evidence::Evidence;
use policy_eras::Era;
use tuple_bytes::{MAX_FILE, Payloads};

/// The bytes of the letters and of the header fields.
const HEAD: usize = 30;

/// The bytes of an era.
const ERA: usize = 10;

/// The bytes of a count, of a length, of a granule.
const WORD: usize = 4;

/// A size with so many bytes more.
fn with_bytes(size: usize, more: usize) -> usize
    requires within { size ≤ max_file }
    ensures value { result ≡ counted_on size more }
{
    if more < MAX_FILE - size {
        return size + more;
    }
    MAX_FILE
}

fn with_txn(size: usize, txn: &[u8]) -> usize
    requires within { size ≤ max_file }
    ensures value { result ≡ counted_on size (length (behind_length txn.now)) }
{
    with_bytes(with_bytes(size, WORD), txn.len())
}

fn with_list(before: usize, txns: &Payloads) -> usize
    requires within { before ≤ max_file }
    ensures value { result ≡ counted_on before (length (spell_list txns.now)) }
{
    let mut size = with_bytes(before, WORD);
    for txn in txns.as_slice() {
        size = with_txn(size, txn.as_slice());
    }
    size
}

fn with_second(size: usize, second: &Option<Payloads>) -> usize
    requires within { size ≤ max_file }
    ensures value { result ≡ counted_on size (length (spell_second second.now)) }
{
    match second {
        Some(txns) => with_list(with_bytes(size, 1), txns),
        None => with_bytes(size, 1),
    }
}

fn with_entry(size: usize, entry: &Entry) -> usize
    requires within { size ≤ max_file }
    ensures value { result ≡ counted_on size (length (spell_entry entry.now)) }
{
    with_second(
        with_list(with_bytes(size, WORD), &entry.shown),
        &entry.original,
    )
}

fn with_entries(before: usize, entries: &[Entry]) -> usize
    requires within { before ≤ max_file }
    ensures value { result ≡ counted_on before (length (spell_entries entries.now)) }
{
    let mut size = with_bytes(before, WORD);
    for entry in entries {
        size = with_entry(size, entry);
    }
    size
}

#[tactic(auto, using(crate::proofs::Counting::length_eras, crate::proofs::Counting::length_word))]
fn size_of_eras(eras: &[Era]) -> usize
    requires few { length eras.now ≤ max_later }
    ensures value { result ≡ length (spell_eras eras.now) }
    ensures small { result ≤ 2554 }
{
    WORD + ERA * eras.len()
}

/// The length of the spelling, or the limit where it is as long or longer.
pub(crate) fn size(evidence: &Evidence) -> usize
    requires few { length evidence.now.eras ≤ max_later }
    ensures value { result ≡ counted_on 0 (length (spell_evidence evidence.now)) }
{
    let eras = size_of_eras(evidence.eras.as_slice());
    with_entries(HEAD + eras, evidence.entries.as_slice())
}
