//! What the parts of an evidence file owe each other.

ghost use Rattle.std.specs.Prelude.{◌≡◌, ◌≢◌, IfOk};
ghost use Rattle.std.specs.List.{All, list_all};
ghost use Rattle.tuple_bytes.specs.Spelling.{FitsHeader};
ghost use Rattle.digest_model.specs.Layout.{first_era, is_next, offered};
ghost use Rattle.policy_eras.specs.Policy.{as_era};
ghost use Rattle.evidence_file.specs.Evidence.{FitsEra, are_next, ascend};
ghost use Rattle.evidence_file.specs.Reading.{is_txn_of, is_list_of, is_second_of, is_entry, is_consistent};

use crate::entry::Entry;
use crate::evidence::Evidence;
use crate::lists::spelled_moment;
use policy_eras::{Era, Eras};
use std::alloc::{AllocError, Global};
use tuple_bytes::{Header, Payloads, granule};

/// Whether an era is the next one, which is then taken.
#[tactic(auto, using(crate::proofs::Steps::counted))]
fn takes(eras: &mut Eras, era: Era) -> bool
    requires { FitsEra era }
    ensures value { result ≡ is_next eras.old (as_era era) era.granule }
    ensures taken { eras.new ≡ offered eras.old (as_era era) era.granule }
{
    let before = eras.count();
    eras.offer(era.tile, era.granule, era.k, era.algs);
    eras.count() != before
}

fn are_next(alloc: Global, header: &Header, eras: &[Era]) -> Result<bool, AllocError>
    requires header { FitsHeader header.now }
    requires eras { All FitsEra eras.now }
    ensures value { IfOk result (λ b. b ≡ are_next (first_era header.now) eras.now) }
{
    let mut kept = Eras::new(alloc, header)?;
    for era in eras {
        if !takes(&mut kept, *era) {
            return Ok(false);
        }
    }
    Ok(true)
}

fn ascend(entries: &[Entry]) -> bool
    ensures value { result ≡ ascend 0 entries.now }
{
    let mut from = 0;
    for entry in entries {
        if u64::from(entry.granule) < from {
            return false;
        }
        from = u64::from(entry.granule) + 1;
    }
    true
}

/// Whether the bytes spell a transaction of a granule.
fn is_txn_of(width: u32, number: u32, bytes: &[u8]) -> bool
    requires width { width ≢ 0 }
    ensures value { result ≡ is_txn_of width number bytes.now }
{
    match spelled_moment(bytes) {
        Some(moment) => granule(moment, width) == u64::from(number),
        None => false,
    }
}

#[tactic(auto, unfolding(crate::specs::Reading::is_list_of))]
fn is_list_of(width: u32, number: u32, txns: &Payloads) -> bool
    requires width { width ≢ 0 }
    ensures value { result ≡ is_list_of width number txns.now }
{
    for txn in txns.as_slice() {
        if !is_txn_of(width, number, txn.as_slice()) {
            return false;
        }
    }
    true
}

fn is_second_of(width: u32, number: u32, second: &Option<Payloads>) -> bool
    requires width { width ≢ 0 }
    ensures value { result ≡ is_second_of width number second.now }
{
    match second {
        Some(txns) => is_list_of(width, number, txns),
        None => true,
    }
}

#[tactic(auto, unfolding(crate::specs::Reading::is_entry))]
fn is_entry(width: u32, entry: &Entry) -> bool
    requires width { width ≢ 0 }
    ensures value { result ≡ is_entry width entry.now }
{
    is_list_of(width, entry.granule, &entry.shown)
        && is_second_of(width, entry.granule, &entry.original)
}

fn are_entries(width: u32, entries: &[Entry]) -> bool
    requires width { width ≢ 0 }
    ensures value { result ≡ list_all (is_entry width) entries.now }
{
    for entry in entries {
        if !is_entry(width, entry) {
            return false;
        }
    }
    true
}

/// Whether the eras are each the next one, the granules ascend, and each transaction lies in its entry's granule.
#[tactic(auto, unfolding(crate::specs::Reading::is_consistent))]
pub(crate) fn is_consistent(alloc: Global, evidence: &Evidence) -> Result<bool, AllocError>
    requires header { FitsHeader evidence.now.header }
    requires eras { All FitsEra evidence.now.eras }
    ensures value { IfOk result (λ b. b ≡ is_consistent evidence.now) }
{
    if !are_next(alloc, &evidence.header, evidence.eras.as_slice())? {
        return Ok(false);
    }
    let entries = evidence.entries.as_slice();
    Ok(ascend(entries) && are_entries(evidence.header.width, entries))
}
