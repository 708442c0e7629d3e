//! What is odd about a store and a book together.

ghost use Rattle.std.specs.Prelude.{◌≡◌, ◌++◌, ◌+◌, ◌<◌, ◌≤◌, ◌^◌, ◌∷◌, [], ℕ, List, IfOk, OnOk};
ghost use Rattle.std.specs.List.{flat_map};
ghost use Rattle.notary_link.specs.Notary.{Call};
ghost use Rattle.notary_book.specs.Books.{calls_in};
ghost use Rattle.notary_book.specs.Entries.{call_in};
ghost use Rattle.store_inspect.specs.declared.seen.StoreKnown.{StoreKnown as Known};
ghost use Rattle.file_findings.specs.Along.{found_along};
ghost use Rattle.inspect_call.specs.Known.{NotesEra};
ghost use Rattle.inspect_call.specs.Both.{end_of, store_behind, unsealed_era, unsealed_frontier, end_second, batch_early, of_both};

use book_inspect::BookSeen;
use file_findings::{Finding, Made, note, note_all};
use notary_book::{Entry, decode};
use policy_eras::{Era, Eras};
use std::alloc::Global;
use store_inspect::StoreKnown;
use tuple_bytes::Blob;

/// The moment at which the first so many tiles have ended.
fn end_of(known: &StoreKnown, tiles: u64) -> u64
    ensures value { result ≡ end_of known.now tiles }
{
    let tile = tiles.min(4_294_967_295) as u32;
    known
        .eras
        .first(tile)
        .saturating_mul(u64::from(known.header.width))
}

/// The last tile that a book has sealed ends after the store's last moment.
pub(crate) fn note_behind(found: &mut Vec<Finding>, known: &StoreKnown, sealed: u64) -> Made<()>
    ensures value { OnOk result (found.new.items ≡ found.old.items ++ store_behind known.now sealed) }
{
    let end = end_of(known, sealed);
    let finding = Finding::StoreBehind(sealed.saturating_sub(1), end, known.last);
    note(found, known.last < end, finding)
}

/// An era of a number that begins at a tile which is not sealed.
fn note_era(found: &mut Vec<Finding>, era: Option<Era>, number: u64, sealed: u64) -> Made<()>
    ensures value { OnOk result (NotesEra era number sealed found.old.items found.new.items) }
{
    match era {
        Some(era) => {
            let finding = Finding::UnsealedEra(number, era.tile, sealed);
            note(found, sealed < u64::from(era.tile), finding)
        }
        None => Ok(()),
    }
}

/// The eras that begin at tiles which are not sealed.
fn unsealed_eras(alloc: Global, eras: &Eras, sealed: u64) -> Made<Vec<Finding>>
    ensures value { IfOk result (λ found. found.items ≡ found_along (unsealed_era sealed) eras.now.later) }
{
    let mut found = Vec::new(alloc);
    let later = eras.count() - 1;
    for n in 0..later {
        let era = eras.at(n + 1);
        note_era(&mut found, era, u64::from(n) + 1, sealed)?;
    }
    Ok(found)
}

/// The Frontiers of filings that end tiles which are not sealed.
fn unsealed_frontiers(alloc: Global, filed: &[u32], sealed: u64) -> Made<Vec<Finding>>
    ensures value { IfOk result (λ found. found.items ≡ flat_map (unsealed_frontier sealed) filed.now) }
{
    let mut found = Vec::new(alloc);
    for tiles in filed {
        let tiles = u64::from(*tiles);
        let finding = Finding::UnsealedFrontier(tiles.saturating_sub(1), sealed);
        note(&mut found, sealed < tiles, finding)?;
    }
    Ok(found)
}

/// The second at which the tile of the batch of an index had ended.
fn end_second(known: &StoreKnown, index: u64) -> u64
    ensures value { result ≡ end_second known.now index }
{
    if index == 0 {
        return 0;
    }
    known.header.epoch.saturating_add(end_of(known, index))
}

/// The batches so far that are of seconds before their tiles had ended.
#[derive(Drop)]
pub(crate) struct Early {
    pub batches: u64,
    pub found: Vec<Finding>,
}

impl Early {
    ghost use Rattle.inspect_call.specs.Known.{KnowsEarly, TakesEarly};

    fn new(alloc: Global) -> Early
        ensures value { (k : Known) (id : ℕ) → KnowsEarly k id result [] }
        ensures none { result.batches ≡ 0 }
    {
        Early {
            batches: 0,
            found: Vec::new(alloc),
        }
    }

    /// Takes the entry that a payload spells, where it spells one.
    fn take_payload(
        &mut self,
        alloc: Global,
        known: &StoreKnown,
        id: u64,
        payload: &[u8],
    ) -> Made<()>
        requires room { self.old.batches + 1 < 2 ^ 64 }
        ensures value { OnOk result ((calls : List Call)
            → KnowsEarly known.now id self.old calls → KnowsEarly known.now id self.new (calls ++ calls_in (payload.now ∷ []))) }
        ensures few { self.new.batches ≤ self.old.batches + 1 }
    {
        match decode(alloc, payload)? {
            Some(entry) => self.take(known, id, &entry),
            None => Ok(()),
        }
    }

    fn take(&mut self, known: &StoreKnown, id: u64, entry: &Entry) -> Made<()>
        requires room { self.old.batches + 1 < 2 ^ 64 }
        ensures value { OnOk result ((calls : List Call)
            → KnowsEarly known.now id self.old calls → KnowsEarly known.now id self.new (calls ++ call_in entry.now ∷ [])) }
        ensures few { self.new.batches ≤ self.old.batches + 1 }
    {
        match entry {
            Entry::File { id: of, moment, .. } => {
                if *of == id {
                    self.take_batch(known, *moment)
                } else {
                    Ok(())
                }
            }
            Entry::Note { .. } => Ok(()),
        }
    }

    fn take_batch(&mut self, known: &StoreKnown, second: u64) -> Made<()>
        requires room { self.old.batches + 1 < 2 ^ 64 }
        ensures value { OnOk result (TakesEarly known.now second self.old self.new) }
        ensures few { self.new.batches ≤ self.old.batches + 1 }
    {
        let end = end_second(known, self.batches);
        let finding = Finding::BatchEarly(self.batches, second, end);
        note(&mut self.found, second < end, finding)?;
        self.batches += 1;
        Ok(())
    }
}

/// Goes over the entries that payloads spell.
fn early_in(alloc: Global, known: &StoreKnown, id: u64, payloads: &[Blob]) -> Made<Early>
    ensures value { IfOk result (λ e. e.found.items ≡ found_along (batch_early known.now id) (calls_in payloads.now)) }
{
    let mut early = Early::new(alloc);
    for payload in payloads {
        early.take_payload(alloc, known, id, payload.as_slice())?;
    }
    Ok(early)
}

/// What is odd about a book by a store.
pub(crate) fn note_both(
    alloc: Global,
    found: &mut Vec<Finding>,
    known: &StoreKnown,
    id: u64,
    book: &BookSeen,
) -> Made<()>
    ensures value { OnOk result (found.new.items ≡ found.old.items ++ of_both known.now id book.now) }
{
    let sealed = book.batches.saturating_sub(1);
    let eras = unsealed_eras(alloc, &known.eras, sealed)?;
    note_all(found, &eras)?;
    let frontiers = unsealed_frontiers(alloc, &known.filed, sealed)?;
    note_all(found, &frontiers)?;
    let early = early_in(alloc, known, id, book.payloads.as_slice())?;
    note_all(found, &early.found)
}
