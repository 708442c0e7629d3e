//! What is odd about the entries of a book.

ghost use Rattle.std.specs.Prelude.{◌≡◌, ◌^◌, ◌<◌, ◌≤◌, ◌+◌, ◌++◌, ◌∷◌, [], List, IfOk, OnOk, max};
ghost use Rattle.std.specs.List.{list_any};
ghost use Rattle.notary_link.specs.Batches.{same_name};
ghost use Rattle.notary_link.specs.Notary.{Call};
ghost use Rattle.notary_book.specs.Books.{calls_in};
ghost use Rattle.notary_book.specs.Entries.{call_in};
ghost use Rattle.book_inspect.specs.Entries.{own_name, is_other_tile, is_altered, findings_of_entries};

use file_findings::{Finding, Made, note, note_all};
use notary_book::{Entry, decode};
use notary_link::{Mark, Name, Outcome, Seal};
use std::alloc::Global;

/// What is known of the entries so far, of which those of one id count.
#[derive(Drop)]
pub(crate) struct Entries {
    pub id: u64,
    /// How many there are, under any id.
    pub count: u64,
    pub batches: u64,
    pub marks: u64,
    pub latest_filed: u64,
    pub latest_marked: u64,
    pub missing: Vec<Finding>,
    pub over: Vec<Finding>,
    pub falls: Vec<Finding>,
    pub altered: Vec<Finding>,
    ghost few: { batches + marks ≤ count },
}

/// Whether each batch of an index has a digest of this name.
fn is_own(name: Name, index: u64) -> bool
    ensures value { result ≡ same_name name (own_name index) }
{
    match name {
        Name::Header => index == 0,
        Name::Cum { tile } => u64::from(tile) + 1 == index,
        _ => false,
    }
}

fn has_own_seal(index: u64, seals: &[Seal]) -> bool
    ensures value { result ≡ list_any (λ seal. same_name seal.name (own_name index)) seals.now }
{
    seals.iter().any(|seal| is_own(seal.name, index))
}

fn is_other_tile(tiles: u32, outcome: Outcome) -> bool
    ensures value { result ≡ is_other_tile tiles outcome }
{
    match outcome {
        Outcome::Altered { first_bad } => first_bad >= tiles,
        Outcome::Clean | Outcome::HeaderAltered => false,
    }
}

fn is_altered(outcome: Outcome) -> bool
    ensures value { result ≡ is_altered outcome }
{
    match outcome {
        Outcome::Clean => false,
        Outcome::Altered { .. } | Outcome::HeaderAltered => true,
    }
}

impl Entries {
    ghost use Rattle.book_inspect.specs.KnownEntries.{KnowsEntries, TakesBatch, TakesMark};

    pub fn new(alloc: Global, id: u64) -> Entries
        ensures value { KnowsEntries id result [] }
        ensures id { result.id ≡ id }
        ensures none { result.count ≡ 0 }
    {
        Entries {
            id,
            count: 0,
            batches: 0,
            marks: 0,
            latest_filed: 0,
            latest_marked: 0,
            missing: Vec::new(alloc),
            over: Vec::new(alloc),
            falls: Vec::new(alloc),
            altered: Vec::new(alloc),
        }
    }

    /// Takes the entry that a payload spells, where it spells one.
    pub fn take_payload(&mut self, alloc: Global, payload: &[u8]) -> Made<()>
        requires room { self.old.count + 1 < 2 ^ 64 }
        ensures value { OnOk result ((calls : List Call)
            → KnowsEntries self.old.id self.old calls → KnowsEntries self.old.id self.new (calls ++ calls_in (payload.now ∷ []))) }
        ensures id { self.new.id ≡ self.old.id }
        ensures few { self.new.count ≤ self.old.count + 1 }
    {
        match decode(alloc, payload)? {
            Some(entry) => self.take(&entry),
            None => Ok(()),
        }
    }

    fn take(&mut self, entry: &Entry) -> Made<()>
        requires room { self.old.count + 1 < 2 ^ 64 }
        ensures value { OnOk result ((calls : List Call)
            → KnowsEntries self.old.id self.old calls → KnowsEntries self.old.id self.new (calls ++ call_in entry.now ∷ [])) }
        ensures id { self.new.id ≡ self.old.id }
        ensures few { self.new.count ≤ self.old.count + 1 }
    {
        match entry {
            Entry::File {
                id,
                moment,
                seals,
                ..
            } => {
                if *id == self.id {
                    self.take_batch(*moment, seals.as_slice())
                } else {
                    self.count += 1;
                    Ok(())
                }
            }
            Entry::Note { id, mark } => {
                if *id == self.id {
                    self.take_mark(mark)
                } else {
                    self.count += 1;
                    Ok(())
                }
            }
        }
    }

    fn take_batch(&mut self, moment: u64, seals: &[Seal]) -> Made<()>
        requires room { self.old.count + 1 < 2 ^ 64 }
        ensures value { OnOk result (TakesBatch moment seals.now self.old self.new) }
        ensures id { self.new.id ≡ self.old.id }
        ensures few { self.new.count ≤ self.old.count + 1 }
    {
        self.count += 1;
        let missing = Finding::SealMissing(self.batches);
        note(
            &mut self.missing,
            !has_own_seal(self.batches, seals),
            missing,
        )?;
        let fall = Finding::SecondsFall(self.count, self.latest_filed, moment);
        note(&mut self.falls, moment < self.latest_filed, fall)?;
        self.batches += 1;
        self.latest_filed = self.latest_filed.max(moment);
        Ok(())
    }

    fn take_mark(&mut self, mark: &Mark) -> Made<()>
        requires room { self.old.count + 1 < 2 ^ 64 }
        ensures value { OnOk result (TakesMark mark.now self.old self.new) }
        ensures id { self.new.id ≡ self.old.id }
        ensures few { self.new.count ≤ self.old.count + 1 }
    {
        self.count += 1;
        let number = self.marks + 1;
        let sealed = self.batches.saturating_sub(1);
        let over = Finding::MarkOver(number, mark.tiles, sealed);
        let is_over = sealed < u64::from(mark.tiles) || is_other_tile(mark.tiles, mark.outcome);
        note(&mut self.over, is_over, over)?;
        let altered = Finding::AlteredMark(number, mark.moment, self.altered.len() as u64 + 1);
        note(&mut self.altered, is_altered(mark.outcome), altered)?;
        let latest = self.latest_filed.max(self.latest_marked);
        let fall = Finding::SecondsFall(self.count, latest, mark.moment);
        note(&mut self.falls, mark.moment < latest, fall)?;
        self.marks += 1;
        self.latest_marked = self.latest_marked.max(mark.moment);
        Ok(())
    }

    /// The latest second of an entry of either kind.
    pub fn latest(&self) -> u64
        ensures value { result ≡ max self.now.latest_filed self.now.latest_marked }
    {
        self.latest_filed.max(self.latest_marked)
    }

    /// All that was found, kind by kind; of the marks that say altered the last one.
    pub fn findings(&self, alloc: Global) -> Made<Vec<Finding>>
        ensures value { IfOk result (λ found. (calls : List Call)
            → KnowsEntries self.now.id self.now calls → found.items ≡ findings_of_entries self.now.id calls) }
    {
        let mut found = Vec::new(alloc);
        note_all(&mut found, &self.missing)?;
        note_all(&mut found, &self.over)?;
        note_all(&mut found, &self.falls)?;
        let first = self.altered.len().saturating_sub(1);
        note_all(&mut found, &self.altered[first..])?;
        Ok(found)
    }
}
