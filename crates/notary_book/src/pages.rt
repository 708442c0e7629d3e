//! What stands in a book, ready to be asked.

ghost use Rattle.std.specs.Prelude.{◌≤◌, ℕ, length};
ghost use Rattle.notary_link.specs.Shelves.{moments_on, shelf_of};
ghost use Rattle.notary_book.specs.Books.{max_seals, max_marks};

use crate::entry::Entry;
use crate::limits::{MAX_MARKS, MAX_SEALS};
use notary_link::{
    Mark, Name, Seal, Shelves, batch_count, digest_under, mark_under, moment_under, shelve_batch,
    shelve_mark,
};
use std::alloc::{AllocError, Global};
use std::collections::BTreeMap;

/// What stands under each id, and how many seals and marks there are in all.
#[derive(Drop)]
pub(crate) struct Pages {
    shelves: Shelves,
    seals: u64,
    marks: u32,
    ghost few: { (id : ℕ) → length (moments_on (shelf_of shelves id)) ≤ seals },
    ghost seals_within: { seals ≤ max_seals },
    ghost marks_within: { marks ≤ max_marks },
}

impl Pages {
    ghost use Rattle.std.specs.Prelude.{◌≡◌, ◌<◌, ◌+◌, ◌++◌, ◌∷◌, [], List, nat_le, nat_lt, slice_get, IfOk, OnOk};
    ghost use Rattle.std.specs.Option.{option_copied};
    ghost use Rattle.notary_link.specs.Notary.{Call, file, note, batch_of};
    ghost use Rattle.notary_link.specs.Shelves.{marks_on, digest_on};
    ghost use Rattle.notary_book.specs.Spelling.{FitsCall};
    ghost use Rattle.notary_book.specs.Entries.{call_in};
    ghost use Rattle.notary_book.specs.Kept.{StandsFor, IsRead, ReadsOn};

    /// Those of a book in which nothing stands. They take no memory.
    pub fn new(alloc: Global) -> Pages
        ensures empty { IsRead [] result }
    {
        Pages {
            shelves: BTreeMap::new(alloc),
            seals: 0,
            marks: 0,
        }
    }

    /// How many batches there are under an id.
    pub fn count(&self, id: u64) -> u32
        ensures value { result ≡ length (moments_on (shelf_of self.now.shelves id)) }
    {
        batch_count(&self.shelves, id) as u32
    }

    /// The moment of a batch.
    pub fn moment(&self, id: u64, index: u32) -> Option<u64>
        ensures value { result ≡ slice_get (moments_on (shelf_of self.now.shelves id)) index }
    {
        moment_under(&self.shelves, id, index)
    }

    /// The mark of a place.
    pub fn mark(&self, id: u64, place: u32) -> Option<Mark>
        ensures value { result ≡ slice_get (marks_on (shelf_of self.now.shelves id)) place }
    {
        mark_under(&self.shelves, id, place)
    }

    /// The first digest of a name.
    pub fn digest(&self, id: u64, name: Name) -> Option<&[u8; 32]>
        ensures value { option_copied result ≡ digest_on (shelf_of self.now.shelves id) name }
    {
        digest_under(&self.shelves, id, name)
    }

    /// Whether there is room for so many more seals.
    pub fn has_room(&self, seals: usize) -> bool
        ensures value { result ≡ nat_le (self.now.seals + seals) max_seals }
    {
        seals as u64 <= MAX_SEALS - self.seals
    }

    /// Whether there is room for one more mark.
    pub fn has_room_for_mark(&self) -> bool
        ensures value { result ≡ nat_lt self.now.marks max_marks }
    {
        self.marks < MAX_MARKS
    }

    /// Adds a batch.
    pub fn add_batch(
        &mut self,
        alloc: Global,
        id: u64,
        moment: u64,
        seals: &[Seal],
    ) -> Result<(), AllocError>
        requires some { 1 ≤ length seals.now }
        requires room { self.old.seals + length seals.now ≤ max_seals }
        ensures stands { OnOk result ((calls : List Call) (index : ℕ) → StandsFor calls self.old
            → StandsFor (calls ++ file id index (batch_of moment seals.now) ∷ []) self.new) }
    {
        shelve_batch(alloc, &mut self.shelves, id, moment, seals)?;
        self.seals += seals.len() as u64;
        Ok(())
    }

    /// Adds a mark.
    pub fn add_mark(&mut self, alloc: Global, id: u64, mark: Mark) -> Result<(), AllocError>
        requires room { self.old.marks < max_marks }
        ensures stands { OnOk result ((calls : List Call) → StandsFor calls self.old
            → StandsFor (calls ++ note id mark ∷ []) self.new) }
    {
        shelve_mark(alloc, &mut self.shelves, id, mark)?;
        self.marks += 1;
        Ok(())
    }

    /// Adds what an entry says, and answers whether it may come next.
    pub fn take(&mut self, alloc: Global, entry: &Entry) -> Result<bool, AllocError>
        requires fits { FitsCall (call_in entry.now) }
        ensures value { IfOk result (λ next. (calls : List Call) → IsRead calls self.old
            → ReadsOn calls (call_in entry.now ∷ []) next self.new) }
    {
        match entry {
            Entry::File {
                id,
                index,
                moment,
                seals,
            } => self.take_batch(alloc, *id, *index, *moment, seals.as_slice()),
            Entry::Note { id, mark } => self.take_mark(alloc, *id, *mark),
        }
    }

    fn take_batch(
        &mut self,
        alloc: Global,
        id: u64,
        index: u32,
        moment: u64,
        seals: &[Seal],
    ) -> Result<bool, AllocError>
        requires some { 1 ≤ length seals.now }
        ensures value { IfOk result (λ next. (calls : List Call) → IsRead calls self.old
            → ReadsOn calls (file id index (batch_of moment seals.now) ∷ []) next self.new) }
    {
        if index != self.count(id) {
            return Ok(false);
        }
        if !self.has_room(seals.len()) {
            return Ok(false);
        }
        self.add_batch(alloc, id, moment, seals)?;
        Ok(true)
    }

    fn take_mark(&mut self, alloc: Global, id: u64, mark: Mark) -> Result<bool, AllocError>
        ensures value { IfOk result (λ next. (calls : List Call) → IsRead calls self.old
            → ReadsOn calls (note id mark ∷ []) next self.new) }
    {
        if !self.has_room_for_mark() {
            return Ok(false);
        }
        self.add_mark(alloc, id, mark)?;
        Ok(true)
    }
}
