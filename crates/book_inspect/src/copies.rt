//! How several books stand to each other.

ghost use Rattle.std.specs.Prelude.{◌≡◌, ◌≤◌, ◌<◌, ◌+◌, ◌++◌, ◌∷◌, ◌^◌, [], ℕ, Some, not, nat_eq, IfOk, OnOk};
ghost use Rattle.std.specs.Cmp.Lexicographic.{pointwise};
ghost use Rattle.std.specs.List.{find, filter_map, slice_get};
ghost use Rattle.std.specs.Option.{option_copied};
ghost use Rattle.notary_book.specs.Entries.{call_in};
ghost use Rattle.book_inspect.specs.Copies.{own_in, lists_by, same_list, same_lists, is_most, other_for, is_same, behind, first_or_behind, held_against, lists_seen, findings_of_copy, copies, own_of};

use crate::book::{BookSeen, only};
use file_findings::{Device, Finding, Found, Made, note, place_all};
use notary_book::{Entry, decode};
use std::alloc::Global;
use tuple_bytes::{Blob, Payloads};

/// What an entry is under an id.
#[derive(Clone, Copy, Debug, PartialEq, Eq)]
pub(crate) enum Own {
    Batch,
    Mark,
    Neither,
}

/// The batches and the marks under an id, as they are spelled.
#[derive(Drop)]
pub(crate) struct Lists {
    pub filed: Payloads,
    pub noted: Payloads,
}

/// What a payload spells under an id.
fn own_in(alloc: Global, id: u64, payload: &[u8]) -> Made<Own>
    ensures value { IfOk result (λ own. own ≡ own_in id payload.now) }
{
    match decode(alloc, payload)? {
        Some(entry) => Ok(own_of(id, &entry)),
        None => Ok(Own::Neither),
    }
}

fn own_of(id: u64, entry: &Entry) -> Own
    ensures value { result ≡ own_of id (Some (call_in entry.now)) }
{
    match entry {
        Entry::File { id: of, .. } => if *of == id { Own::Batch } else { Own::Neither },
        Entry::Note { id: of, .. } => if *of == id { Own::Mark } else { Own::Neither },
    }
}

/// A copy of the lists that payloads spell.
fn lists_by(alloc: Global, id: u64, payloads: &[Blob]) -> Made<Lists>
    ensures value { IfOk result (λ lists. lists ≡ lists_by id payloads.now) }
{
    let mut filed = Payloads::new(alloc);
    let mut noted = Payloads::new(alloc);
    for payload in payloads {
        match own_in(alloc, id, payload.as_slice())? {
            Own::Batch => keep(alloc, &mut filed, payload.as_slice())?,
            Own::Mark => keep(alloc, &mut noted, payload.as_slice())?,
            Own::Neither => {}
        }
    }
    Ok(Lists { filed, noted })
}

/// Adds a copy of a payload.
fn keep(alloc: Global, list: &mut Payloads, payload: &[u8]) -> Made<()>
    ensures ok { OnOk result (list.new ≡ list.old ++ payload.now ∷ []) }
{
    list.push(Blob::from_vec(payload.to_vec(alloc)?))
}

fn same_bytes(x: &Blob, y: &Blob) -> bool
    ensures value { result ≡ pointwise nat_eq x.now y.now }
{
    x.as_slice() == y.as_slice()
}

fn same_list(xs: &[Blob], ys: &[Blob]) -> bool
    ensures value { result ≡ same_list xs.now ys.now }
{
    if xs.len() != ys.len() {
        return false;
    }
    for i in 0..xs.len() {
        if !same_bytes(&xs[i], &ys[i]) {
            return false;
        }
    }
    true
}

fn same_lists(a: &Lists, b: &Lists) -> bool
    ensures value { result ≡ same_lists a.now b.now }
{
    same_list(a.filed.as_slice(), b.filed.as_slice())
        && same_list(a.noted.as_slice(), b.noted.as_slice())
}

/// Whether more than half have these lists.
fn is_most(all: &[Lists], lists: &Lists) -> bool
    ensures value { result ≡ is_most all.now lists.now }
{
    let count = all.iter().filter(|other| same_lists(lists, other)).count();
    all.len() / 2 < count
}

/// The first lists that more than half have.
fn most_of(all: &[Lists]) -> Option<&Lists>
    ensures value { option_copied result ≡ find (is_most all.now) all.now }
{
    all.iter().find(|lists| is_most(all, lists))
}

/// The first lists that are others.
fn first_other<'a>(all: &'a [Lists], own: &Lists) -> Option<&'a Lists>
    ensures value { option_copied result ≡ find (λ lists. not (same_lists own.now lists)) all.now }
{
    all.iter().find(|lists| !same_lists(own, lists))
}

/// The lists that a book is held against.
fn other_for<'a>(all: &'a [Lists], own: &Lists) -> Option<&'a Lists>
    ensures value { option_copied result ≡ other_for all.now own.now }
{
    match most_of(all) {
        Some(most) => Some(most),
        None => first_other(all, own),
    }
}

/// Whether a list has these bytes at a place.
fn is_at(list: &[Blob], place: usize, payload: &[u8]) -> bool
    ensures value { result ≡ is_same (slice_get list.now place) payload.now }
{
    match list.get(place) {
        Some(other) => other.as_slice() == payload,
        None => false,
    }
}

/// How many entries there were so far, and those that are not the other's.
#[derive(Drop)]
pub(crate) struct Compared {
    pub entries: u64,
    pub batches: usize,
    pub marks: usize,
    pub found: Vec<Finding>,
    ghost few: { batches + marks ≤ entries },
}

impl Compared {
    ghost use Rattle.book_inspect.specs.KnownCopies.{KnowsApart, TakesOwn};
    ghost use Rattle.book_inspect.specs.declared.copies.Lists.{Lists as Others};

    fn new(alloc: Global) -> Compared
        ensures value { (id : ℕ) (other : Others) → KnowsApart id other result [] }
        ensures none { result.entries ≡ 0 }
    {
        Compared {
            entries: 0,
            batches: 0,
            marks: 0,
            found: Vec::new(alloc),
        }
    }

    /// Takes the next entry.
    fn take(&mut self, own: Own, other: &Lists, payload: &[u8]) -> Made<()>
        requires room { self.old.entries + 1 < 2 ^ 64 }
        ensures value { OnOk result (TakesOwn own other.now payload.now self.old self.new) }
        ensures few { self.new.entries ≤ self.old.entries + 1 }
    {
        match own {
            Own::Batch => self.take_batch(other, payload),
            Own::Mark => self.take_mark(other, payload),
            Own::Neither => {
                self.entries += 1;
                Ok(())
            }
        }
    }

    fn take_batch(&mut self, other: &Lists, payload: &[u8]) -> Made<()>
        requires room { self.old.entries + 1 < 2 ^ 64 }
        ensures value { OnOk result (TakesOwn Own.Batch other.now payload.now self.old self.new) }
        ensures few { self.new.entries ≤ self.old.entries + 1 }
    {
        let same = is_at(other.filed.as_slice(), self.batches, payload);
        self.entries += 1;
        let entry = self.entries;
        note(&mut self.found, !same, Finding::BookDiffers(entry))?;
        self.batches += 1;
        Ok(())
    }

    fn take_mark(&mut self, other: &Lists, payload: &[u8]) -> Made<()>
        requires room { self.old.entries + 1 < 2 ^ 64 }
        ensures value { OnOk result (TakesOwn Own.Mark other.now payload.now self.old self.new) }
        ensures few { self.new.entries ≤ self.old.entries + 1 }
    {
        let same = is_at(other.noted.as_slice(), self.marks, payload);
        self.entries += 1;
        let entry = self.entries;
        note(&mut self.found, !same, Finding::BookDiffers(entry))?;
        self.marks += 1;
        Ok(())
    }

    /// Goes over the entries that payloads spell.
    fn of(alloc: Global, id: u64, other: &Lists, payloads: &[Blob]) -> Made<Compared>
        ensures value { IfOk result (λ c. KnowsApart id other.now c payloads.now) }
    {
        let mut compared = Compared::new(alloc);
        for payload in payloads {
            let own = own_in(alloc, id, payload.as_slice())?;
            compared.take(own, other, payload.as_slice())?;
        }
        Ok(compared)
    }
}

/// What is odd about a book that is held against other lists than its own.
fn held_against(
    alloc: Global,
    id: u64,
    payloads: &[Blob],
    own: &Lists,
    other: &Lists,
) -> Made<Vec<Finding>>
    ensures value { IfOk result (λ found. own.now ≡ lists_by id payloads.now
        → found.items ≡ held_against id payloads.now (Some other.now)) }
{
    let compared = Compared::of(alloc, id, other, payloads)?;
    let behind = behind(alloc, own, other)?;
    first_or_behind(alloc, &compared.found, behind)
}

fn behind(alloc: Global, own: &Lists, other: &Lists) -> Made<Vec<Finding>>
    ensures value { IfOk result (λ found. found.items ≡ behind own.now other.now) }
{
    let mut found = Vec::new(alloc);
    let finding = Finding::BookBehind(
        own.filed.as_slice().len().saturating_sub(1) as u64,
        other.filed.as_slice().len().saturating_sub(1) as u64,
    );
    note(&mut found, !same_lists(own, other), finding)?;
    Ok(found)
}

fn first_or_behind(alloc: Global, apart: &[Finding], behind: Vec<Finding>) -> Made<Vec<Finding>>
    ensures value { IfOk result (λ found. found.items ≡ first_or_behind apart.now behind.items) }
{
    match apart {
        [] => Ok(behind),
        [first, ..] => only(alloc, *first),
    }
}

/// What is odd about one of several books.
fn of_copy(alloc: Global, id: u64, all: &[Lists], book: &BookSeen) -> Made<Vec<Finding>>
    ensures value { IfOk result (λ found. found.items ≡ findings_of_copy id all.now book.now) }
{
    if !book.is_book {
        return Ok(Vec::new(alloc));
    }
    let own = lists_by(alloc, id, book.payloads.as_slice())?;
    match other_for(all, &own) {
        Some(other) => held_against(alloc, id, book.payloads.as_slice(), &own, other),
        None => Ok(Vec::new(alloc)),
    }
}

/// The lists of each book that has a head.
fn all_lists(alloc: Global, id: u64, books: &[BookSeen]) -> Made<Vec<Lists>>
    ensures value { IfOk result (λ all. all.items ≡ filter_map (lists_seen id) books.now) }
{
    let mut all = Vec::new(alloc);
    for book in books {
        add_lists(alloc, id, &mut all, book)?;
    }
    Ok(all)
}

fn add_lists(alloc: Global, id: u64, all: &mut Vec<Lists>, book: &BookSeen) -> Made<()>
    ensures value { OnOk result (all.new.items ≡ all.old.items ++ filter_map (lists_seen id) (book.now ∷ [])) }
{
    if !book.is_book {
        return Ok(());
    }
    let lists = lists_by(alloc, id, book.payloads.as_slice())?;
    all.push(lists)?;
    Ok(())
}

/// What is odd about several books, from the first one to the last.
pub fn compare(alloc: Global, id: u64, books: &[BookSeen]) -> Made<Vec<Found>>
    ensures exact { IfOk result (λ found. found.items ≡ copies id books.now) }
{
    let mut found = Vec::new(alloc);
    if books.len() < 2 {
        return Ok(found);
    }
    let all = all_lists(alloc, id, books)?;
    let mut number: u64 = 0;
    for book in books {
        number += 1;
        let findings = of_copy(alloc, id, all.as_slice(), book)?;
        place_all(&mut found, Device::BookOf { number }, &findings)?;
    }
    Ok(found)
}
