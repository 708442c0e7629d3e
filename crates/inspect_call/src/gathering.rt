//! All that is odd about a store and its books, each at its device.

ghost use Rattle.std.specs.Prelude.{◌≡◌, ◌++◌, ◌+◌, ◌^◌, ◌-◌, min, max, fold, map, ℕ, List, Some, None, IfOk, OnOk, length};
ghost use Rattle.std.specs.Option.{option_copied};
ghost use Rattle.file_findings.specs.declared.finding.Device.TheVariants.{Store};
ghost use Rattle.file_findings.specs.Placed.{placed};
ghost use Rattle.inspect_call.specs.Gathered.{known_of, is_filed, judged, most_sealed, behind_by, store_findings, with_known, device_for, book_after, gathered, items_in, entries_in};

use crate::both::{note_behind, note_both};
use book_inspect::{BookSeen, compare};
use file_findings::{Device, Finding, Found, Made, note_all, place_all};
use std::alloc::Global;
use store_inspect::{StoreKnown, StoreSeen};

/// Whether a book has a batch under the id.
fn is_filed(books: &[BookSeen]) -> bool
    ensures value { result ≡ is_filed books.now }
{
    books.iter().any(|book| book.batches > 0)
}

/// A store that is missing is lost, where something of it was filed.
fn judged(lost: bool, finding: Finding) -> Finding
    ensures value { result ≡ judged lost finding }
{
    match finding {
        Finding::NoStore => if lost {
            Finding::LostStore
        } else {
            Finding::NoStore
        },
        other => other,
    }
}

/// How many tiles the book has sealed that sealed most.
fn most_sealed(books: &[BookSeen]) -> u64
    ensures value { result ≡ most_sealed books.now }
{
    let mut most = 0;
    for book in books {
        most = most.max(book.batches.saturating_sub(1));
    }
    most
}

/// What is odd about the store.
fn store_findings(alloc: Global, store: &StoreSeen, books: &[BookSeen]) -> Made<Vec<Finding>>
    ensures value { IfOk result (λ found. found.items ≡ store_findings (Some store.now) books.now) }
{
    let lost = is_filed(books);
    let mut found = Vec::new(alloc);
    for finding in &store.findings {
        found.push(judged(lost, *finding))?;
    }
    add_behind(&mut found, store, most_sealed(books))?;
    Ok(found)
}

fn add_behind(found: &mut Vec<Finding>, store: &StoreSeen, sealed: u64) -> Made<()>
    ensures value { OnOk result (found.new.items ≡ found.old.items ++ behind_by store.now.known sealed) }
{
    match &store.known {
        Some(known) => note_behind(found, known, sealed),
        None => Ok(()),
    }
}

fn device_for(count: usize, number: u64) -> Device
    ensures value { result ≡ device_for count number }
{
    if count == 1 {
        Device::Book
    } else {
        Device::BookOf { number }
    }
}

/// What is odd about a book by itself and by the store.
fn book_findings(
    alloc: Global,
    known: Option<&StoreKnown>,
    id: u64,
    book: &BookSeen,
) -> Made<Vec<Finding>>
    ensures value { IfOk result (λ found. found.items ≡ book.now.findings.items ++ with_known (option_copied known.entry) id book.now) }
{
    let mut found = Vec::new(alloc);
    note_all(&mut found, &book.findings)?;
    add_known(alloc, &mut found, known, id, book)?;
    Ok(found)
}

fn add_known(
    alloc: Global,
    found: &mut Vec<Finding>,
    known: Option<&StoreKnown>,
    id: u64,
    book: &BookSeen,
) -> Made<()>
    ensures value { OnOk result (found.new.items ≡ found.old.items ++ with_known (option_copied known.entry) id book.now) }
{
    match known {
        Some(known) if book.is_book => note_both(alloc, found, known, id, book),
        _ => Ok(()),
    }
}

/// The header's store, where one is named and has one.
pub(crate) fn known_of(store: &Option<StoreSeen>) -> Option<&StoreKnown>
    ensures value { option_copied result ≡ known_of store.now }
{
    match store {
        Some(store) => store.known.as_ref(),
        None => None,
    }
}

fn place_store(
    alloc: Global,
    found: &mut Vec<Found>,
    store: &Option<StoreSeen>,
    books: &[BookSeen],
) -> Made<()>
    ensures value { OnOk result (found.new.items ≡ found.old.items ++ placed Store (store_findings store.now books.now)) }
{
    match store {
        Some(seen) => {
            let findings = store_findings(alloc, seen, books)?;
            place_all(found, Device::Store, &findings)
        }
        None => Ok(()),
    }
}

/// All that is odd, device by device.
pub(crate) fn gathered(
    alloc: Global,
    id: u64,
    store: &Option<StoreSeen>,
    books: &[BookSeen],
) -> Made<Vec<Found>>
    ensures value { IfOk result (λ found. found.items ≡ gathered id store.now books.now) }
{
    let mut found = Vec::new(alloc);
    place_store(alloc, &mut found, store, books)?;
    let mut number: u64 = 0;
    for book in books {
        number += 1;
        let findings = book_findings(alloc, known_of(store), id, book)?;
        place_all(&mut found, device_for(books.len(), number), &findings)?;
    }
    let more = compare(alloc, id, books)?;
    found.extend_from_slice(&more)?;
    Ok(found)
}

/// How many items the store has.
pub(crate) fn items_in(known: Option<&StoreKnown>) -> u64
    ensures value { result ≡ items_in (option_copied known.entry) }
{
    match known {
        Some(known) => known.items,
        None => 0,
    }
}

/// How many entries the books have.
pub(crate) fn entries_in(books: &[BookSeen]) -> u64
    ensures value { result ≡ entries_in books.now }
{
    let mut count: u64 = 0;
    for book in books {
        count = count.saturating_add(book.entries);
    }
    count
}
