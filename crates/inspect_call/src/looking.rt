//! A look at a store and its books.

ghost use Rattle.std.specs.Prelude.{◌≡◌, ◌++◌, ◌∷◌, [], map, IfOk, IfSome, OnOk, IsErrOf};
ghost use Rattle.std.specs.List.{AllZip};
ghost use Rattle.std.specs.Option.{option_map, option_copied};
ghost use Rattle.outside_words.specs.Faults.{HasCause};
ghost use Rattle.disk_words.specs.Disk.{Unchanged, GoesOn};
ghost use Rattle.book_inspect.specs.Seen.{IsRead};
ghost use Rattle.segment_file.specs.declared.fail.SegmentFail.TheVariants.{DiskFault as StoreFault};
ghost use Rattle.segment_file.specs.Fail.{IsOfReading};
ghost use Rattle.txn_journal.specs.declared.fail.JournalFail.TheVariants.{DiskFault as BookFault};
ghost use Rattle.txn_journal.specs.Opening.{IsOfDisk};
ghost use Rattle.notary_book.specs.Books.{calls_in};
ghost use Rattle.book_inspect.specs.Order.{first_id};
ghost use Rattle.inspect_call.specs.Gathered.{id_for, first_among};
ghost use Rattle.inspect_call.specs.Looked.{Same, WhereNamed, NamedRose, SomeRose, SeesStore, ReadsBook, AddsRead, LooksAt, IsLooked};
ghost use Rattle.inspect_call.specs.declared.looking.LookFail.TheVariants.{DiskFault, NotaryFault, NoMemory};

use crate::gathering::{entries_in, gathered, items_in, known_of};
use book_inspect::{BookRead, BookSeen, first_id, look_at, read_book};
use disk_model::Disk;
use file_findings::{Found, Made};
use segment_file::SegmentFail;
use std::alloc::{AllocError, Global};
use store_inspect::{StoreKnown, StoreSeen, inspect_store};
use txn_journal::JournalFail;

/// What was found, and how much was looked at.
#[derive(Drop)]
pub struct Looked {
    pub found: Vec<Found>,
    pub items: u64,
    pub entries: u64,
}

/// Why there was no look.
#[derive(Clone, Copy, Debug, PartialEq, Eq)]
pub(crate) enum LookFail {
    DiskFault,
    NotaryFault,
    NoMemory,
}

impl From<AllocError> for LookFail {
    ghost from_gives = { λ _ e. e ≡ NoMemory };

    fn from(_: AllocError) -> Self {
        LookFail::NoMemory
    }
}

/// Looks at the store, where one is named.
fn see_store<S: Disk>(
    alloc: Global,
    id: Option<u64>,
    second: u64,
    store: &mut Option<S>,
) -> Result<Option<StoreSeen>, LookFail>
    ensures sees { IfOk result (SeesStore id second (option_map (λ s. (S.state s).reads) store.old)) }
    ensures same { WhereNamed (λ old new. Same (S.state old) (S.state new)) store.old store.new }
    ensures cause { IsErrOf result DiskFault → NamedRose (option_map (λ s. (S.state s).faults) store.old) (option_map (λ s. (S.state s).faults) store.new) }
    ensures none_other { ¬ IsErrOf result NotaryFault }
{
    match store {
        Some(disk) => match inspect_store(alloc, id, second, disk) {
            Ok(seen) => Ok(Some(seen)),
            Err(SegmentFail::NoMemory) => Err(LookFail::NoMemory),
            Err(_) => Err(LookFail::DiskFault),
        },
        None => Ok(None),
    }
}

/// Reads a book.
fn read_one<B: Disk>(alloc: Global, book: &mut B) -> Result<BookRead, LookFail>
    ensures reads { IfSome (B.state book.old).reads (λ bytes. IfOk result (IsRead bytes)) }
    ensures same { Unchanged (B.state book.old) (B.state book.new) }
    ensures frame { GoesOn (B.state book.old) (B.state book.new) }
    ensures cause { HasCause NotaryFault (B.state book.old).faults (B.state book.new).faults result }
    ensures none_other { ¬ IsErrOf result DiskFault }
{
    match read_book(alloc, book) {
        Ok(read) => Ok(read),
        Err(JournalFail::NoMemory) => Err(LookFail::NoMemory),
        Err(_) => Err(LookFail::NotaryFault),
    }
}

/// Adds a book that is read.
fn add_one<B: Disk>(alloc: Global, reads: &mut Vec<BookRead>, book: &mut B) -> Result<(), LookFail>
    ensures reads { OnOk result (AddsRead (B.state book.old).reads reads.old.items reads.new.items) }
    ensures same { Unchanged (B.state book.old) (B.state book.new) }
    ensures frame { GoesOn (B.state book.old) (B.state book.new) }
    ensures cause { HasCause NotaryFault (B.state book.old).faults (B.state book.new).faults result }
    ensures none_other { ¬ IsErrOf result DiskFault }
{
    let read = read_one(alloc, book)?;
    push_read(reads, read)?;
    Ok(())
}

fn push_read(reads: &mut Vec<BookRead>, read: BookRead) -> Made<()>
    ensures value { OnOk result (reads.new.items ≡ reads.old.items ++ read ∷ []) }
{
    reads.push(read)?;
    Ok(())
}

/// Reads each book.
fn read_books<B: Disk>(alloc: Global, books: &mut [B]) -> Result<Vec<BookRead>, LookFail>
    ensures reads { IfOk result (λ reads. AllZip ReadsBook (map (λ b. (B.state b).reads) books.old) reads.items) }
    ensures same { AllZip (λ old new. Same (B.state old) (B.state new)) books.old books.new }
    ensures cause { IsErrOf result NotaryFault → SomeRose (map (λ b. (B.state b).faults) books.old) (map (λ b. (B.state b).faults) books.new) }
    ensures none_other { ¬ IsErrOf result DiskFault }
{
    let mut reads = Vec::new(alloc);
    for book in books.iter_mut() {
        add_one(alloc, &mut reads, book)?;
    }
    Ok(reads)
}

/// The id of the first entry of the first book that has one, or 0.
fn first_among(alloc: Global, reads: &[BookRead]) -> Made<u64>
    ensures value { IfOk result (λ id. id ≡ first_among (map (λ r. r.payloads) reads.now)) }
{
    for read in reads {
        if let Some(id) = first_id(alloc, read.payloads.as_slice())? {
            return Ok(id);
        }
    }
    Ok(0)
}

/// The id that is asked for, else that of the store, else that of the books.
fn id_for(
    alloc: Global,
    id: Option<u64>,
    known: Option<&StoreKnown>,
    reads: &[BookRead],
) -> Made<u64>
    ensures value { IfOk result (λ own. own ≡ id_for id (option_copied known.entry) (map (λ r. r.payloads) reads.now)) }
{
    match (id, known) {
        (Some(id), _) => Ok(id),
        (None, Some(known)) => Ok(known.header.id),
        (None, None) => first_among(alloc, reads),
    }
}

/// Looks at each book that was read.
fn see_books(alloc: Global, id: u64, second: u64, reads: Vec<BookRead>) -> Made<Vec<BookSeen>>
    ensures looks { IfOk result (λ all. AllZip (LooksAt id second) reads.items all.items) }
{
    let mut all = Vec::new(alloc);
    for read in reads {
        all.push(look_at(alloc, id, second, read)?)?;
    }
    Ok(all)
}

/// Looks at a store and its books, at a second of the clock.
pub(crate) fn look<S: Disk, B: Disk>(
    alloc: Global,
    id: Option<u64>,
    second: u64,
    store: &mut Option<S>,
    books: &mut [B],
) -> Result<Looked, LookFail>
    ensures exact { IfOk result (IsLooked id second (option_map (λ s. (S.state s).reads) store.old) (map (λ b. (B.state b).reads) books.old)) }
    ensures store { WhereNamed (λ old new. Same (S.state old) (S.state new)) store.old store.new }
    ensures books { AllZip (λ old new. Same (B.state old) (B.state new)) books.old books.new }
    ensures disk_cause { IsErrOf result DiskFault → NamedRose (option_map (λ s. (S.state s).faults) store.old) (option_map (λ s. (S.state s).faults) store.new) }
    ensures notary_cause { IsErrOf result NotaryFault → SomeRose (map (λ b. (B.state b).faults) books.old) (map (λ b. (B.state b).faults) books.new) }
{
    let seen = see_store(alloc, id, second, store)?;
    let reads = read_books(alloc, books)?;
    let own = id_for(alloc, id, known_of(&seen), reads.as_slice())?;
    let all = see_books(alloc, own, second, reads)?;
    let found = gathered(alloc, own, &seen, all.as_slice())?;
    Ok(Looked {
        found,
        items: items_in(known_of(&seen)),
        entries: entries_in(all.as_slice()),
    })
}
