//! What is odd about a book file.

ghost use Rattle.std.specs.Prelude.{◌≡◌, ◌≤◌, ◌<◌, ◌+◌, ◌++◌, ◌∷◌, [], ◌^◌, List, ℕ, None, ◌==◌, nat_eq, drop, slice_index, IfSome, IfOk, IfErr, OnOk};
ghost use Rattle.std.specs.List.{common_prefix_len};
ghost use Rattle.outside_words.specs.Faults.{HasCause, HidesNoFault};
ghost use Rattle.byte_grammar.specs.Gated.{open_gate};
ghost use Rattle.disk_words.specs.Disk.{Unchanged, GoesOn};
ghost use Rattle.disk_words.specs.declared.DiskFail.TheVariants.{Failed};
ghost use Rattle.txn_journal.specs.declared.fail.JournalFail.TheVariants.{DiskFault};
ghost use Rattle.txn_journal.specs.Opening.{IsOfDisk};
ghost use Rattle.notary_book.specs.Books.{book_head, book_shape, calls_in};
ghost use Rattle.file_findings.specs.Tail.{tail_of};
ghost use Rattle.book_inspect.specs.KnownEntries.{KnowsEntries};
ghost use Rattle.book_inspect.specs.Book.{book_in, front_of_head, without_head, ending_in, file_findings, entry_findings};
ghost use Rattle.book_inspect.specs.Order.{foreign, ahead, first_one};
ghost use Rattle.book_inspect.specs.Seen.{IsRead, IsSeen};

use crate::entries::Entries;
use crate::order::Order;
use disk_model::{Disk, DiskFail, read_whole};
use file_findings::{Ending, Finding, Made, note, note_all, note_tail};
use notary_book::BookShape;
use std::alloc::Global;
use tuple_bytes::{Blob, Payloads};
use txn_journal::{JournalFail, is_free, open_journal};

/// A book file that was read: whether it has a book's head, and what it spells.
#[derive(Drop)]
pub struct BookRead {
    pub is_book: bool,
    pub payloads: Payloads,
    /// What is odd about the file, whatever its entries say.
    pub found: Vec<Finding>,
}

/// A book file that was looked at, under an id.
#[derive(Drop)]
pub struct BookSeen {
    pub is_book: bool,
    pub payloads: Payloads,
    pub findings: Vec<Finding>,
    /// How many entries there are, under any id.
    pub entries: u64,
    /// How many batches there are under the id.
    pub batches: u64,
}

/// Reads a book file.
pub fn read_book<D: Disk>(alloc: Global, disk: &mut D) -> Result<BookRead, JournalFail>
    ensures exact { IfSome (D.state disk.old).reads (λ bytes. IfOk result (IsRead bytes)) }
    ensures none_other { IfErr result IsOfDisk }
    ensures same { Unchanged (D.state disk.old) (D.state disk.new) }
    ensures frame { GoesOn (D.state disk.old) (D.state disk.new) }
    ensures cause { HasCause DiskFault (D.state disk.old).faults (D.state disk.new).faults result }
    ensures counted { HidesNoFault (D.state disk.old).faults (D.state disk.new).faults result }
{
    match open_journal::<D, BookShape>(alloc, disk) {
        Ok(opened) => {
            let all = read_whole(alloc, disk)?;
            let found = tail_in(alloc, opened.journal.end(), &all)?;
            Ok(BookRead {
                is_book: true,
                payloads: opened.payloads,
                found,
            })
        }
        Err(JournalFail::NotAStore) => read_other(alloc, disk),
        Err(JournalFail::NoMemory) => Err(JournalFail::NoMemory),
        Err(_) => Err(JournalFail::DiskFault),
    }
}

/// What follows the gate that ends the records.
fn tail_in(alloc: Global, end: u64, all: &[u8]) -> Made<Vec<Finding>>
    requires small { end < 2 ^ 63 }
    ensures value { IfOk result (λ found. found.items ≡ tail_of book_shape (ending_in end all.now) (drop (end + 1) all.now)) }
{
    let mut found = Vec::new(alloc);
    let ending = Ending {
        segment: 0,
        gate: end,
        reach: end + 262_149,
        is_open: is_open_at(all, end as usize),
    };
    note_tail::<BookShape>(&mut found, ending, past(all, end as usize + 1))?;
    Ok(found)
}

/// Whether an open gate stands there.
fn is_open_at(all: &[u8], place: usize) -> bool
    ensures value { result ≡ (slice_index all.now place == open_gate) }
{
    if place < all.len() {
        all[place] == 0xA7
    } else {
        false
    }
}

/// What stands from a place on.
fn past(all: &[u8], place: usize) -> &[u8]
    ensures value { result.now ≡ drop place all.now }
{
    if place <= all.len() {
        &all[place..]
    } else {
        &[]
    }
}

/// Reads a file that has no book's head.
fn read_other<D: Disk>(alloc: Global, disk: &mut D) -> Result<BookRead, JournalFail>
    ensures exact { IfSome (D.state disk.old).reads (λ bytes. book_in bytes ≡ None → IfOk result (IsRead bytes)) }
    ensures none_other { IfErr result IsOfDisk }
    ensures same { Unchanged (D.state disk.old) (D.state disk.new) }
    ensures frame { GoesOn (D.state disk.old) (D.state disk.new) }
    ensures cause { HasCause DiskFault (D.state disk.old).faults (D.state disk.new).faults result }
    ensures counted { HidesNoFault (D.state disk.old).faults (D.state disk.new).faults result }
{
    let finding = finding_without_head(disk)?;
    let found = only(alloc, finding)?;
    Ok(BookRead {
        is_book: false,
        payloads: Payloads::new(alloc),
        found,
    })
}

/// This finding alone.
pub(crate) fn only(alloc: Global, finding: Finding) -> Made<Vec<Finding>>
    ensures value { IfOk result (λ found. found.items ≡ finding ∷ []) }
{
    let mut found = Vec::new(alloc);
    found.push(finding)?;
    Ok(found)
}

fn finding_without_head<D: Disk>(disk: &mut D) -> Result<Finding, DiskFail>
    ensures value { IfSome (D.state disk.old).reads (λ bytes. IfOk result (λ finding. finding ≡ without_head bytes)) }
    ensures same { Unchanged (D.state disk.old) (D.state disk.new) }
    ensures frame { GoesOn (D.state disk.old) (D.state disk.new) }
    ensures cause { HasCause Failed (D.state disk.old).faults (D.state disk.new).faults result }
    ensures counted { HidesNoFault (D.state disk.old).faults (D.state disk.new).faults result }
{
    if is_free(disk)? {
        return Ok(Finding::NoBook);
    }
    let byte = shared_front(disk)?;
    Ok(Finding::DamagedFront(byte))
}

/// How many bytes the file has in common with a book's head.
fn shared_front<D: Disk>(disk: &mut D) -> Result<u64, DiskFail>
    ensures value { IfSome (D.state disk.old).reads (λ bytes. IfOk result (λ n. n ≡ front_of_head bytes)) }
    ensures same { Unchanged (D.state disk.old) (D.state disk.new) }
    ensures frame { GoesOn (D.state disk.old) (D.state disk.new) }
    ensures cause { HasCause Failed (D.state disk.old).faults (D.state disk.new).faults result }
    ensures counted { HidesNoFault (D.state disk.old).faults (D.state disk.new).faults result }
{
    let mut front = [0; 64];
    let count = disk.read_at(0, &mut front)?;
    let head = book_head();
    Ok(shared(&front[..count], &head) as u64)
}

/// An open gate and the letters of the format, and zeros.
fn book_head() -> [u8; 64]
    ensures value { result ≡ book_head }
{
    let mut out = [0; 64];
    out[..9].copy_from_slice(b"\xa7DRAGBOK1");
    out
}

/// How many bytes two slices have in common at their fronts.
fn shared(xs: &[u8], ys: &[u8]) -> usize
    ensures value { result ≡ common_prefix_len nat_eq xs.now ys.now }
{
    let most = xs.len().min(ys.len());
    for i in 0..most {
        if xs[i] != ys[i] {
            return i;
        }
    }
    most
}

/// Looks at a book that was read, under an id, at a second of the clock.
pub fn look_at(alloc: Global, id: u64, second: u64, read: BookRead) -> Made<BookSeen>
    ensures kept { IfOk result (λ seen. seen.payloads ≡ read.payloads) }
    ensures exact { IfOk result (λ seen. (bytes : List ℕ) → IsRead bytes read → IsSeen id second bytes seen) }
{
    let BookRead {
        is_book,
        payloads,
        found: mut findings,
    } = read;
    let entries = taken(alloc, payloads.as_slice(), id)?;
    add_entry_findings(alloc, &mut findings, second, &entries, payloads.as_slice())?;
    Ok(BookSeen {
        is_book,
        payloads,
        findings,
        entries: entries.count,
        batches: entries.batches,
    })
}

/// Adds what is odd about entries that were gone over.
fn add_entry_findings(
    alloc: Global,
    findings: &mut Vec<Finding>,
    second: u64,
    entries: &Entries,
    payloads: &[Blob],
) -> Made<()>
    ensures value { OnOk result (KnowsEntries entries.now.id entries.now (calls_in payloads.now)
        → findings.new.items ≡ findings.old.items ++ entry_findings entries.now.id second (calls_in payloads.now)) }
{
    let order = Order::of(alloc, payloads)?;
    let first = order.found.len().min(1);
    note_all(findings, &order.found[..first])?;
    note_foreign(findings, order.first, entries.batches + entries.marks)?;
    let more = entries.findings(alloc)?;
    note_all(findings, &more)?;
    note_ahead(findings, entries.latest(), second)
}

fn note_foreign(findings: &mut Vec<Finding>, first: Option<u64>, own: u64) -> Made<()>
    ensures value { OnOk result (findings.new.items ≡ findings.old.items ++ foreign first own) }
{
    match first {
        Some(id) => note(findings, own == 0, Finding::OtherId(id)),
        None => Ok(()),
    }
}

fn note_ahead(findings: &mut Vec<Finding>, last: u64, second: u64) -> Made<()>
    ensures value { OnOk result (findings.new.items ≡ findings.old.items ++ ahead last second) }
{
    let finding = Finding::BookAhead(last, second);
    note(findings, second < last, finding)
}

/// Goes over the entries that payloads spell.
pub(crate) fn taken(alloc: Global, payloads: &[Blob], id: u64) -> Made<Entries>
    ensures value { IfOk result (λ e. KnowsEntries id e (calls_in payloads.now)) }
    ensures id { IfOk result (λ e. e.id ≡ id) }
{
    let mut entries = Entries::new(alloc, id);
    for payload in payloads {
        entries.take_payload(alloc, payload.as_slice())?;
    }
    Ok(entries)
}
