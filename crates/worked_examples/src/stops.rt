//! A disk or a notary that fails at each of its calls in turn, a crash after it, and the retry.

use crate::desk::{audit, call, made, notary, sealed, tells};
use disk_model::MemDisk;
use notary_book::Book;
use sha2::{Digest, Sha256};
use std::alloc::{AllocError, Global};
use std::test::Fail;

const SCRIPT: &str = "create t k int\ninsert t 1\nnow 240\ninsert t 2\nnotarize\nvalidate\n";

const REPLIES: &str = "ok 1\nok 2\nok\nok 3\nsealed 1\nclean 1\n";

/// What the lines `get t 1` and `get t 2` are told where so many of the three transactions are stored.
const STORED: [&str; 4] = [
    "refused NoTable\nrefused NoTable\n",
    "none\nnone\n",
    "row 1\nnone\n",
    "row 1\nrow 2\n",
];

#[test]
fn a_disk_that_fails_keeps_what_was_acknowledged(rt: HostRuntime) -> Result<(), Fail> {
    let alloc = rt.alloc();
    let [no_table, no_row, a_row, both] = STORED;
    for failing in 1u64..14 {
        for choice in [0, 1, 200] {
            let mut store = made(alloc, "init 9 60 2 m")?;
            store.failing(Vec::new(alloc), [failing].to_vec(alloc)?);
            let told = call(alloc, &mut store, "run 9 scripted", SCRIPT, &[])?;
            let (status, wanted, acknowledged, or_more) = match failing {
                1..=4 => (5, "fault DiskFault\n", no_table, no_row),
                5..=8 => (5, "ok 1\nfault DiskFault\n", no_row, a_row),
                9..=12 => (5, "ok 1\nok 2\nok\nfault DiskFault\n", a_row, both),
                _ => (0, REPLIES, both, both),
            };
            tells(&rt, "a run", &told, status, wanted);
            store.crash(choice)?;
            store.failing(Vec::new(alloc), Vec::new(alloc));
            let asked = "get t 1\nget t 2\n";
            let (_, told) = call(alloc, &mut store, "run 9 scripted", asked, &[])?;
            let told = told.as_slice();
            assert!(rt; told == acknowledged.as_bytes() || told == or_more.as_bytes());
        }
    }
    Ok(())
}

const BEFORE_FILING: &str = "ok 1\nok 2\nok\nok 3\nfault NotaryFault\n";

const BEFORE_VERDICT: &str = "ok 1\nok 2\nok\nok 3\nsealed 1\nfault NotaryFault\n";

const RETRY: (&str, &str) = ("now 240\nnotarize\nvalidate\n", "ok\nsealed 1\nclean 1\n");

const AT_ONCE: (&str, &str) = ("notarize\nvalidate\n", "sealed 1\nclean 1\n");

/// The second at which the store is made; which question of the notary fails and which changing call; what the run
/// says; and the run after it with what that says.
type Asked = (
    u64,
    (u64, u64),
    u8,
    &'static str,
    (&'static str, &'static str),
);

/// The questions are the count; then the count, the header, the era behind the last one and the last link. The
/// changing calls are the header's batch, that of the tile, and the mark.
const ASKED: [Asked; 13] = [
    (0, (1, 0), 6, BEFORE_FILING, RETRY),
    (0, (2, 0), 6, BEFORE_VERDICT, RETRY),
    (0, (3, 0), 6, BEFORE_VERDICT, RETRY),
    (0, (4, 0), 6, BEFORE_VERDICT, RETRY),
    (0, (5, 0), 6, BEFORE_VERDICT, RETRY),
    (0, (6, 0), 0, REPLIES, RETRY),
    (0, (0, 1), 6, BEFORE_FILING, RETRY),
    (0, (0, 2), 6, BEFORE_FILING, RETRY),
    (0, (0, 3), 6, BEFORE_VERDICT, RETRY),
    (0, (0, 4), 0, REPLIES, RETRY),
    (5, (1, 0), 6, BEFORE_FILING, AT_ONCE),
    (5, (0, 1), 6, BEFORE_FILING, AT_ONCE),
    (5, (0, 2), 6, BEFORE_FILING, AT_ONCE),
];

#[test]
fn a_notary_that_fails_is_asked_again(rt: HostRuntime) -> Result<(), Fail> {
    let alloc = rt.alloc();
    for (second, (question, change), ended, wanted, (retry, again)) in ASKED {
        let mut store = MemDisk::new(alloc);
        let mut filed = notary(alloc);
        for (words, script, (asked, changed), status, text) in [
            ("init 9 60 2 m", "", (0, 0), 0, "ready 9\n"),
            ("run 9 scripted", SCRIPT, (question, change), ended, wanted),
            ("run 9 scripted", retry, (0, 0), 0, again),
        ] {
            filed.failing([asked].to_vec(alloc)?, [changed].to_vec(alloc)?);
            let told = audit(alloc, &mut store, &mut filed, words, script, &[second])?;
            tells(&rt, words, &told, status, text);
        }
    }
    Ok(())
}

/// The words of a call, its input, over how many sealed granules, how many reading calls of the disk it makes, and how
/// it ends. Of 301 items a piece of an audit leaves some.
const READS: [(&str, &str, u32, u64, u8); 10] = [
    ("link", "", 2, 3, 0),
    ("init 7 60 3 ta", "", 2, 1, 13),
    ("run 7", "insert t 9 9\n", 2, 4, 0),
    ("run 7", "audit\n", 300, 8, 0),
    ("run 8", "", 2, 1, 4),
    ("notarize 7", "", 2, 7, 0),
    ("validate 7", "", 2, 3, 0),
    ("analyse 7 mono", "", 2, 3, 0),
    ("analyse 7 tiled", "", 2, 3, 0),
    ("analyse 7 a3d", "", 2, 3, 0),
];

/// A reading call of the disk fails, the store is as it was, and the next call ends as if there had been none before.
#[test]
fn a_disk_that_cannot_be_read_is_left_as_it_was(rt: HostRuntime) -> Result<(), Fail> {
    let alloc = rt.alloc();
    for (words, input, granules, reads, status) in READS {
        for failing in 1..=reads.saturating_add(1) {
            let mut filed = notary(alloc);
            let mut store = sealed(alloc, "init 7 60 3 ta", granules, &mut filed)?;
            let before = store.bytes().to_vec(alloc)?;
            store.failing([failing].to_vec(alloc)?, Vec::new(alloc));
            let told = audit(alloc, &mut store, &mut filed, words, input, &[960])?;
            if failing <= reads {
                tells(&rt, words, &told, 5, "fault DiskFault\n");
                assert!(rt; store.bytes() == before.as_slice());
                let again = audit(alloc, &mut store, &mut filed, words, input, &[960])?;
                assert_eq!(rt; again.0, status, "{words}: {failing}");
            } else {
                assert_eq!(rt; told.0, status, "{words}: {failing}");
            }
        }
    }
    Ok(())
}

/// A notarization at the end of the first tile that is stopped by a failing call, with the store and
/// the book as a crash leaves them.
fn crash_in_notarize(
    alloc: Global,
    of_store: u64,
    of_book: u64,
    choice: u64,
) -> Result<(MemDisk, MemDisk), AllocError> {
    let mut store = made(alloc, "init 9 60 2 ta")?;
    let script = "create t k int\ninsert t 1\n";
    let _filled = call(alloc, &mut store, "run 9 scripted", script, &[])?;
    store.failing(Vec::new(alloc), vec![in alloc; of_store]?);
    let mut device = MemDisk::new(alloc);
    device.failing(Vec::new(alloc), vec![in alloc; of_book]?);
    let mut book = Book::new(alloc, device);
    let script = "now 240\nnotarize\n";
    let _stopped = audit(alloc, &mut store, &mut book, "run 9 scripted", script, &[])?;
    store.crash(choice)?;
    let mut device = book.into_disk();
    device.crash(choice)?;
    Ok((store, device))
}

/// After each stop and each crash: a clock that went back is refused, or the row is stored in the
/// tile that isn't sealed yet; then the tile is filed, and the store is clean.
#[test]
fn a_crash_between_the_store_and_the_book_leaves_both_sound(rt: HostRuntime) -> Result<(), Fail> {
    let alloc = rt.alloc();
    for stop in 1u64..32 {
        for choice in [0, 1, 200] {
            // the book syncs before it is read; four calls store the Frontier; and then come the book's
            let (of_store, of_book) = match stop {
                1 => (0, 1),
                2..=5 => (stop - 1, 0),
                _ => (0, stop - 4),
            };
            let (mut store, device) = crash_in_notarize(alloc, of_store, of_book, choice)?;
            let mut book = Book::new(alloc, device);
            let script = "validate\nnow 140\ninsert t 2\nnow 240\nnotarize\nvalidate\n";
            let (_, text) = audit(alloc, &mut store, &mut book, "run 9 scripted", script, &[])?;
            assert!(rt; text.ends_with(b"ok\nsealed 1\nclean 1\n"));
            assert!(rt; text.starts_with(b"unsealed\n") || text.starts_with(b"clean "));
            if stop > 5 {
                let refused = text
                    .windows(21)
                    .any(|part| part == b"refused ClockBack 240".as_slice());
                assert!(rt; refused);
            }
        }
    }
    Ok(())
}

/// The worked store and its book, against digests of another SHA-256. What is filed is that of the chains which
/// nine commits kept.
#[test]
fn the_worked_store_and_its_book_are_these_bytes(rt: HostRuntime) -> Result<(), Fail> {
    let alloc = rt.alloc();
    let mut book = Book::new(alloc, MemDisk::new(alloc));
    let mut store = sealed(alloc, "init 7 60 3 ta", 8, &mut book)?;
    let device = book.into_disk();
    for (bytes, length, digest) in [(store.bytes(), 445, STORE), (device.bytes(), 913, BOOK)] {
        assert_eq!(rt; bytes.len(), length);
        let mut hash = Sha256::new();
        hash.update(bytes);
        assert_eq!(rt; hex::encode(alloc, hash.finalize())?.as_str(), digest);
    }
    let mut again = Book::new(alloc, device);
    let told = audit(alloc, &mut store, &mut again, "validate 7", "", &[500])?;
    tells(&rt, "validate 7", &told, 0, "clean 1\n");
    assert_eq!(rt; again.into_disk().bytes().len(), 944);
    Ok(())
}

const STORE: &str = "36b5519f097376bd984fa1ccf739f3c4de3b9f8fed5de26649be54807f0cc3dc";

const BOOK: &str = "00fc928e99647354b4fae36b3cfbc87b08c45f1a855a295db221d487e59df44a";
