//! A stored run over files: a named store and a named book are there afterwards, and what only asks leaves none.

use crate::desk::{audit, tells};
use call_devices::{Access, Device, Named, Progress};
use notary_book::Book;
use std::fs;
use std::test::Fail;

const STORE: &str = "worked_examples_store";

const BOOK: &str = "worked_examples_book";

/// Calls over the two files, each with its script, its second, how it ends, what it writes, and which files are there then.
const CALLS: [(&str, &str, u64, u8, &str, bool, bool); 5] = [
    ("validate 7", "", 0, 0, "unsealed\n", false, false),
    ("init 7 60 0 m", "", 60, 0, "ready 7\n", true, false),
    ("run 7", "create t k int\n", 61, 0, "ok 1\n", true, false),
    ("notarize 7", "", 130, 0, "sealed 1\n", true, true),
    ("validate 7", "", 131, 0, "clean 1\n", true, true),
];

#[test]
fn a_named_store_and_a_named_book_are_there_afterwards(rt: HostRuntime) -> Result<(), Fail> {
    let _ = fs::remove_file(&rt, STORE);
    let _ = fs::remove_file(&rt, BOOK);
    let progress = Progress::new(&rt, false, false);
    for (words, script, second, status, text, has_store, has_book) in CALLS {
        let (word, path) = ("store", Some(STORE));
        let mut store = Device::named(&rt, Named { word, path }, Access::Writes, &progress)?;
        let (word, path) = ("notary", Some(BOOK));
        let book = Device::named(&rt, Named { word, path }, Access::Writes, &progress)?;
        let mut notary = Book::new(rt.alloc(), book);
        let told = audit(
            rt.alloc(),
            &mut store,
            &mut notary,
            words,
            script,
            &[second],
        )?;
        tells(&rt, words, &told, status, text);
        assert_eq!(rt; fs::exists(&rt, STORE)?, has_store, "{words}");
        assert_eq!(rt; fs::exists(&rt, BOOK)?, has_book, "{words}");
    }
    fs::remove_file(&rt, STORE)?;
    fs::remove_file(&rt, BOOK)?;
    Ok(())
}
