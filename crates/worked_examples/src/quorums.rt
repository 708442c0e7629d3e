//! What the program answers over several notaries, one of which lies.

ghost use Rattle.std.specs.Prelude.{◌≡◌, ◌≤◌, length};
ghost use Rattle.notary_link.specs.Batches.{IsName};

use crate::desk::{audit, sealed, tells};
use disk_model::MemDisk;
use notary_book::Book;
use notary_link::{Answer, Name, Notary, Seal};
use notary_quorum::{Quorum, Said, Split};
use std::alloc::{AllocError, Global};
use std::test::Fail;

/// A quorum of the notaries that keep these books.
fn quorum(alloc: Global, books: Vec<MemDisk>) -> Result<Quorum<Book<MemDisk>>, AllocError>
    requires some { 1 ≤ length books.items }
    requires few { length books.items ≤ 9 }
{
    let mut books = books;
    let mut members = Vec::new(alloc);
    'books: while !books.is_empty() {
        members.push(Book::new(alloc, books.remove(0)))?;
    }
    Ok(Quorum::new(members))
}

/// A seal of 32 zero bytes.
fn seal(name: Name) -> Seal
    requires { IsName name }
    ensures { result.name ≡ name }
{
    Seal {
        name,
        digest: [0; 32],
    }
}

/// The book of a notary to which such seals were filed.
fn other_book(alloc: Global) -> Result<MemDisk, Fail> {
    let mut book = Book::new(alloc, MemDisk::new(alloc));
    book.file(7, 0, 480, &[seal(Name::Header)])?;
    book.file(7, 1, 480, &[seal(Name::Cum { tile: 0 })])?;
    Ok(book.into_disk())
}

/// How many notaries filed the store's digests, beside one with others; how a validation ends, and what it tells.
const ROWS: [(usize, u8, &str); 2] = [(2, 0, "clean 1\n"), (1, 6, "fault NotaryFault\n")];

#[test]
fn one_of_three_that_lies_is_outvoted_and_one_of_two_is_not(rt: HostRuntime) -> Result<(), Fail> {
    let alloc = rt.alloc();
    let mut right = Book::new(alloc, MemDisk::new(alloc));
    let mut store = sealed(alloc, "init 7 60 3 ta", 8, &mut right)?;
    let right = right.into_disk();
    let differs = Split {
        first: Said::Asked(Answer::Same),
        other: Said::Asked(Answer::Differs),
    };
    for (count, status, text) in ROWS {
        let mut books = Vec::new(alloc);
        for _ in 0..count {
            books.push(MemDisk::holding(alloc, right.bytes().to_vec(alloc)?))?;
        }
        books.push(other_book(alloc)?)?;
        if !books.is_empty() && books.len() <= 9 {
            let mut quorum = quorum(alloc, books)?;
            let told = audit(alloc, &mut store, &mut quorum, "validate 7", "", &[500])?;
            tells(&rt, "validate 7", &told, status, text);
            assert_eq!(rt; quorum.last_split(), Some(differs));
        }
    }
    Ok(())
}
