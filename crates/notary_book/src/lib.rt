//! A notary that keeps its book in a file over a disk: [`Book`] files batches of sealed digests and
//! marks as records behind gates, and answers from what it read.
//!
//! The book is a gated file of `txn_journal`. Its head is an open gate, the letters DRAGBOK1 and 55
//! zeros; a payload has at most 262,144 bytes, and no gate reaches place 2,147,483,648.
//!
//! | Payload | Spelling |
//! |---|---|
//! | batch | 01, id u64, index u32, moment u64, count of seals u16 (1 to 4,096), the seals |
//! | mark | 02, id u64, moment u64, tiles u32, outcome u8, first bad tile u32 |
//! | seal | name, digest (32) |
//! | name | 00 Header; 01 and tile u32; 02, tile u32 and part u8; 03, level u8 and index u32; 04 and era u32; 05, era u32, level u8 and index u32 |
//!
//! Numbers stand with the highest byte first. The outcome is 00 clean, 01 altered, 02 header altered;
//! the first bad tile is 0 unless the outcome is 01. A part is 0 to 9 or 255, a level 0 to 20.
//!
//! One record in full: batch 0 of `examples/worked.book`, as
//! `xxd -g 1 -s 64 -l 62 examples/worked.book` shows it.
//!
//! | Place | Bytes | Field |
//! |---|---|---|
//! | 64 | `a7` | the gate: open |
//! | 65 | `00 00 00 38` | the length of the payload: 56 |
//! | 69 | `01` | the payload is a batch |
//! | 70 | `00 00 00 00 00 00 00 07` | the id of the store: 7 |
//! | 78 | `00 00 00 00` | the index of the batch: 0 |
//! | 82 | `00 00 00 00 00 00 01 e0` | the moment at which it was filed: second 480 |
//! | 90 | `00 01` | it has 1 seal |
//! | 92 | `00` | whose name is Header |
//! | 93 | `bb 06 d0 08 7b f6 d3 43 a9 f0 05 6f 4c 65 60 b4` | its digest, the first half |
//! | 109 | `ae 64 5e 19 b8 25 e2 8a 35 e4 6a 7e 53 be 24 42` | the second half |
//! | 125 | `a7` | the gate of the next record |
//!
//! The digest is SHA-256 of a byte 05 and the 22 header fields of the store. So this prints it too:
//!
//! ```text
//! (printf '\005'; tail -c +10 examples/worked.store | head -c 22) | sha256sum
//! ```
//!
//! What bytes say is `told_by` of `specs/Books`: the lists that the calls of the longest prefix of valid
//! records leave, each of which is in turn and within 16,777,216 seals and 65,536 marks, or nothing
//! where one is not. A device on which a file may be made stands for an empty book.
//!
//! | The layer above may rely on | Clause |
//! |---|---|
//! | a book is a notary, with these lists where its disk tells its bytes | the clauses of `Notary` |
//! | after Ok what reads give is the only image | `durable` of `file` and `mark` |
//! | at each moment of a call a crash leaves an image of before, or the old lists with the batch or mark in flight or without | `images` of `file` and `mark` |
//! | it reads its file where nothing is kept, and keeps what it read but behind Failed and NoMemory | `keeps` of `Looks` and `Alters` |
//! | while that is kept, a call that asks is answered, and calls no device; nor does a refused one | `unread`, `answers` |
//! | before it reads it syncs, and asking makes no other changing call | `syncs` |
//! | where its disk tells its bytes, a call counts a fault of the book's own exactly where these are no book | `counts`, `finds` of `Looks` and `Alters` |
//! | asking, and a refused call, leave what reads give | `reads` of `Looks`, `same` of `Alters` |
//! | what is told of lists stays told | the same, `told` of `Alters` |
//! | a payload is read as what it spells, and what is spelled is read | `proofs/CallLaws` |
//! | a book has no trace and no plan, and its faults are those of its disk and the readings that found no book | `fresh` of `new` |
//!
//! A book syncs its disk before it reads, and clears a free device before it makes a file there, so that
//! a crash at any moment leaves the old lists, with the batch or mark in flight or without. A call that
//! asks may have to sync, and changes nothing: a sync leaves what reads give, whatever it answers.
//!
//! A look-up takes the logarithm of the ids and of the names of one id.
//!
//! A file is never full before the limits: what a book keeps is short (`IsShort` of `specs/Kept`).
//!
//! Tested, and not proved: that calls succeed where there is memory, the bytes of the worked book, and
//! what a book says where one of its bytes is turned.
//!
//! ```text
//! let mut book = Book::new(alloc, FileDisk::new(rt, path));
//! book.file(id, 0, moment, &[seal])?;
//! let answer = book.ask(id, seal.name, &digest)?;
//! ```
#![tactic(auto)]

mod adding;
mod book;
mod decoding;
mod entry;
mod kept;
mod limits;
mod opening;
mod pages;
mod reading;
mod replay;
mod shape;
mod skipping;
mod writing;

pub use book::Book;
pub use decoding::decode;
pub use entry::Entry;
pub use limits::BOOK_LIMITS;
pub use shape::BookShape;
