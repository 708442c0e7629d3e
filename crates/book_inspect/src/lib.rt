//! What is odd about a notary's books. It reads them by `txn_journal` and `notary_book` alone, and changes
//! nothing.
//!
//! A book is read first ([`read_book`]), then looked at under an id and at a second of the clock
//! ([`look_at`]), since without an id the first entry of a book may say it. Several books are held
//! against each other ([`compare`]).
//!
//! | The layer above may rely on | Clause |
//! |---|---|
//! | what was read is what the bytes hold: whether they have a book's head, the payloads, and what is odd about the file itself | `exact` of `read_book`: `IsRead` of `specs/Seen` |
//! | the findings are `findings_of_book` of the bytes, the id and the second; how many entries there are, and how many batches under the id | `exact` of `look_at`: `IsSeen` |
//! | of several books each is told that has other lists than more than half, or where there are none such, than another one | `exact` of `compare`: `copies` of `specs/Copies` |
//! | a book is only read, and a fault has its cause | `same`, `frame`, `cause`, `counted` of `read_book` |
//!
//! Entries and marks are counted from 1, batches from 0. A device on which a book may be made is no
//! book, and nothing else is odd about it.
//!
//! Not found: a book whose batches and marks are past a notary's limits, which is refused as a whole.
//!
//! ```text
//! let read = read_book(alloc, disk)?;
//! let seen = look_at(alloc, id, second, read)?;
//! let more = compare(alloc, id, &books)?;
//! ```
#![tactic(auto)]

mod book;
mod copies;
mod entries;
mod order;
#[cfg(test)]
mod tests;

pub use book::{BookRead, BookSeen, look_at, read_book};
pub use copies::compare;
pub use order::first_id;
