//! The call `inspect`: what is odd about a store and its books is written, a line each, and nothing is
//! changed. It stands on `store_inspect`, `book_inspect` and `outside_io`.
//!
//! | The layer above may rely on | Clause of `inspect` |
//! |---|---|
//! | where the devices tell their bytes, what is out is `report_text` of what is `gathered` of them, at the second that the clock tells; the end is `Odd` where something was found, else `Clean` | `exact`: `Finds` of `specs/Called` |
//! | else a fault is said, and the end is its | `exact`: `Faults` |
//! | the store and each book are as they were | `store`, `books` |
//! | `DiskFault`, `NotaryFault` and `WriteFault` come only where the store, a book or the output counted a fault | `cause` |
//! | words are read by `asked_of` of `specs/Words` | `value` of `asked_of` |
//! | the row of a kind is out | `explains` of `explain_kind` |
//!
//! Nothing is found of a store that is no device (`None`), and of no books (an empty slice). After a
//! write that failed a front of the text is out.
//!
//! ```text
//! match asked_of(&words) {
//!     Some(Asked::Look { id }) => inspect(alloc, id, &mut store, &mut books, &mut clock, &mut out),
//!     Some(Asked::Explain { kind }) => explain_kind(alloc, kind, &mut out),
//! ```
#![tactic(auto)]

mod both;
mod gathering;
mod inspected;
mod looking;
mod words;

pub use inspected::{Inspected, explain_kind, inspect};
pub use looking::Looked;
pub use words::{Asked, asked_of};
