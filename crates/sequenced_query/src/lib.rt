//! Queries over a span of moments: what a table, or two tables joined, answer at all of its moments at once.
//!
//! A query at one moment answers rows. A query over the moments from `from` up to, and not including, `to`
//! answers pieces: a row, and the moments from `start` up to `stop` at which it is in the answer. This is the
//! one list of pieces for which
//!
//! - at each moment of the span the rows of the pieces that count are exactly the answer of this moment, each once;
//! - each piece lies within the span and is not empty;
//! - two pieces with the same row neither overlap nor meet;
//! - pieces come in the order of the left key, then of the right key, then of their starts.
//!
//! | Call | Answer at one moment | Refusals, in order |
//! |---|---|---|
//! | `over_select` | the rows of the table that pass the filter, as in `scan_at` | NoSpan, NoTable, NoColumn, BadType of the filter's column |
//! | `over_join` | each left row with each right row behind it where the two columns are equal and not Null | NoSpan, NoTable, NoColumn, BadType of the right column where the two have different kinds |
//!
//! Both answer `LentPieces`, whose rows are those of the tables. `LentPieces::copy` makes `Pieces` of them, which
//! have rows of their own, for whoever keeps an answer while the tables change.
//!
//! NoSpan comes exactly where `from` is not below `to`. NoTable goes by the tables of now. A table has no rows
//! at moments before its Create.
//!
//! What the layers above may rely on:
//!
//! | Sentence | Clause |
//! |---|---|
//! | the pieces are the answer, by the state of each moment alone | `value` of `over_select` and `over_join`, by `IsSelect`, `IsJoin` and `IsCut` |
//! | there is one such list | `cuts_are_one` |
//! | so they are the pieces that a plain definition makes moment by moment | `answer` of both, by `cut_of`; `plain_pieces_are_the_answer` |
//! | for tables that stand for transactions they are what the transactions say at each moment | `answers_over_spans_stand_for_transactions` |
//! | each refusal comes exactly for its cause, and the first cause is told | `answer` of both, by `select_over` and `join_over` |
//! | a copy has the same pieces | `value` of `LentPieces::copy` |
//!
//! Each answer yields to want of memory alone. The definitions speak of single moments (`Plain`, `Cut`,
//! `Plainly`). The code cuts the versions of keys to the span, and makes one piece of those that meet with the
//! same row.
//!
//! # What a query costs
//!
//! A select takes one step for each version of its table, and looks at no moment between them.
//!
//! A join lists each version of the right table that counts within the span: under the value by which it joins, in the
//! order in which versions begin. Each left version then finds the right ones that have its value while it counts, and
//! looks at no others. So a join takes at most the square of a logarithm for each version, and for each pair of versions
//! that its answer has. It does not compare each row with each, however many rows share a value.
//!
//! Memory holds the listing, the pairs of one left key, and the answer. A right version is listed in 48 bytes. A lent
//! piece takes 48 bytes, whatever its row: its two moments, and where one row or two lie. A copy takes 40 bytes a piece,
//! and its rows.
//!
//! Not proved: these costs. Tests hold both calls against a program that goes moment by moment.
//!
//! ```rust
//! let pieces = over_select(alloc, &tables, &table, Some(&filter), 0, 100)?;
//! let pieces = over_join(alloc, &tables, &left, &left_column, &right, &right_column, 0, 100)?;
//! for piece in pieces.copy(alloc)?.as_slice() { .. piece.start .. piece.stop .. &piece.row .. }
//! ```
#![tactic(auto)]

mod blocks;
mod columns;
mod error;
mod join;
mod laws;
mod lending;
mod listing;
mod meeting;
mod merging;
mod piece;
mod select;
mod span;
mod spots;
mod table;

pub use error::OverFail;
pub use join::over_join;
pub use laws::{
    answers_over_spans_stand_for_transactions, cuts_are_one, plain_pieces_are_the_answer,
};
pub use lending::LentPieces;
pub use piece::{Piece, Pieces};
pub use select::over_select;
