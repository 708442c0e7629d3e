//! Answers from the tables as of a moment.
//!
//! | Call | Answer | Refusals, in order |
//! |---|---|---|
//! | `get_at` | the row that a key has at the moment | NoTable, NullKey, BadType of column 1 |
//! | `scan_at` | the rows of the moment that pass the filter, in the order of their keys | NoTable, NoColumn, BadType of the filter's column |
//! | `history_of` | every version of a key, in order of creation | NoTable, NullKey, BadType of column 1 |
//!
//! A table that was created after the moment is not there. A filter compares by one order, for all six
//! comparisons: Null before all, then by number, by bytes, false before true; its value is Null or of the
//! column's kind.
//!
//! Each answer is exact by its clause `value`, and yields to want of memory alone (`IsAnswer`). For tables
//! that stand for transactions, as those do that were only made by `apply`, it is what the transactions
//! say: `answers_stand_for_transactions`. A point takes the logarithm of the names, keys and versions, a
//! scan one such step for each key of its table.
//!
//! Tests hold the answers against the plain program `history_model::plain::state` at every moment.
//!
//! ```rust
//! let row = get_at(alloc, &tables, &table, &key, moment)?;
//! let rows = scan_at(alloc, &tables, &table, Some(&filter), moment)?;
//! let versions = history_of(alloc, &tables, &table, &key)?;
//! ```
#![tactic(auto)]

mod answers;
mod filter;
mod laws;
mod rows;

pub use answers::{get_at, history_of, scan_at};
pub use filter::{filter_place, is_passing_row};
pub use laws::answers_stand_for_transactions;
pub use rows::Rows;
pub use tt_table::{Version, Versions};
pub use tuple_bytes::{Compare, Filter};
