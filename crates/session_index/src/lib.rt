//! An index of what transactions touch, by which a session that commits finds its conflict.
//!
//! At each place that was touched since the index began it keeps the numbers of the transactions that
//! touched it, in the order in which they were noted. A conflict is the least of the first numbers above
//! the begin, one of each place that was read. So a commit costs what its session has read times a
//! logarithm, however many transactions are stored.
//!
//! | The layer above may rely on | Clause |
//! |---|---|
//! | noting operations adds their number at each place that they touch, and nowhere else | `value` of `Touched::note` |
//! | the first number above a begin, at a place | `value` of `Touched::first_above` |
//! | that these numbers show the conflict exactly | `machines_find_conflicts` of `session_model` |
//!
//! Numbers that rise are searched by halving, and others one by one. Those of a store rise; the contract needs
//! no such premise. After want of memory some of the places may have the number, and others not: the index
//! is to be dropped then.
//!
//! Not proved: how long a look-up takes.
//!
//! ```rust
//! let mut touched = Touched::new(alloc);
//! touched.note(alloc, ops, number)?;
//! let conflict = touched.first_above(&place, begun);
//! ```
#![tactic(auto)]

mod numbers;
mod touched;

pub use touched::{Touched, lesser};
