//! What may be odd about a store and the books in which it is notarized: each finding with its name,
//! its rank, its words, and what is to be done. It stands on `txn_journal` and `byte_grammar` alone.
//!
//! A [`Finding`] has its places in the file; a [`Found`] one says of which device. A [`Kind`] is what
//! a finding is called. Two findings share a kind where only the rank differs.
//!
//! | The layer above may rely on | Clause |
//! |---|---|
//! | the kind, the rank and the names are those of `specs/Kinds` | `value` of `kind`, `rank`, `name` |
//! | a name is that of one kind | `law` of `names_are_apart`, `value` of `named` |
//! | lines are sorted by the table, and of one kind as they were found; of each kind the first 100 are written, and how many more there are | `value` of `report`: `report_text` of `specs/Lines` |
//! | the row of a kind is printed with its name | `name` of `row`, `value` of `explain` |
//! | what follows the gate that ends a run of records, and whether it is more than a cut-off append leaves | `value` of `note_tail`: `tail_of` of `specs/Tail` |
//! | what is found along a list is found of each element after those before it | `found_along` of `specs/Along`, lemmas in `proofs/Along` |
//!
//! The sentences of the table are not in any clause: they stand in `table` alone.
//!
//! ```text
//! let finding = Finding::IdlePolicy(3);
//! let found = [Found { device: Device::Store, finding }];
//! let text = report(alloc, 9, 0, &found)?;
//! ```
#![tactic(auto)]

mod finding;
mod gated;
mod kind;
mod laws;
mod listing;
mod printing;
mod table;
mod tail;

pub use finding::{Device, Finding, Found};
pub use gated::{payload_after, payload_at};
pub use kind::{Kind, Rank};
pub use laws::names_are_apart;
pub use listing::{Made, note, note_all, place_all};
pub use printing::report;
pub use table::{Row, explain};
pub use tail::{Ending, note_tail};
