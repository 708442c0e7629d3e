//! What is odd about a store file by itself: every place of it, each under the name of a finding.
//!
//! `inspect_store` reads a file once, in memory as large as the file, and changes nothing. What it finds is a function
//! of the bytes, of the id that is wanted and of the second of the clock: `findings_of_store` in `specs/Store`. It stands
//! on `file_findings` (the findings and their table), on what bytes store (`history_model`), on where tiles lie
//! (`digest_model`, `policy_eras`) and on the tables (`tt_table`).
//!
//! | Finding | Definition | In words |
//! |---|---|---|
//! | `no-store`, `damaged` | `headless` | no header: the device is one on which a store may be made, or it isn't |
//! | `other-id`, `format-1` | `is_other`, `is_first` | the header has another id, or the first format |
//! | `trailing` | `trailing`, by `tail_of` of file_findings | bytes after the gate that ends a run of records: a notice as far as a cut-off append reaches |
//! | `number-gap`, `moment-falls` | the same names in `specs/Items` | numbers go up by one, and moments never fall |
//! | `misfit`, `unsayable` | `misfits`, `unsayable` | an operation that no statement makes of its tables, or that has a text which none spells |
//! | `idle-policy`, `odd-frontier`, `beyond` | the same names | items that no writer stores at their place |
//! | `store-ahead` | `store_ahead` | the last moment is after the clock |
//!
//! | The layer above may rely on | Clause |
//! |---|---|
//! | the findings are exactly those of the bytes, in the order of the table and then of places | `exact`: `findings` of `IsSeen` |
//! | with a header, it is known: the count of items, the last moment, the eras, and how many tiles had ended at each filing | `exact`: `known` of `IsSeen` |
//! | the disk is only read, and a fault has its cause | `same`, `frame`, `cause`, `counted` |
//! | no other refusal comes than of the disk or of memory | `none_other` |
//! | an operation is no misfit exactly where some write that the tables accept becomes it | `fitting_is_made` |
//!
//! Only tested: that memory suffices, and how long a look takes (each byte is looked at a fixed number of times).
//!
//! ```rust
//! let seen = inspect_store(alloc, Some(7), now, disk)?;
//! for finding in &seen.findings {
//!     print(finding);
//! }
//! ```
#![tactic(auto)]

mod front;
mod granules;
mod inspect;
mod items;
mod laws;
mod layout;
mod look;
mod moments;
mod numbers;
mod operations;
mod reading;
mod runs;
mod sayable;
mod seen;
mod store_file;
mod tables;

pub use inspect::inspect_store;
pub use laws::fitting_is_made;
pub use seen::{StoreKnown, StoreSeen};
