//! What a person is told at the end of a call, on standard error, beside its output and its status: the usage page, and at
//! most twelve kinds of notes, each a fact, what to do, and the page that says more.
//!
//! | A note | Comes if | Module |
//! |---|---|---|
//! | a fault, with the system's reasons | the status is 4 to 24 | `notes`, `tables` |
//! | what was written is gone | a device that wasn't named holds something | `notes` |
//! | a file is missing or empty; a book is new | it was so at its first call, and was not made, or was | `notes` |
//! | a device isn't used | the command never uses it | `notes` |
//! | a notary failed, or differs | it stood out among several | `notes` |
//! | the store isn't what was filed | the status is 1 | `notes` |
//! | a verdict is over no tile | `validate` found none filed | `notes` |
//! | how many lines were refused, and the first one with its form | some were | `notes`, `tables` |
//! | the input had no byte | it was read | `notes` |
//! | a session is open | it was begun and not ended | `notes` |
//! | the arguments are no command | the status is 2 | `notes`, `usage` |
//!
//! All of it is made from an [`Ending`], which has what the call and its devices left; no file is read for it. Each function is
//! safe and returns for every input. Nothing is promised of these texts, and no script reads them. What standard error doesn't
//! take is lost.
//!
//! ```text
//! let ending = Ending { code: status.code(), call, devices: &devices, seen: &called.seen, .. };
//! note(rt, &ending)?;
//! ```
#![tactic(auto)]

mod ending;
mod notes;
mod tables;
mod usage;

pub use ending::{Ending, Noted};
pub use notes::note;
