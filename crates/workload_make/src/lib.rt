//! The script that a seed gives: large valid input for the store, and the same at each run.
//!
//! A script makes one table, changes it in `count` steps, notarizes and validates. Each line ends with a line feed.
//!
//! | Line | |
//! |---|---|
//! | `create made id int amount int` | once |
//! | `now M` | at each step: the moment, 0 to `width - 1` seconds on |
//! | `insert made KEY AMOUNT` | at a key that is not present |
//! | `delete made KEY` | at a key that is present, at one word in ten |
//! | `update made KEY AMOUNT` | at any other |
//! | `notarize`, `validate` | once each |
//!
//! A step takes three words a, b and c of 32 bits from the generator `Lcg64Xsh32` of `rand_pcg`, made of the seed on
//! stream 0. The moment, which begins at `last`, rises by `a mod width` and stays at the greatest u64. KEY is
//! `1 + (b mod 1000)`, AMOUNT is `c mod 100000`, and one word in ten is `c mod 10 = 0`.
//!
//! # What the layer above may rely on
//!
//! | Sentence | Clause |
//! |---|---|
//! | `script` writes the text of the definition, byte for byte, or memory was wanting | `value` of `script` |
//! | the definition gives what another program gives for some seeds | `worked_examples` |
//! | a script has at most 48 bytes for each step, and 48 | `scripts_are_short` |
//!
//! `specs/Script.antt` is the definition: statements, and each as its line. The words are those that the clauses of
//! `rand_pcg` give. A moment above the greatest one of the grammar is written all the same, and is then no line of it.
//!
//! Laws of scripts over the grammar and the tables stand in `workload_laws`: each line is read again, no change is refused by
//! tables without `made`, and the moments do not fall.
//!
//! Only tested: that memory suffices, and scripts of thousands of steps beside the lengths that another program gives. A step
//! looks at one place of a thousand and writes two lines, so time and memory go with the number of steps.
//!
//! ```text
//! let text = script(alloc, 60, 0, 1, 2)?;    // create made id int amount int, now 37, insert made 414 75701, ..
//! ```
#![tactic(auto)]

mod change;
mod laws;
mod maker;
mod scripts;

pub use laws::{scripts_are_short, worked_examples};
pub use scripts::{MAX_STEPS, script};
