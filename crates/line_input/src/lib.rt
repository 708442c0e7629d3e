//! The lines of an input, read piece by piece. A line is given out as soon as its end was read, and
//! no more than 67,108,864 bytes are ever taken.
//!
//! A line is the bytes before a line feed (10), or before the end of input where they aren't empty.
//! A carriage return is a byte like any other.
//!
//! | Bytes | Lines |
//! |---|---|
//! | none | none |
//! | `a` 10 `b` | `a`, `b` |
//! | `a` 10 | `a` |
//! | 10 10 | two empty ones |
//!
//! Unread are the bytes that the reader took and hasn't given out (`pending`), and behind them what
//! the source has left, where it tells that.
//!
//! | Of `read_line` the layer above may rely on | Clause |
//! |---|---|
//! | a line is the first of the lines of what was unread; `false` comes only where nothing was, or where the end was seen before | `told` |
//! | after a refusal as much is unread as before, and it can be called again | `told` |
//! | what is given out has no feed in it | `feedless` |
//! | as many bytes are taken as the source loses, and never too many | `taken` |
//! | nothing is taken while a line's end is pending; behind a line less than a piece is pending | `at_once` |
//! | `InputLimit` comes where all bytes that may be taken were, and no line's end is pending | `input_limit` |
//! | and the end of input is seen only below the limit | `end`, `told` |
//! | once the end was seen, behind a last line or none, every call answers `false` and asks the source nothing | `told`, `sees`, `at_end` |
//! | with each line more bytes are given out, so a loop over lines ends | `more` |
//! | `ReadFault` comes only where the source counted a fault, and with no line's end pending | `cause`, `read_fault` |
//! | after Ok the source counted no fault: no read that failed was tried again | `counted` |
//! | the source stays told or untold, its faults never fall | `frame` |
//!
//! The lines of bytes are defined in `specs/Lines`, and [`lines_are_the_only_ones`] says that bytes
//! are split into them in one way; the lemmas of `proofs/Lines` take off the first. A line of any
//! length is kept whole in memory. Each byte is looked at once and moved once. Only tested: that
//! calls succeed where there is memory.
//!
//! Where all bytes are at hand, as those of a generated script, [`first_line`] cuts them at their first
//! feed: its `value` says that the lines are this one and those of the bytes behind it. It takes no
//! memory and has no failure.
//!
//! ```text
//! let mut reader = LineReader::new(alloc);
//! while reader.read_line(&mut source)? {
//!     carry_out(reader.line());
//! }
//! ```
#![tactic(auto)]

mod fail;
mod first;
mod gathering;
mod laws;
mod limits;
mod piece;
mod reader;

pub use fail::InputFail;
pub use first::first_line;
pub use laws::lines_are_the_only_ones;
pub use limits::{INPUT_LIMIT, PIECE_LIMIT};
pub use reader::LineReader;
