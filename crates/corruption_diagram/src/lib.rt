//! When a tile was changed, and the diagram of what is known of it.
//!
//! A tile's batch says that it was whole then, and a clean mark over it that it was still whole. So a
//! change came after the later of these. A mark that found the tile as the first bad one says that it
//! had come by then. The moments are those that a notary keeps.
//!
//! ```text
//! batch of tile 5 at 480, clean mark over 8 tiles at 490, found bad first at 500, analysed at 510
//! when 490 to 510       first change when 490 to 500
//! ```
//!
//! | The layer above may rely on | Clause |
//! |---|---|
//! | the spans are those of the filed moments and the marks, each by its definition | `when`, `first_when`: `value` |
//! | over many tiles the clean marks that count are kept, and a tile's last one is found among them | `CleanMarks::read`, `last_over`, `when_by`: `value` |
//! | the diagram, or none where there are more than 64 events | `grid`: `value` |
//! | no digest is asked for, and nothing changes; a fault comes only where the notary counted one, and behind Ok one that shows its faults counted none | `asked`, `same`, `frame`, `cause`, `counted` |
//!
//! The spans hold for events whose moments don't fall. Where a notary tells nothing no clause says what
//! a span is: a batch that it has no moment for counts as 0, and its marks end at the first place that it
//! answers None. All marks can be asked for, since a notary has no more than a `u32` counts.
//!
//! Each mark is asked for once. Of the clean ones those are kept whose tiles fall, so that the last one
//! over a tile is found by halving; where each is over as many tiles as the one before, one is kept.
//!
//! Only tested, in `forensic_examples`: that calls succeed where there is memory.
//!
//! ```text
//! let clean = CleanMarks::read(alloc, &mut notary, id)?;
//! let span = when_by(&clean, &mut notary, id, tile, now)?;
//! let drawn = grid(alloc, &mut notary, id, tiles, &bad, now)?;
//! ```
#![tactic(auto)]

mod clean_marks;
mod diagram;
mod drawing;
mod event;
mod first;
mod laws;
mod rows;
mod span;
mod spans;

pub use clean_marks::{CleanMark, CleanMarks};
pub use diagram::{MAX_EVENTS, grid};
pub use laws::events_are_in_order;
pub use span::Span;
pub use spans::{first_when, when, when_by};
