//! The Monochromatic analysis: the search for the first tile at whose end the cumulative chain is no
//! longer the one that was filed.
//!
//! The caller has the chain's value at the end of each tile, from its own file; a notary answers of
//! each whether it is the one that was filed as `cum j`. Each value stands for all that comes before
//! it. So a chain that differs somewhere differs from there on, unless two inputs clash, and the
//! search halves the tiles. It promises nothing of the tiles that it doesn't ask for, and needs no
//! such order: whatever the answers are, the tile that it names differs, and is the first or follows
//! one that is the same.
//!
//! It stands on `notary_link` for the notary, and on `audit_model` for what is meant by a region.
//!
//! | Sentence | Clause |
//! |---|---|
//! | None comes exactly where the last tile is the same; a tile that is named differs, as the last one does, and is the first or follows one that is the same | `value` |
//! | a missing seal is that of a tile for which the notary has none, and is told only where the last tile is not the same | `value`, `only` |
//! | a tile that is named is one of those that were given, also where the notary tells nothing | `within` |
//! | at most two questions more are asked than the number of tiles has binary digits | `asked` |
//! | nothing has changed, and the notary's promises go on | `same`, `frame` |
//! | the search takes no memory: want of it comes only from a notary whose asking calls take some | `memory` |
//! | Ok comes always from a notary that fails no question and holds a history's batches, with at most as many links as tiles | `always` |
//! | a fault comes only where the notary counted one in this call; behind Ok and a seal that is missing it counted none | `cause`, `counted` |
//!
//! What the notary answers is `link_answers` of `specs/Finds`. Where these answers are the same below a tile
//! and differ from it on, that tile is the one that is named, and no other: `step_is_region` of
//! `audit_model`. There `region_begins_altered` says that this tile was altered, and
//! `region_has_altered` that nothing was altered before it, unless two inputs clash.
//!
//! A notary in memory whose asking calls are not listed to fail is one that fails no question:
//! `FailsNoQuestion` and `HoldsTiles` of `specs/Sure` say what is asked of a notary.
//!
//! ```text
//! if let Some(tile) = first_bad(&links, &mut notary, id)? {
//!     // what was altered lies in this tile or after it
//! }
//! ```
#![tactic(auto)]

mod search;

pub use search::first_bad;
