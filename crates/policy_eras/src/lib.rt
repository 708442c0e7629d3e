//! Where the tiles of a store lie, and which chains they have.
//!
//! An era is a run of tiles with one exponent and the same chains. A store begins with the era of its header.
//! A policy item in its file is the next era on three terms: there are fewer than 256; its tile is that of the last
//! era or a later one; its granule is the first one of its tile. Else it has no effect. All code asks here, and none
//! goes by the header's exponent.
//!
//! | Call | Word of `Layout` |
//! |---|---|
//! | `new`, `of`, `copy` | `first_era` of a header, `policy_of` a history, and the same again |
//! | `offer`, `offer_item`, `offer_payload` | `offered`, `with_item`, `with_payload`: one change more, without memory |
//! | `is` | whether two are the same eras |
//! | `count`, `is_full` | how many eras there are, and whether these are all that there may be |
//! | `at` | `era_at` a number, with the first granule of its tile (`placed`) |
//! | `era_of` | `era_of` a tile, by number |
//! | `sealed` | how many `sealed_eras` the first tiles have |
//! | `exponent` | `exponent` of a tile, at most 10 |
//! | `first`, `end` | `first_granule` of a tile, which is how many granules lie in the tiles before; `end_granule` of it |
//! | `tiles` | `tile_of` a granule up to the last one, which is how many tiles have ended there |
//! | `first_past` | the same of the last granule: the first tile that is never sealed |
//! | `has_tile_chains`, `has_tree` | the same of a tile |
//! | `has_leaves` | whether some era has either |
//!
//! In contracts the eras are a `Policy`, which decides the layout: that of a history is `layout_by` of its
//! `policy_of`. A look-up goes over the later eras once; where there are none it is a shift. The programs of
//! `plain` are slow and short; tests compare the faster ones with them.
//!
//! ```text
//! let eras = Eras::of(alloc, &header, &items)?;
//! let begin = eras.first(tile);
//! ```
#![tactic(auto)]

mod era;
mod eras;
mod finding;
pub mod plain;
mod reading;

pub use era::Era;
pub use eras::{Eras, MAX_LATER};
pub use tuple_bytes::MAX_GRANULES;
