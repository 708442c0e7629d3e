//! The digests of the tiles of a history, tile after tile, and the batches that a notary is given.
//!
//! `Tiles` begins with no tile and grows by one at a time. It is given the digests of the next tile's
//! granules and the value of the chain at its end. It adds the tile's whole and bit chains, and those
//! nodes of its era's trees that are complete now. A plan and kept chains share it.
//!
//! | Batch | Seals, in order |
//! |---|---|
//! | 0 | the header |
//! | j + 1 | each era but the first that begins at tile j, by number; `cum j`; with tile chains: tile j whole, its bit chains from 0 up; with the tree: each node whose last leaf lies in tile j, by the last leaf and then by the level |
//!
//! The parts of the tiles stand side by side, and beside them where those of each tile begin. Each era
//! has a forest of its own: its leaves are the granules of the era's tiles, counted from the era's
//! first granule on. A tile grows the forest of its own era alone.
//!
//! What a layer above may rely on:
//!
//! | Sentence | Clause |
//! |---|---|
//! | in contracts tiles are a history and how many of its tiles are kept | `new`, `grow`: `value` |
//! | meanwhile more may be told, of granules behind the tiles so far, as long as the eras stay | `grow`: `same`, `eras` |
//! | granules' digests are needed exactly for a tile with tile chains or the tree | `grow`: `leaves` |
//! | they answer exactly the digest of a planned name, and none for another | `digest`: `value`, `planned` |
//! | the batches are the planned seals in their order, and each may be filed | `batch`: `value`, `fileable` |
//! | after a refusal of `grow` there are no tiles left | it takes them by value |
//! | parts alone, or nodes alone, are had by the calls that `grow` makes | `add` of `Parts` and of `Forests`: `value` |
//!
//! No transaction is hashed here. Each part and node is hashed once, when its tile comes; an era is
//! hashed when it is asked for.
//!
//! Which history it is, `Told` says: the spellings that were told so far. It has no bytes, and its calls
//! do nothing when they run, so two proofs of it are by hand. It binds a body only through an
//! invariant: here the digests have to be those of what was told.
//!
//! ```rust
//! let tiles = Tiles::new(alloc, &header, eras, &told)?;
//! let tiles = tiles.grow(alloc, &told, &leaves, &link)?;
//! let seals = tiles.batch(alloc, 1)?;
//! ```
#![tactic(auto)]

mod digests;
mod eras;
mod forest;
mod forests;
mod lookup;
mod parts;
mod tiles;
mod told;

pub use eras::node_name;
pub use forests::Forests;
pub use parts::Parts;
pub use tiles::Tiles;
pub use told::Told;
