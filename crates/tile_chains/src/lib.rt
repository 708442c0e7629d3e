//! The digests of granules, and of tiles and their parts.
//!
//! A granule's digest is over its transactions, in file order. A tile is a run of `2^k` granules. Its
//! whole chain is over the digests of all of them, bit chain b over those whose number within the
//! tile has bit b equal to 0. The chains that fail tell which granules may have been altered.
//!
//! | Call | Formula |
//! |---|---|
//! | `granule_digest`, `GranuleHash` | `SHA-256(02 | granule (4) | for each transaction: length (4), spelling)` |
//! | `tile_digest` | `SHA-256(03 | tile (4) | part (1) | the granule digests of the part)` |
//!
//! Part 255 is the whole tile, part b the bit chain of b. Numbers stand with the highest byte first.
//!
//! What a layer above may rely on:
//!
//! - Each digest is exactly its formula (`value`), and none takes memory.
//! - A `GranuleHash` has hashed a granule's number and a list of spellings (`HasHashed`). A new one has
//!   the number alone, `add` appends one spelling, and `finish` gives the digest (`hashed`, `value`).
//! - Each spelling raises the count of steps by one (`steps`); none is hashed without it.
//!
//! Trusted is the statement of SHA-256 in the kit's `sha2`; tests compare with another program.
//!
//! ```rust
//! let first = granule_digest(0, &txns, &mut steps);
//! let chain = tile_digest(0, 255, 0, &[first]);
//! ```
#![tactic(auto)]

mod granule;
mod tile;

pub use granule::{GranuleHash, granule_digest};
pub use tile::{WHOLE, tile_digest};
