//! What is hashed of a history, and what equal digests say.
//!
//! This is what a reader of the contracts above has to believe of digests: definitions, laws about
//! them, and plain slow programs whose contracts they are. Each digest is SHA-256 of its input.
//!
//! | Digest | Formula |
//! |---|---|
//! | `header_digest header` | `SHA-256(05 | header fields)` |
//! | `era_digest h e` | `SHA-256(06 | e (4) | tile (4) | first granule (4) | exponent (1) | algorithms (1))` of the era |
//! | `seed header` | `SHA-256(00 | header fields)` |
//! | `next_link p t` | `SHA-256(01 | p | t)`, for the spelling t of a transaction |
//! | `link_of header txns` | the seed, and then the next link for each transaction |
//! | `cum h tile` | the link over the transactions up to the end of a tile, granule by granule |
//! | `granule_over g spelled` | `SHA-256(02 | g (4) | for each transaction: length (4), spelling)` |
//! | `part_over tile part digests` | `SHA-256(03 | tile (4) | part (1) | granule digests)`: part 255 is the whole tile, part b has the granules whose number within the tile has bit b equal to 0 |
//! | `node_over level index left right` | `SHA-256(04 | level (1) | index (4) | left child | right child)`; a node of level 0 is a granule |
//!
//! `granule_digest`, `tile_digest` and `node_digest` are these digests of a history. Node (l, i) has
//! the children (l - 1, 2i) and (l - 1, 2i + 1). The roots of `roots_of` are one complete tree for
//! each binary digit 1 of the number of granules, the largest first, side by side from granule 0.
//! Of an era the leaves of the tree are its granules, from 0 on: `node_digest` takes the first of them.
//!
//! Where tiles lie is told by a `Layout`. Tiles lie one behind the other, each with 2 to the exponent of its
//! era granules. The eras of a history are its `policy_of`. The first is that of the header. A policy item is the
//! next one where it begins at the last era's tile or behind it, and names the first granule of its tile. There are
//! 256 at most. Other policy items have no effect. A tile goes by the last era that begins at it or before it.
//!
//! A list of what is hashed stands beside each digest (`link_inputs`, `cum_inputs`, `tile_inputs`,
//! `node_inputs`). Two such lists clash where an input of each differ and have one digest.
//!
//! What the layers above may rely on, each the contract of a function that does nothing. It holds of
//! every history whose header and items have spellings, as those of files do
//! (`histories_have_spellings`):
//!
//! | Law | Clause |
//! |---|---|
//! | equal digests of headers are of one header, or a clash | `headers_tell_apart` |
//! | equal digests of an era are of one era, or a clash | `eras_tell_apart` |
//! | items whose policies begin at tile n or behind it leave the first n tiles | `later_items_leave_tiles` |
//! | the eras of the first n tiles come first, and equal ones place these tiles alike | `sealed_eras_come_first`, `equal_eras_have_equal_tiles` |
//! | within an era each tile has as many granules | `tiles_of_an_era_are_even` |
//! | behind a history that has the eras of some tiles of another, policies that name those of more tiles restore them | `eras_are_restored` |
//! | equal links are of one header and one list of transactions, or a clash | `links_tell_apart`, `stores_tell_apart` |
//! | equal links at a tile's end, digests of a granule, of a part or of a node are of the same transactions in each granule that they cover, or a clash | `cums_tell_apart`, `granules_tell_apart`, `tiles_tell_apart`, `nodes_tell_apart` |
//! | the same transactions have the same digests | `same_digests` |
//! | each granule lies below one root, and nothing else does | `roots_cover`, `worked_roots` |
//!
//! Trusted is the statement of SHA-256 in the kit's `sha2`. Tests hold the definitions against
//! values that another program computed.
//!
//! ```rust
//! let last = plain::link(alloc, &header, items.as_slice())?;
//! ```
#![tactic(auto)]

mod laws;
pub mod plain;

pub use laws::{
    cums_tell_apart, equal_eras_have_equal_tiles, eras_are_restored, eras_tell_apart,
    granules_tell_apart, headers_tell_apart, histories_have_spellings, later_items_leave_tiles,
    links_tell_apart, nodes_tell_apart, roots_cover, same_digests, sealed_eras_come_first,
    stores_tell_apart, tiles_of_an_era_are_even, tiles_tell_apart, worked_roots,
};
