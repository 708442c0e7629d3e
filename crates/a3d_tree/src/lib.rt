//! The trees over granules: the digest of an inner node, and where the roots lie.
//!
//! The leaves are the granules' digests. A node of level l and index i covers the granules from
//! `i * 2^l` on, `2^l` of them, and its children are the nodes of level l - 1 and index 2i and 2i + 1.
//! Going down from a root that differs to the children that differ finds the altered granules.
//!
//! | Call | Formula |
//! |---|---|
//! | `node` | `SHA-256(04 | level (1) | index (4) | left child (32) | right child (32))` |
//! | `roots` | for each binary digit 1 of the number of granules, from the highest: one complete tree, side by side from granule 0 |
//!
//! Numbers stand with the highest byte first. Twelve granules have the roots (3, 0) and (2, 2).
//!
//! What a layer above may rely on:
//!
//! - `node` is exactly its formula, and `roots` yields exactly the levels and indices of the roots, from
//!   the left (`value`). Neither takes memory.
//! - That each granule lies under exactly one root is no clause here; the analysis above proves it.
//!
//! Trusted is the statement of SHA-256 in the kit's `sha2`; a test compares with another program.
//!
//! ```rust
//! for (level, index) in roots(12) {
//!     ..
//! }
//! ```
#![tactic(auto)]

ghost use Rattle.std.specs.Prelude.{◌≡◌};
ghost use Rattle.digest_model.specs.Digests.{node_over};
ghost use Rattle.digest_model.specs.Roots.{roots_of};

mod forest;

pub use forest::Roots;
use sha2::{Digest, Sha256};

/// `SHA-256(04 | level | index | left | right)`: an inner node, of level 1 or more, over its children.
pub fn node(level: u8, index: u32, left: &[u8; 32], right: &[u8; 32]) -> [u8; 32]
    ensures value { result ≡ node_over level index left.now right.now }
{
    let mut hasher = Sha256::new();
    hasher.update([4u8]);
    hasher.update([level]);
    hasher.update(index.to_be_bytes());
    hasher.update(left);
    hasher.update(right);
    hasher.finalize()
}

/// The level and the index of each root over so many granules, from the left.
///
/// There is one complete tree for each binary digit 1, the largest first, side by side from granule 0.
pub fn roots(granules: u32) -> Roots
    ensures value { result ≡ roots_of granules }
{
    Roots {
        granules,
        level: 32,
    }
}
