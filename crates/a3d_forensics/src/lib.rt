//! The a3D analysis: the altered granules, by going down trees of digests.
//!
//! The granules of an era's sealed tiles are the leaves of complete binary trees, one for each binary
//! digit 1 of their number, and each node was filed. One era comes after another: a notary is asked for
//! the roots from the left. Below a node that differs both children are asked, the left one first; then
//! comes all that is below the left one, and then all that is below the right one, where they differ. A
//! leaf that differs is an altered granule. Where an era is named, its trees alone are examined.
//!
//! ```text
//! 12 granules, 5 and 9 altered:   (3,0) differs          (2,2) differs
//!                          (2,0) same   (2,1) differs    (1,4) differs  (1,5) same
//!                               (1,2) differs (1,3) same  (0,8) same (0,9) differs
//!                            (0,4) same (0,5) differs                     12 nodes are asked
//! ```
//!
//! | The layer above may rely on | Clause of `altered` |
//! |---|---|
//! | the leaves that are reached and differ, and the number of nodes asked; or what stops the descent first | `value` |
//! | `NotSealedSo` exactly where a tile of the range has no tree, or where no era is named and no tile is sealed the header has none; and then nothing is asked | `sealed_so`, `unasked` |
//! | a seal that is missing is one of a node in the range, and so is a node that is inconsistent, whatever is told | `only` |
//! | the granules ascend and lie in the range | `ascending`, `within` |
//! | where Ok is answered, at most as many questions are asked as `checks` says, which are few: all roots, and twice the binary digits of the range's number of granules for each granule found | `asked`, `few` |
//! | nothing changes; a fault comes only where the notary counted one, and behind Ok and a refusal one that shows its faults counted none | `same`, `frame`, `cause`, `counted` |
//!
//! Both analyses of chains ask here for the tiles of an era, or of all (`tiles_of`), and whether each has its
//! chains (`range_has`). An era of which no tile is sealed has no leaf, and its chains don't count.
//!
//! | A law | Says |
//! |---|---|
//! | `trees_cover_range` | the trees have exactly the granules of the range |
//! | `ended_is_consistent` | where nothing stops a descent, a child differs below each node that is reached and differs |
//! | `checks_count_forks` | `checks` is the roots, and two for each node of level 1 or more that is reached and differs |
//! | `audit_ends` | nothing stops the descent over a history under the notarized header and eras |
//! | `notary_is_consistent` | a notary that holds the batches of a history is not inconsistent |
//! | `leaves_are_altered` | under the notarized header and eras each altered granule of the range is found, unless two inputs clash, and each that is found is such a one |
//! | `notarized_has_none` | of a notarized history nothing is found, and nothing stops the descent |
//!
//! Only the list of what is found takes memory. Only tested, in `forensic_examples`: that want of it isn't
//! answered where there is some.
//!
//! ```text
//! let plan = TreePlan::new(alloc, &header, &items, tiles, &mut steps)?;
//! let found = altered(alloc, &plan, &mut notary, id, None)?;
//! for granule in found.granules.as_slice() {
//!     // this granule was altered
//! }
//! ```
#![tactic(auto)]

mod asking;
mod below;
mod chains;
mod descent;
mod found;
mod granulars;
mod laws;
mod range;
mod tree;

pub use chains::Chains;
pub use descent::altered;
pub use found::A3dFound;
pub use granulars::Granulars;
pub use laws::{
    audit_ends, checks_count_forks, ended_is_consistent, leaves_are_altered, notarized_has_none,
    notary_is_consistent, trees_cover_range, worked_descents,
};
pub use range::{range_has, tiles_of};
