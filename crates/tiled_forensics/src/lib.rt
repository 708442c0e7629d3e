//! The Tiled Bitmap: which granules of a tile may have been altered.
//!
//! A tile of `2^k` granules is filed with a digest of the whole, and with k bit chains: chain b is the
//! digest of the granules whose number within the tile has bit b equal to 0. A notary is asked for the
//! whole first. Where it differs, the answers for the chains make the tile's target, a number of k bits:
//! bit b is 1 where chain b is the same, and 0 where it differs. The era of a tile decides on its k and
//! on whether it has chains.
//!
//! ```text
//! k = 3, granule 5 (101) altered: chain 0 has 0 2 4 6, chain 1 has 0 1 4 5, chain 2 has 0 1 2 3
//! answers: same, differs, same      target 101      candidates 5 7
//! ```
//!
//! | The layer above may rely on | Clause |
//! |---|---|
//! | no target exactly where the whole tile is the same, else the number that the answers make; the first missing seal is told | `target`: `value`; the law `targets_are_answers` |
//! | `NotSealedSo` exactly where the era of the tile has no chains, and then nothing is asked | `target`: `sealed_so`, `unasked` |
//! | where Ok is answered, at most one question for a tile that is the same, and at most k + 1 for one that differs | `target`: `asked` |
//! | nothing changes; a fault comes only where the notary counted one, and behind Ok and a refusal one that shows its faults counted none | `target`: `same`, `frame`, `cause`, `counted` |
//! | exactly the granules of sets that explain the answers, ascending | `candidates`: `value`, with `candidates_are_exact` of `audit_model` |
//! | exactly those of such sets with kappa members, none for kappa 0 | `exactly`: `value`, with `candidates_among_are_exact` there |
//! | a target has as many bits as the tile, and a seal that is missing is one of this tile's, whatever is told | `target`: `within`, `only` |
//!
//! `candidates` and `exactly` take no memory, nor does `target` of its own. Only tested, in
//! `forensic_examples`: that want of memory isn't answered where there is some.
//!
//! ```text
//! let plan = TilePlan::new(alloc, &header, &items, tiles, &mut steps)?;
//! if let Some(target) = target(&plan, &mut notary, id, tile)? {
//!     for number in candidates(target, k) {
//!         // the granule of this number within the tile may have been altered
//!     }
//! }
//! ```
#![tactic(auto)]

mod asking;
mod counting;
mod laws;
mod numbers;

pub use asking::target;
pub use counting::{candidates, exactly};
pub use laws::targets_are_answers;
pub use numbers::Candidates;
