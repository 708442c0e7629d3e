//! All digests of the sealed tiles of a history, and the batches that a notary is given.
//!
//! A plan is made once from a header, the spelled items of a file and a number of tiles. It holds the digest of
//! each planned name: the header's, the chain's value at each tile's end, the whole and the bit chains of each tile that has
//! tile chains, the nodes over the tiles that have the tree, and the eras that begin at the tiles. The moments of the
//! items may fall: a granule has its transactions in file order, and the granules go one after another.
//!
//! | Asked for | Made | Hashed |
//! |---|---|---|
//! | all digests | `Plan` | each transaction for its link, and where some era has a chain once more for its granule |
//! | tiles and their bit chains | `TilePlan` | each transaction for its granule |
//! | nodes | `TreePlan` | each transaction for its granule |
//! | the chain | `links_of` | each transaction for its link |
//!
//! | Batch | Seals, in order |
//! |---|---|
//! | 0 | the header |
//! | j + 1 | each era but the first that begins at tile j, by number; `cum j`; with tile chains: tile j whole, its bit chains from 0 up; with the tree: each node whose last leaf lies in tile j, by the last leaf and then by the level |
//!
//! What a layer above may rely on:
//!
//! | Sentence | Clause |
//! |---|---|
//! | in contracts a plan is a history and a number of tiles, those that it was made of | `new`: `value` |
//! | it answers exactly the digest of a planned name, and none for another; one of tiles or nodes alone does so for these | `digest`: `value`, `planned` |
//! | the batches are the planned seals in their order, and each may be filed | `batch`: `value`, `fileable` |
//! | each transaction is hashed at most twice for all digests, once for its link and once for its granule | `new` of `Plan`: `steps` |
//! | tiles, nodes or the chain alone are had for one hash a transaction | `new` of `TilePlan` and `TreePlan`, `links_of`: `value`, `steps` |
//! | `digest` and the readers take no memory | they answer no want of it |
//!
//! The digests stand in `Tiles` of `tile_seals`. Each is computed once; an empty granule costs one hash, since its number is hashed. Only
//! tested: that a call with memory at hand doesn't answer want of memory.
//!
//! ```rust
//! let items = Spelled::of(alloc, &items)?;
//! let plan = Plan::new(alloc, &header, &items, tiles, &mut steps)?;
//! let seals = plan.batch(alloc, 1)?;
//! ```
#![tactic(auto)]

mod folding;
mod grouping;
mod leaves;
mod links;
mod plan;
mod scope;
mod telling;
mod tile_plan;
mod tree_plan;

pub use links::links_of;
pub use plan::Plan;
pub use scope::Scope;
pub use tile_plan::TilePlan;
pub use tile_seals::node_name;
pub use tree_plan::TreePlan;
