//! The digests of nodes, where nothing else is asked for.

ghost use Rattle.std.specs.Prelude.{◌≡◌, ◌≤◌, ◌+◌, ◌<◌, ◌↔◌, ℕ, false, IfOk, OnOk, IfSome, IsSome, length};
ghost use Rattle.std.specs.List.{Contains};
ghost use Rattle.history_model.specs.History.{History, history, txns};
ghost use Rattle.history_model.specs.StoredHistory.{IsHistory};
ghost use Rattle.digest_model.specs.Layout.{policy_of, layout_by, layout, first_granule, has_tree, max_granules};
ghost use Rattle.audit_model.specs.Names.{planned, digest, node_name};
ghost use Rattle.seal_plan.specs.Plan.{planned_of};
ghost use Rattle.tile_seals.specs.Places.{leaves_of, planned_forests};

use crate::folding::leaves_of_tile;
use crate::leaves::leaves_below;
use crate::scope::Scope;
use history_model::Spelled;
use policy_eras::Eras;
use std::alloc::{AllocError, Global};
use std::marker::Model;
use step_count::{Ledger, Steps};
use tile_seals::Forests;
use tuple_bytes::Header;

/// The digests of the nodes of each era's trees.
#[derive(Drop)]
pub struct TreePlan {
    scope: Scope,
    forests: Forests,
}

impl Model for TreePlan {
    ghost use Rattle.std.specs.Prelude.{◌≡◌};
    ghost use Rattle.seal_plan.specs.Plan.{Planned};
    ghost use Rattle.tile_seals.specs.Places.{leaves_of, planned_forests};

    ghost Value = { Planned };

    ghost view = { λ p. p.scope };

    ghost invariant = { λ p. p.forests ≡ planned_forests p.scope.history p.scope.tiles };
}

/// Whether one of the first tiles has the tree.
fn some_has_tree(eras: &Eras, tiles: u32) -> bool
    ensures none { result ≡ false → (tile : ℕ) → tile < tiles → has_tree (layout_by eras.now) tile ≡ false }
{
    for tile in 0..tiles {
        if eras.has_tree(tile) {
            return true;
        }
    }
    false
}

/// Adds the nodes of the first tiles, where they have the tree, over the digests of their granules.
fn grow_over(
    alloc: Global,
    eras: &Eras,
    tiles: u32,
    granules: &[[u8; 32]],
    forests: &mut Forests,
) -> Result<(), AllocError>
    requires within { first_granule (layout_by eras.now) tiles ≤ max_granules }
    requires some { (h : History) × (eras.now ≡ policy_of h) × (granules.now ≡ leaves_of h (first_granule (layout h) tiles)) × (forests.old ≡ planned_forests h 0) }
    ensures value { (h : History) → eras.now ≡ policy_of h → granules.now ≡ leaves_of h (first_granule (layout h) tiles)
        → forests.old ≡ planned_forests h 0 → OnOk result (forests.new ≡ planned_forests h tiles) }
{
    for tile in 0..tiles {
        let own = leaves_of_tile(eras, granules, tile);
        forests.add(alloc, eras, tile, own)?;
    }
    Ok(())
}

/// Hashes the nodes over the granules of the first tiles, where they have the tree.
fn hash_nodes<L: Ledger>(
    alloc: Global,
    header: &Header,
    eras: &Eras,
    items: &Spelled,
    tiles: u32,
    steps: &mut Steps<L>,
) -> Result<Forests, AllocError>
    requires history { IsHistory (history header.now items.now) }
    requires eras { eras.now ≡ policy_of (history header.now items.now) }
    requires within { first_granule (layout (history header.now items.now)) tiles ≤ max_granules }
    ensures value { IfOk result (λ forests. forests ≡ planned_forests (history header.now items.now) tiles) }
    ensures steps { steps.new ≤ steps.old + length (txns items.now) }
{
    let mut forests = Forests::new(alloc, eras)?;
    if !some_has_tree(eras, tiles) {
        return Ok(forests);
    }
    let granules = leaves_below(alloc, header, eras, items, tiles, steps)?;
    grow_over(alloc, eras, tiles, &granules, &mut forests)?;
    Ok(forests)
}

impl TreePlan {
    /// The digests of the nodes over the first tiles, which lie below granule 1,048,576.
    ///
    /// Each transaction is hashed once, for its granule, and no link or tile is.
    pub fn new<L: Ledger>(
        alloc: Global,
        header: &Header,
        items: &Spelled,
        tiles: u32,
        steps: &mut Steps<L>,
    ) -> Result<TreePlan, AllocError>
        requires history { IsHistory (history header.now items.now) }
        requires within { first_granule (layout (history header.now items.now)) tiles ≤ max_granules }
        ensures value { IfOk result (λ plan. plan ≡ planned_of (history header.now items.now) tiles) }
        ensures steps { steps.new ≤ steps.old + length (txns items.now) }
    {
        let eras = Eras::of(alloc, header, items)?;
        let forests = hash_nodes(alloc, header, &eras, items, tiles, steps)?;
        Ok(TreePlan {
            scope: Scope::new(header, eras, items, tiles),
            forests,
        })
    }

    /// Where the tiles lie.
    pub fn eras(&self) -> &Eras
        ensures value { result.now ≡ policy_of self.now.history }
    {
        self.scope.eras()
    }

    /// How many tiles the trees are over.
    pub fn tiles(&self) -> u32
        ensures value { result ≡ self.now.tiles }
        ensures within { first_granule (layout self.now.history) self.now.tiles ≤ max_granules }
    {
        self.scope.tiles()
    }

    /// The digest of a node of an era's trees; none exactly where that isn't planned.
    pub fn digest(&self, era: u32, level: u8, index: u32) -> Option<[u8; 32]>
        ensures value { IfSome result (λ d. d ≡ digest self.now.history (node_name era level index)) }
        ensures planned { IsSome result ↔ Contains (planned (layout self.now.history) self.now.tiles) (node_name era level index) }
    {
        let _tiles = self.tiles();
        self.forests.digest(era, level, index)
    }
}
