//! The nodes of all eras.

ghost use Rattle.std.specs.Prelude.{◌≡◌, ◌≤◌, ◌+◌, ℕ, true, IfOk, OnOk, length};
ghost use Rattle.history_model.specs.History.{History};
ghost use Rattle.digest_model.specs.Layout.{policy_of, layout_by, layout, first_granule, tile_size, has_tree, max_granules};
ghost use Rattle.audit_model.specs.Names.{node_name};
ghost use Rattle.tile_seals.specs.Found.{IsPlannedDigest};
ghost use Rattle.tile_seals.specs.Places.{leaves_in, planned_forests};

use crate::forest::Forest;
use policy_eras::Eras;
use std::alloc::{AllocError, Global};
use std::marker::Model;

/// The forests of the eras, by their numbers.
#[derive(Drop)]
pub struct Forests {
    forests: Vec<Forest>,
}

impl Model for Forests {
    ghost use Rattle.std.specs.Prelude.{ℕ, List};

    ghost Value = { List (List (List (List ℕ))) };

    ghost view = { λ f. f.forests.items };
}

impl Forests {
    /// Over no tile.
    pub fn new(alloc: Global, eras: &Eras) -> Result<Forests, AllocError>
        ensures value { (h : History) → eras.now ≡ policy_of h → IfOk result (λ forests. forests ≡ planned_forests h 0) }
    {
        let count = eras.count();
        let mut forests = Vec::with_capacity(alloc, count as usize)?;
        for _era in 0..count {
            forests.push(Forest::new(alloc)?)?;
        }
        Ok(Forests { forests })
    }

    /// Adds the nodes that the next tile completes, where it has the tree: they are of its era.
    pub fn add(
        &mut self,
        alloc: Global,
        eras: &Eras,
        tile: u32,
        leaves: &[[u8; 32]],
    ) -> Result<(), AllocError>
        requires granules { has_tree (layout_by eras.now) tile ≡ true → length leaves.now ≡ tile_size (layout_by eras.now) tile }
        requires some { (h : History) × (eras.now ≡ policy_of h) × (self.old ≡ planned_forests h tile) × (first_granule (layout h) (tile + 1) ≤ max_granules) }
        ensures value { (h : History) → eras.now ≡ policy_of h → self.old ≡ planned_forests h tile
            → (has_tree (layout h) tile ≡ true → leaves.now ≡ leaves_in h tile)
            → OnOk result (self.new ≡ planned_forests h (tile + 1)) }
    {
        if eras.has_tree(tile) {
            let era = eras.era_of(tile) as usize;
            self.forests[era].grow(alloc, leaves)?;
        }
        Ok(())
    }

    /// The digest of a node of an era; none exactly where it isn't complete.
    pub fn digest(&self, era: u32, level: u8, index: u32) -> Option<[u8; 32]>
        ensures value { (h : History) (tiles : ℕ) → self.now ≡ planned_forests h tiles → first_granule (layout h) tiles ≤ max_granules
            → IsPlannedDigest h tiles (node_name era level index) result }
    {
        let forest = self.forests.get(era as usize)?;
        forest.node(level, index)
    }
}
