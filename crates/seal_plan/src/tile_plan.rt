//! The digests of tiles and of their parts, where nothing else is asked for.

ghost use Rattle.std.specs.Prelude.{◌≡◌, ◌≤◌, ◌+◌, ◌-◌, ◌<◌, ◌↔◌, ℕ, true, false, IfOk, IfSome, IsSome, length, take, drop};
ghost use Rattle.std.specs.List.{Contains};
ghost use Rattle.history_model.specs.History.{History, history, txns};
ghost use Rattle.history_model.specs.StoredHistory.{IsHistory};
ghost use Rattle.digest_model.specs.Layout.{policy_of, layout_by, layout, first_granule, has_tile_chains, max_granules};
ghost use Rattle.audit_model.specs.Names.{planned, digest};
ghost use Rattle.notary_link.specs.declared.name.Name.TheVariants.{Tile};
ghost use Rattle.seal_plan.specs.Plan.{planned_of, SomeTile};
ghost use Rattle.tile_seals.specs.Places.{leaves_of, planned_parts};

use crate::folding::leaves_of_tile;
use crate::leaves::leaves_below;
use crate::scope::Scope;
use history_model::Spelled;
use policy_eras::Eras;
use std::alloc::{AllocError, Global};
use std::marker::Model;
use step_count::{Ledger, Steps};
use tile_seals::Parts;
use tuple_bytes::Header;

/// The digests of the whole tiles and of their bit chains.
#[derive(Drop)]
pub struct TilePlan {
    scope: Scope,
    parts: Parts,
}

impl Model for TilePlan {
    ghost use Rattle.std.specs.Prelude.{◌≡◌};
    ghost use Rattle.seal_plan.specs.Plan.{Planned};
    ghost use Rattle.tile_seals.specs.Places.{planned_parts};

    ghost Value = { Planned };

    ghost view = { λ p. p.scope };

    ghost invariant = { λ p. p.parts ≡ planned_parts p.scope.history p.scope.tiles };
}

/// Whether one of the first tiles has tile chains.
fn some_has_chains(eras: &Eras, tiles: u32) -> bool
    ensures none { result ≡ false → (tile : ℕ) → tile < tiles → has_tile_chains (layout_by eras.now) tile ≡ false }
{
    for tile in 0..tiles {
        if eras.has_tile_chains(tile) {
            return true;
        }
    }
    false
}

/// The digests of a tile's granules, where it has tile chains.
fn own_leaves<'a>(eras: &Eras, granules: &'a [[u8; 32]], tile: u32) -> &'a [[u8; 32]]
    requires within { first_granule (layout_by eras.now) (tile + 1) ≤ max_granules }
    requires long { has_tile_chains (layout_by eras.now) tile ≡ true → first_granule (layout_by eras.now) (tile + 1) ≤ length granules.now }
    ensures value { has_tile_chains (layout_by eras.now) tile ≡ true → result.now ≡ take (first_granule (layout_by eras.now) (tile + 1) - first_granule (layout_by eras.now) tile) (drop (first_granule (layout_by eras.now) tile) granules.now) }
{
    if eras.has_tile_chains(tile) {
        leaves_of_tile(eras, granules, tile)
    } else {
        granules
    }
}

/// The parts of the first tiles, where they have tile chains, over the digests of their granules.
fn parts_over(
    alloc: Global,
    eras: &Eras,
    tiles: u32,
    granules: &[[u8; 32]],
) -> Result<Parts, AllocError>
    requires within { first_granule (layout_by eras.now) tiles ≤ max_granules }
    requires some { (h : History) × (eras.now ≡ policy_of h) × (SomeTile has_tile_chains (layout h) tiles → granules.now ≡ leaves_of h (first_granule (layout h) tiles)) }
    ensures value { (h : History) → eras.now ≡ policy_of h → (SomeTile has_tile_chains (layout h) tiles → granules.now ≡ leaves_of h (first_granule (layout h) tiles)) → IfOk result (λ parts. parts ≡ planned_parts h tiles) }
{
    let mut parts = Parts::new(alloc);
    for tile in 0..tiles {
        let own = own_leaves(eras, granules, tile);
        parts.add(eras, tile, own)?;
    }
    Ok(parts)
}

/// The digests of the granules of the first tiles, where one of these has tile chains.
fn chained_leaves<L: Ledger>(
    alloc: Global,
    header: &Header,
    eras: &Eras,
    items: &Spelled,
    tiles: u32,
    steps: &mut Steps<L>,
) -> Result<Vec<[u8; 32]>, AllocError>
    requires history { IsHistory (history header.now items.now) }
    requires eras { eras.now ≡ policy_of (history header.now items.now) }
    requires within { first_granule (layout (history header.now items.now)) tiles ≤ max_granules }
    ensures value { IfOk result (λ digests. SomeTile has_tile_chains (layout (history header.now items.now)) tiles → digests.items ≡ leaves_of (history header.now items.now) (first_granule (layout (history header.now items.now)) tiles)) }
    ensures steps { steps.new ≤ steps.old + length (txns items.now) }
{
    if !some_has_chains(eras, tiles) {
        return Ok(Vec::new(alloc));
    }
    leaves_below(alloc, header, eras, items, tiles, steps)
}

/// Hashes the parts of the first tiles, where they have tile chains.
fn hash_parts<L: Ledger>(
    alloc: Global,
    header: &Header,
    eras: &Eras,
    items: &Spelled,
    tiles: u32,
    steps: &mut Steps<L>,
) -> Result<Parts, AllocError>
    requires history { IsHistory (history header.now items.now) }
    requires eras { eras.now ≡ policy_of (history header.now items.now) }
    requires within { first_granule (layout (history header.now items.now)) tiles ≤ max_granules }
    ensures value { IfOk result (λ parts. parts ≡ planned_parts (history header.now items.now) tiles) }
    ensures steps { steps.new ≤ steps.old + length (txns items.now) }
{
    let granules = chained_leaves(alloc, header, eras, items, tiles, steps)?;
    parts_over(alloc, eras, tiles, &granules)
}

impl TilePlan {
    /// The digests of the first tiles, which lie below granule 1,048,576, and of their parts.
    ///
    /// Each transaction is hashed once, for its granule, and no link or node is.
    pub fn new<L: Ledger>(
        alloc: Global,
        header: &Header,
        items: &Spelled,
        tiles: u32,
        steps: &mut Steps<L>,
    ) -> Result<TilePlan, AllocError>
        requires history { IsHistory (history header.now items.now) }
        requires within { first_granule (layout (history header.now items.now)) tiles ≤ max_granules }
        ensures value { IfOk result (λ plan. plan ≡ planned_of (history header.now items.now) tiles) }
        ensures steps { steps.new ≤ steps.old + length (txns items.now) }
    {
        let eras = Eras::of(alloc, header, items)?;
        let parts = hash_parts(alloc, header, &eras, items, tiles, steps)?;
        Ok(TilePlan {
            scope: Scope::new(header, eras, items, tiles),
            parts,
        })
    }

    /// Where the tiles lie.
    pub fn eras(&self) -> &Eras
        ensures value { result.now ≡ policy_of self.now.history }
    {
        self.scope.eras()
    }

    /// How many tiles are planned.
    pub fn tiles(&self) -> u32
        ensures value { result ≡ self.now.tiles }
        ensures within { first_granule (layout self.now.history) self.now.tiles ≤ max_granules }
    {
        self.scope.tiles()
    }

    /// The digest of a tile's part; none exactly where that isn't planned.
    pub fn digest(&self, tile: u32, part: u8) -> Option<[u8; 32]>
        ensures value { IfSome result (λ d. d ≡ digest self.now.history (Tile tile part)) }
        ensures planned { IsSome result ↔ Contains (planned (layout self.now.history) self.now.tiles) (Tile tile part) }
    {
        self.parts.digest(self.eras(), tile, part)
    }
}
