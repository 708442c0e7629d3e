//! Which tiles, eras and trees an analysis examines, and whether they have the chains that it asks for.

ghost use Rattle.std.specs.Prelude.{◌≡◌, ℕ, ◌≤◌, ◌-◌, Some, IfSome};
ghost use Rattle.std.specs.List.{list_all, range_with_len};
ghost use Rattle.history_model.specs.History.{History};
ghost use Rattle.digest_model.specs.Layout.{Layout, layout, layout_by, first_era, policy_of};
ghost use Rattle.audit_model.specs.Ranges.{range_of, range_has};
ghost use Rattle.a3d_forensics.specs.Chains.{has_of};
ghost use Rattle.a3d_forensics.specs.Trees.{tiles_before, tree_of, eras_in};

use crate::chains::Chains;
use crate::tree::Tree;
use policy_eras::Eras;
use seal_plan::TreePlan;
use std::ops::Range;

/// How many tiles, of so many, lie before an era.
fn tiles_before(eras: &Eras, era: u32, tiles: u32) -> u32
    ensures value { (h : History) → eras.now ≡ policy_of h → result ≡ tiles_before (layout h) tiles era }
    ensures below { result ≤ tiles }
{
    match eras.at(era) {
        Some(found) => found.tile.min(tiles),
        None => tiles,
    }
}

/// The tiles of an era, of so many; all of them, where none is named.
pub fn tiles_of(eras: &Eras, era: Option<u32>, tiles: u32) -> Range<u32>
    requires small { IfSome era (λ number. number ≤ 255) }
    ensures value { (h : History) → eras.now ≡ policy_of h
        → range_with_len result.start (result.end - result.start) ≡ range_of era (layout h) tiles }
    ensures within { (h : History) → eras.now ≡ policy_of h → result.start ≤ result.end }
    ensures below { result.end ≤ tiles }
{
    match era {
        Some(number) => tiles_before(eras, number, tiles)..tiles_before(eras, number + 1, tiles),
        None => 0..tiles,
    }
}

/// The eras of a range, by their numbers.
pub(crate) fn eras_of(eras: &Eras, era: Option<u32>, tiles: u32) -> Range<u32>
    requires small { IfSome era (λ number. number ≤ 255) }
    ensures value { range_with_len result.start (result.end - result.start) ≡ eras_in era (layout_by eras.now) tiles }
    ensures small { result.end ≤ 256 }
{
    match era {
        Some(number) => number..number + 1,
        None => 0..eras.sealed(tiles) + 1,
    }
}

/// The tree of an era.
pub(crate) fn tree_of(plan: &TreePlan, era: u32) -> Tree
    requires small { era ≤ 255 }
    ensures { result ≡ tree_of (layout plan.now.history) plan.now.tiles era }
{
    let eras = plan.eras();
    let first = eras.first(tiles_before(eras, era, plan.tiles())) as u32;
    let end = eras.first(tiles_before(eras, era + 1, plan.tiles())) as u32;
    Tree {
        era,
        first,
        leaves: end - first,
    }
}

/// Whether a tile has the chains.
fn tile_has(eras: &Eras, tile: u32, chains: Chains) -> bool
    ensures { result ≡ has_of chains (layout_by eras.now) tile }
{
    match chains {
        Chains::Tiles => eras.has_tile_chains(tile),
        Chains::Tree => eras.has_tree(tile),
    }
}

/// Whether tiles with these algorithms have the chains.
fn are_among(chains: Chains, algs: u8) -> bool
    ensures { (l : Layout) (tile : ℕ) → l.algorithms tile ≡ algs → result ≡ has_of chains l tile }
{
    match chains {
        Chains::Tiles => algs & 1 == 1,
        Chains::Tree => (algs >> 1) & 1 == 1,
    }
}

/// Whether the header has the chains.
fn header_has(eras: &Eras, chains: Chains) -> bool
    ensures { (h : History) → eras.now ≡ policy_of h → result ≡ has_of chains (layout_by (first_era h.header)) 0 }
{
    match eras.at(0) {
        Some(first) => are_among(chains, first.algs),
        None => false,
    }
}

/// Whether each tile of an era, of so many, has the chains: they are the same ones in all.
fn era_has(eras: &Eras, era: u32, tiles: u32, chains: Chains) -> bool
    requires small { era ≤ 255 }
    ensures { (h : History) → eras.now ≡ policy_of h
        → result ≡ list_all (has_of chains (layout h)) (range_of (Some era) (layout h) tiles) }
{
    let begin = tiles_before(eras, era, tiles);
    begin == tiles_before(eras, era + 1, tiles) || tile_has(eras, begin, chains)
}

/// Whether each tile of the range has the chains; where none is sealed and no era is named, whether the header has them.
pub fn range_has(eras: &Eras, era: Option<u32>, tiles: u32, chains: Chains) -> bool
    requires small { IfSome era (λ number. number ≤ 255) }
    ensures { (h : History) → eras.now ≡ policy_of h → result ≡ range_has (has_of chains) era h tiles }
{
    if era.is_none() && tiles == 0 {
        return header_has(eras, chains);
    }
    for number in eras_of(eras, era, tiles) {
        if !era_has(eras, number, tiles, chains) {
            return false;
        }
    }
    true
}
