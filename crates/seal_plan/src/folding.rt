//! Tile after tile, over the links and the digests of the granules.

ghost use Rattle.std.specs.Prelude.{◌≡◌, ◌≤◌, ◌+◌, ◌-◌, true, IfOk, length, map, take, drop};
ghost use Rattle.std.specs.List.{range_with_len};
ghost use Rattle.tuple_bytes.specs.Spelling.{FitsHeader};
ghost use Rattle.history_model.specs.History.{history};
ghost use Rattle.history_model.specs.Stored.{items_of};
ghost use Rattle.digest_model.specs.Layout.{policy_of, layout_by, layout, first_granule, max_granules};
ghost use Rattle.digest_model.specs.Digests.{cum};
ghost use Rattle.policy_eras.specs.Policy.{has_leaves};
ghost use Rattle.tile_seals.specs.Kept.{planned_of};
ghost use Rattle.tile_seals.specs.Places.{leaves_of};

use policy_eras::Eras;
use std::alloc::{AllocError, Global};
use tile_seals::{Tiles, Told};
use tuple_bytes::Header;

/// Those from one place up to another.
fn between(digests: &[[u8; 32]], first: usize, end: usize) -> &[[u8; 32]]
    requires order { first ≤ end }
    requires within { end ≤ length digests.now }
    ensures { result.now ≡ take (end - first) (drop first digests.now) }
{
    &digests[first..end]
}

/// The digests of a tile's granules, among those of the first tiles.
pub(crate) fn leaves_of_tile<'a>(eras: &Eras, leaves: &'a [[u8; 32]], tile: u32) -> &'a [[u8; 32]]
    requires within { first_granule (layout_by eras.now) (tile + 1) ≤ max_granules }
    requires long { first_granule (layout_by eras.now) (tile + 1) ≤ length leaves.now }
    ensures value { result.now ≡ take (first_granule (layout_by eras.now) (tile + 1) - first_granule (layout_by eras.now) tile) (drop (first_granule (layout_by eras.now) tile) leaves.now) }
{
    let first = eras.first(tile) as usize;
    let end = eras.first(tile + 1) as usize;
    between(leaves, first, end)
}

/// The same, where a chain takes them.
fn taken_leaves<'a>(eras: &Eras, leaves: &'a [[u8; 32]], tile: u32) -> &'a [[u8; 32]]
    requires within { first_granule (layout_by eras.now) (tile + 1) ≤ max_granules }
    requires long { has_leaves eras.now ≡ true → first_granule (layout_by eras.now) (tile + 1) ≤ length leaves.now }
    ensures value { has_leaves eras.now ≡ true → result.now ≡ take (first_granule (layout_by eras.now) (tile + 1) - first_granule (layout_by eras.now) tile) (drop (first_granule (layout_by eras.now) tile) leaves.now) }
{
    if eras.has_leaves() {
        leaves_of_tile(eras, leaves, tile)
    } else {
        leaves
    }
}

/// The first tiles.
pub(crate) fn fold(
    alloc: Global,
    header: &Header,
    eras: Eras,
    told: &Told,
    tiles: u32,
    links: &[[u8; 32]],
    leaves: &[[u8; 32]],
) -> Result<Tiles, AllocError>
    requires fits { FitsHeader header.now }
    requires eras { eras ≡ policy_of (history header.now (items_of told.now.spellings)) }
    requires within { first_granule (layout (history header.now (items_of told.now.spellings))) tiles ≤ max_granules }
    requires links { links.now ≡ map (cum (history header.now (items_of told.now.spellings))) (range_with_len 0 tiles) }
    requires leaves { has_leaves eras ≡ true → leaves.now ≡ leaves_of (history header.now (items_of told.now.spellings)) (first_granule (layout (history header.now (items_of told.now.spellings))) tiles) }
    ensures value { IfOk result (λ folded. folded ≡ planned_of (history header.now (items_of told.now.spellings)) tiles) }
{
    let mut folded = Tiles::new(alloc, header, eras, told)?;
    for tile in 0..tiles {
        let own = taken_leaves(folded.eras(), leaves, tile);
        folded = folded.grow(alloc, told, own, &links[tile as usize])?;
    }
    Ok(folded)
}
