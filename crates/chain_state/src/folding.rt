//! Folding the closed granules into tiles.

ghost use Rattle.std.specs.Prelude.{◌≡◌, ◌≤◌, ◌-◌, ◌+◌, true, IfOk, IfSome, map};
ghost use Rattle.std.specs.List.{range_with_len};
ghost use Rattle.tuple_bytes.specs.Spelling.{FitsHeader};
ghost use Rattle.history_model.specs.History.{history};
ghost use Rattle.history_model.specs.Stored.{items_of};
ghost use Rattle.digest_model.specs.Layout.{policy_of, layout, layout_by, first_granule, max_granules};
ghost use Rattle.tile_seals.specs.Kept.{planned_of, retold};
ghost use Rattle.tile_seals.specs.Places.{takes_leaves};
ghost use Rattle.chain_state.specs.Closed.{Ascend, digest_in, AreClosed};
ghost use Rattle.chain_state.specs.Kept.{IsSealed};

use crate::closed::{Closed, digests_of, link_before};
use policy_eras::Eras;
use std::alloc::{AllocError, Global};
use tile_seals::{Tiles, Told};
use tuple_bytes::Header;

/// Whether a chain of a tile or a tree takes the digests of its granules.
fn takes_granules(eras: &Eras, tile: u32) -> bool
    ensures value { result ≡ takes_leaves (layout_by eras.now) tile }
{
    eras.has_tile_chains(tile) || eras.has_tree(tile)
}

/// The digests of the granules of a tile, from one up to another, where a chain takes them.
fn leaves_of(
    alloc: Global,
    eras: &Eras,
    tile: u32,
    closed: &[Closed],
    first: u32,
    end: u32,
) -> Result<Vec<[u8; 32]>, AllocError>
    requires ascend { Ascend closed.now }
    requires order { first ≤ end }
    ensures value { IfOk result (λ v. takes_leaves (layout_by eras.now) tile ≡ true → v.items ≡ map (digest_in closed.now) (range_with_len first (end - first))) }
{
    if takes_granules(eras, tile) {
        digests_of(alloc, closed, first, end)
    } else {
        Ok(Vec::new(alloc))
    }
}

/// The tiles with the next one, whose granules are closed.
fn with_next(
    alloc: Global,
    told: &Told,
    closed: &[Closed],
    granule: u32,
    tiles: Tiles,
) -> Result<Tiles, AllocError>
    requires sealed { IsSealed (retold tiles.history told.now.spellings) granule tiles }
    requires closed { AreClosed (retold tiles.history told.now.spellings) granule closed.now }
    requires within { first_granule (layout tiles.history) (tiles.tiles + 1) ≤ granule }
    requires most { granule ≤ max_granules }
    ensures value { IfOk result (λ grown. grown ≡ planned_of (retold tiles.history told.now.spellings) (tiles.tiles + 1)) }
{
    let tile = tiles.tiles();
    let eras = tiles.eras();
    let first = eras.first(tile) as u32;
    let end = eras.first(tile + 1) as u32;
    let header = tiles.header();
    let link = link_before(header, closed, end);
    let leaves = leaves_of(alloc, eras, tile, closed, first, end)?;
    tiles.grow(alloc, told, &leaves, &link)
}

/// What is kept, or no tile.
fn kept_or_none(
    alloc: Global,
    header: &Header,
    eras: &Eras,
    told: &Told,
    granule: u32,
    kept: Option<Tiles>,
) -> Result<Tiles, AllocError>
    requires fits { FitsHeader header.now }
    requires eras { eras.now ≡ policy_of (history header.now (items_of told.now.spellings)) }
    requires kept { IfSome kept (IsSealed (history header.now (items_of told.now.spellings)) granule) }
    ensures value { IfOk result (IsSealed (history header.now (items_of told.now.spellings)) granule) }
{
    match kept {
        Some(tiles) => Ok(tiles),
        None => Tiles::new(alloc, header, eras.copy(alloc)?, told),
    }
}

/// The first tiles, all of whose granules are closed; those that are kept already aren't made again.
pub(crate) fn fold(
    alloc: Global,
    header: &Header,
    eras: &Eras,
    told: &Told,
    closed: &[Closed],
    granule: u32,
    kept: Option<Tiles>,
    ended: u32,
) -> Result<Tiles, AllocError>
    requires fits { FitsHeader header.now }
    requires eras { eras.now ≡ policy_of (history header.now (items_of told.now.spellings)) }
    requires closed { AreClosed (history header.now (items_of told.now.spellings)) granule closed.now }
    requires kept { IfSome kept (IsSealed (history header.now (items_of told.now.spellings)) granule) }
    requires within { first_granule (layout (history header.now (items_of told.now.spellings))) ended ≤ granule }
    requires most { granule ≤ max_granules }
    ensures value { IfOk result (IsSealed (history header.now (items_of told.now.spellings)) granule) }
    ensures enough { IfOk result (λ tiles. ended ≤ tiles.tiles) }
{
    let mut tiles = kept_or_none(alloc, header, eras, told, granule, kept)?;
    for _tile in tiles.tiles()..ended {
        tiles = with_next(alloc, told, closed, granule, tiles)?;
    }
    Ok(tiles)
}
