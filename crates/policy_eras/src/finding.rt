//! Which era a tile or a granule lies in.

ghost use Rattle.std.specs.Prelude.{◌≡◌, ◌≤◌, ◌<◌, ◌^◌, ◌+◌, ◌&&◌, nat_le, nat_lt, Decides, if◌then◌else◌, length, map, filter};
ghost use Rattle.digest_model.specs.Layout.{Era as LayoutEra, layout_by, first_granule, end_granule, tile_of, max_granules, is_next, last_tile, exponent, has_tile_chains, has_tree};
ghost use Rattle.std.specs.List.{slice_get};
ghost use Rattle.digest_model.specs.Eras.{is_below};
ghost use Rattle.policy_eras.specs.Policy.{AreEras, IsLastAt, IsLastWithin, as_era, has_leaves, is_hashed, policy};

use crate::era::Era;

/// The next era where it has begun at the tile.
fn later_at(found: Era, next: Era, tile: u32) -> Era
    ensures { result ≡ (if nat_le next.tile tile then next else found) }
{
    if next.tile <= tile { next } else { found }
}

/// The last era that begins at a tile or before it.
pub(crate) fn era_at(first: Era, later: &[Era], tile: u32) -> Era
    requires { first.tile ≤ tile }
    ensures { IsLastAt first later.now tile result }
{
    let mut found = first;
    for next in later {
        found = later_at(found, *next, tile);
    }
    found
}

/// The first granule of a tile.
pub(crate) fn first_of(first: Era, later: &[Era], tile: u32) -> u64
    requires { AreEras first later.now }
    ensures value { result ≡ first_granule (layout_by (policy first later.now)) tile }
    ensures small { result < 2 ^ 43 }
{
    if later.is_empty() {
        return u64::from(tile) << first.k;
    }
    let era = era_at(first, later, tile);
    u64::from(era.granule) + (u64::from(tile - era.tile) << era.k)
}

/// One where the era begins at one of the first tiles.
fn counted(era: Era, tiles: u64) -> u32
    ensures { result ≡ (if nat_lt era.tile tiles then 1 else 0) }
{
    if u64::from(era.tile) < tiles { 1 } else { 0 }
}

/// How many of the eras begin at one of the first tiles.
pub(crate) fn count_below(later: &[Era], tiles: u64) -> u32
    requires { length later.now ≤ 255 }
    ensures value { result ≡ length (filter (is_below tiles) (map as_era later.now)) }
    ensures few { result ≤ 255 }
{
    let mut count = 0;
    for era in later {
        count += counted(*era, tiles);
    }
    count
}

/// The next era where it begins at the granule or before it.
fn later_within(found: Era, next: Era, granule: u32) -> Era
    ensures { result ≡ (if nat_le next.granule granule then next else found) }
{
    if next.granule <= granule { next } else { found }
}

/// The last era that begins at a granule or before it.
pub(crate) fn era_within(first: Era, later: &[Era], granule: u32) -> Era
    requires { first.granule ≤ granule }
    ensures { IsLastWithin first later.now granule result }
{
    let mut found = first;
    for next in later {
        found = later_within(found, *next, granule);
    }
    found
}

/// The tile of a granule.
pub(crate) fn tile_at(first: Era, later: &[Era], granule: u32) -> u32
    requires eras { AreEras first later.now }
    requires within { granule ≤ max_granules }
    ensures { result ≡ tile_of (layout_by (policy first later.now)) granule }
{
    if later.is_empty() {
        return granule >> first.k;
    }
    let era = era_within(first, later, granule);
    era.tile + ((granule - era.granule) >> era.k)
}

fn all_three(a: bool, b: bool, c: bool) -> bool
    ensures { result ≡ (a && b && c) }
{
    a && b && c
}

/// Whether a change is the next era, where these are those so far.
pub(crate) fn is_next(first: Era, later: &[Era], tile: u32, granule: u32) -> bool
    requires { AreEras first later.now }
    ensures { (era : LayoutEra) → era.tile ≡ tile → result ≡ is_next (policy first later.now) era granule }
{
    let few = later.len() < 255;
    let behind = last_tile(first, later) <= tile;
    let placed = u64::from(granule) == first_of(first, later, tile);
    all_three(few, behind, placed)
}

/// The tile of the last era.
fn last_tile(first: Era, later: &[Era]) -> u32
    ensures { result ≡ last_tile (as_era first) (map as_era later.now) }
{
    let mut last = first;
    for era in later {
        last = *era;
    }
    last.tile
}

/// The exponent of a tile.
pub(crate) fn exponent_at(first: Era, later: &[Era], tile: u32) -> u8
    requires { AreEras first later.now }
    ensures value { result ≡ exponent (layout_by (policy first later.now)) tile }
    ensures few { result ≤ 10 }
{
    era_at(first, later, tile).k
}

/// Whether a tile has the chains of its parts.
pub(crate) fn has_chains_at(first: Era, later: &[Era], tile: u32) -> bool
    requires { AreEras first later.now }
    ensures { result ≡ has_tile_chains (layout_by (policy first later.now)) tile }
{
    era_at(first, later, tile).algs & 1 == 1
}

/// Whether the granules of a tile are leaves of a tree.
pub(crate) fn has_tree_at(first: Era, later: &[Era], tile: u32) -> bool
    requires { AreEras first later.now }
    ensures { result ≡ has_tree (layout_by (policy first later.now)) tile }
{
    (era_at(first, later, tile).algs >> 1) & 1 == 1
}

/// Whether two eras are one.
pub(crate) fn is_era(a: Era, b: Era) -> bool
    ensures { Decides result (a ≡ b) }
{
    a == b
}

/// Whether two lists have the same eras.
pub(crate) fn are_eras(xs: &[Era], ys: &[Era]) -> bool
    ensures { Decides result (xs.now ≡ ys.now) }
{
    xs == ys
}

/// Whether the granules of an era's tiles are hashed, for the chains of parts or for the tree.
fn is_hashed(era: Era) -> bool
    ensures { result ≡ is_hashed (as_era era) }
{
    era.algs & 1 == 1 || (era.algs >> 1) & 1 == 1
}

/// Whether those of some era are.
pub(crate) fn has_leaves_in(first: Era, later: &[Era]) -> bool
    ensures { result ≡ has_leaves (policy first later.now) }
{
    let mut found = is_hashed(first);
    for era in later {
        found |= is_hashed(*era);
    }
    found
}

/// The one of a place.
pub(crate) fn nth(later: &[Era], place: u32) -> Option<Era>
    ensures { result ≡ slice_get later.now place }
{
    later.get(place as usize).copied()
}

/// One more than the last granule of a tile.
pub(crate) fn end_of(first: Era, later: &[Era], tile: u32) -> u64
    requires { AreEras first later.now }
    ensures { result ≡ end_granule (layout_by (policy first later.now)) tile }
{
    first_of(first, later, tile) + (1u64 << exponent_at(first, later, tile))
}
