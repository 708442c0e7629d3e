//! Which tiles are bad, one after the other.

ghost use Rattle.std.specs.Prelude.{◌≡◌, ◌≤◌, ◌<◌, [], ◌∷◌, ◌++◌, ℕ, List, All, map, length, slice_get, IfOk};
ghost use Rattle.digest_model.specs.Layout.{layout_by, tile_of, max_granules};
ghost use Rattle.forensic_report.specs.Analysis.{bad_tiles};
ghost use Rattle.forensic_report.specs.Values.{findings_of, extent_by, FitsExamined};
ghost use Rattle.forensic_report.specs.Texts.{bad_row, region_tiles};

use crate::found::{Examined, Findings};
use policy_eras::Eras;
use std::alloc::{AllocError, Global};

/// The first one.
pub(crate) fn first_bad(examined: &Examined) -> Option<u32>
    requires fits { FitsExamined examined.now }
    ensures value { result ≡ slice_get (bad_tiles (extent_by examined.now) (findings_of examined.now.findings)) 0 }
{
    match &examined.findings {
        Findings::Region { first } => *first,
        Findings::Targets { targets } => {
            let failing = targets.as_slice().first()?;
            Some(failing.0)
        }
        Findings::Leaves { found } => {
            let granule = *found.granules.as_slice().first()?;
            Some(examined.eras.tiles(granule))
        }
    }
}

/// One more.
fn mark(bad: &mut [bool], tile: u32)
    requires within { tile < length bad.old }
    ensures value { (tiles : List ℕ) → bad.old ≡ bad_row tiles (length bad.old) → bad.new ≡ bad_row (tiles ++ tile ∷ []) (length bad.old) }
{
    bad[tile as usize] = true;
}

/// Those from a first one on.
fn mark_from(bad: &mut [bool], first: u32, tiles: u32)
    requires within { first ≤ tiles }
    requires size { length bad.old ≡ tiles }
    requires none { bad.old ≡ bad_row [] tiles }
    ensures value { bad.new ≡ bad_row (region_tiles first tiles) tiles }
{
    for tile in first..tiles {
        mark(bad, tile);
    }
}

/// Those that fail.
fn mark_failing(bad: &mut [bool], targets: &[(u32, u16)])
    requires none { bad.old ≡ bad_row [] (length bad.old) }
    requires within { All (λ t. t.0 < length bad.old) targets.now }
    ensures value { bad.new ≡ bad_row (map (λ t. t.0) targets.now) (length bad.old) }
{
    for failing in targets {
        mark(bad, failing.0);
    }
}

/// Those in which granules lie.
fn mark_granules(bad: &mut [bool], eras: &Eras, granules: &[u32])
    requires none { bad.old ≡ bad_row [] (length bad.old) }
    requires below { All (λ g. g < max_granules) granules.now }
    requires within { All (λ g. tile_of (layout_by eras.now) g < length bad.old) granules.now }
    ensures value { bad.new ≡ bad_row (map (tile_of (layout_by eras.now)) granules.now) (length bad.old) }
{
    for granule in granules {
        mark(bad, eras.tiles(*granule));
    }
}

/// Those with a candidate.
fn mark_found(bad: &mut [bool], examined: &Examined)
    requires size { length bad.old ≡ examined.now.tiles }
    requires none { bad.old ≡ bad_row [] examined.now.tiles }
    requires fits { FitsExamined examined.now }
    ensures value { bad.new ≡ bad_row (bad_tiles (extent_by examined.now) (findings_of examined.now.findings)) examined.now.tiles }
{
    let tiles = examined.tiles;
    match &examined.findings {
        Findings::Region { first } => mark_from(bad, first.unwrap_or(tiles), tiles),
        Findings::Targets { targets } => mark_failing(bad, targets.as_slice()),
        Findings::Leaves { found } => {
            mark_granules(bad, &examined.eras, found.granules.as_slice());
        }
    }
}

/// Whether each sealed tile is bad.
pub(crate) fn bad_row(alloc: Global, examined: &Examined) -> Result<Vec<bool>, AllocError>
    requires fits { FitsExamined examined.now }
    ensures value { IfOk result (λ bad. bad.items ≡ bad_row (bad_tiles (extent_by examined.now) (findings_of examined.now.findings)) examined.now.tiles) }
{
    let mut bad = vec![in alloc; false; examined.tiles as usize]?;
    mark_found(&mut bad, examined);
    Ok(bad)
}
