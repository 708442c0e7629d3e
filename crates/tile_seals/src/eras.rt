//! What eras are sealed by, and what their nodes are called.

ghost use Rattle.std.specs.Prelude.{◌≡◌, ◌≤◌, ℕ};
ghost use Rattle.history_model.specs.History.{History};
ghost use Rattle.digest_model.specs.Layout.{policy_of, layout_by, first_granule, leaf_start, max_granules};
ghost use Rattle.audit_model.specs.Names.{node_name};
ghost use Rattle.notary_link.specs.declared.name.Name.TheVariants as names;
ghost use Rattle.tile_seals.specs.Found.{IsPlannedDigest};

use cumulative_chain::era_digest;
use notary_link::Name;
use policy_eras::Eras;

/// The name of a node of an era's trees: those of the first era have a name of their own.
pub fn node_name(era: u32, level: u8, index: u32) -> Name
    ensures value { result ≡ node_name era level index }
{
    if era == 0 {
        Name::Node { level, index }
    } else {
        Name::EraNode { era, level, index }
    }
}

/// The digest of an era behind the first, where it begins at one of the first tiles.
pub(crate) fn sealed_era(eras: &Eras, tiles: u32, era: u32) -> Option<[u8; 32]>
    ensures value { (h : History) → eras.now ≡ policy_of h → IsPlannedDigest h tiles (names.Era era) result }
{
    if era == 0 || era > eras.sealed(tiles) {
        return None;
    }
    let begun = eras.at(era)?;
    Some(era_digest(era, &begun))
}

/// How many granules of its era lie before a tile.
pub(crate) fn leaf_start(eras: &Eras, tile: u32) -> u32
    requires within { first_granule (layout_by eras.now) tile ≤ max_granules }
    ensures value { (h : History) → eras.now ≡ policy_of h → result ≡ leaf_start (layout_by eras.now) tile }
{
    let first = eras.first(tile) as u32;
    match eras.at(eras.era_of(tile)) {
        Some(era) => first.saturating_sub(era.granule),
        None => first,
    }
}
