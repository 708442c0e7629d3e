//! The digests of granules.

ghost use Rattle.std.specs.Prelude.{◌≡◌, ◌≤◌, ◌+◌, true, IfOk, length, map};
ghost use Rattle.std.specs.List.{All, flat_map};
ghost use Rattle.history_model.specs.History.{history, txns};
ghost use Rattle.history_model.specs.StoredHistory.{IsHistory};
ghost use Rattle.digest_model.specs.Layout.{policy_of, layout, first_granule, max_granules};
ghost use Rattle.digest_model.specs.Digests.{granule_over};
ghost use Rattle.digest_model.specs.Plain.{IsShort};
ghost use Rattle.policy_eras.specs.Policy.{has_leaves};
ghost use Rattle.tile_seals.specs.Places.{leaves_of};

use crate::grouping::group_tiles;
use history_model::Spelled;
use policy_eras::Eras;
use std::alloc::{AllocError, Global};
use step_count::{Ledger, Steps};
use tile_chains::granule_digest;
use tuple_bytes::{Granules, Header};

/// The digest of each granule.
fn granule_digests<L: Ledger>(
    alloc: Global,
    granules: &Granules,
    steps: &mut Steps<L>,
) -> Result<Vec<[u8; 32]>, AllocError>
    requires { All (λ g. All IsShort g.1) granules.now }
    ensures value { IfOk result (λ digests. digests.items ≡ map (λ g. granule_over g.0 g.1) granules.now) }
    ensures steps { steps.new ≤ steps.old + length (flat_map (λ g. g.1) granules.now) }
{
    let mut digests = Vec::new(alloc);
    for (number, txns) in granules.as_slice() {
        digests.push(granule_digest(*number, txns, steps))?;
    }
    Ok(digests)
}

/// The digest of each granule, where a chain takes them.
pub(crate) fn leaves<L: Ledger>(
    alloc: Global,
    eras: &Eras,
    granules: &Granules,
    steps: &mut Steps<L>,
) -> Result<Vec<[u8; 32]>, AllocError>
    requires { All (λ g. All IsShort g.1) granules.now }
    ensures value { IfOk result (λ digests. has_leaves eras.now ≡ true → digests.items ≡ map (λ g. granule_over g.0 g.1) granules.now) }
    ensures steps { steps.new ≤ steps.old + length (flat_map (λ g. g.1) granules.now) }
{
    if !eras.has_leaves() {
        return Ok(Vec::new(alloc));
    }
    granule_digests(alloc, granules, steps)
}

/// The digests of the granules of the first tiles.
pub(crate) fn leaves_below<L: Ledger>(
    alloc: Global,
    header: &Header,
    eras: &Eras,
    items: &Spelled,
    tiles: u32,
    steps: &mut Steps<L>,
) -> Result<Vec<[u8; 32]>, AllocError>
    requires history { IsHistory (history header.now items.now) }
    requires eras { eras.now ≡ policy_of (history header.now items.now) }
    requires within { first_granule (layout (history header.now items.now)) tiles ≤ max_granules }
    ensures value { IfOk result (λ digests. digests.items ≡ leaves_of (history header.now items.now) (first_granule (layout (history header.now items.now)) tiles)) }
    ensures steps { steps.new ≤ steps.old + length (txns items.now) }
{
    let granules = group_tiles(alloc, header, eras, items, tiles)?;
    let digests = granule_digests(alloc, &granules, steps)?;
    Ok(digests)
}
