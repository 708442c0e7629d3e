//! The values of the kept chains at the ends of tiles.

ghost use Rattle.std.specs.Prelude.{◌≡◌, ◌≤◌, ℕ, IfOk, OnOk, length};
ghost use Rattle.history_model.specs.History.{History};
ghost use Rattle.digest_model.specs.Layout.{layout, layout_by, policy_of, first_granule, max_granules};
ghost use Rattle.chain_state.specs.Chained.{IsChainOf, history_of, ended, with_closed};
ghost use Rattle.validator.specs.Verdicts.{IsLinked};

use chain_state::Chains;
use std::alloc::{AllocError, Global};
use tuple_bytes::MAX_GRANULES;

/// The chain at the end of each of so many tiles; none where these end behind the last granule. The eras
/// stay as they were.
pub(crate) fn link_ends(
    alloc: Global,
    chains: &mut Chains,
    tiles: u32,
) -> Result<Vec<[u8; 32]>, AllocError>
    ensures value { IfOk result (λ links. (h : History) → IsChainOf chains.old h → IsLinked h chains.old.header (policy_of (history_of chains.old)) links.items tiles) }
    ensures linked { IfOk result (λ links. first_granule (layout_by (policy_of (history_of chains.old))) tiles ≤ max_granules → length links.items ≡ tiles) }
    ensures same { OnOk result (history_of chains.new ≡ history_of chains.old) }
{
    let end = chains.eras().first(tiles);
    if end > u64::from(MAX_GRANULES) {
        return Ok(Vec::new(alloc));
    }
    end_tiles(alloc, chains, tiles, end as u32)?;
    chains.links(alloc, tiles)
}

/// Closes the granules of so many tiles, where one of these has not ended.
fn end_tiles(alloc: Global, chains: &mut Chains, tiles: u32, end: u32) -> Result<(), AllocError>
    requires within { end ≤ max_granules }
    requires end { end ≡ first_granule (layout (history_of chains.old)) tiles }
    ensures ended { OnOk result (tiles ≤ ended chains.new) }
    ensures value { OnOk result ((granule : ℕ) × (chains.new ≡ with_closed granule chains.old)) }
{
    if chains.tiles() < tiles {
        chains.close_to(alloc, end)
    } else {
        Ok(())
    }
}
