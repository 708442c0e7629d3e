//! What each algorithm finds among the tiles of a history.

ghost use Rattle.std.specs.Prelude.{◌≡◌, ◌≤◌, ◌+◌, None, true, length};
ghost use Rattle.history_model.specs.History.{history, txns};
ghost use Rattle.history_model.specs.StoredHistory.{IsHistory};
ghost use Rattle.digest_model.specs.Layout.{layout, policy_of, first_granule, max_granules};
ghost use Rattle.forensic_report.specs.declared.algorithm.Algorithm.TheVariants.{Mono, Tiled, A3d};
ghost use Rattle.forensic_report.specs.Finding.{has_era};
ghost use Rattle.forensic_report.specs.Searching.{Searches};

use crate::algorithm::{Algorithm, Asked};
use crate::fail::AnalyseFail;
use crate::failing::FailingTiles;
use crate::found::Findings;
use a3d_forensics::{altered, tiles_of};
use history_model::Spelled;
use mono_forensics::first_bad;
use notary_link::Notary;
use policy_eras::Eras;
use seal_plan::{TilePlan, TreePlan, links_of};
use std::alloc::Global;
use step_count::{Ledger, Steps};
use tiled_forensics::target;
use tuple_bytes::Header;

/// Searches by the algorithm that is asked for.
pub(crate) fn search<N: Notary, L: Ledger>(
    alloc: Global,
    header: &Header,
    eras: &Eras,
    items: &Spelled,
    notary: &mut N,
    asked: Asked,
    steps: &mut Steps<L>,
) -> Result<Findings, AnalyseFail>
    requires history { IsHistory (history header.now items.now) }
    requires eras { eras.now ≡ policy_of (history header.now items.now) }
    requires era { has_era asked.era (history header.now items.now) ≡ true }
    requires within { first_granule (layout (history header.now items.now)) asked.tiles ≤ max_granules }
    requires mono { asked.algorithm ≡ Mono → asked.era ≡ None }
    ensures searches { Searches asked.algorithm asked.era header.now.id asked.tiles (history header.now items.now) (N.state notary.old) (N.state notary.new) result }
    ensures steps { steps.new ≤ steps.old + length (txns items.now) }
{
    let Asked { era, tiles, .. } = asked;
    match asked.algorithm {
        Algorithm::Mono => find_region(alloc, header, eras, items, notary, tiles, steps),
        Algorithm::Tiled | Algorithm::TiledExactly { .. } => {
            find_targets(alloc, header, items, notary, era, tiles, steps)
        }
        Algorithm::A3d => find_leaves(alloc, header, items, notary, era, tiles, steps),
    }
}

/// The region, by the chain over all tiles alone: no granule, part or node is hashed.
fn find_region<N: Notary, L: Ledger>(
    alloc: Global,
    header: &Header,
    eras: &Eras,
    items: &Spelled,
    notary: &mut N,
    tiles: u32,
    steps: &mut Steps<L>,
) -> Result<Findings, AnalyseFail>
    requires history { IsHistory (history header.now items.now) }
    requires eras { eras.now ≡ policy_of (history header.now items.now) }
    requires within { first_granule (layout (history header.now items.now)) tiles ≤ max_granules }
    ensures searches { Searches Mono None header.now.id tiles (history header.now items.now) (N.state notary.old) (N.state notary.new) result }
    ensures steps { steps.new ≤ steps.old + length (txns items.now) }
{
    if tiles == 0 {
        return Ok(Findings::Region { first: None });
    }
    let links = links_of(alloc, header, eras, items, tiles, steps)?;
    let first = first_bad(&links, notary, header.id)?;
    Ok(Findings::Region { first })
}

/// The tiles that fail, and their targets, by the digests of the tiles and their parts alone.
fn find_targets<N: Notary, L: Ledger>(
    alloc: Global,
    header: &Header,
    items: &Spelled,
    notary: &mut N,
    era: Option<u32>,
    tiles: u32,
    steps: &mut Steps<L>,
) -> Result<Findings, AnalyseFail>
    requires history { IsHistory (history header.now items.now) }
    requires era { has_era era (history header.now items.now) ≡ true }
    requires within { first_granule (layout (history header.now items.now)) tiles ≤ max_granules }
    ensures searches { Searches Tiled era header.now.id tiles (history header.now items.now) (N.state notary.old) (N.state notary.new) result }
    ensures steps { steps.new ≤ steps.old + length (txns items.now) }
{
    let plan = TilePlan::new(alloc, header, items, tiles, steps)?;
    failing_tiles(alloc, &plan, notary, header.id, era)
}

/// The tiles that fail, one after another, and their targets.
fn failing_tiles<N: Notary>(
    alloc: Global,
    plan: &TilePlan,
    notary: &mut N,
    id: u64,
    era: Option<u32>,
) -> Result<Findings, AnalyseFail>
    requires era { has_era era plan.now.history ≡ true }
    ensures searches { Searches Tiled era id plan.now.tiles plan.now.history (N.state notary.old) (N.state notary.new) result }
{
    let tiles = tiles_of(plan.eras(), era, plan.tiles());
    let mut targets = FailingTiles::new(alloc);
    for tile in tiles.start..tiles.end {
        let target = target(plan, notary, id, tile)?;
        targets.add(tile, target)?;
    }
    Ok(Findings::Targets { targets })
}

/// The altered granules, by the digests of the trees alone.
fn find_leaves<N: Notary, L: Ledger>(
    alloc: Global,
    header: &Header,
    items: &Spelled,
    notary: &mut N,
    era: Option<u32>,
    tiles: u32,
    steps: &mut Steps<L>,
) -> Result<Findings, AnalyseFail>
    requires history { IsHistory (history header.now items.now) }
    requires era { has_era era (history header.now items.now) ≡ true }
    requires within { first_granule (layout (history header.now items.now)) tiles ≤ max_granules }
    ensures searches { Searches A3d era header.now.id tiles (history header.now items.now) (N.state notary.old) (N.state notary.new) result }
    ensures steps { steps.new ≤ steps.old + length (txns items.now) }
{
    let plan = TreePlan::new(alloc, header, items, tiles, steps)?;
    altered_leaves(alloc, &plan, notary, header.id, era)
}

/// The granules of the leaves that differ.
fn altered_leaves<N: Notary>(
    alloc: Global,
    plan: &TreePlan,
    notary: &mut N,
    id: u64,
    era: Option<u32>,
) -> Result<Findings, AnalyseFail>
    requires era { has_era era plan.now.history ≡ true }
    ensures searches { Searches A3d era id plan.now.tiles plan.now.history (N.state notary.old) (N.state notary.new) result }
{
    let found = altered(alloc, plan, notary, id, era)?;
    Ok(Findings::Leaves { found })
}
