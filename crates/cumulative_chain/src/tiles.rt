//! The values of the chain at the ends of tiles.

ghost use Rattle.std.specs.Prelude.{◌≡◌, ◌≤◌, ◌+◌, ℕ, List, IfOk, OnOk, map, fold, length};
ghost use Rattle.std.specs.List.{range_with_len};
ghost use Rattle.std.specs.List.Sorted.{IsStrictlyIncreasing};
ghost use Rattle.digest_model.specs.Digests.{next_link};
ghost use Rattle.digest_model.specs.Layout.{layout_by, first_granule, end_granule, max_granules};
ghost use Rattle.cumulative_chain.specs.Tiles.{numbers_of, spelled_below, link_below, link_at, Ascend, last_end, front, AreBelow, IsSplit};

use crate::{link, seed};
use policy_eras::Eras;
use std::alloc::{AllocError, Global};
use step_count::{Ledger, Steps};
use tuple_bytes::{Granules, Header, Payloads};

/// The value after the transactions of one more granule.
fn link_all<L: Ledger>(previous: &[u8; 32], txns: &Payloads, steps: &mut Steps<L>) -> [u8; 32]
    ensures value { result ≡ fold next_link previous.now txns.now }
    ensures steps { steps.new ≡ steps.old + length txns.now }
{
    let mut value = *previous;
    for spelling in txns.as_slice() {
        value = link(&value, spelling.as_slice(), steps);
    }
    value
}

/// Links the granules from a place on that lie below the end, and answers the place of the next.
fn link_below<L: Ledger>(
    value: &mut [u8; 32],
    granules: &[(u32, Payloads)],
    from: usize,
    end: u32,
    steps: &mut Steps<L>,
) -> usize
    requires within { from ≤ length granules.now }
    requires below { AreBelow granules.now from end }
    ensures value { (start : List ℕ) → value.old ≡ fold next_link start (front granules.now from) → value.new ≡ fold next_link start (front granules.now result) }
    ensures split { IsSplit granules.now result end }
    ensures steps { steps.new + length (front granules.now from) ≡ steps.old + length (front granules.now result) }
{
    for place in from..granules.len() {
        let (number, txns) = &granules[place];
        if *number >= end {
            return place;
        }
        *value = link_all(value, txns, steps);
    }
    granules.len()
}

/// The value at each of these ends, over granules whose numbers ascend.
///
/// Each spelling is linked once; an end with no transaction behind the one before it costs one copy.
pub fn links_at_ends<L: Ledger>(
    alloc: Global,
    header: &Header,
    granules: &Granules,
    ends: &[u32],
    steps: &mut Steps<L>,
) -> Result<Vec<[u8; 32]>, AllocError>
    requires ascend { IsStrictlyIncreasing (numbers_of granules.now) }
    requires ends { Ascend ends.now }
    ensures value { IfOk result (λ links. links.items ≡ map (link_below header.now granules.now) ends.now) }
    ensures steps { OnOk result (steps.new ≡ steps.old + length (spelled_below granules.now (last_end ends.now))) }
    ensures few { steps.new ≤ steps.old + length (spelled_below granules.now (last_end ends.now)) }
{
    let mut links = Vec::with_capacity(alloc, ends.len())?;
    let mut value = seed(header);
    let mut place = 0;
    for end in ends {
        place = link_below(&mut value, granules.as_slice(), place, *end, steps);
        links.push(value)?;
    }
    Ok(links)
}

/// The ends of the first tiles.
fn ends_of(alloc: Global, eras: &Eras, tiles: u32) -> Result<Vec<u32>, AllocError>
    requires within { first_granule (layout_by eras.now) tiles ≤ max_granules }
    ensures value { IfOk result (λ ends. ends.items ≡ map (end_granule (layout_by eras.now)) (range_with_len 0 tiles)) }
{
    let mut ends = Vec::with_capacity(alloc, tiles as usize)?;
    for tile in 0..tiles {
        ends.push(eras.first(tile + 1) as u32)?;
    }
    Ok(ends)
}

/// The value at the end of each of the first tiles, over granules whose numbers ascend.
pub fn links_at_tiles<L: Ledger>(
    alloc: Global,
    header: &Header,
    eras: &Eras,
    granules: &Granules,
    tiles: u32,
    steps: &mut Steps<L>,
) -> Result<Vec<[u8; 32]>, AllocError>
    requires ascend { IsStrictlyIncreasing (numbers_of granules.now) }
    requires within { first_granule (layout_by eras.now) tiles ≤ max_granules }
    ensures value { IfOk result (λ links. links.items ≡ map (link_at header.now (layout_by eras.now) granules.now) (range_with_len 0 tiles)) }
    ensures steps { OnOk result (steps.new ≡ steps.old + length (spelled_below granules.now (first_granule (layout_by eras.now) tiles))) }
    ensures few { steps.new ≤ steps.old + length (spelled_below granules.now (first_granule (layout_by eras.now) tiles)) }
{
    let ends = ends_of(alloc, eras, tiles)?;
    links_at_ends(alloc, header, granules, ends.as_slice(), steps)
}
