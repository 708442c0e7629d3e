//! The digests of the parts of tiles.

ghost use Rattle.std.specs.Prelude.{◌≡◌, ◌≤◌, ◌<◌, ◌+◌, ◌++◌, ◌^◌, ◌⊎◌, ◌↔◌, ℕ, true, IfOk, OnOk, IfSome, IsSome, length};
ghost use Rattle.history_model.specs.History.{History};
ghost use Rattle.digest_model.specs.Layout.{policy_of, layout_by, layout, exponent, tile_size, has_tile_chains, whole, max_granules};
ghost use Rattle.notary_link.specs.declared.name.Name.TheVariants as names;
ghost use Rattle.tile_seals.specs.Found.{IsPlannedDigest};
ghost use Rattle.tile_seals.specs.Places.{part_at, parts_of, leaves_in, planned_parts};

use crate::digests::Digests;
use crate::lookup::{digest_at, number_at};
use policy_eras::Eras;
use std::alloc::{AllocError, Global};
use std::marker::Model;
use tile_chains::{WHOLE, tile_digest};

/// The parts of the first tiles, side by side, and where those of each tile begin.
#[derive(Drop)]
pub struct Parts {
    digests: Digests,
    starts: Vec<u32>,
}

impl Model for Parts {
    ghost use Rattle.std.specs.Prelude.{ℕ, List};

    ghost Value = { List (List ℕ) × List ℕ };

    ghost view = { λ p. (p.digests, p.starts.items) };
}

/// The part of a place among the parts of a tile: first the whole, then the bit chains.
fn part_at(place: u8) -> u8
    requires { place ≤ 10 }
    ensures { result ≡ part_at place }
{
    if place == 0 { WHOLE } else { place - 1 }
}

/// Adds the parts of a tile, over the digests of its granules.
fn add_parts(digests: &mut Digests, tile: u32, k: u8, leaves: &[[u8; 32]]) -> Result<(), AllocError>
    requires exponent { k ≤ 10 }
    requires granules { length leaves.now ≡ 2 ^ k }
    ensures value { (h : History) → exponent (layout h) tile ≡ k → leaves.now ≡ leaves_in h tile → OnOk result (digests.new ≡ digests.old ++ parts_of h tile) }
{
    for place in 0..k + 1 {
        let part = part_at(place);
        digests.push(tile_digest(tile, part, k, leaves))?;
    }
    Ok(())
}

/// The place of a part among the parts of a tile of `2^k` granules, where it has this part.
fn place_of(part: u8, k: u8) -> Option<usize>
    requires { k ≤ 10 }
    ensures some { IfSome result (λ place. (place ≤ k) × (part_at place ≡ part)) }
    ensures part { IsSome result ↔ (part ≡ whole) ⊎ (part < k) }
{
    if part == WHOLE {
        Some(0)
    } else if part < k {
        Some(usize::from(part) + 1)
    } else {
        None
    }
}

impl Parts {
    /// Of no tile, and no memory.
    pub fn new(alloc: Global) -> Parts
        ensures value { (h : History) → result ≡ planned_parts h 0 }
    {
        Parts {
            digests: Digests::new(alloc),
            starts: Vec::new(alloc),
        }
    }

    /// Adds those of the next tile, where it has tile chains.
    pub fn add(&mut self, eras: &Eras, tile: u32, leaves: &[[u8; 32]]) -> Result<(), AllocError>
        requires few { length self.old.0 ≤ max_granules }
        requires granules { has_tile_chains (layout_by eras.now) tile ≡ true → length leaves.now ≡ tile_size (layout_by eras.now) tile }
        ensures value { (h : History) → eras.now ≡ policy_of h → self.old ≡ planned_parts h tile
            → (has_tile_chains (layout h) tile ≡ true → leaves.now ≡ leaves_in h tile)
            → OnOk result (self.new ≡ planned_parts h (tile + 1)) }
    {
        self.starts.push(self.digests.as_slice().len() as u32)?;
        if eras.has_tile_chains(tile) {
            add_parts(&mut self.digests, tile, eras.exponent(tile), leaves)?;
        }
        Ok(())
    }

    /// The digest of a part of a tile; none exactly where the tile isn't one of these or hasn't this part.
    pub fn digest(&self, eras: &Eras, tile: u32, part: u8) -> Option<[u8; 32]>
        ensures value { (h : History) (tiles : ℕ) → eras.now ≡ policy_of h → self.now ≡ planned_parts h tiles
            → IsPlannedDigest h tiles (names.Tile tile part) result }
    {
        let place = place_of(part, eras.exponent(tile))?;
        if !eras.has_tile_chains(tile) {
            return None;
        }
        let start = number_at(&self.starts, tile as usize)?;
        digest_at(self.digests.as_slice(), start as usize + place)
    }
}
