//! The eras of a store, in order.

ghost use Rattle.std.specs.Prelude.{◌≡◌, ◌≢◌, ◌≤◌, true, false, IfOk, IfSome, length};
ghost use Rattle.std.specs.List.{All};
ghost use Rattle.std.specs.Option.{option_map};
ghost use Rattle.tuple_bytes.specs.Spelling.{FitsHeader, FitsItem};
ghost use Rattle.history_model.specs.History.{history};
ghost use Rattle.digest_model.specs.Layout.{layout_by, first_era, offered, with_item, policy_of, era_at, era_of, sealed_eras, exponent, first_granule, end_granule, tile_of, has_tile_chains, has_tree, max_granules};
ghost use Rattle.policy_eras.specs.Policy.{as_era, count_of, first_past, has_leaves, is_full, with_payload};

use crate::era::Era;
use crate::finding::{
    are_eras, count_below, end_of, exponent_at, first_of, has_chains_at, has_leaves_in,
    has_tree_at, is_era, is_next, nth, tile_at,
};
use crate::reading;
use history_model::Spelled;
use std::alloc::{AllocError, Global};
use std::marker::Model;
use tuple_bytes::{Header, Item, MAX_GRANULES};

/// How many eras there may be besides the first.
pub const MAX_LATER: usize = 255;

/// The eras of a store.
#[derive(Drop)]
pub struct Eras {
    first: Era,
    later: Vec<Era>,
}

impl Model for Eras {
    ghost use Rattle.std.specs.Prelude.{◌≤◌, vec_capacity};
    ghost use Rattle.digest_model.specs.Layout.{Policy};
    ghost use Rattle.policy_eras.specs.Policy.{policy, AreEras};

    ghost Value = { Policy };

    ghost view = { λ e. policy e.first e.later.items };

    ghost invariant = { λ e. AreEras e.first e.later.items × (255 ≤ vec_capacity e.later) };
}

impl Eras {
    /// The one era of a header, with room for all others.
    pub fn new(alloc: Global, header: &Header) -> Result<Eras, AllocError>
        requires fits { FitsHeader header.now }
        ensures value { IfOk result (λ e. e ≡ first_era header.now) }
    {
        Ok(Eras {
            first: Era {
                tile: 0,
                granule: 0,
                k: header.k,
                algs: header.algs,
            },
            later: Vec::with_capacity(alloc, MAX_LATER)?,
        })
    }

    /// The eras of a header and the items behind it.
    pub fn of(alloc: Global, header: &Header, items: &Spelled) -> Result<Eras, AllocError>
        requires fits { FitsHeader header.now }
        ensures value { IfOk result (λ e. e ≡ policy_of (history header.now items.now)) }
    {
        let mut eras = Eras::new(alloc, header)?;
        for payload in items.as_slice() {
            eras.offer_payload(payload.as_slice());
        }
        Ok(eras)
    }

    /// The same of items that are no spellings.
    pub fn of_slice(alloc: Global, header: &Header, items: &[Item]) -> Result<Eras, AllocError>
        requires header { FitsHeader header.now }
        requires items { All FitsItem items.now }
        ensures value { IfOk result (λ e. e ≡ policy_of (history header.now items.now)) }
    {
        let mut eras = Eras::new(alloc, header)?;
        for item in items {
            eras.offer_item(item);
        }
        Ok(eras)
    }

    /// Equal eras, in memory of their own.
    pub fn copy(&self, alloc: Global) -> Result<Eras, AllocError>
        ensures value { IfOk result (λ copied. copied ≡ self.now) }
    {
        let mut later = Vec::with_capacity(alloc, MAX_LATER)?;
        later.extend_from_slice(&self.later)?;
        Ok(Eras {
            first: self.first,
            later,
        })
    }

    /// The next era, where a change is that; else nothing. Takes no memory.
    pub fn offer(&mut self, tile: u32, granule: u32, k: u8, algs: u8)
        requires fits { k ≤ 10 }
        ensures value { self.new ≡ offered self.old (record { tile = tile; k = k; algs = algs }) granule }
    {
        if is_next(self.first, &self.later, tile, granule) {
            self.later.push_reserved(Era {
                tile,
                granule,
                k,
                algs,
            });
        }
    }

    /// The next era, where an item is that.
    pub fn offer_item(&mut self, item: &Item)
        requires fits { FitsItem item.now }
        ensures value { self.new ≡ with_item self.old item.now }
    {
        if let Item::Policy {
            tile,
            granule,
            k,
            algs,
        } = item
        {
            self.offer(*tile, *granule, *k, *algs);
        }
    }

    /// The next era, where a payload spells an item that is that. Takes no memory.
    pub fn offer_payload(&mut self, payload: &[u8])
        ensures value { self.new ≡ with_payload self.old payload.now }
    {
        if let Some(era) = reading::policy_of(payload) {
            self.offer(era.tile, era.granule, era.k, era.algs);
        }
    }

    /// Whether two are the same eras.
    pub fn is(&self, other: &Eras) -> bool
        ensures value { result ≡ true → other.now ≡ self.now }
        ensures other { result ≡ false → other.now ≢ self.now }
    {
        is_era(self.first, other.first) && are_eras(&self.later, &other.later)
    }

    /// How many there are.
    pub fn count(&self) -> u32
        ensures value { result ≡ count_of self.now }
        ensures few { result ≤ 256 }
    {
        1 + self.later.len() as u32
    }

    /// Whether none more may begin.
    pub fn is_full(&self) -> bool
        ensures value { result ≡ is_full self.now }
    {
        self.later.len() >= MAX_LATER
    }

    /// How many but the first begin at one of the first tiles.
    pub fn sealed(&self, tiles: u32) -> u32
        ensures value { result ≡ length (sealed_eras (layout_by self.now) tiles) }
        ensures few { result ≤ 255 }
    {
        count_below(&self.later, u64::from(tiles))
    }

    /// The era of a number, from 0 on.
    pub fn at(&self, era: u32) -> Option<Era>
        ensures value { option_map as_era result ≡ era_at self.now era }
        ensures placed { IfSome result (λ e. e.granule ≡ first_granule (layout_by self.now) e.tile) }
    {
        if era == 0 {
            return Some(self.first);
        }
        nth(&self.later, era - 1)
    }

    /// The number of a tile's era.
    pub fn era_of(&self, tile: u32) -> u32
        ensures value { result ≡ era_of (layout_by self.now) tile }
        ensures few { result ≤ 255 }
    {
        count_below(&self.later, u64::from(tile) + 1)
    }

    /// The first granule of a tile.
    pub fn first(&self, tile: u32) -> u64
        ensures value { result ≡ first_granule (layout_by self.now) tile }
    {
        first_of(self.first, &self.later, tile)
    }

    /// One more than the last granule of a tile.
    pub fn end(&self, tile: u32) -> u64
        ensures value { result ≡ end_granule (layout_by self.now) tile }
    {
        end_of(self.first, &self.later, tile)
    }

    /// The tile of a granule: so many tiles have ended where it begins.
    pub fn tiles(&self, granule: u32) -> u32
        requires within { granule ≤ max_granules }
        ensures value { result ≡ tile_of (layout_by self.now) granule }
    {
        tile_at(self.first, &self.later, granule)
    }

    /// The first tile that ends behind the last granule.
    pub fn first_past(&self) -> u32
        ensures value { result ≡ first_past (layout_by self.now) }
    {
        self.tiles(MAX_GRANULES)
    }

    /// A tile has 2 to this power granules.
    pub fn exponent(&self, tile: u32) -> u8
        ensures value { result ≡ exponent (layout_by self.now) tile }
        ensures few { result ≤ 10 }
    {
        exponent_at(self.first, &self.later, tile)
    }

    /// Whether a tile has the chains of its parts.
    pub fn has_tile_chains(&self, tile: u32) -> bool
        ensures value { result ≡ has_tile_chains (layout_by self.now) tile }
    {
        has_chains_at(self.first, &self.later, tile)
    }

    /// Whether the granules of a tile are leaves of its era's tree.
    pub fn has_tree(&self, tile: u32) -> bool
        ensures value { result ≡ has_tree (layout_by self.now) tile }
    {
        has_tree_at(self.first, &self.later, tile)
    }

    /// Whether some tile may have chains of its parts or the tree.
    pub fn has_leaves(&self) -> bool
        ensures value { result ≡ has_leaves self.now }
    {
        has_leaves_in(self.first, &self.later)
    }
}
