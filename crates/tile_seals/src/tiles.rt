//! The kept digests of the first tiles.

ghost use Rattle.std.specs.Prelude.{◌≡◌, ◌≤◌, ◌<◌, ◌+◌, ◌↔◌, ℕ, true, IfOk, IfSome, IsSome, map};
ghost use Rattle.std.specs.List.{Contains, range_with_len};
ghost use Rattle.history_model.specs.History.{History, history};
ghost use Rattle.history_model.specs.Stored.{items_of};
ghost use Rattle.digest_model.specs.Laws.{SameBelow};
ghost use Rattle.digest_model.specs.Layout.{policy_of, layout, first_granule, max_granules};
ghost use Rattle.digest_model.specs.Digests.{cum};
ghost use Rattle.audit_model.specs.Names.{planned, digest};
ghost use Rattle.tuple_bytes.specs.Spelling.{FitsHeader};
ghost use Rattle.tile_seals.specs.Kept.{planned_of, retold};
ghost use Rattle.tile_seals.specs.Places.{takes_leaves, leaves_in};

mod batch;

use crate::eras::sealed_era;
use crate::forests::Forests;
use crate::lookup::digest_at;
use crate::parts::Parts;
use crate::told::Told;
use cumulative_chain::header_digest;
use notary_link::Name;
use policy_eras::Eras;
use std::alloc::{AllocError, Global};
use std::marker::Model;
use std::snapshot::Snapshot;
use tuple_bytes::Header;

/// The digests of all names of the first tiles.
#[derive(Drop)]
pub struct Tiles {
    header: Header,
    eras: Eras,
    tiles: u32,
    told: Snapshot<Told>,
    header_digest: [u8; 32],
    links: Vec<[u8; 32]>,
    parts: Parts,
    forests: Forests,
}

impl Model for Tiles {
    ghost use Rattle.history_model.specs.History.{history};
    ghost use Rattle.history_model.specs.Stored.{items_of};
    ghost use Rattle.tile_seals.specs.Kept.{Planned, planned_of, Keeps};

    ghost Value = { Planned };

    ghost view = { λ p. planned_of (history p.header (items_of p.told.value.spellings)) p.tiles };

    ghost invariant = { λ p. Keeps (history p.header (items_of p.told.value.spellings)) p.tiles p.eras p.header_digest p.links.items p.parts p.forests };
}

/// The links with that of the next tile.
fn with_link(mut links: Vec<[u8; 32]>, link: &[u8; 32]) -> Result<Vec<[u8; 32]>, AllocError>
    ensures value { (h : History) (tile : ℕ) → links.items ≡ map (cum h) (range_with_len 0 tile) → link.now ≡ cum h tile → IfOk result (λ grown. grown.items ≡ map (cum h) (range_with_len 0 (tile + 1))) }
{
    links.push(*link)?;
    Ok(links)
}

impl Tiles {
    /// No tile.
    pub fn new(alloc: Global, header: &Header, eras: Eras, told: &Told) -> Result<Tiles, AllocError>
        requires fits { FitsHeader header.now }
        requires eras { eras ≡ policy_of (history header.now (items_of told.now.spellings)) }
        ensures value { IfOk result (λ tiles. tiles ≡ planned_of (history header.now (items_of told.now.spellings)) 0) }
    {
        let forests = Forests::new(alloc, &eras)?;
        Ok(Tiles {
            header: *header,
            eras,
            tiles: 0,
            told: Snapshot::of(told),
            header_digest: header_digest(header),
            links: Vec::new(alloc),
            parts: Parts::new(alloc),
            forests,
        })
    }

    /// One tile more, by the digests of its granules, where a chain takes them, and by the value of the
    /// chain at its end. Meanwhile more may have been told, of granules behind the tiles so far, that
    /// leaves the eras.
    pub fn grow(
        self,
        alloc: Global,
        told: &Told,
        leaves: &[[u8; 32]],
        link: &[u8; 32],
    ) -> Result<Tiles, AllocError>
        requires same { SameBelow self.history (retold self.history told.now.spellings) (first_granule (layout self.history) self.tiles) }
        requires eras { policy_of (retold self.history told.now.spellings) ≡ policy_of self.history }
        requires within { first_granule (layout self.history) (self.tiles + 1) ≤ max_granules }
        requires leaves { takes_leaves (layout self.history) self.tiles ≡ true → leaves.now ≡ leaves_in (retold self.history told.now.spellings) self.tiles }
        requires link { link.now ≡ cum (retold self.history told.now.spellings) self.tiles }
        ensures value { IfOk result (λ grown. grown ≡ planned_of (retold self.history told.now.spellings) (self.tiles + 1)) }
    {
        let Tiles {
            header,
            eras,
            tiles,
            told: _,
            header_digest,
            links,
            mut parts,
            mut forests,
        } = self;
        let links = with_link(links, link)?;
        parts.add(&eras, tiles, leaves)?;
        forests.add(alloc, &eras, tiles, leaves)?;
        Ok(Tiles {
            header,
            eras,
            tiles: tiles + 1,
            told: Snapshot::of(told),
            header_digest,
            links,
            parts,
            forests,
        })
    }

    /// The header that the digests are of.
    pub fn header(&self) -> &Header
        ensures value { result.now ≡ self.now.history.header }
        ensures fits { FitsHeader result.now }
    {
        &self.header
    }

    /// Where the tiles lie.
    pub fn eras(&self) -> &Eras
        ensures value { result.now ≡ policy_of self.now.history }
    {
        &self.eras
    }

    /// How many tiles there are.
    pub fn tiles(&self) -> u32
        ensures value { result ≡ self.now.tiles }
        ensures within { first_granule (layout self.now.history) self.now.tiles ≤ max_granules }
    {
        self.tiles
    }

    /// The value of the chain at the end of each tile.
    pub fn links(&self) -> &[[u8; 32]]
        ensures value { result.now ≡ map (cum self.now.history) (range_with_len 0 self.now.tiles) }
    {
        &self.links
    }

    /// The digest of a name; none exactly where the name isn't planned.
    pub fn digest(&self, name: Name) -> Option<[u8; 32]>
        ensures value { IfSome result (λ d. d ≡ digest self.now.history name) }
        ensures planned { IsSome result ↔ Contains (planned (layout self.now.history) self.now.tiles) name }
    {
        match name {
            Name::Header => Some(self.header_digest),
            Name::Era { era } => sealed_era(&self.eras, self.tiles, era),
            Name::Cum { tile } => digest_at(&self.links, tile as usize),
            Name::Tile { tile, part } => self.parts.digest(&self.eras, tile, part),
            Name::Node { level, index } => self.forests.digest(0, level, index),
            Name::EraNode { era: 0, .. } => None,
            Name::EraNode { era, level, index } => self.forests.digest(era, level, index),
        }
    }
}
