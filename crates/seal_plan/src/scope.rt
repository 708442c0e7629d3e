//! What a plan is of: a history, and how many of its tiles.

ghost use Rattle.std.specs.Prelude.{◌≡◌, ◌≤◌};
ghost use Rattle.tuple_bytes.specs.Spelling.{FitsHeader};
ghost use Rattle.history_model.specs.History.{history};
ghost use Rattle.digest_model.specs.Layout.{policy_of, layout, first_granule, max_granules};
ghost use Rattle.seal_plan.specs.Plan.{planned_of};

use history_model::Spelled;
use policy_eras::Eras;
use std::marker::Model;
use std::snapshot::Snapshot;
use tuple_bytes::Header;

/// A header, the eras of the items behind it, and how many tiles.
#[derive(Drop)]
pub struct Scope {
    header: Header,
    eras: Eras,
    tiles: u32,
    items: Snapshot<Spelled>,
}

impl Model for Scope {
    ghost use Rattle.history_model.specs.History.{history};
    ghost use Rattle.seal_plan.specs.Plan.{Planned, planned_of, IsScope};

    ghost Value = { Planned };

    ghost view = { λ s. planned_of (history s.header s.items.value) s.tiles };

    ghost invariant = { λ s. IsScope (planned_of (history s.header s.items.value) s.tiles) s.eras };
}

impl Scope {
    /// These tiles, which lie below granule 1,048,576.
    pub fn new(header: &Header, eras: Eras, items: &Spelled, tiles: u32) -> Scope
        requires fits { FitsHeader header.now }
        requires eras { eras ≡ policy_of (history header.now items.now) }
        requires within { first_granule (layout (history header.now items.now)) tiles ≤ max_granules }
        ensures value { result ≡ planned_of (history header.now items.now) tiles }
    {
        Scope {
            header: *header,
            eras,
            tiles,
            items: Snapshot::of(items),
        }
    }

    /// The header of the history.
    pub fn header(&self) -> &Header
        ensures value { result.now ≡ self.now.history.header }
        ensures fits { FitsHeader result.now }
    {
        &self.header
    }

    /// Where the tiles lie.
    pub fn eras(&self) -> &Eras
        ensures value { result.now ≡ policy_of self.now.history }
    {
        &self.eras
    }

    /// How many tiles there are.
    pub fn tiles(&self) -> u32
        ensures value { result ≡ self.now.tiles }
        ensures within { first_granule (layout self.now.history) self.now.tiles ≤ max_granules }
    {
        self.tiles
    }
}
