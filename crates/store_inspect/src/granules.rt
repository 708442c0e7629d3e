//! Where items stand among granules, tiles and eras.

ghost use Rattle.std.specs.Prelude.{◌≡◌, ◌++◌, ◌∷◌, ◌<◌, ◌≤◌, ◌&&◌, [], List, IfOk, OnOk, not, nat_le};
ghost use Rattle.tuple_bytes.specs.declared.header.Header.{Header as AHeader};
ghost use Rattle.tuple_bytes.specs.declared.item.Item.{Item as AnItem};
ghost use Rattle.tuple_bytes.specs.Spelling.{FitsHeader, FitsItem};
ghost use Rattle.history_model.specs.History.{granule_of};
ghost use Rattle.digest_model.specs.Layout.{max_granules};
ghost use Rattle.file_findings.specs.declared.finding.Finding.TheVariants.{OddFrontier};
ghost use Rattle.file_findings.specs.Along.{listed};
ghost use Rattle.store_inspect.specs.Items.{next_place, moment_before, begins_tile, tile_at};

use file_findings::{Finding, Made, note};
use policy_eras::{Eras, MAX_GRANULES};
use std::alloc::Global;
use tuple_bytes::{Header, Item};

/// The eras so far, and what doesn't go with them.
#[derive(Drop)]
pub(crate) struct Granules {
    pub width: u32,
    pub eras: Eras,
    pub idle: Vec<Finding>,
    pub odd: Vec<Finding>,
    pub beyond: Vec<Finding>,
    /// How many tiles had ended at the Frontier of each filing.
    pub filed: Vec<u32>,
    ghost wide: { 0 < width },
}

/// Whether a moment is after the last granule.
fn is_beyond(width: u32, moment: u64) -> bool
    requires wide { 0 < width }
    ensures value { result ≡ nat_le max_granules (granule_of width moment) }
{
    moment / u64::from(width) >= u64::from(MAX_GRANULES)
}

/// The tile of a moment.
fn tile_at(width: u32, eras: &Eras, moment: u64) -> u32
    requires wide { 0 < width }
    ensures value { result ≡ tile_at width eras.now moment }
{
    let granule = moment / u64::from(width);
    eras.tiles(granule.min(u64::from(MAX_GRANULES)) as u32)
}

/// Whether it begins there.
fn begins_tile(width: u32, eras: &Eras, moment: u64) -> bool
    requires wide { 0 < width }
    ensures value { result ≡ begins_tile width eras.now moment }
{
    let first = eras.first(tile_at(width, eras, moment));
    moment % u64::from(width) == 0 && first == moment / u64::from(width)
}

impl Granules {
    ghost use Rattle.store_inspect.specs.Known.{KnowsGranules};

    pub fn new(alloc: Global, header: &Header) -> Made<Granules>
        requires fits { FitsHeader header.now }
        ensures value { IfOk result (λ g. KnowsGranules header.now g []) }
    {
        Ok(Granules {
            width: header.width,
            eras: Eras::new(alloc, header)?,
            idle: Vec::new(alloc),
            odd: Vec::new(alloc),
            beyond: Vec::new(alloc),
            filed: Vec::new(alloc),
        })
    }

    /// Takes an item that stands after one of this moment.
    pub fn take(&mut self, place: u64, last: u64, item: &Item) -> Made<()>
        requires fits { FitsItem item.now }
        ensures value { OnOk result ((header : AHeader) (before : List AnItem) → place ≡ next_place before → last ≡ moment_before before
            → KnowsGranules header self.old before → KnowsGranules header self.new (before ++ item.now ∷ [])) }
    {
        match item {
            Item::Txn(txn) => {
                let beyond = Finding::Beyond(place, txn.moment);
                note(&mut self.beyond, is_beyond(self.width, txn.moment), beyond)
            }
            Item::Frontier { moment } => self.take_frontier(place, *moment != last, *moment),
            Item::Policy { .. } => {
                let eras = self.eras.count();
                self.eras.offer_item(item);
                note(
                    &mut self.idle,
                    self.eras.count() == eras,
                    Finding::IdlePolicy(place),
                )
            }
        }
    }

    fn take_frontier(&mut self, place: u64, files: bool, moment: u64) -> Made<()>
        ensures odd { OnOk result (self.new.odd.items ≡ self.old.odd.items
            ++ listed (files && not (begins_tile self.old.width self.old.eras moment)) (OddFrontier place moment)) }
        ensures filed { OnOk result (self.new.filed.items ≡ self.old.filed.items
            ++ listed (files && begins_tile self.old.width self.old.eras moment) (tile_at self.old.width self.old.eras moment)) }
        ensures rest { self.new ≡ record self.old { odd = self.new.odd; filed = self.new.filed } }
    {
        let begins = begins_tile(self.width, &self.eras, moment);
        let odd = Finding::OddFrontier(place, moment);
        note(&mut self.odd, files && !begins, odd)?;
        let tile = tile_at(self.width, &self.eras, moment);
        note(&mut self.filed, files && begins, tile)
    }
}
