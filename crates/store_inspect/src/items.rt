//! What is odd about the items of a store.

ghost use Rattle.std.specs.Prelude.{◌≡◌, ◌++◌, ◌∷◌, [], List, Some, IfOk, OnOk};
ghost use Rattle.tuple_bytes.specs.declared.header.Header.{Header as AHeader};
ghost use Rattle.tuple_bytes.specs.declared.item.Item.{Item as AnItem};
ghost use Rattle.tuple_bytes.specs.Items.{item_of};
ghost use Rattle.tuple_bytes.specs.Spelling.{FitsHeader, FitsItem};
ghost use Rattle.store_inspect.specs.Items.{next_place, findings_of_items};
ghost use Rattle.store_inspect.specs.Known.{KnowsItems};

use crate::granules::Granules;
use crate::moments::Moments;
use crate::numbers::Numbers;
use crate::operations::Operations;
use file_findings::{Finding, Made, note_all};
use history_model::Spelled;
use std::alloc::Global;
use tuple_bytes::{Header, Item, decode_item};

/// What is known of the items so far.
#[derive(Drop)]
pub(crate) struct Walk {
    pub numbers: Numbers,
    pub moments: Moments,
    pub operations: Operations,
    pub granules: Granules,
}

impl Walk {
    fn new(alloc: Global, header: &Header) -> Made<Walk>
        requires fits { FitsHeader header.now }
        ensures value { IfOk result (λ w. KnowsItems header.now w []) }
    {
        Ok(Walk {
            numbers: Numbers::new(alloc),
            moments: Moments::new(alloc),
            operations: Operations::new(alloc),
            granules: Granules::new(alloc, header)?,
        })
    }

    fn take(&mut self, alloc: Global, place: u64, item: Item) -> Made<()>
        requires fits { FitsItem item }
        ensures value { OnOk result ((header : AHeader) (before : List AnItem) → place ≡ next_place before
            → KnowsItems header self.old before → KnowsItems header self.new (before ++ item ∷ [])) }
    {
        self.numbers.take(place, &item)?;
        self.granules.take(place, self.moments.last, &item)?;
        self.moments.take(place, &item)?;
        self.operations.take(alloc, place, item)
    }

    /// Takes the item that a payload spells.
    fn take_payload(&mut self, alloc: Global, place: u64, payload: &[u8]) -> Made<()>
        ensures value { OnOk result ((item : AnItem) → item_of payload.now ≡ Some item
            → (header : AHeader) (before : List AnItem) → place ≡ next_place before
            → KnowsItems header self.old before → KnowsItems header self.new (before ++ item ∷ [])) }
    {
        match decode_item(alloc, payload)? {
            Some(item) => self.take(alloc, place, item),
            None => Ok(()),
        }
    }

    /// All that was found, kind by kind.
    pub fn findings(&self, alloc: Global) -> Made<Vec<Finding>>
        ensures value { IfOk result (λ found. (header : AHeader) (its : List AnItem)
            → KnowsItems header self.now its → found.items ≡ findings_of_items header its) }
    {
        let mut found = Vec::new(alloc);
        note_all(&mut found, &self.numbers.gaps)?;
        note_all(&mut found, &self.moments.falls)?;
        note_all(&mut found, &self.operations.misfits)?;
        note_all(&mut found, &self.operations.unsayable)?;
        note_all(&mut found, &self.granules.idle)?;
        note_all(&mut found, &self.granules.odd)?;
        note_all(&mut found, &self.granules.beyond)?;
        Ok(found)
    }
}

/// Goes over the items behind a header.
pub(crate) fn walked(alloc: Global, header: &Header, items: &Spelled) -> Made<Walk>
    requires fits { FitsHeader header.now }
    ensures value { IfOk result (λ w. KnowsItems header.now w items.now) }
{
    let mut walk = Walk::new(alloc, header)?;
    for (i, payload) in items.as_slice().iter().enumerate() {
        walk.take_payload(alloc, i as u64 + 1, payload.as_slice())?;
    }
    Ok(walk)
}
