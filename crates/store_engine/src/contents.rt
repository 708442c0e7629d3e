//! What the items of a store say, kept from item to item.

ghost use Rattle.std.specs.Prelude.{◌≡◌, ◌+◌, ◌<◌, ◌^◌, ◌++◌, ◌∷◌, [], None, Some, List, IsTrue, IfOk, ◌↔◌, OnOk, OnErr};
ghost use Rattle.tuple_bytes.specs.declared.header.Header.{Header as AHeader};
ghost use Rattle.tuple_bytes.specs.declared.item.Item.{Item as AnItem};
ghost use Rattle.tuple_bytes.specs.Items.{item_of};
ghost use Rattle.tuple_bytes.specs.Spelling.{FitsHeader};
ghost use Rattle.history_model.specs.History.{txn_in};
ghost use Rattle.tt_table.specs.Versions.{TablesVersions};
ghost use Rattle.store_engine.specs.Contents.{Tells, FollowsTables, IsInTime, after_item, lent_item, with_tables};

use crate::next_item::NextItem;
use policy_eras::Eras;
use std::alloc::{AllocError, Global};
use tt_table::Tables;
use tuple_bytes::Header;

/// How many transactions there are, the greatest moment, the tables, and the eras.
#[derive(Drop)]
pub(crate) struct Contents {
    pub count: u32,
    pub last: u64,
    pub tables: Tables,
    pub eras: Eras,
}

impl Contents {
    /// Those of no item.
    pub fn new(alloc: Global, header: &Header) -> Result<Contents, AllocError>
        requires fits { FitsHeader header.now }
        ensures tells { IfOk result (λ c. Tells header.now c []) }
        ensures in_time { IfOk result IsInTime }
    {
        Ok(Contents {
            count: 0,
            last: 0,
            tables: Tables::new(alloc),
            eras: Eras::new(alloc, header)?,
        })
    }

    /// Whether the item may come next: a transaction that isn't before the last one, or another item.
    pub fn may_follow(&self, item: &NextItem<'_>) -> bool
        ensures value { IsTrue result ↔ FollowsTables self.now (lent_item item.now) }
    {
        match item {
            NextItem::Txn { moment, .. } => self.tables.last() <= *moment,
            NextItem::Frontier { .. } | NextItem::Policy { .. } => true,
        }
    }

    /// Adds an item without a transaction, which a payload spells. Takes no memory.
    pub fn note(&mut self, item: &NextItem<'_>, payload: &[u8])
        requires other { txn_in (lent_item item.now) ≡ None }
        requires spelled { item_of payload.now ≡ Some (lent_item item.now) }
        ensures value { self.new ≡ after_item self.old (lent_item item.now) }
        ensures in_time { IsInTime self.old → IsInTime self.new }
        ensures tells { (header : AHeader) (items : List AnItem)
            → Tells header self.old items → Tells header self.new (items ++ lent_item item.now ∷ []) }
    {
        match item {
            NextItem::Txn { .. } => {}
            NextItem::Frontier { moment } => self.last = self.last.max(*moment),
            NextItem::Policy { .. } => self.eras.offer_payload(payload),
        }
    }

    /// Adds the item that a payload spells. After want of memory some of its operations may be missing in the tables.
    pub fn add(
        &mut self,
        alloc: Global,
        item: &NextItem<'_>,
        payload: &[u8],
    ) -> Result<(), AllocError>
        requires follows { FollowsTables self.old (lent_item item.now) }
        requires room { self.old.count + 1 < 2 ^ 32 }
        requires spelled { item_of payload.now ≡ Some (lent_item item.now) }
        ensures ok { OnOk result (self.new ≡ after_item self.old (lent_item item.now)) }
        ensures err { OnErr result ((tables : TablesVersions)
            × (self.new ≡ with_tables tables (after_item self.old (lent_item item.now)))) }
        ensures in_time { IsInTime self.old → IsInTime self.new }
        ensures tells { OnOk result ((header : AHeader) (items : List AnItem)
            → Tells header self.old items → Tells header self.new (items ++ lent_item item.now ∷ [])) }
    {
        match item {
            NextItem::Txn { moment, ops, .. } => {
                self.count += 1;
                self.last = self.last.max(*moment);
                self.tables.apply(alloc, *moment, ops)
            }
            NextItem::Frontier { .. } | NextItem::Policy { .. } => {
                self.note(item, payload);
                Ok(())
            }
        }
    }
}
