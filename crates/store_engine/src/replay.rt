//! What the payloads of a file say.
//!
//! Tables take transactions in the order of their moments. In a file that this program wrote they stand in
//! that order, so each is applied as it is read. In any other file their moments may fall: then all are
//! gathered, and sorted by moment, those of one moment in file order.

ghost use Rattle.std.specs.Prelude.{◌≡◌, ◌+◌, ◌<◌, ◌≤◌, ◌^◌, ◌++◌, ◌∷◌, [], ℕ, true, List, length, Some, IfOk, OnOk};
ghost use Rattle.std.specs.List.{AllByRecursion};
ghost use Rattle.std.specs.List.Sorted.{IsNonDecreasingBy};
ghost use Rattle.tuple_bytes.specs.declared.header.Header.{Header as AHeader};
ghost use Rattle.tuple_bytes.specs.declared.item.Txn.{Txn as ATxn};
ghost use Rattle.tuple_bytes.specs.Items.{item_of};
ghost use Rattle.tuple_bytes.specs.Spelling.{FitsHeader};
ghost use Rattle.history_model.specs.Stored.{items_of};
ghost use Rattle.tt_table.specs.Stands.{StandsFor};
ghost use Rattle.store_engine.specs.Contents.{lent_item};
ghost use Rattle.store_engine.specs.Replay.{IsGathered, IsReordered, IsRead};

use crate::contents::Contents;
use crate::next_item::NextItem;
use policy_eras::Eras;
use std::alloc::{AllocError, Global};
use tt_table::Tables;
use tuple_bytes::{Header, Item, Txn, decode_item};

/// Adds an item by its payload, and answers whether it may come next.
fn add_next(
    alloc: Global,
    contents: &mut Contents,
    item: &NextItem<'_>,
    payload: &[u8],
) -> Result<bool, AllocError>
    requires room { contents.old.count + 1 < 2 ^ 32 }
    requires spelled { item_of payload.now ≡ Some (lent_item item.now) }
    ensures value { IfOk result (λ follows. follows ≡ true → (header : AHeader) (payloads : List (List ℕ))
        → IsRead header payloads contents.old → IsRead header (payloads ++ payload.now ∷ []) contents.new) }
{
    if !contents.may_follow(item) {
        return Ok(false);
    }
    contents.add(alloc, item, payload)?;
    Ok(true)
}

/// Adds the item that a payload spells, and answers whether it may come next.
pub(crate) fn read_next(
    alloc: Global,
    contents: &mut Contents,
    payload: &[u8],
) -> Result<bool, AllocError>
    requires room { contents.old.count + 1 < 2 ^ 32 }
    ensures value { IfOk result (λ follows. follows ≡ true → (header : AHeader) (payloads : List (List ℕ))
        → IsRead header payloads contents.old → IsRead header (payloads ++ payload.now ∷ []) contents.new) }
{
    match decode_item(alloc, payload)? {
        Some(Item::Txn(txn)) => add_next(
            alloc,
            contents,
            &NextItem::Txn {
                number: txn.number,
                moment: txn.moment,
                ops: &txn.ops,
            },
            payload,
        ),
        Some(Item::Frontier { moment }) => add_next(
            alloc,
            contents,
            &NextItem::Frontier { moment },
            payload,
        ),
        Some(
            Item::Policy {
                tile,
                granule,
                k,
                algs,
            },
        ) => add_next(
            alloc,
            contents,
            &NextItem::Policy {
                tile,
                granule,
                k,
                algs,
            },
            payload,
        ),
        None => Ok(true),
    }
}

/// The transactions in file order, the greatest moment of an item, whatever their moments are, and the eras.
#[derive(Drop)]
pub(crate) struct Gathered {
    txns: Vec<Txn>,
    last: u64,
    eras: Eras,
}

impl Gathered {
    /// Those of no item.
    pub fn new(alloc: Global, header: &Header) -> Result<Gathered, AllocError>
        requires fits { FitsHeader header.now }
        ensures value { IfOk result (λ g. IsGathered header.now g []) }
    {
        Ok(Gathered {
            txns: Vec::new(alloc),
            last: 0,
            eras: Eras::new(alloc, header)?,
        })
    }

    /// Adds the item that a payload spells.
    pub fn add(&mut self, alloc: Global, payload: &[u8]) -> Result<(), AllocError>
        ensures value { OnOk result ((header : AHeader) (payloads : List (List ℕ))
            → IsGathered header self.old (items_of payloads)
            → IsGathered header self.new (items_of (payloads ++ payload.now ∷ []))) }
    {
        match decode_item(alloc, payload)? {
            Some(Item::Txn(txn)) => {
                self.last = self.last.max(txn.moment);
                self.txns.push(txn)?;
                Ok(())
            }
            Some(Item::Frontier { moment }) => {
                self.last = self.last.max(moment);
                Ok(())
            }
            Some(Item::Policy { .. }) => {
                self.eras.offer_payload(payload);
                Ok(())
            }
            None => Ok(()),
        }
    }

    /// What the items say of which these are gathered.
    pub fn in_order_of_moments(mut self, alloc: Global) -> Result<Contents, AllocError>
        requires few { length self.txns.items < 2 ^ 32 }
        ensures value { IfOk result (λ contents. (header : AHeader) (payloads : List (List ℕ))
            → IsGathered header self (items_of payloads) → IsRead header payloads contents) }
    {
        sort_by_moment(&mut self.txns)?;
        let tables = apply_all(alloc, &self.txns)?;
        Ok(Contents {
            count: self.txns.len() as u32,
            last: self.last,
            tables,
            eras: self.eras,
        })
    }
}

/// Sorts by moment, and keeps the order of those of one moment.
fn sort_by_moment(txns: &mut Vec<Txn>) -> Result<(), AllocError>
    ensures rise { OnOk result (IsNonDecreasingBy (λ (t : ATxn). t.moment) txns.new.items) }
    ensures same { OnOk result (IsReordered txns.old.items txns.new.items) }
    ensures as_many { length txns.new.items ≡ length txns.old.items }
{
    txns.sort_by_key(|txn| txn.moment)
}

/// The tables that transactions make, one after another.
fn apply_all(alloc: Global, txns: &[Txn]) -> Result<Tables, AllocError>
    requires rise { IsNonDecreasingBy (λ (t : ATxn). t.moment) txns.now }
    ensures value { IfOk result (λ tables. StandsFor tables txns.now) }
    ensures in_time { IfOk result (λ tables. (last : ℕ)
        → AllByRecursion (λ (t : ATxn). t.moment ≤ last) txns.now → tables.last ≤ last) }
{
    let mut tables = Tables::new(alloc);
    for txn in txns {
        tables.apply(alloc, txn.moment, &txn.ops)?;
    }
    Ok(tables)
}
