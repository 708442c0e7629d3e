//! The items of a store, each kept as its one spelling.

ghost use Rattle.std.specs.Prelude.{◌≡◌, ◌++◌, ◌∷◌, [], IfOk, OnOk, OnErr, map};
ghost use Rattle.std.specs.List.{All, filter_map};
ghost use Rattle.byte_grammar.specs.Gated.{FitsRecord};
ghost use Rattle.tuple_bytes.specs.declared.item.Item.{Item};
ghost use Rattle.tuple_bytes.specs.Items.{item_of};
ghost use Rattle.tuple_bytes.specs.Spelling.{spell_item, FitsItem, Spells};
ghost use Rattle.history_model.specs.Stored.{store_shape, IsStorable};
ghost use Rattle.history_model.specs.Spelled.{moment_at, txn_moment};

use byte_grammar::{byte_of, u32_of, u64_of};
use std::alloc::{AllocError, Global};
use std::marker::Model;
use tuple_bytes::{Blob, Item, Items, Payloads, encode_item};

/// The items of a store, in file order, each kept as its one spelling. That takes less memory than
/// their values, and what is hashed is at hand.
#[derive(Debug, Drop)]
pub struct Spelled {
    payloads: Payloads,
}

impl Model for Spelled {
    ghost use Rattle.std.specs.Prelude.{List};
    ghost use Rattle.tuple_bytes.specs.declared.item.Item.{Item};
    ghost use Rattle.history_model.specs.Stored.{items_of};
    ghost use Rattle.history_model.specs.Spelled.{AreSpellings};

    ghost Value = { List Item };

    ghost view = { λ s. items_of s.payloads };

    ghost invariant = { λ s. AreSpellings s.payloads (items_of s.payloads) };
}

impl Spelled {
    /// No item, and no memory.
    pub fn new(alloc: Global) -> Spelled
        ensures value { result ≡ [] }
    {
        Spelled {
            payloads: Payloads::new(alloc),
        }
    }

    /// These items.
    pub fn of(alloc: Global, items: &Items) -> Result<Spelled, AllocError>
        requires storable { All IsStorable items.now }
        ensures value { IfOk result (λ spelled. spelled ≡ items.now) }
    {
        let mut spelled = Spelled::new(alloc);
        for item in items.as_slice() {
            let spelling = spell(alloc, item)?;
            spelled.push(alloc, spelling.as_slice())?;
        }
        Ok(spelled)
    }

    /// One more item, by its payload in a record of a store.
    pub fn push(&mut self, alloc: Global, payload: &[u8]) -> Result<(), AllocError>
        requires fits { FitsRecord store_shape payload.now }
        ensures ok { OnOk result (self.new ≡ self.old ++ filter_map item_of (payload.now ∷ [])) }
        ensures storable { OnOk result (All IsStorable self.old → All IsStorable self.new) }
        ensures err { OnErr result (self.new ≡ self.old) }
    {
        let spelling = copied(alloc, payload)?;
        self.payloads.push(spelling)?;
        Ok(())
    }

    /// The spelling of each item.
    pub fn as_slice(&self) -> &[Blob]
        ensures value { result.now ≡ map spell_item self.now }
        ensures fit { All FitsItem self.now }
    {
        self.payloads.as_slice()
    }
}

fn spell(alloc: Global, item: &Item) -> Result<Blob, AllocError>
    requires { IsStorable item.now }
    ensures { IfOk result (λ b. b ≡ spell_item item.now) }
{
    match encode_item(alloc, item) {
        Ok(spelled) => Ok(spelled),
        Err(_) => Err(AllocError),
    }
}

/// The same bytes, in memory of their own.
fn copied(alloc: Global, bytes: &[u8]) -> Result<Blob, AllocError>
    ensures value { IfOk result (λ copied. copied ≡ bytes.now) }
{
    Ok(Blob::from_vec(bytes.to_vec(alloc)?))
}

/// The number of seconds at which a payload's transaction was committed. Another item has none here.
#[tactic(auto, unfolding(crate::specs::Spelled::moment_at, crate::specs::Spelled::moment_by), using(crate::proofs::Moments::moment_by_other))]
fn read_moment(payload: &[u8]) -> Option<u64>
    ensures value { result ≡ moment_at payload.now }
{
    let (tag, rest) = byte_of(payload)?;
    match tag {
        1 => {
            let (_number, rest) = u32_of(rest)?;
            let (moment, _ops) = u64_of(rest)?;
            Some(moment)
        }
        _ => None,
    }
}

/// The moment of the transaction that a payload spells; none where it spells another item.
pub fn moment_of(payload: &[u8]) -> Option<u64>
    ensures value { (item : Item) → Spells item payload.now → result ≡ txn_moment item }
{
    read_moment(payload)
}
