//! Whether the entries of a book follow one another.

ghost use Rattle.std.specs.Prelude.{◌≡◌, ◌^◌, ◌<◌, ◌≤◌, ◌+◌, ◌++◌, ◌∷◌, [], ℕ, List, IfOk, OnOk, unwrap_or};
ghost use Rattle.std.specs.Ordering.{nat_cmp};
ghost use Rattle.std.specs.BTreeMap.{get};
ghost use Rattle.notary_link.specs.Notary.{Call};
ghost use Rattle.notary_book.specs.Books.{calls_in};
ghost use Rattle.notary_book.specs.Entries.{call_in};
ghost use Rattle.book_inspect.specs.Order.{first_id};

use file_findings::{Finding, Made, note};
use notary_book::{Entry, decode};
use std::alloc::Global;
use std::collections::BTreeMap;
use tuple_bytes::Blob;

type CountMap = BTreeMap<u64, u64>;

/// What is known of the order of the entries so far.
#[derive(Drop)]
pub(crate) struct Order {
    pub entries: u64,
    /// The id of the first one.
    pub first: Option<u64>,
    /// How many batches there are under each id.
    pub counts: CountMap,
    /// Those out of turn.
    pub found: Vec<Finding>,
    ghost each: { (id : ℕ) → unwrap_or (get nat_cmp counts id) 0 ≤ entries },
}

impl Order {
    ghost use Rattle.book_inspect.specs.KnownOrder.{KnowsOrder, TakesTurn, TakesNone, first_or};

    fn new(alloc: Global) -> Order
        ensures value { KnowsOrder result [] }
        ensures none { result.entries ≡ 0 }
    {
        Order {
            entries: 0,
            first: None,
            counts: BTreeMap::new(alloc),
            found: Vec::new(alloc),
        }
    }

    /// Takes the entry that a payload spells, where it spells one.
    fn take_payload(&mut self, alloc: Global, payload: &[u8]) -> Made<()>
        requires room { self.old.entries + 1 < 2 ^ 64 }
        ensures value { OnOk result ((calls : List Call)
            → KnowsOrder self.old calls → KnowsOrder self.new (calls ++ calls_in (payload.now ∷ []))) }
        ensures few { self.new.entries ≤ self.old.entries + 1 }
    {
        match decode(alloc, payload)? {
            Some(entry) => self.take(&entry),
            None => Ok(()),
        }
    }

    fn take(&mut self, entry: &Entry) -> Made<()>
        requires room { self.old.entries + 1 < 2 ^ 64 }
        ensures value { OnOk result ((calls : List Call)
            → KnowsOrder self.old calls → KnowsOrder self.new (calls ++ call_in entry.now ∷ [])) }
        ensures few { self.new.entries ≤ self.old.entries + 1 }
    {
        match entry {
            Entry::File { id, index, .. } => self.take_batch(*id, *index),
            Entry::Note { id, .. } => {
                self.take_mark(*id);
                Ok(())
            }
        }
    }

    fn take_batch(&mut self, id: u64, index: u32) -> Made<()>
        requires room { self.old.entries + 1 < 2 ^ 64 }
        ensures value { OnOk result (TakesTurn id index self.old self.new) }
        ensures few { self.new.entries ≤ self.old.entries + 1 }
    {
        let count = self.counts.get(&id).copied().unwrap_or(0);
        let out = Finding::DamagedList(self.entries + 1);
        note(&mut self.found, u64::from(index) != count, out)?;
        self.entries += 1;
        self.counts.insert(id, count + 1)?;
        self.note_first(id);
        Ok(())
    }

    fn take_mark(&mut self, id: u64)
        requires room { self.old.entries + 1 < 2 ^ 64 }
        ensures value { TakesNone id self.old self.new }
        ensures few { self.new.entries ≤ self.old.entries + 1 }
    {
        self.entries += 1;
        self.note_first(id);
    }

    fn note_first(&mut self, id: u64)
        ensures value { self.new ≡ record self.old { first = first_or self.old.first id } }
    {
        if self.first.is_none() {
            self.first = Some(id);
        }
    }

    /// Goes over the entries that payloads spell.
    pub fn of(alloc: Global, payloads: &[Blob]) -> Made<Order>
        ensures value { IfOk result (λ o. KnowsOrder o (calls_in payloads.now)) }
    {
        let mut order = Order::new(alloc);
        for payload in payloads {
            order.take_payload(alloc, payload.as_slice())?;
        }
        Ok(order)
    }
}

/// The id of the first entry that payloads spell.
pub fn first_id(alloc: Global, payloads: &[Blob]) -> Made<Option<u64>>
    ensures value { IfOk result (λ id. id ≡ first_id (calls_in payloads.now)) }
{
    let order = Order::of(alloc, payloads)?;
    Ok(order.first)
}
