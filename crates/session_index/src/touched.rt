//! What transactions touch, by place.

ghost use Rattle.std.specs.Prelude.{◌≡◌, [], None, OnOk, nat_lt};
ghost use Rattle.std.specs.List.{find};
ghost use Rattle.std.specs.BTreeMap.{is_at};
ghost use Rattle.std.specs.Map.{lookup};
ghost use Rattle.session_model.specs.PlaceOrder.{place_cmp};
ghost use Rattle.session_model.specs.declared.place.Place.{Place as APlace};
ghost use Rattle.session_model.specs.declared.place.Place.TheVariants.{Key, Keys, Existence};
ghost use Rattle.tuple_bytes.specs.declared.value.Value.TheVariants.{Null};
ghost use Rattle.history_model.specs.Values.{key_of};
ghost use Rattle.session_model.specs.Index.{least_above, lesser, noted_op, noted_ops};
ghost use Rattle.session_model.specs.Standing.{numbers_at};
ghost use Rattle.session_index.specs.Index.{noted_at};

use crate::numbers::Numbers;
use session_model::Place;
use std::alloc::{AllocError, Global};
use std::collections::BTreeMap;
use std::marker::Model;
use tuple_bytes::{Op, Row, Value, Word};

type NumberMap = BTreeMap<Place, Numbers>;

/// The numbers of transactions, by what they touch.
#[derive(Drop)]
pub struct Touched {
    places: NumberMap,
}

impl Model for Touched {
    ghost use Rattle.session_index.specs.Index.{Noted};

    ghost Value = { Noted };

    ghost view = { λ t. t.places.entries };
}

impl Touched {
    /// Nothing is noted. It takes no memory.
    pub fn new(alloc: Global) -> Touched
        ensures value { result ≡ [] }
    {
        Touched {
            places: BTreeMap::new(alloc),
        }
    }

    /// The first number above this one that a place was touched by.
    pub fn first_above(&self, place: &Place, begun: u32) -> Option<u32>
        ensures value { result ≡ find (nat_lt begun) (numbers_at self.now place.now) }
    {
        match self.places.get(place) {
            Some(numbers) => numbers.first_above(begun),
            None => None,
        }
    }

    /// The least of the first numbers above this one, of these places.
    pub fn least_above(&self, places: &[Place], begun: u32) -> Option<u32>
        ensures value { result ≡ least_above begun (numbers_at self.now) places.now }
    {
        let mut least = None;
        for place in places {
            least = lesser(least, self.first_above(place, begun));
        }
        least
    }

    /// Notes a number at each place that the operations touch.
    pub fn note(&mut self, alloc: Global, ops: &[Op], number: u32) -> Result<(), AllocError>
        ensures value { OnOk result ((place : APlace) → numbers_at self.new place ≡ noted_ops number ops.now (numbers_at self.old) place) }
    {
        for op in ops {
            self.note_op(alloc, op, number)?;
        }
        Ok(())
    }

    fn note_op(&mut self, alloc: Global, op: &Op, number: u32) -> Result<(), AllocError>
        ensures value { OnOk result ((place : APlace) → numbers_at self.new place ≡ noted_op number op.now (numbers_at self.old) place) }
    {
        match op {
            Op::Create { table, .. } => self.note_existence(alloc, table, number),
            Op::Put { table, row } => self.note_row(alloc, table, row, number),
            Op::Remove { table, key } => self.note_key(alloc, table, key, number),
        }
    }

    fn note_existence(&mut self, alloc: Global, table: &Word, number: u32) -> Result<(), AllocError>
        ensures value { OnOk result ((place : APlace) → numbers_at self.new place ≡ noted_at number (Existence table.now) (numbers_at self.old) place) }
    {
        let table = table.copy(alloc)?;
        self.note_at(alloc, &Place::Existence { table }, number)
    }

    fn note_row(
        &mut self,
        alloc: Global,
        table: &Word,
        row: &Row,
        number: u32,
    ) -> Result<(), AllocError>
        ensures value { OnOk result ((place : APlace) → numbers_at self.new place
            ≡ noted_at number (Key table.now (key_of row.now)) (noted_at number (Keys table.now) (numbers_at self.old)) place) }
    {
        match row.as_slice() {
            [key, ..] => self.note_key(alloc, table, key, number),
            [] => self.note_null(alloc, table, number),
        }
    }

    // A row without a value counts as one of the key Null.
    fn note_null(&mut self, alloc: Global, table: &Word, number: u32) -> Result<(), AllocError>
        ensures value { OnOk result ((place : APlace) → numbers_at self.new place
            ≡ noted_at number (Key table.now Null) (noted_at number (Keys table.now) (numbers_at self.old)) place) }
    {
        let all = table.copy(alloc)?;
        self.note_at(alloc, &Place::Keys { table: all }, number)?;
        let table = table.copy(alloc)?;
        let key = Value::Null;
        self.note_at(alloc, &Place::Key { table, key }, number)
    }

    // A key, and with it all keys of the table.
    fn note_key(
        &mut self,
        alloc: Global,
        table: &Word,
        key: &Value,
        number: u32,
    ) -> Result<(), AllocError>
        ensures value { OnOk result ((place : APlace) → numbers_at self.new place
            ≡ noted_at number (Key table.now key.now) (noted_at number (Keys table.now) (numbers_at self.old)) place) }
    {
        let all = table.copy(alloc)?;
        self.note_at(alloc, &Place::Keys { table: all }, number)?;
        let table = table.copy(alloc)?;
        let key = key.copy(alloc)?;
        self.note_at(alloc, &Place::Key { table, key }, number)
    }

    /// Notes a number at a place.
    fn note_at(&mut self, alloc: Global, place: &Place, number: u32) -> Result<(), AllocError>
        ensures value { OnOk result ((other : APlace) → numbers_at self.new other ≡ noted_at number place.now (numbers_at self.old) other) }
    {
        match self.places.get_mut(place) {
            Some(numbers) => numbers.push(number),
            None => add_place(alloc, &mut self.places, place, number),
        }
    }
}

// A place that is new, with its first number.
fn add_place(
    alloc: Global,
    places: &mut NumberMap,
    place: &Place,
    number: u32,
) -> Result<(), AllocError>
    requires new { lookup (is_at (place_cmp place.now)) places.old.entries ≡ None }
    ensures value { OnOk result ((other : APlace) → numbers_at places.new.entries other ≡ noted_at number place.now (numbers_at places.old.entries) other) }
{
    let mut numbers = Numbers::new(alloc);
    numbers.push(number)?;
    places.insert(place.copy(alloc)?, numbers)?;
    Ok(())
}

/// The lesser of two numbers, or the one that is there.
pub fn lesser(a: Option<u32>, b: Option<u32>) -> Option<u32>
    ensures value { result ≡ lesser a b }
{
    match (a, b) {
        (Some(a), Some(b)) => Some(a.min(b)),
        (Some(a), None) => Some(a),
        (None, b) => b,
    }
}
