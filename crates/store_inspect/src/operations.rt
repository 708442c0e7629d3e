//! The operations of transactions.

ghost use Rattle.std.specs.Prelude.{◌≡◌, ◌++◌, ◌∷◌, [], List, OnOk};
ghost use Rattle.tuple_bytes.specs.declared.item.Item.{Item as AnItem};
ghost use Rattle.history_model.specs.State.{after_ops};
ghost use Rattle.store_inspect.specs.Items.{next_place, misfits_from, unsayable_from};
ghost use Rattle.store_inspect.specs.Known.{KnowsOperations};

use crate::sayable::is_sayable_op;
use crate::tables::FileTables;
use file_findings::{Finding, Made, note};
use std::alloc::Global;
use tuple_bytes::{Item, Ops};

/// The tables so far, which operations don't fit them, and which no statement spells.
#[derive(Drop)]
pub(crate) struct Operations {
    pub tables: FileTables,
    pub misfits: Vec<Finding>,
    pub unsayable: Vec<Finding>,
}

impl Operations {
    pub fn new(alloc: Global) -> Operations
        ensures value { KnowsOperations result [] }
    {
        Operations {
            tables: FileTables::new(alloc),
            misfits: Vec::new(alloc),
            unsayable: Vec::new(alloc),
        }
    }

    pub fn take(&mut self, alloc: Global, place: u64, item: Item) -> Made<()>
        ensures value { OnOk result ((before : List AnItem) → place ≡ next_place before
            → KnowsOperations self.old before → KnowsOperations self.new (before ++ item ∷ [])) }
    {
        match item {
            Item::Txn(txn) => self.take_all(alloc, place, txn.ops),
            Item::Frontier { .. } | Item::Policy { .. } => Ok(()),
        }
    }

    fn take_all(&mut self, alloc: Global, place: u64, ops: Ops) -> Made<()>
        ensures tables { OnOk result (self.new.tables ≡ after_ops ops self.old.tables) }
        ensures misfits { OnOk result (self.new.misfits.items ≡ self.old.misfits.items ++ misfits_from place 1 ops self.old.tables) }
        ensures unsayable { OnOk result (self.new.unsayable.items ≡ self.old.unsayable.items ++ unsayable_from place 1 ops) }
    {
        for (i, op) in ops.as_slice().iter().enumerate() {
            let fits = self.tables.fits(op);
            let misfit = Finding::Misfit(place, i as u64 + 1);
            note(&mut self.misfits, !fits, misfit)?;
            let unsayable = Finding::Unsayable(place, i as u64 + 1);
            note(&mut self.unsayable, !is_sayable_op(op), unsayable)?;
            self.tables.apply(alloc, op.copy(alloc)?)?;
        }
        Ok(())
    }
}
