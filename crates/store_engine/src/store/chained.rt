//! Storing a transaction, which the chains know of once it is durable.

ghost use Rattle.std.specs.Prelude.{◌≡◌, ◌≤◌, ◌+◌, ◌*◌, List, ℕ, length, IfOk, IfSome, IsSome, OnOk, OnErr};
ghost use Rattle.std.specs.Option.{is_some, option_map, option_copied};
ghost use Rattle.outside_words.specs.Faults.{HasCause};
ghost use Rattle.outside_words.specs.Shown.{ShowsFaults};
ghost use Rattle.outside_words.specs.Told.{WhereTold};
ghost use Rattle.disk_words.specs.Disk.{Unchanged, GoesOn};
ghost use Rattle.tuple_bytes.specs.declared.item.Item.{Item as AnItem};
ghost use Rattle.tuple_bytes.specs.Limits.{max_ops, max_payload, max_granules};
ghost use Rattle.tuple_bytes.specs.Spelling.{Spells};
ghost use Rattle.tuple_bytes.specs.Writing.{IsCounted, op_count_of};
ghost use Rattle.digest_model.specs.Layout.{policy_of};
ghost use Rattle.chain_state.specs.Chained.{history_of, without_room};
ghost use Rattle.store_engine.specs.declared.fail.StoreFail.TheVariants.{DiskFault};
ghost use Rattle.store_engine.specs.Opened.{IsOpenOn, closed_to};
ghost use Rattle.store_engine.specs.Fail.{closes};
ghost use Rattle.store_engine.specs.Refusals.{tail_of, item_fault};
ghost use Rattle.store_engine.specs.Causes.{IsRefusedBy};
ghost use Rattle.store_engine.specs.Contents.{lent_item};
ghost use Rattle.store_engine.specs.Commits.{with_item, StandsAfter, Adds};
ghost use Rattle.store_engine.specs.Adding.{IsNextTxn};

use super::Store;
use crate::StoreFail;
use crate::appending::append;
use crate::chaining::{add_chained, close_chained, reserve_chained};
use crate::next_item::NextItem;
use chain_state::Chains;
use disk_model::Disk;
use std::alloc::{AllocError, Global};
use step_count::{Ledger, Steps};
use tuple_bytes::granule;

impl Store {
    /// Stores a transaction of this moment.
    pub(super) fn store_txn<D: Disk, L: Ledger>(
        &mut self,
        alloc: Global,
        disk: &mut D,
        txn: &NextItem<'_>,
        moment: u64,
        steps: &mut Steps<L>,
    ) -> Result<(), StoreFail>
        requires counted { IsCounted (lent_item txn.now) }
        requires few_ops { op_count_of (lent_item txn.now) ≤ max_ops }
        requires next { IsNextTxn self.old moment (lent_item txn.now) }
        ensures refused { IsRefusedBy
            (item_fault (tail_of self.old) self.old.at.is_closed (lent_item txn.now)) result }
        ensures stands { StandsAfter result self.old (with_item self.old (lent_item txn.now)) self.new }
        ensures same { IsSome (item_fault (tail_of self.old) self.old.at.is_closed (lent_item txn.now))
            → Unchanged (D.state disk.old) (D.state disk.new) }
        ensures told { WhereTold (D.state disk.old).reads (D.state disk.new).reads
            (Adds (lent_item txn.now) result self.old self.new (D.state disk.old) (D.state disk.new)) }
        ensures steps { steps.new ≤ steps.old + 2 }
        ensures frame { GoesOn (D.state disk.old) (D.state disk.new) }
        ensures cause { HasCause DiskFault (D.state disk.old).faults (D.state disk.new).faults result }
        ensures counted { ShowsFaults closes (D.state disk.old).faults (D.state disk.new).faults result }
    {
        match txn.encode(alloc) {
            Ok(payload) => {
                self.store_chained(alloc, disk, txn, moment, payload.as_slice(), steps)
            }
            Err(fail) => {
                let fail = StoreFail::from(fail);
                self.is_closed |= fail.closes();
                Err(fail)
            }
        }
    }

    /// Adds a transaction to the file by its payload, and then to the chains and to what is known of the
    /// file. The room in the chains is made first: what is durable is in them.
    fn store_chained<D: Disk, L: Ledger>(
        &mut self,
        alloc: Global,
        disk: &mut D,
        txn: &NextItem<'_>,
        moment: u64,
        payload: &[u8],
        steps: &mut Steps<L>,
    ) -> Result<(), StoreFail>
        requires spelled { Spells (lent_item txn.now) payload.now }
        requires short { length payload.now ≤ max_payload }
        requires next { IsNextTxn self.old moment (lent_item txn.now) }
        ensures refused { IsRefusedBy
            (item_fault (tail_of self.old) self.old.at.is_closed (lent_item txn.now)) result }
        ensures stands { StandsAfter result self.old (with_item self.old (lent_item txn.now)) self.new }
        ensures same { IsSome (item_fault (tail_of self.old) self.old.at.is_closed (lent_item txn.now))
            → Unchanged (D.state disk.old) (D.state disk.new) }
        ensures told { WhereTold (D.state disk.old).reads (D.state disk.new).reads
            (Adds (lent_item txn.now) result self.old self.new (D.state disk.old) (D.state disk.new)) }
        ensures steps { steps.new ≤ steps.old + 2 }
        ensures frame { GoesOn (D.state disk.old) (D.state disk.new) }
        ensures cause { HasCause DiskFault (D.state disk.old).faults (D.state disk.new).faults result }
        ensures counted { ShowsFaults closes (D.state disk.old).faults (D.state disk.new).faults result }
    {
        let number = granule(moment, self.header.width) as u32;
        if reserve_chained(&mut self.chains, number).is_err() {
            self.is_closed = true;
            return Err(StoreFail::NoMemory);
        }
        if let Err(fail) = append(alloc, disk, &mut self.file, &mut self.is_closed, payload) {
            return Err(fail);
        }
        let known = self.contents.add(alloc, txn, payload);
        add_chained(&mut self.chains, moment, payload, steps);
        match known {
            Ok(()) => Ok(()),
            Err(_) => {
                self.is_closed = true;
                Err(StoreFail::NoMemory)
            }
        }
    }

    /// The chains over all transactions, where their granules don't fall and are small enough.
    pub fn chains(&self) -> Option<&Chains>
        ensures value { option_map without_room (option_copied result) ≡ self.now.chains }
        ensures own { IfSome self.now.chains (λ c. c.header ≡ self.now.header) }
        ensures under { IfSome self.now.chains (λ c. policy_of (history_of c) ≡ self.now.eras) }
    {
        self.chains.as_ref()
    }

    /// Closes the granules below this one in the chains, and answers whether there are any. No granule
    /// may be closed that a transaction can still fall into.
    pub fn close_to(&mut self, alloc: Global, granule: u32) -> Result<bool, AllocError>
        requires reached { granule * self.old.header.width ≤ self.old.last }
        requires within { granule ≤ max_granules }
        ensures value { IfOk result (λ some. some ≡ is_some self.old.chains) }
        ensures stands { OnOk result (self.new ≡ closed_to granule self.old) }
        ensures kept { OnErr result (self.new ≡ self.old) }
        ensures open { (items : List AnItem) (bytes : List ℕ)
            → IsOpenOn self.old items bytes → IsOpenOn self.new items bytes }
    {
        close_chained(alloc, &mut self.chains, granule)
    }
}
