//! The chains of the items of a store.

ghost use Rattle.std.specs.Prelude.{◌≡◌, ◌↔◌, ◌≤◌, ◌+◌, ◌*◌, ◌==◌, ◌∷◌, [], true, false, None, Some, IfOk, IfSome, IsSome, OnErr, length, slice_index};
ghost use Rattle.std.specs.Bool.{MatchBool};
ghost use Rattle.tuple_bytes.specs.declared.item.Item.{Item};
ghost use Rattle.tuple_bytes.specs.declared.item.Item.TheVariants as items;
ghost use Rattle.tuple_bytes.specs.declared.item.Txn.{Txn};
ghost use Rattle.tuple_bytes.specs.Limits.{max_payload};
ghost use Rattle.tuple_bytes.specs.Spelling.{spell_txn, FitsTxn, Spells};
ghost use Rattle.history_model.specs.History.{history, txns, txn_in, last_moment};
ghost use Rattle.history_model.specs.StoredHistory.{IsHistory};
ghost use Rattle.chain_state.specs.Chained.{IsChainOf, IsTaken, IsItemTaken, IsItemRefused, steps_of, open_after, are_chained};

use super::Chains;
use history_model::{Spelled, moment_of};
use std::alloc::{AllocError, Global};
use step_count::{Ledger, Steps};
use tuple_bytes::{Header, MAX_GRANULES, granule};

/// Whether an item begins as a policy does.
fn is_policy(payload: &[u8]) -> bool
    ensures value { result ≡ (slice_index payload.now 0 == 3) }
{
    payload.first() == Some(&3)
}

impl Chains {
    /// Adds a transaction; false where its granule falls or is too great.
    fn take_txn<L: Ledger>(
        &mut self,
        moment: u64,
        spelling: &[u8],
        steps: &mut Steps<L>,
    ) -> Result<bool, AllocError>
        requires spelled { (t : Txn) × (spelling.now ≡ spell_txn t) × (t.moment ≡ moment) × FitsTxn t }
        requires short { length spelling.now ≤ max_payload }
        ensures value { (t : Txn) → FitsTxn t → spelling.now ≡ spell_txn t → IfOk result (λ b. MatchBool b (IsTaken t self.old self.new) (open_after self.old.header.width (Some self.old.granule) t ≡ None)) }
        ensures steps { steps.new ≤ steps.old + 2 }
        ensures exact { IfOk result (λ b. b ≡ true → steps.new ≡ steps.old + 2) }
        ensures kept { IfOk result (λ b. b ≡ false → self.new ≡ self.old) }
        ensures same { OnErr result (self.new ≡ self.old) }
    {
        let number = granule(moment, self.header.width);
        if number < u64::from(self.granule) || number >= u64::from(MAX_GRANULES) {
            return Ok(false);
        }
        self.reserve(number as u32)?;
        self.add(moment, spelling, steps);
        Ok(true)
    }

    /// Takes the item that a payload spells, where it is a policy.
    fn take_other(&mut self, payload: &[u8])
        requires spelled { (item : Item) × Spells item payload.now × (txn_in item ≡ None) }
        ensures value { (item : Item) → Spells item payload.now → IsItemTaken item self.old self.new }
    {
        if is_policy(payload) {
            self.turn(payload);
        }
    }

    /// Takes the item that a payload spells: adds a transaction, and makes room for it, and turns by a policy; false
    /// where its granule falls or is too great.
    pub fn take<L: Ledger>(
        &mut self,
        payload: &[u8],
        steps: &mut Steps<L>,
    ) -> Result<bool, AllocError>
        requires spelled { (item : Item) × Spells item payload.now }
        requires short { length payload.now ≤ max_payload }
        ensures value { (item : Item) → Spells item payload.now → IfOk result (λ b. MatchBool b (IsItemTaken item self.old self.new) (IsItemRefused item self.old)) }
        ensures steps { (item : Item) → Spells item payload.now → steps.new ≤ steps.old + steps_of (item ∷ []) }
        ensures exact { (item : Item) → Spells item payload.now → IfOk result (λ b. b ≡ true → steps.new ≡ steps.old + steps_of (item ∷ [])) }
        ensures kept { IfOk result (λ b. b ≡ false → self.new ≡ self.old) }
        ensures same { OnErr result (self.new ≡ self.old) }
    {
        match moment_of(payload) {
            Some(moment) => self.take_txn(moment, payload, steps),
            None => {
                self.take_other(payload);
                Ok(true)
            }
        }
    }

    /// Of the transactions and the policies among these items; none where a granule falls or is too great.
    pub fn from_items<L: Ledger>(
        alloc: Global,
        header: &Header,
        items: &Spelled,
        steps: &mut Steps<L>,
    ) -> Result<Option<Chains>, AllocError>
        requires history { IsHistory (history header.now items.now) }
        ensures value { IfOk result (λ r. IfSome r (λ c. IsChainOf c (history header.now items.now))) }
        ensures reached { IfOk result (λ r. IfSome r (λ c. c.granule * header.now.width ≤ last_moment items.now)) }
        ensures none { IfOk result (λ r. (r ≡ None) ↔ (are_chained (history header.now items.now) ≡ false)) }
        ensures steps { steps.new ≤ steps.old + 2 * length (txns items.now) }
        ensures exact { IfOk result (λ r. IsSome r → steps.new ≡ steps.old + 2 * length (txns items.now)) }
    {
        let mut chains = Chains::new(alloc, header)?;
        for spelling in items.as_slice() {
            if !chains.take(spelling.as_slice(), steps)? {
                return Ok(None);
            }
        }
        Ok(Some(chains))
    }
}
