//! The chains of a store, taken from payload to payload as its file is read, and from commit to commit.

ghost use Rattle.std.specs.Prelude.{◌≡◌, ◌+◌, ◌≤◌, ◌<◌, ◌++◌, ◌∷◌, [], None, ℕ, List, IfOk, IfSome, OnOk, OnErr, length};
ghost use Rattle.std.specs.Option.{option_map, is_some};
ghost use Rattle.byte_grammar.specs.Gated.{FitsRecord};
ghost use Rattle.step_count.specs.Blank.{IsBlankOf};
ghost use Rattle.tuple_bytes.specs.declared.header.Header.{Header as AHeader};
ghost use Rattle.tuple_bytes.specs.declared.item.Txn.{Txn};
ghost use Rattle.tuple_bytes.specs.Limits.{max_granules, max_payload};
ghost use Rattle.tuple_bytes.specs.Spelling.{FitsHeader, FitsTxn, Spells, spell_txn};
ghost use Rattle.history_model.specs.History.{granule_of, txn_in};
ghost use Rattle.history_model.specs.Stored.{store_shape};
ghost use Rattle.chain_state.specs.Chained.{with_chained, with_closed};
ghost use Rattle.store_engine.specs.Contents.{lent_item};
ghost use Rattle.store_engine.specs.Taking.{HaveTaken, chains_with, with_room};

use crate::next_item::NextItem;
use chain_state::Chains;
use std::alloc::{AllocError, Global};
use std::marker::Brand;
use step_count::{Blank, Ledger, Steps};
use tuple_bytes::Header;

/// Those of no item.
pub(crate) fn no_chained(alloc: Global, header: &Header) -> Result<Option<Chains>, AllocError>
    requires fits { FitsHeader header.now }
    ensures value { IfOk result (HaveTaken header.now []) }
{
    let chains = Chains::new(alloc, header)?;
    Ok(Some(chains))
}

/// Takes the item that a payload spells. Where its granule falls or is too great, the chains end.
pub(crate) fn take_next(chains: &mut Option<Chains>, payload: &[u8]) -> Result<(), AllocError>
    requires fits { FitsRecord store_shape payload.now }
    ensures value { OnOk result ((header : AHeader) (payloads : List (List ℕ))
        → HaveTaken header payloads chains.old → HaveTaken header (payloads ++ payload.now ∷ []) chains.new) }
{
    take_counted::<Brand>(chains, payload, Blank::new(1))
}

/// The same with a count of steps that is made for it.
fn take_counted<L: Ledger>(
    chains: &mut Option<Chains>,
    payload: &[u8],
    blank: Blank,
) -> Result<(), AllocError>
    requires blank { IsBlankOf L.name L.parts blank }
    requires fits { FitsRecord store_shape payload.now }
    ensures value { OnOk result ((header : AHeader) (payloads : List (List ℕ))
        → HaveTaken header payloads chains.old → HaveTaken header (payloads ++ payload.now ∷ []) chains.new) }
{
    let mut steps = Steps::<L>::new(blank);
    let Some(kept) = chains else {
        return Ok(());
    };
    if kept.take(payload, &mut steps)? {
        return Ok(());
    }
    *chains = None;
    Ok(())
}

/// Makes room for a transaction of this granule, where there are chains.
pub(crate) fn reserve_chained(chains: &mut Option<Chains>, granule: u32) -> Result<(), AllocError>
    requires within { granule < max_granules }
    ensures room { OnOk result (chains.new ≡ option_map (with_room (granule + 1)) chains.old) }
    ensures same { OnErr result (chains.new ≡ chains.old) }
{
    match chains {
        Some(kept) => kept.reserve(granule),
        None => Ok(()),
    }
}

/// Adds a transaction, for which there is room.
pub(crate) fn add_chained<L: Ledger>(
    chains: &mut Option<Chains>,
    moment: u64,
    spelling: &[u8],
    steps: &mut Steps<L>,
)
    requires spelled { (t : Txn) × (spelling.now ≡ spell_txn t) × (t.moment ≡ moment) × FitsTxn t }
    requires short { length spelling.now ≤ max_payload }
    requires above { IfSome chains.old (λ c. c.granule ≤ granule_of c.header.width moment) }
    requires room { IfSome chains.old (λ c. granule_of c.header.width moment < c.room) }
    ensures value { (t : Txn) → FitsTxn t → spelling.now ≡ spell_txn t
        → chains.new ≡ option_map (with_chained t) chains.old }
    ensures steps { steps.new ≤ steps.old + 2 }
{
    if let Some(kept) = chains {
        kept.add(moment, spelling, steps);
    }
}

/// Turns the chains by a policy; another item without a transaction leaves them.
pub(crate) fn turn_chained(chains: &mut Option<Chains>, item: &NextItem<'_>, payload: &[u8])
    requires spelled { Spells (lent_item item.now) payload.now }
    requires other { txn_in (lent_item item.now) ≡ None }
    ensures value { chains.new ≡ chains_with (lent_item item.now) chains.old }
{
    if let NextItem::Policy { .. } = item {
        if let Some(kept) = chains {
            kept.turn(payload);
        }
    }
}

/// Closes the granules below this one, and answers whether there are chains.
pub(crate) fn close_chained(
    alloc: Global,
    chains: &mut Option<Chains>,
    granule: u32,
) -> Result<bool, AllocError>
    requires within { granule ≤ max_granules }
    ensures value { IfOk result (λ some. some ≡ is_some chains.old) }
    ensures closed { OnOk result (chains.new ≡ option_map (with_closed granule) chains.old) }
    ensures kept { OnErr result (chains.new ≡ chains.old) }
{
    match chains {
        Some(kept) => {
            kept.close_to(alloc, granule)?;
            Ok(true)
        }
        None => Ok(false),
    }
}
