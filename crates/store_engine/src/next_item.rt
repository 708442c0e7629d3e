//! The item that is stored next, lent by its parts.

ghost use Rattle.std.specs.Prelude.{◌≤◌, IfOk, IsErrOf, length};
ghost use Rattle.tuple_bytes.specs.declared.writing.EncodeFail.TheVariants.{TooLong};
ghost use Rattle.tuple_bytes.specs.Limits.{max_ops, max_payload};
ghost use Rattle.tuple_bytes.specs.Spelling.{Spells};
ghost use Rattle.tuple_bytes.specs.Writing.{IsCounted, IsTooLong, op_count_of};
ghost use Rattle.store_engine.specs.Contents.{lent_item};

use std::alloc::Global;
use tuple_bytes::{Blob, EncodeFail, Item, Ops, encode_item, encode_txn};

/// A transaction, a Frontier or a policy, of which no operation is copied to be stored.
#[derive(Drop)]
pub(crate) enum NextItem<'a> {
    Txn {
        number: u32,
        moment: u64,
        ops: &'a Ops,
    },
    Frontier {
        moment: u64,
    },
    Policy {
        tile: u32,
        granule: u32,
        k: u8,
        algs: u8,
    },
}

impl NextItem<'_> {
    /// Its one spelling.
    pub fn encode(&self, alloc: Global) -> Result<Blob, EncodeFail>
        requires counted { IsCounted (lent_item self.now) }
        requires few_ops { op_count_of (lent_item self.now) ≤ max_ops }
        ensures spelled { IfOk result (Spells (lent_item self.now)) }
        ensures short { IfOk result (λ b. length b ≤ max_payload) }
        ensures few { IsErrOf result EncodeFail.TooManyOps → ⊥ }
        ensures too_long { IsErrOf result TooLong → IsTooLong (lent_item self.now) }
    {
        match self {
            NextItem::Txn {
                number,
                moment,
                ops,
            } => encode_txn(alloc, *number, *moment, ops),
            NextItem::Frontier { moment } => encode_item(
                alloc,
                &Item::Frontier { moment: *moment },
            ),
            NextItem::Policy {
                tile,
                granule,
                k,
                algs,
            } => encode_item(
                alloc,
                &Item::Policy {
                    tile: *tile,
                    granule: *granule,
                    k: *k,
                    algs: *algs,
                },
            ),
        }
    }
}
