//! What a session wants to store.

ghost use Rattle.std.specs.Prelude.{◌≡◌, ◌+◌, ◌∷◌, ◌++◌, [], IfOk, OnOk, OnErr, length};
ghost use Rattle.std.specs.List.{All};
ghost use Rattle.tuple_bytes.specs.Writing.{IsCountedOp};
ghost use Rattle.history_model.specs.Answers.{op_of, prepared, write_key, write_name};
ghost use Rattle.tt_table.specs.Known.{IsKnown};
ghost use Rattle.session_model.specs.Statements.{size_fault, pend, pended};
ghost use Rattle.session_core.specs.Sizes.{IsSizeOf};
ghost use Rattle.session_core.specs.Speaking.{over_now};

use statement_core::{Refusal, Reply, refused, refused_by_tables};
use std::alloc::{AllocError, Global};
use std::marker::Model;
use store_engine::Store;
use tt_table::{Known, Write};
use tuple_bytes::{MAX_OPS, MAX_PAYLOAD, Op, Ops, TXN_HEAD, op_size};

/// Operations, and the bytes that they take as a transaction.
#[derive(Drop)]
pub(crate) struct Pending {
    ops: Ops,
    size: usize,
}

impl Model for Pending {
    ghost use Rattle.std.specs.Prelude.{List};
    ghost use Rattle.tuple_bytes.specs.declared.op.Op.{Op};
    ghost use Rattle.session_core.specs.Sizes.{AreSized};

    ghost Value = { List Op };

    ghost view = { λ p. p.ops };

    ghost invariant = { λ p. AreSized p.ops p.size };
}

impl Pending {
    /// No operation.
    pub(crate) fn new(alloc: Global) -> Pending
        ensures value { result ≡ [] }
    {
        Pending {
            ops: Ops::new(alloc),
            size: TXN_HEAD,
        }
    }

    /// The operations.
    pub(crate) fn ops(&self) -> &Ops
        ensures value { result.now ≡ self.now }
        ensures counted { All IsCountedOp result.now }
    {
        &self.ops
    }

    /// How many operations there are with one more.
    pub(crate) fn next(&self) -> usize
        ensures value { result ≡ length self.now + 1 }
    {
        self.ops.as_slice().len() + 1
    }

    // The bytes with one operation more; None where they are too many.
    fn size_with(&self, op: &Op) -> Option<usize>
        ensures value { IsSizeOf (self.now ++ op.now ∷ []) result }
    {
        let size = self.size + op_size(op)?;
        if size > MAX_PAYLOAD {
            return None;
        }
        Some(size)
    }

    // One operation more, where there is room for it.
    fn add(&mut self, op: Op) -> Result<Reply, AllocError>
        requires counted { IsCountedOp op }
        ensures reply { IfOk result (λ reply. reply ≡ (pended self.old op (size_fault (self.old ++ op ∷ []))).reply) }
        ensures value { OnOk result (self.new ≡ (pended self.old op (size_fault (self.old ++ op ∷ []))).pending) }
        ensures err { OnErr result (self.new ≡ self.old) }
    {
        if self.ops.as_slice().len() >= usize::from(MAX_OPS) {
            return Ok(refused(Refusal::TooManyOps));
        }
        match self.size_with(&op) {
            Some(size) => {
                self.ops.push(op)?;
                self.size = size;
                Ok(Reply::Done)
            }
            None => Ok(refused(Refusal::TooLong)),
        }
    }

    /// A change, where the tables take it.
    pub(crate) fn change(
        &mut self,
        store: &Store,
        change: Write,
        known: &Known,
    ) -> Result<Reply, AllocError>
        requires counted { IsCountedOp (op_of change) }
        requires known { IsKnown (write_name change) (write_key change) known.now self.old }
        ensures reply { IfOk result (λ reply. reply ≡ (pend self.old (prepared (over_now store.now self.old) change)).reply) }
        ensures value { OnOk result (self.new ≡ (pend self.old (prepared (over_now store.now self.old) change)).pending) }
        ensures err { OnErr result (self.new ≡ self.old) }
    {
        match store.tables().prepare_known(&self.ops, known, change) {
            Ok(op) => self.add(op),
            Err(fail) => refused_by_tables(fail),
        }
    }
}
