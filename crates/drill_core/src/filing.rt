//! How many changing calls of the disk come before those of the notary.

ghost use Rattle.std.specs.Prelude.{◌≡◌, ◌↔◌, IsTrue, false, List, length, None, OnOk, IfOk, IfSome};
ghost use Rattle.tuple_bytes.specs.declared.item.Item.{Item};
ghost use Rattle.history_model.specs.History.{history};
ghost use Rattle.digest_model.specs.Layout.{policy_of};
ghost use Rattle.stmt_text.specs.declared.line.Line.TheVariants as lines;
ghost use Rattle.stmt_text.specs.declared.stmt.Stmt.TheVariants as stmts;
ghost use Rattle.store_engine.specs.Refusals.{tail_of};
ghost use Rattle.validator.specs.Notarizing.{Heard, intent_of};
ghost use Rattle.validator.specs.Reaching.{frontier_calls};
ghost use Rattle.store_world.specs.Steps.{IsWorldLine};
ghost use Rattle.timeline_model.specs.Scene.{Scene, batches_of};
ghost use Rattle.drill_core.specs.Drills.{IsAt, faults_of};
ghost use Rattle.drill_core.specs.Taken.{ComeBefore};

use crate::machine::Drill;
use notary_link::Notary;
use std::alloc::AllocError;
use stmt_text::{Line, LineKind, NotaryLine, WorldPart};
use store_engine::Store;
use validator::frontier_ahead;

/// Whether a line is a notarization.
fn is_notarization(line: &Line) -> bool
    ensures value { IsTrue result ↔ (line.now ≡ lines.Plain stmts.Notarize) }
{
    matches!(
        line.kind(),
        LineKind::InWorld {
            part: WorldPart::Notary {
                asks: NotaryLine::Notarize
            }
        }
    )
}

impl Drill {
    /// How many changing calls of the disk a line makes before it first calls the notary. Only a
    /// notarization makes some: those of its Frontier.
    pub(crate) fn calls_before_filing(&mut self, line: &Line) -> Result<u64, AllocError>
        requires is_line { IsWorldLine line.now }
        ensures value { (t : Scene) → IsAt t self.old → IfOk result (λ count. ComeBefore count t t.id line.now) }
        ensures at { (t : Scene) → IsAt t self.old → OnOk result (IsAt t self.new) }
        ensures faults { OnOk result (faults_of self.new ≡ faults_of self.old) }
    {
        if !is_notarization(line) {
            return Ok(0);
        }
        let filed = self.count_batches()?;
        self.calls_before_batches(filed)
    }

    /// How many batches are filed under the drill's id; 0 before an `init` line.
    fn count_batches(&mut self) -> Result<u32, AllocError>
        ensures value { (t : Scene) → IsAt t self.old
            → IfOk result (λ filed. IfSome t.id (λ id. filed ≡ length (batches_of t id))) }
        ensures at { (t : Scene) → IsAt t self.old → OnOk result (IsAt t self.new) }
        ensures faults { OnOk result (faults_of self.new ≡ faults_of self.old) }
    {
        let Some(id) = self.id else {
            return Ok(0);
        };
        match self.notary.count(id) {
            Ok(filed) => Ok(filed),
            Err(_) => Err(AllocError),
        }
    }

    /// How many changing calls of the disk a notarization makes, where so many batches are filed.
    fn calls_before_batches(&self, filed: u32) -> Result<u64, AllocError>
        ensures value { (t : Scene) → IsAt t self.now → IfSome t.id (λ id. filed ≡ length (batches_of t id))
            → IfOk result (λ count. ComeBefore count t t.id (lines.Plain stmts.Notarize)) }
    {
        match self.world.store() {
            Some(store) => calls_of_frontier(store, filed, self.clock),
            None => Ok(0),
        }
    }
}

/// How many changing calls the Frontier makes that a notarization stores at these clock seconds, where
/// nothing speaks against it. A world keeps no closed store.
fn calls_of_frontier(store: &Store, filed: u32, now: u64) -> Result<u64, AllocError>
    ensures value { IfOk result (λ count. (items : List Item) (heard : Heard) → store.now.eras ≡ policy_of (history store.now.header items) → filed ≡ heard.count
        → let intent = intent_of (tail_of store.now) false now items heard in
        intent.fault ≡ None → count ≡ length (frontier_calls store.now intent.frontier)) }
{
    if store.is_closed() {
        return Err(AllocError);
    }
    match frontier_ahead(store, store.eras(), filed, now) {
        Ok(Some(_)) => Ok(u64::from(store.frontier_calls())),
        Ok(None) | Err(_) => Ok(0),
    }
}
