//! Statements on tables and lines of sessions, over an open store.

ghost use Rattle.std.specs.Prelude.{◌≡◌, ⊤, false, Option, IfErr, IsErrOf, OnOk};
ghost use Rattle.outside_words.specs.Faults.{HasCause, HidesNoFault};
ghost use Rattle.disk_words.specs.Disk as disks;
ghost use Rattle.stmt_text.specs.Fits.{FitsParts};
ghost use Rattle.stmt_text.specs.Kinds.{line_kind};
ghost use Rattle.session_model.specs.Standing.{IsStatementLine};
ghost use Rattle.audit_steps.specs.declared.auditing.Auditing.{Auditing};
ghost use Rattle.store_world.specs.declared.fail.LineFail.TheVariants.{DiskFault, NotaryFault};
ghost use Rattle.store_world.specs.Faults.{MayEndIn};
ghost use Rattle.store_world.specs.Parts.{alone, StepsBeside, StaysSound};

use crate::answered::Answered;
use crate::fail::LineFail;
use disk_model::Disk;
use session_core::Sessions;
use statement_core::print_reply;
use std::alloc::Global;
use stmt_text::Line;
use store_engine::Store;

/// Carries out a statement on tables, or a line of a session, at these clock seconds.
pub(crate) fn answer_statement<D: Disk>(
    alloc: Global,
    sessions: &mut Sessions,
    store: &mut Store,
    disk: &mut D,
    line: &Line,
    now: u64,
) -> Result<Answered, LineFail>
    requires open { store.old.at.is_closed ≡ false }
    requires statement { IsStatementLine line.now }
    requires fits { FitsParts line.now }
    ensures open { OnOk result (store.new.at.is_closed ≡ false) }
    ensures header { store.new.header ≡ store.old.header }
    ensures told { (auditing : Option Auditing) → StepsBeside line.now now result
        (alone sessions.old store.old auditing) (alone sessions.new store.new auditing) (D.state disk.old) (D.state disk.new) }
    ensures sound { (auditing : Option Auditing) → StaysSound (alone sessions.old store.old auditing) (D.state disk.old) (D.state disk.new) }
    ensures frame { disks.GoesOn (D.state disk.old) (D.state disk.new) }
    ensures disk_only { IsErrOf result NotaryFault → ⊥ }
    ensures only { IfErr result (MayEndIn (line_kind line.now) ⊤) }
    ensures cause { HasCause DiskFault (D.state disk.old).faults (D.state disk.new).faults result }
    ensures counted { HidesNoFault (D.state disk.old).faults (D.state disk.new).faults result }
{
    // that its fields fit
    let _header = store.header();
    let reply = sessions.step(alloc, store, disk, line, now)?;
    Ok(Answered {
        refused: reply.is_refusal(),
        text: print_reply(alloc, &reply)?,
    })
}
