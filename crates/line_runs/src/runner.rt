//! A run over an open store, one line at a time.

ghost use Rattle.std.specs.Prelude.{◌≡◌, ◌≤◌, IfOk, IfErr, OnErr, IfSome, IsSome, MatchResult};
ghost use Rattle.outside_words.specs.Faults.{HasCause};
ghost use Rattle.disk_words.specs.Disk as disks;
ghost use Rattle.notary_link.specs.Notary as notaries;
ghost use Rattle.outside_io.specs.Clock as clocks;
ghost use Rattle.history_model.specs.Stored.{stored, format_of};
ghost use Rattle.stmt_text.specs.Fits.{FitsParts};
ghost use Rattle.stmt_text.specs.Lines.{answer};
ghost use Rattle.store_engine.specs.declared.fail.StoreFail.TheVariants as stores;
ghost use Rattle.store_engine.specs.Causes.{IsOfOpening, IsNoStore};
ghost use Rattle.store_world.specs.declared.fail.LineFail.TheVariants as lines;
ghost use Rattle.store_world.specs.Steps.{IsWorldLine};
ghost use Rattle.line_runs.specs.Devices.{desk, site};
ghost use Rattle.line_runs.specs.Carrying.{IsReady, GivesSeconds, StepsFrom, LineFrom, RepliesFrom, counting, refusing, SetsMoment};
ghost use Rattle.line_runs.specs.Sees.{Follows};

use crate::seen::follow;
use disk_model::Disk;
use notary_link::Notary;
use outside_io::Clock;
use std::alloc::{AllocError, Global};
use stmt_text::{Line, LineKind, ParseFail, parse_line};
use store_engine::StoreFail;
use store_world::{LineFail, World};
use tuple_bytes::Blob;

/// A run over an open store: the world that its lines change, the store's first second, the moment of
/// a scripted run, and how many replies were refusals.
#[derive(Drop)]
pub struct Runner {
    pub world: World,
    pub epoch: u64,
    pub moment: u64,
    pub is_scripted: bool,
    pub refused: u64,
}

impl Runner {
    /// Opens the store of this id. A scripted run begins at its last moment.
    pub fn open<D: Disk>(
        alloc: Global,
        disk: &mut D,
        id: u64,
        is_scripted: bool,
    ) -> Result<Runner, StoreFail>
        ensures value { IfSome (D.state disk.old).reads (λ bytes. MatchResult result
            (λ r. IsReady r bytes)
            (IsNoStore id (stored bytes).header (format_of bytes))) }
        ensures id { IfOk result (λ r. r.world.id ≡ id) }
        ensures store { IfOk result (λ r. IsSome r.world.opened) }
        ensures scripted { IfOk result (λ r. r.is_scripted ≡ is_scripted) }
        ensures unrefused { IfOk result (λ r. r.refused ≡ 0) }
        ensures none_other { IfErr result IsOfOpening }
        ensures same { disks.Unchanged (D.state disk.old) (D.state disk.new) }
        ensures frame { disks.GoesOn (D.state disk.old) (D.state disk.new) }
        ensures cause { HasCause stores.DiskFault (D.state disk.old).faults (D.state disk.new).faults result }
    {
        let mut world = World::new(id);
        world.enter(alloc, disk)?;
        let store = world.store().unwrap();
        let epoch = store.header().epoch;
        let moment = store.last_moment();
        Ok(Runner {
            world,
            epoch,
            moment,
            is_scripted,
            refused: 0,
        })
    }

    /// The clock seconds of a line: those of the moment in a scripted run, and else the clock's.
    fn seconds<C: Clock>(&self, clock: &mut C) -> u64
        ensures value { GivesSeconds self.now.is_scripted self.now result (C.state clock.old) (C.state clock.new) }
        ensures frame { clocks.GoesOn (C.state clock.old) (C.state clock.new) }
    {
        if self.is_scripted {
            self.epoch.saturating_add(self.moment)
        } else {
            clock.now()
        }
    }

    /// Counts a reply, where it is a refusal. The count stands still at its type's end.
    fn count(&mut self, is_refusal: bool)
        ensures change { self.new ≡ counting is_refusal self.old }
        ensures counted { self.old.refused ≤ self.new.refused }
    {
        if is_refusal {
            self.refused = self.refused.saturating_add(1);
        }
    }

    /// The line is refused.
    fn refuse(&mut self, alloc: Global, text: &str) -> Result<Blob, AllocError>
        ensures value { IfOk result (λ b. b ≡ text.now) }
        ensures change { self.new ≡ refusing self.old }
        ensures counted { self.old.refused ≤ self.new.refused }
    {
        self.count(true);
        Ok(Blob::from_vec(text.as_bytes().to_vec(alloc)?))
    }

    /// Sets the moment, where the run is scripted.
    fn set_moment(&mut self, alloc: Global, moment: u64) -> Result<Blob, AllocError>
        ensures value { SetsMoment self.old.is_scripted moment result self.old self.new }
        ensures counted { self.old.refused ≤ self.new.refused }
    {
        if !self.is_scripted {
            return self.refuse(alloc, "refused NotScripted\n");
        }
        self.moment = moment;
        Ok(Blob::from_vec(b"ok\n".to_vec(alloc)?))
    }

    /// Carries out a line of the world.
    fn step<D: Disk, N: Notary>(
        &mut self,
        alloc: Global,
        disk: &mut D,
        notary: &mut N,
        line: &Line,
        now: u64,
    ) -> Result<Blob, LineFail>
        requires is_line { IsWorldLine line.now }
        requires fits { FitsParts line.now }
        ensures scripted { self.new.is_scripted ≡ self.old.is_scripted }
        ensures counted { self.old.refused ≤ self.new.refused }
        ensures told { StepsFrom line.now now result self.old self.new
            (desk (D.state disk.old) (N.state notary.old)) (desk (D.state disk.new) (N.state notary.new)) }
        ensures disk_frame { disks.GoesOn (D.state disk.old) (D.state disk.new) }
        ensures notary_frame { notaries.GoesOn (N.state notary.old) (N.state notary.new) }
        ensures disk_cause { HasCause lines.DiskFault (D.state disk.old).faults (D.state disk.new).faults result }
        ensures notary_cause { HasCause lines.NotaryFault (N.state notary.old).faults (N.state notary.new).faults result }
    {
        let answered = self.world.line(alloc, disk, notary, line, now)?;
        self.count(answered.refused);
        Ok(answered.text)
    }

    /// Carries out a line of the grammar, and gives the text of its reply: nothing for a blank one.
    fn carry<D: Disk, N: Notary, C: Clock>(
        &mut self,
        alloc: Global,
        disk: &mut D,
        notary: &mut N,
        clock: &mut C,
        line: &Line,
    ) -> Result<Blob, LineFail>
        requires fits { FitsParts line.now }
        ensures scripted { self.new.is_scripted ≡ self.old.is_scripted }
        ensures counted { self.old.refused ≤ self.new.refused }
        ensures told { LineFrom line.now result self.old self.new
            (site (D.state disk.old) (N.state notary.old) (C.state clock.old)) (site (D.state disk.new) (N.state notary.new) (C.state clock.new)) }
        ensures disk_frame { disks.GoesOn (D.state disk.old) (D.state disk.new) }
        ensures notary_frame { notaries.GoesOn (N.state notary.old) (N.state notary.new) }
        ensures clock_frame { clocks.GoesOn (C.state clock.old) (C.state clock.new) }
        ensures disk_cause { HasCause lines.DiskFault (D.state disk.old).faults (D.state disk.new).faults result }
        ensures notary_cause { HasCause lines.NotaryFault (N.state notary.old).faults (N.state notary.new).faults result }
    {
        match line.kind() {
            LineKind::Blank => Ok(Blob::new(alloc)),
            LineKind::InWorld { .. } => {
                let now = self.seconds(clock);
                self.step(alloc, disk, notary, line, now)
            }
            LineKind::SetsMoment { moment } => {
                let _ = self.seconds(clock);
                Ok(self.set_moment(alloc, moment)?)
            }
            LineKind::OutsideScripts => {
                let _ = self.seconds(clock);
                Ok(self.refuse(alloc, "refused Syntax\n")?)
            }
        }
    }

    /// Carries out a line, and gives the text of its reply: nothing for a blank one. It follows which sessions are begun.
    pub fn reply<D: Disk, N: Notary, C: Clock>(
        &mut self,
        alloc: Global,
        disk: &mut D,
        notary: &mut N,
        clock: &mut C,
        line: &[u8],
        begun: &mut [bool; 16],
    ) -> Result<Blob, LineFail>
        ensures scripted { self.new.is_scripted ≡ self.old.is_scripted }
        ensures counted { self.old.refused ≤ self.new.refused }
        ensures begun { IfOk result (λ text. Follows (answer line.now) text begun.old begun.new) }
        ensures unbegun { OnErr result (begun.new ≡ begun.old) }
        ensures told { RepliesFrom line.now result self.old self.new
            (site (D.state disk.old) (N.state notary.old) (C.state clock.old)) (site (D.state disk.new) (N.state notary.new) (C.state clock.new)) }
        ensures disk_frame { disks.GoesOn (D.state disk.old) (D.state disk.new) }
        ensures notary_frame { notaries.GoesOn (N.state notary.old) (N.state notary.new) }
        ensures clock_frame { clocks.GoesOn (C.state clock.old) (C.state clock.new) }
        ensures disk_cause { HasCause lines.DiskFault (D.state disk.old).faults (D.state disk.new).faults result }
        ensures notary_cause { HasCause lines.NotaryFault (N.state notary.old).faults (N.state notary.new).faults result }
    {
        match parse_line(alloc, line) {
            Ok(line) => {
                let reply = self.carry(alloc, disk, notary, clock, &line);
                follow(begun, &line, &reply);
                reply
            }
            Err(ParseFail::Syntax) => {
                let _ = self.seconds(clock);
                Ok(self.refuse(alloc, "refused Syntax\n")?)
            }
            Err(ParseFail::NumberTooWide) => {
                let _ = self.seconds(clock);
                Ok(self.refuse(alloc, "refused NumberTooWide\n")?)
            }
            Err(ParseFail::NoMemory) => Err(LineFail::NoMemory),
        }
    }
}
