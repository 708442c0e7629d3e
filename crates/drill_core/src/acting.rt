//! What a line does, under a crash or none: it is carried out or refused, or the crash stops it.

ghost use Rattle.std.specs.Prelude.{Ok, IfOk};
ghost use Rattle.stmt_text.specs.Fits.{FitsParts};
ghost use Rattle.store_world.specs.Steps.{IsWorldLine};
ghost use Rattle.timeline_model.specs.Timeline.{IsReading, FitsReading, IsDrillLine};
ghost use Rattle.drill_core.specs.Drills.{crash_of, HasFewFaults};
ghost use Rattle.drill_core.specs.Taken.{FromScene, IsActed};

use crate::machine::{Crash, Drill};
use crate::saying::{refuse, refuse_reading};
use std::alloc::AllocError;
use stmt_text::{Line, LineKind, ParseFail};
use store_world::Answered;

impl Drill {
    /// Carries out or refuses what was read, or stops it where it would make more changing calls than
    /// the crash lets pass.
    pub(crate) fn act_on(
        &mut self,
        reading: &Result<Line, ParseFail>,
        crash: Option<Crash>,
    ) -> Result<Answered, AllocError>
        requires reading { IsReading reading.now }
        requires fits { FitsReading reading.now }
        requires few { HasFewFaults self.old }
        ensures value { FromScene self.old result (λ t answered. IsActed (crash_of crash) reading.now t answered self.old self.new) }
    {
        match reading {
            Ok(line) => self.act(line, crash),
            Err(fail) => refuse_reading(self.alloc, fail),
        }
    }

    /// Carries out a line, or stops it.
    fn act(&mut self, line: &Line, crash: Option<Crash>) -> Result<Answered, AllocError>
        requires is_line { IsDrillLine line.now }
        requires fits { FitsParts line.now }
        requires few { HasFewFaults self.old }
        ensures value { FromScene self.old result (λ t answered. IsActed (crash_of crash) (Ok line.now) t answered self.old self.new) }
    {
        match line {
            Line::Drill { event } => self.bring(event, crash),
            _ => match line.kind() {
                LineKind::SetsMoment { moment } => self.set_clock(moment),
                _ => self.act_in_store(line, crash),
            },
        }
    }

    /// Carries out a line of the world, or stops it.
    fn act_in_store(&mut self, line: &Line, crash: Option<Crash>) -> Result<Answered, AllocError>
        requires is_line { IsWorldLine line.now }
        requires fits { FitsParts line.now }
        requires few { HasFewFaults self.old }
        ensures value { FromScene self.old result (λ t answered. IsActed (crash_of crash) (Ok line.now) t answered self.old self.new) }
    {
        if self.id.is_none() {
            return refuse(self.alloc, b"NotAStore");
        }
        let before = self.calls_before_filing(line)?;
        self.let_fail(crash, before)?;
        match self.world.line(
            self.alloc,
            &mut self.disk,
            &mut self.notary,
            line,
            self.clock,
        ) {
            Ok(answered) => {
                self.let_pass();
                Ok(answered)
            }
            Err(fail) => self.restart_after(fail, crash),
        }
    }
}
