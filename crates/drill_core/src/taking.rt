//! The next line of a drill.

ghost use Rattle.std.specs.Prelude.{IfOk};
ghost use Rattle.stmt_text.specs.Lines.{answer};
ghost use Rattle.timeline_model.specs.Timeline.{IsReading, FitsReading};
ghost use Rattle.drill_core.specs.Drills.{HasFewFaults};
ghost use Rattle.drill_core.specs.Taken.{FromScene, IsBlankOr, IsAnswered, IsEvent};

use crate::machine::Drill;
use std::alloc::AllocError;
use stmt_text::{Line, LineKind, ParseFail, parse_line};
use store_world::Answered;

/// Whether a line was blank, unless reading it wanted memory.
fn is_blank(reading: &Result<Line, ParseFail>) -> Result<bool, AllocError>
    requires fits { FitsReading reading.now }
    ensures value { IfOk result (λ blank. IsBlankOr blank reading.now) }
{
    match reading {
        Ok(line) => Ok(matches!(line.kind(), LineKind::Blank)),
        Err(ParseFail::NoMemory) => Err(AllocError),
        Err(ParseFail::Syntax | ParseFail::NumberTooWide) => Ok(false),
    }
}

impl Drill {
    /// Takes a line. Nothing is said to a blank one.
    pub(crate) fn answer(&mut self, line: &[u8]) -> Result<Option<Answered>, AllocError>
        requires few { HasFewFaults self.old }
        ensures value { FromScene self.old result (λ t answered. IsAnswered (answer line.now) t answered self.old self.new) }
    {
        let reading = parse_line(self.alloc, line);
        self.answer_to(&reading)
    }

    /// Takes what was read of a line, which may be blank.
    fn answer_to(
        &mut self,
        reading: &Result<Line, ParseFail>,
    ) -> Result<Option<Answered>, AllocError>
        requires fits { FitsReading reading.now }
        requires few { HasFewFaults self.old }
        ensures value { FromScene self.old result (λ t answered. IsAnswered reading.now t answered self.old self.new) }
    {
        if is_blank(reading)? {
            return Ok(None);
        }
        Ok(Some(self.line(reading)?))
    }

    /// Takes what was read of the next line, under the crash that is to come, if there is one. A crash
    /// drops all sessions, also behind a line that it doesn't stop.
    fn line(&mut self, reading: &Result<Line, ParseFail>) -> Result<Answered, AllocError>
        requires reading { IsReading reading.now }
        requires fits { FitsReading reading.now }
        requires few { HasFewFaults self.old }
        ensures value { FromScene self.old result (λ t answered. IsEvent reading.now t answered self.old self.new) }
    {
        let crash = self.crash.take();
        let answered = self.act_on(reading, crash)?;
        if crash.is_some() {
            self.enter_anew()?;
        }
        Ok(answered)
    }
}
