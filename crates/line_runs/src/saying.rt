//! Writing a text and ending with a status.

ghost use Rattle.std.specs.Prelude.{◌≡◌};
ghost use Rattle.outside_io.specs.Sink.{GoesOn};
ghost use Rattle.line_runs.specs.Texts.{fault_line};
ghost use Rattle.line_runs.specs.Outcome.{Said, refused};
ghost use Rattle.line_runs.specs.Saying.{IsSaid, IsPlain, WriteCause};

use crate::Status;
use outside_io::{Sink, StreamFail, write_whole};

/// Writes the text, and then ends with the status.
pub fn say<O: Sink>(out: &mut O, text: &[u8], status: Status) -> Status
    requires { IsSaid status }
    ensures said { Said (record { status = status; text = text.now }) result
        (O.state out.old) (O.state out.new) }
    ensures cause { WriteCause result (O.state out.old) (O.state out.new) }
    ensures frame { GoesOn (O.state out.old) (O.state out.new) }
{
    match write_whole(out, text) {
        Ok(()) => status,
        Err(StreamFail::Failed) => Status::WriteFault,
        Err(StreamFail::NoMemory) => Status::NoMemory,
    }
}

/// Writes the fault line of a status without a detail, and then ends with it. It takes no memory.
pub fn refuse<O: Sink>(out: &mut O, status: Status) -> Status
    requires { IsPlain status }
    ensures said { Said (refused status) result (O.state out.old) (O.state out.new) }
    ensures cause { WriteCause result (O.state out.old) (O.state out.new) }
    ensures frame { GoesOn (O.state out.old) (O.state out.new) }
{
    say(out, fault_text(status).as_bytes(), status)
}

/// The last line of a run that ends so, where the status has no detail.
#[tactic(auto, unfolding(crate::specs::Texts::fault_line))]
fn fault_text(status: Status) -> &'static str
    requires { IsPlain status }
    ensures value { result.now ≡ fault_line status }
{
    match status {
        Status::Ok => "fault Ok\n",
        Status::Altered => "fault Altered\n",
        Status::Usage => "fault Usage\n",
        Status::Refused => "fault Refused\n",
        Status::NotAStore => "fault NotAStore\n",
        Status::DiskFault => "fault DiskFault\n",
        Status::NotaryFault => "fault NotaryFault\n",
        Status::ReadFault => "fault ReadFault\n",
        Status::WriteFault => "fault WriteFault\n",
        Status::NoMemory => "fault NoMemory\n",
        Status::Broken => "fault Broken\n",
        Status::AlreadyThere => "fault AlreadyThere\n",
        Status::TooLate => "fault TooLate\n",
        Status::Full => "fault Full\n",
        Status::InputLimit => "fault InputLimit\n",
        Status::NotSealedSo => "fault NotSealedSo\n",
        Status::OldFormat => "fault OldFormat\n",
        Status::TooManyEras => "fault TooManyEras\n",
        Status::NoEra => "fault NoEra\n",
        Status::NotEvidence => "fault NotEvidence\n",
        Status::HeaderLost => "fault HeaderLost\n",
        Status::SealMissing { .. }
        | Status::OutOfTurn { .. }
        | Status::ClockBack { .. }
        | Status::NotaryInconsistent { .. } => "",
    }
}
