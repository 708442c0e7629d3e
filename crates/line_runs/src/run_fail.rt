//! Why a run stopped before the end of its input.

ghost use Rattle.std.specs.Prelude.{◌≡◌, ◌≢◌};
ghost use Rattle.line_runs.specs.Carrying.{of_line, of_input, of_output, EndsWith};
ghost use Rattle.line_runs.specs.Saying.{WriteCause};
ghost use Rattle.outside_io.specs.Sink.{GoesOn};

use crate::Status;
use crate::saying::refuse;
use line_input::InputFail;
use outside_io::{Sink, StreamFail};
use store_world::LineFail;
use thiserror::Error;

/// Why a run stopped before the end of its input.
#[derive(Clone, Copy, Debug, PartialEq, Eq, Error)]
pub enum RunFail {
    #[error("the disk failed")]
    DiskFault,
    #[error("the notary failed")]
    NotaryFault,
    #[error("the input failed")]
    ReadFault,
    #[error("the input is longer than it may be")]
    InputLimit,
    #[error("the output failed")]
    WriteFault,
    #[error("no memory was left")]
    NoMemory,
}

impl From<LineFail> for RunFail {
    ghost from_gives = { λ d e. e ≡ of_line d };

    fn from(fail: LineFail) -> Self {
        match fail {
            LineFail::DiskFault => RunFail::DiskFault,
            LineFail::NotaryFault => RunFail::NotaryFault,
            LineFail::NoMemory => RunFail::NoMemory,
        }
    }
}

impl From<InputFail> for RunFail {
    ghost from_gives = { λ d e. e ≡ of_input d };

    fn from(fail: InputFail) -> Self {
        match fail {
            InputFail::ReadFault => RunFail::ReadFault,
            InputFail::InputLimit => RunFail::InputLimit,
            InputFail::NoMemory => RunFail::NoMemory,
        }
    }
}

impl From<StreamFail> for RunFail {
    ghost from_gives = { λ d e. e ≡ of_output d };

    fn from(fail: StreamFail) -> Self {
        match fail {
            StreamFail::Failed => RunFail::WriteFault,
            StreamFail::NoMemory => RunFail::NoMemory,
        }
    }
}

/// Tells a failure by its line, where the output did not fail, and ends the run.
pub fn end<O: Sink>(out: &mut O, fail: RunFail) -> Status
    ensures value { EndsWith fail result (O.state out.old) (O.state out.new) }
    ensures cause { fail ≢ RunFail.WriteFault → WriteCause result (O.state out.old) (O.state out.new) }
    ensures frame { GoesOn (O.state out.old) (O.state out.new) }
{
    match fail {
        RunFail::DiskFault => refuse(out, Status::DiskFault),
        RunFail::NotaryFault => refuse(out, Status::NotaryFault),
        RunFail::ReadFault => refuse(out, Status::ReadFault),
        RunFail::InputLimit => refuse(out, Status::InputLimit),
        RunFail::WriteFault => Status::WriteFault,
        RunFail::NoMemory => Status::NoMemory,
    }
}
