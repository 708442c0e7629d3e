//! Why no line was given out.
ghost use Rattle.std.specs.Prelude.{◌≡◌};
ghost use Rattle.line_input.specs.declared.fail.InputFail.TheVariants.{NoMemory};
ghost use Rattle.line_input.specs.Fail.{fail_of};

use outside_io::StreamFail;
use std::alloc::AllocError;
use thiserror::Error;

/// Why no line was given out.
#[derive(Clone, Copy, Debug, PartialEq, Eq, Error)]
pub enum InputFail {
    /// It has counted this.
    #[error("the input failed")]
    ReadFault,
    /// As many bytes were taken as may be, without a line's end or the end of input.
    #[error("the input is longer than it may be")]
    InputLimit,
    #[error("no memory was left")]
    NoMemory,
}

impl From<StreamFail> for InputFail {
    ghost from_gives = { λ d e. e ≡ fail_of d };

    fn from(fail: StreamFail) -> Self {
        match fail {
            StreamFail::Failed => InputFail::ReadFault,
            StreamFail::NoMemory => InputFail::NoMemory,
        }
    }
}

impl From<AllocError> for InputFail {
    ghost from_gives = { λ _ e. e ≡ NoMemory };

    fn from(_: AllocError) -> Self {
        InputFail::NoMemory
    }
}
