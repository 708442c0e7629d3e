//! Why a line has no reply.

ghost use Rattle.std.specs.Prelude.{◌≡◌};
ghost use Rattle.store_world.specs.declared.fail.LineFail.TheVariants.{NoMemory};
ghost use Rattle.store_world.specs.Answers.{fault_of};

use statement_core::StepFail;
use std::alloc::AllocError;
use thiserror::Error;

/// Why a line has no reply.
#[derive(Clone, Copy, Debug, PartialEq, Eq, Error)]
pub enum LineFail {
    #[error("the disk failed")]
    DiskFault,
    #[error("the notary failed")]
    NotaryFault,
    #[error("no memory was left")]
    NoMemory,
}

impl From<AllocError> for LineFail {
    ghost from_gives = { λ _ e. e ≡ NoMemory };

    fn from(_: AllocError) -> Self {
        LineFail::NoMemory
    }
}

impl From<StepFail> for LineFail {
    ghost from_gives = { λ fail e. e ≡ fault_of fail };

    fn from(fail: StepFail) -> Self {
        match fail {
            StepFail::DiskFault => LineFail::DiskFault,
            StepFail::NoMemory => LineFail::NoMemory,
        }
    }
}
