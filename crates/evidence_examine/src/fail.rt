//! Why an examination tells nothing.

ghost use Rattle.std.specs.Prelude.{◌≡◌};
ghost use Rattle.evidence_examine.specs.declared.fail.ExamineFail.TheVariants.{NoMemory};
ghost use Rattle.evidence_examine.specs.Fails.{of_notary};

use notary_link::{Name, NotaryFail};
use std::alloc::AllocError;
use thiserror::Error;

/// Why an examination tells nothing.
#[derive(Clone, Copy, Debug, PartialEq, Eq, Error)]
pub enum ExamineFail {
    #[error("the bytes spell no evidence file")]
    NotEvidence,
    #[error("the notary failed")]
    NotaryFault,
    #[error("the seal of a granule that the file shows was never filed")]
    SealMissing { name: Name },
    #[error("no memory was left")]
    NoMemory,
}

impl From<AllocError> for ExamineFail {
    ghost from_gives = { λ _ e. e ≡ NoMemory };

    fn from(_: AllocError) -> Self {
        ExamineFail::NoMemory
    }
}

impl From<NotaryFail> for ExamineFail {
    ghost from_gives = { λ fail e. e ≡ of_notary fail };

    fn from(fail: NotaryFail) -> Self {
        match fail {
            NotaryFail::NoMemory => ExamineFail::NoMemory,
            _ => ExamineFail::NotaryFault,
        }
    }
}
