//! Why a call on a file of gated records did nothing, or not all.

ghost use Rattle.std.specs.Prelude.{◌≡◌};
ghost use Rattle.txn_journal.specs.declared.fail.JournalFail.TheVariants.{NoMemory};
ghost use Rattle.txn_journal.specs.Fail.{fail_of};

use disk_model::DiskFail;
use std::alloc::AllocError;
use thiserror::Error;

#[derive(Clone, Copy, Debug, PartialEq, Eq, Error)]
pub enum JournalFail {
    #[error("the device is not free")]
    AlreadyThere,
    #[error("the device has no head of this shape")]
    NotAStore,
    #[error("the disk failed")]
    DiskFault,
    /// The next gate would reach the limit of the file.
    #[error("the file has no room for the record")]
    StoreFull,
    #[error("an earlier call failed, and the file was not opened anew since")]
    Closed,
    #[error("no memory was left")]
    NoMemory,
}

impl From<DiskFail> for JournalFail {
    ghost from_gives = { λ d e. e ≡ fail_of d };

    fn from(fail: DiskFail) -> Self {
        match fail {
            DiskFail::Failed => JournalFail::DiskFault,
            DiskFail::NoMemory => JournalFail::NoMemory,
        }
    }
}

impl From<AllocError> for JournalFail {
    ghost from_gives = { λ _ e. e ≡ NoMemory };

    fn from(_: AllocError) -> Self {
        JournalFail::NoMemory
    }
}
