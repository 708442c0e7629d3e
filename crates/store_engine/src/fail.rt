//! Why a store was not opened, or nothing was stored.

ghost use Rattle.std.specs.Prelude.{◌≡◌};
ghost use Rattle.store_engine.specs.declared.fail.StoreFail.TheVariants.{NoMemory};
ghost use Rattle.store_engine.specs.Fail.{fail_of_disk, fail_of_file, fail_of_encoding, closes};

use disk_model::DiskFail;
use segment_file::SegmentFail;
use std::alloc::AllocError;
use thiserror::Error;
use tuple_bytes::EncodeFail;

/// A refusal of a store.
#[derive(Clone, Copy, Debug, PartialEq, Eq, Error)]
pub enum StoreFail {
    #[error("the device has no header of this id")]
    NotAStore,
    /// Its records stand in one run.
    #[error("the device has a store of this id in the first format")]
    OldFormat,
    #[error("the clock stands before the last moment, {last}, or before the store's first second")]
    ClockBack { last: u64 },
    /// The moment's granule is 1,048,576 or more.
    #[error("the clock stands behind the last granule")]
    TooLate,
    /// There are more than 256.
    #[error("a transaction has too many operations")]
    TooManyOps,
    /// It has more than 32,768 bytes.
    #[error("the spelling of a transaction is too long")]
    TooLong,
    /// The next gate would reach the limit of the file.
    #[error("the store has no room for the record")]
    StoreFull,
    #[error("the disk failed")]
    DiskFault,
    #[error("an earlier call failed, and the store was not opened anew since")]
    Closed,
    #[error("no memory was left")]
    NoMemory,
}

impl StoreFail {
    /// Whether the store is closed by it until it is opened anew.
    pub(crate) fn closes(&self) -> bool
        ensures value { result ≡ closes self.now }
    {
        matches!(self, StoreFail::DiskFault | StoreFail::NoMemory)
    }
}

impl From<DiskFail> for StoreFail {
    ghost from_gives = { λ d e. e ≡ fail_of_disk d };

    fn from(fail: DiskFail) -> Self {
        match fail {
            DiskFail::Failed => StoreFail::DiskFault,
            DiskFail::NoMemory => StoreFail::NoMemory,
        }
    }
}

impl From<SegmentFail> for StoreFail {
    ghost from_gives = { λ s e. e ≡ fail_of_file s };

    fn from(fail: SegmentFail) -> Self {
        match fail {
            SegmentFail::AlreadyThere | SegmentFail::NotAStore => StoreFail::NotAStore,
            SegmentFail::OldFormat => StoreFail::OldFormat,
            SegmentFail::DiskFault => StoreFail::DiskFault,
            SegmentFail::StoreFull => StoreFail::StoreFull,
            SegmentFail::Closed => StoreFail::Closed,
            SegmentFail::NoMemory => StoreFail::NoMemory,
        }
    }
}

impl From<EncodeFail> for StoreFail {
    ghost from_gives = { λ f e. e ≡ fail_of_encoding f };

    fn from(fail: EncodeFail) -> Self {
        match fail {
            EncodeFail::TooManyOps => StoreFail::TooManyOps,
            EncodeFail::TooLong => StoreFail::TooLong,
            EncodeFail::NoMemory => StoreFail::NoMemory,
        }
    }
}

impl From<AllocError> for StoreFail {
    ghost from_gives = { λ _ e. e ≡ NoMemory };

    fn from(_: AllocError) -> Self {
        StoreFail::NoMemory
    }
}
