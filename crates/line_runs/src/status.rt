//! How a run ends.

ghost use Rattle.std.specs.Prelude.{◌≡◌};
ghost use Rattle.line_runs.specs.Texts.{status_code};

use notary_link::Name;

/// How a run ends.
#[derive(Clone, Copy, Debug, PartialEq, Eq)]
pub enum Status {
    Ok,
    /// What is stored isn't what was filed.
    Altered,
    /// The words are no command.
    Usage,
    /// All input was carried out, and some reply is a refusal.
    Refused,
    /// The store has no header, or one of another id.
    NotAStore,
    DiskFault,
    NotaryFault,
    ReadFault,
    WriteFault,
    NoMemory,
    /// What is filed already isn't what is stored, so nothing more is filed.
    Broken,
    /// A planned name was never filed.
    SealMissing { name: Name },
    /// The notary has so many batches under the id, and others were expected.
    OutOfTurn { count: u32 },
    /// The device of a store that is to be made is taken.
    AlreadyThere,
    /// The clock stands before the store's last moment, or before its first second.
    ClockBack { last: u64 },
    /// The clock stands beyond the last moment that a store can tell.
    TooLate,
    /// There is no room for a Frontier in the store, or for a batch or a mark at the notary.
    Full,
    /// As many bytes were taken as a run takes, and the input had not ended.
    InputLimit,
    /// The header has none of the chains that an analysis asks for.
    NotSealedSo,
    /// What the notary holds of this node isn't made of what it holds below.
    NotaryInconsistent { era: u32, level: u8, index: u32 },
    /// The records of the store stand in one run, and nothing is added to those any more.
    OldFormat,
    /// The store has as many eras as there may be.
    TooManyEras,
    /// The store has no era of the number that an analysis asks for.
    NoEra,
    /// The input was read to its end, and is no evidence file.
    NotEvidence,
    /// Neither a store nor its copy has the header and the eras that were filed.
    HeaderLost,
}

impl Status {
    /// The number that the process ends with.
    pub fn code(&self) -> u8
        ensures value { result ≡ status_code self.now }
    {
        match self {
            Status::Ok => 0,
            Status::Altered => 1,
            Status::Usage => 2,
            Status::Refused => 3,
            Status::NotAStore => 4,
            Status::DiskFault => 5,
            Status::NotaryFault => 6,
            Status::ReadFault => 7,
            Status::WriteFault => 8,
            Status::NoMemory => 9,
            Status::Broken => 10,
            Status::SealMissing { .. } => 11,
            Status::OutOfTurn { .. } => 12,
            Status::AlreadyThere => 13,
            Status::ClockBack { .. } => 14,
            Status::TooLate => 15,
            Status::Full => 16,
            Status::InputLimit => 17,
            Status::NotSealedSo => 18,
            Status::NotaryInconsistent { .. } => 19,
            Status::OldFormat => 20,
            Status::TooManyEras => 21,
            Status::NoEra => 22,
            Status::NotEvidence => 23,
            Status::HeaderLost => 24,
        }
    }
}
