//! What a finding is called, and who leaves a file so.

ghost use Rattle.std.specs.Prelude.{◌≡◌};
ghost use Rattle.file_findings.specs.Kinds.{kind_of, rank_of, rank_name, name_of, place_of, all_kinds, is_name, is_of, named};

use crate::finding::Finding;

/// Who leaves a file so.
#[derive(Clone, Copy, Debug, PartialEq, Eq)]
pub enum Rank {
    /// Nobody but an intruder, a broken disk, or who put an older file back.
    Alarm,
    /// A clock, a crash, or a step that is still to come, too.
    Notice,
}

/// What was found. The order is that of lines.
#[derive(Clone, Copy, Debug, PartialEq, Eq)]
pub enum Kind {
    NoStore,
    NoBook,
    Damaged,
    OtherId,
    FirstFormat,
    Trailing,
    NumberGap,
    MomentFalls,
    Misfit,
    Unsayable,
    IdlePolicy,
    OddFrontier,
    Beyond,
    StoreAhead,
    StoreBehind,
    UnsealedEra,
    UnsealedFrontier,
    SealMissing,
    BatchEarly,
    MarkOver,
    SecondsFall,
    AlteredMark,
    BookAhead,
    BookDiffers,
    BookBehind,
}

impl Rank {
    pub fn name(self) -> &'static [u8]
        ensures value { result.now ≡ rank_name self }
    {
        match self {
            Rank::Alarm => b"alarm",
            Rank::Notice => b"notice",
        }
    }
}

impl Kind {
    /// The place in the table, from 0.
    pub fn place(self) -> u8
        ensures value { result ≡ place_of self }
    {
        self as u8
    }

    /// The name in lines.
    pub fn name(self) -> &'static [u8]
        ensures value { result.now ≡ name_of self }
    {
        match self {
            Kind::NoStore => b"no-store",
            Kind::NoBook => b"no-book",
            Kind::Damaged => b"damaged",
            Kind::OtherId => b"other-id",
            Kind::FirstFormat => b"format-1",
            Kind::Trailing => b"trailing",
            Kind::NumberGap => b"number-gap",
            Kind::MomentFalls => b"moment-falls",
            Kind::Misfit => b"misfit",
            Kind::Unsayable => b"unsayable",
            Kind::IdlePolicy => b"idle-policy",
            Kind::OddFrontier => b"odd-frontier",
            Kind::Beyond => b"beyond",
            Kind::StoreAhead => b"store-ahead",
            Kind::StoreBehind => b"store-behind",
            Kind::UnsealedEra => b"unsealed-era",
            Kind::UnsealedFrontier => b"unsealed-frontier",
            Kind::SealMissing => b"seal-missing",
            Kind::BatchEarly => b"batch-early",
            Kind::MarkOver => b"mark-over",
            Kind::SecondsFall => b"seconds-fall",
            Kind::AlteredMark => b"altered-mark",
            Kind::BookAhead => b"book-ahead",
            Kind::BookDiffers => b"book-differs",
            Kind::BookBehind => b"book-behind",
        }
    }

    /// All, in the table's order.
    pub fn all() -> [Kind; 25]
        ensures value { result ≡ all_kinds }
    {
        [
            Kind::NoStore,
            Kind::NoBook,
            Kind::Damaged,
            Kind::OtherId,
            Kind::FirstFormat,
            Kind::Trailing,
            Kind::NumberGap,
            Kind::MomentFalls,
            Kind::Misfit,
            Kind::Unsayable,
            Kind::IdlePolicy,
            Kind::OddFrontier,
            Kind::Beyond,
            Kind::StoreAhead,
            Kind::StoreBehind,
            Kind::UnsealedEra,
            Kind::UnsealedFrontier,
            Kind::SealMissing,
            Kind::BatchEarly,
            Kind::MarkOver,
            Kind::SecondsFall,
            Kind::AlteredMark,
            Kind::BookAhead,
            Kind::BookDiffers,
            Kind::BookBehind,
        ]
    }

    /// Whether this is the name.
    fn is_named(self, name: &[u8]) -> bool
        ensures value { result ≡ is_name name.now self }
    {
        name == self.name()
    }

    /// The kind of a name.
    pub fn named(name: &[u8]) -> Option<Kind>
        ensures value { result ≡ named name.now }
    {
        let kinds = Kind::all();
        kinds.iter().copied().find(|kind| kind.is_named(name))
    }

    /// Whether a finding is of the kind.
    pub fn is_of(self, finding: &Finding) -> bool
        ensures value { result ≡ is_of self finding.now }
    {
        finding.kind().place() == self.place()
    }
}

impl Finding {
    pub fn kind(&self) -> Kind
        ensures value { result ≡ kind_of self.now }
    {
        match self {
            Finding::NoStore | Finding::LostStore => Kind::NoStore,
            Finding::NoBook => Kind::NoBook,
            Finding::DamagedFront(..) | Finding::DamagedList(..) => Kind::Damaged,
            Finding::OtherId(..) => Kind::OtherId,
            Finding::FirstFormat => Kind::FirstFormat,
            Finding::CutOff(..) | Finding::Trailing(..) => Kind::Trailing,
            Finding::NumberGap(..) => Kind::NumberGap,
            Finding::MomentFalls(..) => Kind::MomentFalls,
            Finding::Misfit(..) => Kind::Misfit,
            Finding::Unsayable(..) => Kind::Unsayable,
            Finding::IdlePolicy(..) => Kind::IdlePolicy,
            Finding::OddFrontier(..) => Kind::OddFrontier,
            Finding::Beyond(..) => Kind::Beyond,
            Finding::StoreAhead(..) => Kind::StoreAhead,
            Finding::StoreBehind(..) => Kind::StoreBehind,
            Finding::UnsealedEra(..) => Kind::UnsealedEra,
            Finding::UnsealedFrontier(..) => Kind::UnsealedFrontier,
            Finding::SealMissing(..) => Kind::SealMissing,
            Finding::BatchEarly(..) => Kind::BatchEarly,
            Finding::MarkOver(..) => Kind::MarkOver,
            Finding::SecondsFall(..) => Kind::SecondsFall,
            Finding::AlteredMark(..) => Kind::AlteredMark,
            Finding::BookAhead(..) => Kind::BookAhead,
            Finding::BookDiffers(..) => Kind::BookDiffers,
            Finding::BookBehind(..) => Kind::BookBehind,
        }
    }

    pub fn rank(&self) -> Rank
        ensures value { result ≡ rank_of self.now }
    {
        match self {
            Finding::NoStore
            | Finding::NoBook
            | Finding::FirstFormat
            | Finding::CutOff(..)
            | Finding::StoreAhead(..)
            | Finding::UnsealedFrontier(..)
            | Finding::BatchEarly(..)
            | Finding::SecondsFall(..)
            | Finding::BookAhead(..) => Rank::Notice,
            _ => Rank::Alarm,
        }
    }
}
