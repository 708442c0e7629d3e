//! What may be odd about a store and a notary's books.

/// Something odd, with its numbers: those of its row in the table, in that order. Items, operations, entries and marks are
/// counted from 1, segments, tiles, eras and batches from 0.
#[derive(Clone, Copy, Debug, PartialEq, Eq)]
pub enum Finding {
    NoStore,
    /// The same, if a book says that something was filed.
    LostStore,
    NoBook,
    DamagedFront(u64),
    DamagedList(u64),
    OtherId(u64),
    FirstFormat,
    /// Bytes that an append leaves that was cut off.
    CutOff(u32, u64, u64, u64),
    /// Bytes that none leaves.
    Trailing(u32, u64, u64, u64),
    NumberGap(u64, u32, u32),
    MomentFalls(u64, u64, u64),
    Misfit(u64, u64),
    Unsayable(u64, u64),
    IdlePolicy(u64),
    OddFrontier(u64, u64),
    Beyond(u64, u64),
    StoreAhead(u64, u64),
    StoreBehind(u64, u64, u64),
    UnsealedEra(u64, u32, u64),
    UnsealedFrontier(u64, u64),
    SealMissing(u64),
    BatchEarly(u64, u64, u64),
    MarkOver(u64, u32, u64),
    SecondsFall(u64, u64, u64),
    AlteredMark(u64, u64, u64),
    BookAhead(u64, u64),
    BookDiffers(u64),
    BookBehind(u64, u64),
}

/// Where something was found.
#[derive(Clone, Copy, Debug, PartialEq, Eq)]
pub enum Device {
    Store,
    Book,
    /// One of several, counted from 1.
    BookOf { number: u64 },
}

/// Something odd, and where.
#[derive(Clone, Copy, Debug, PartialEq, Eq)]
pub struct Found {
    pub device: Device,
    pub finding: Finding,
}
