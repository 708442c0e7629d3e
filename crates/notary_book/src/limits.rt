//! How much a book holds.

use notary_link::NotaryLimits;

/// The most seals of a batch.
pub(crate) const MAX_SEALS_OF_BATCH: u16 = 4_096;

/// The most seals in all.
pub(crate) const MAX_SEALS: u64 = 16_777_216;

/// The most marks in all.
pub(crate) const MAX_MARKS: u32 = 65_536;

/// The limits of a book as those of a notary: in all, 16,777,216 seals and 65,536 marks.
pub const BOOK_LIMITS: NotaryLimits = NotaryLimits {
    seals: MAX_SEALS,
    marks: MAX_MARKS,
};
