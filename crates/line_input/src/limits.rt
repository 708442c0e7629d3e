//! How much is taken of an input: `specs/Limits` says it once more.

/// The most bytes that are taken in all.
pub const INPUT_LIMIT: usize = 67_108_864;

/// The most bytes that are taken at once.
pub const PIECE_LIMIT: usize = 4_096;
