//! What one payload of a book says.

use notary_link::{Mark, Seals};

/// A batch that was filed, or a mark that was noted.
#[derive(Debug, Drop)]
pub enum Entry {
    File {
        id: u64,
        index: u32,
        moment: u64,
        seals: Seals,
    },
    Note {
        id: u64,
        mark: Mark,
    },
}
