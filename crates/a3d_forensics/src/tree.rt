//! The tree of an era.

/// The tree over the granules of an era's tiles, side by side from the first one.
#[derive(Clone, Copy, Debug, PartialEq, Eq)]
pub struct Tree {
    pub(crate) era: u32,
    pub(crate) first: u32,
    pub(crate) leaves: u32,
}
