//! The chains that an analysis asks for.

/// Those of the parts of tiles, or the tree.
#[derive(Clone, Copy, Debug, PartialEq, Eq)]
pub enum Chains {
    Tiles,
    Tree,
}
