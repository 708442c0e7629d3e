//! Statements.

use tuple_bytes::{Columns, Filter, Row, Value, Word};

/// The algorithm that an analysis uses; with `kappa` it names exactly so many granules, 1 to 1,024.
#[derive(Clone, Copy, Debug, PartialEq, Eq)]
pub enum LineAlgorithm {
    Mono,
    Tiled,
    TiledExactly { kappa: u32 },
    A3d,
}

/// A statement. A moment is that of `as of`, at most 1,099,511,627,775; without one the state is that of now.
#[derive(Debug, Drop)]
pub enum Stmt {
    Create {
        table: Word,
        columns: Columns,
    },
    Insert {
        table: Word,
        row: Row,
    },
    Update {
        table: Word,
        row: Row,
    },
    Delete {
        table: Word,
        key: Value,
    },
    Get {
        table: Word,
        key: Value,
        moment: Option<u64>,
    },
    Scan {
        table: Word,
        filter: Option<Filter>,
        moment: Option<u64>,
    },
    History {
        table: Word,
        key: Value,
    },
    /// The rows at each moment from `from` up to and not with `to`.
    OverSelect {
        from: u64,
        to: u64,
        table: Word,
        filter: Option<Filter>,
    },
    /// The pairs of rows at each such moment in which the two columns are equal.
    OverJoin {
        from: u64,
        to: u64,
        left: Word,
        right: Word,
        left_column: Word,
        right_column: Word,
    },
    Begin,
    Commit,
    Abort,
    Notarize,
    Validate,
    /// The next piece of an audit.
    Audit,
    /// The tiles' size and the chains from the next tile on, `k` at most 10 and `algs` at most 3.
    Policy {
        k: u8,
        algs: u8,
    },
    /// With `era` the analysis is of the tiles of that era; an analysis by `Mono` has none.
    Analyse {
        algorithm: LineAlgorithm,
        era: Option<u32>,
    },
    Now {
        moment: u64,
    },
}
