//! Lists of rows.

ghost use Rattle.std.specs.Prelude.{◌≡◌, [], ◌∷◌, ◌++◌, OnOk, OnErr};

use std::alloc::{AllocError, Global};
use std::marker::Model;
use tuple_bytes::Row;

/// Rows, in the order of their keys.
#[derive(Debug, Drop)]
pub struct Rows {
    rows: Vec<Row>,
}

impl Model for Rows {
    ghost use Rattle.std.specs.Prelude.{List};
    ghost use Rattle.tuple_bytes.specs.Row.{Cells};

    ghost Value = { List Cells };

    ghost view = { λ r. r.rows.items };
}

impl Rows {
    /// No row.
    pub fn new(alloc: Global) -> Rows
        ensures value { result ≡ [] }
    {
        Rows {
            rows: Vec::new(alloc),
        }
    }

    /// Adds a row.
    pub fn push(&mut self, row: Row) -> Result<(), AllocError>
        ensures ok { OnOk result (self.new ≡ self.old ++ row ∷ []) }
        ensures err { OnErr result (self.new ≡ self.old) }
    {
        self.rows.push(row)?;
        Ok(())
    }

    /// The rows as a slice.
    pub fn as_slice(&self) -> &[Row]
        ensures value { result.now ≡ self.now }
    {
        &self.rows
    }
}
