//! A table, as a query over a span reads it.

ghost use Rattle.std.specs.Prelude.{◌≡◌, ◌≤◌, None, MatchOption, length};
ghost use Rattle.tuple_bytes.specs.Limits.{max_columns};
ghost use Rattle.tt_table.specs.Tables.{table_in};
ghost use Rattle.tt_table.specs.Versions.{AreTables};
ghost use Rattle.sequenced_query.specs.Tables.{ShowsTable};

use tt_table::{Keys, Tables};
use tuple_bytes::{Columns, Word};

/// A table: its columns, the moment of its Create, and each key that it ever held with its versions.
#[derive(Drop)]
pub(crate) struct ShownTable<'a> {
    pub(crate) columns: &'a Columns,
    pub(crate) created: u64,
    pub(crate) keys: Keys<'a>,
}

/// A table, if it is there now.
pub(crate) fn shown_table<'a>(tables: &'a Tables, name: &Word) -> Option<ShownTable<'a>>
    ensures value { MatchOption result (table_in tables.now name.now ≡ None) (λ t. ShowsTable t.columns.now t.created t.keys (table_in tables.now name.now)) }
    ensures few { MatchOption result (Unit {0}) (λ t. length t.columns.now ≤ max_columns) }
    ensures in_order { AreTables tables.now }
{
    match (
        tables.columns(name),
        tables.created(name),
        tables.keys(name),
    ) {
        (Some(columns), Some(created), Some(keys)) => Some(ShownTable {
            columns,
            created,
            keys,
        }),
        _ => None,
    }
}
