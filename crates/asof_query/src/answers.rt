//! The answers.

ghost use Rattle.std.specs.Prelude.{◌≡◌, ◌≤◌, ◌++◌, IfOk, OnOk, length};
ghost use Rattle.std.specs.List.{AllByRecursion};
ghost use Rattle.std.specs.Option.{option_copied, option_to_list};
ghost use Rattle.tuple_bytes.specs.Limits.{max_columns};
ghost use Rattle.history_model.specs.Answers.{IsAnswer, row_at};
ghost use Rattle.tt_table.specs.Shown.{rows_at};
ghost use Rattle.tt_table.specs.Versions.{AreVersions, live_row, state_at, table_in};
ghost use Rattle.asof_query.specs.Filters.{chosen, history_in, passing, scan_of};

use crate::filter::{filter_place, is_passing_row};
use crate::rows::Rows;
use history_model::{TableFail, fault_of_key};
use std::alloc::{AllocError, Global};
use tt_table::{Keys, TableAt, Tables, Versions, row_live_at};
use tuple_bytes::{Filter, Row, Value, Word};

/// The row that a key has at a moment.
///
/// A table that was created later is NoTable. Then come NullKey, and BadType of column 1.
pub fn get_at(
    alloc: Global,
    tables: &Tables,
    table: &Word,
    key: &Value,
    moment: u64,
) -> Result<Option<Row>, TableFail>
    ensures value { IsAnswer (row_at (state_at tables.now moment) table.now key.now) result }
{
    match tables.as_of(table, key, moment) {
        Err(fail) => Err(fail),
        Ok(None) => Ok(None),
        Ok(Some(row)) => match row.copy(alloc) {
            Ok(row) => Ok(Some(row)),
            Err(_) => Err(TableFail::NoMemory),
        },
    }
}

/// The versions of a key, in order of creation: also one that stops when it starts.
///
/// NoTable, then NullKey, then BadType of column 1; no versions where the key was never there.
pub fn history_of(
    alloc: Global,
    tables: &Tables,
    table: &Word,
    key: &Value,
) -> Result<Versions, TableFail>
    ensures value { IsAnswer (history_in key.now (table_in tables.now table.now)) result }
{
    let Some(columns) = tables.columns(table) else {
        return Err(TableFail::NoTable);
    };
    if let Some(fault) = fault_of_key(columns.as_slice(), key) {
        return Err(fault);
    }
    let Some(versions) = tables.versions_of(table, key) else {
        return Ok(Versions::new(alloc));
    };
    match versions.copy(alloc) {
        Ok(versions) => Ok(versions),
        Err(_) => Err(TableFail::NoMemory),
    }
}

// Adds the row that a key has at a moment, if it has one that passes.
fn add_row(
    alloc: Global,
    rows: &mut Rows,
    versions: &Versions,
    filter: Option<&Filter>,
    place: usize,
    moment: u64,
) -> Result<(), AllocError>
    requires { AreVersions versions.now }
    ensures value { OnOk result (rows.new ≡ rows.old ++ chosen place (option_copied filter.entry) (option_to_list (live_row moment versions.now))) }
{
    match row_live_at(versions.as_slice(), moment) {
        Some(row) => {
            if is_passing_row(filter, place, row.as_slice()) {
                rows.push(row.copy(alloc)?)
            } else {
                Ok(())
            }
        }
        None => Ok(()),
    }
}

// The rows of keys at a moment that pass.
fn passing_rows(
    alloc: Global,
    keys: Keys<'_>,
    filter: Option<&Filter>,
    place: usize,
    moment: u64,
) -> Result<Rows, AllocError>
    requires { AllByRecursion (λ k. AreVersions k.1) keys }
    ensures value { IfOk result (λ rows. rows ≡ chosen place (option_copied filter.entry) (rows_at moment keys.entry)) }
{
    let mut rows = Rows::new(alloc);
    for (_key, versions) in keys {
        add_row(alloc, &mut rows, versions, filter, place, moment)?;
    }
    Ok(rows)
}

fn scan_table(
    alloc: Global,
    table: TableAt<'_>,
    filter: Option<&Filter>,
    moment: u64,
) -> Result<Rows, TableFail>
    requires few { length table.columns.now ≤ max_columns }
    requires versions { AllByRecursion (λ k. AreVersions k.1) table.keys }
    ensures value { IsAnswer (passing table.entry.columns.now (option_copied filter.entry) (rows_at moment table.entry.keys)) result }
{
    let place = match filter_place(table.columns.as_slice(), filter) {
        Ok(place) => place,
        Err(fail) => return Err(fail),
    };
    match passing_rows(alloc, table.keys, filter, place, moment) {
        Ok(rows) => Ok(rows),
        Err(_) => Err(TableFail::NoMemory),
    }
}

/// The rows of a table at a moment that pass, in the order of their keys.
///
/// A table that was created later is NoTable. Then come NoColumn and BadType of the filter.
pub fn scan_at(
    alloc: Global,
    tables: &Tables,
    table: &Word,
    filter: Option<&Filter>,
    moment: u64,
) -> Result<Rows, TableFail>
    ensures value { IsAnswer (scan_of (state_at tables.now moment) table.now (option_copied filter.entry)) result }
{
    match tables.table_at(table, moment) {
        Some(table) => scan_table(alloc, table, filter, moment),
        None => Err(TableFail::NoTable),
    }
}
