//! The rows of one table over a span.

ghost use Rattle.std.specs.Prelude.{◌≡◌, IfOk, OnOk, map};
ghost use Rattle.std.specs.Option.{option_copied};
ghost use Rattle.sequenced_query.specs.Cells.{cell, passed_row, select_cells, select_all};
ghost use Rattle.sequenced_query.specs.Merging.{AddsTo, merged};
ghost use Rattle.sequenced_query.specs.Columns.{columns_in};
ghost use Rattle.sequenced_query.specs.Spans.{IsSelect, select_over, Answers};
ghost use Rattle.tt_table.specs.Tables.{state_at};

use crate::error::{OverFail, of_filter};
use crate::lending::{LentPieces, LentRow};
use crate::merging::Merging;
use crate::span::Span;
use crate::table::shown_table;
use asof_query::{filter_place, is_passing_row};
use std::alloc::{AllocError, Global};
use tt_table::{Keys, Tables, Version};
use tuple_bytes::{Filter, Word};

// Adds a version's part of the span, if its row passes.
fn add_version<'a>(
    merging: &mut Merging<'a>,
    span: Span,
    version: &'a Version,
    filter: Option<&Filter>,
    place: usize,
) -> Result<(), AllocError>
    ensures value { OnOk result (AddsTo merging.old (cell span version.now (passed_row place (option_copied filter.entry) version.now.row)) merging.new) }
{
    if !is_passing_row(filter, place, version.row.as_slice()) {
        return Ok(());
    }
    match span.part_of(version) {
        Some(part) => merging.add(part, LentRow::of(version.row.as_slice())),
        None => Ok(()),
    }
}

// Adds those of a key.
fn add_key<'a>(
    merging: &mut Merging<'a>,
    span: Span,
    versions: &'a [Version],
    filter: Option<&Filter>,
    place: usize,
) -> Result<(), AllocError>
    ensures value { OnOk result (AddsTo merging.old (select_cells span place (option_copied filter.entry) versions.now) merging.new) }
{
    for version in versions {
        add_version(merging, span, version, filter, place)?;
    }
    Ok(())
}

// The pieces of all keys.
fn select_keys<'a>(
    alloc: Global,
    span: Span,
    keys: Keys<'a>,
    filter: Option<&Filter>,
    place: usize,
) -> Result<LentPieces<'a>, AllocError>
    ensures value { IfOk result (λ pieces. pieces ≡ merged (select_all span place (option_copied filter.entry) (map (λ k. k.1) keys.entry))) }
{
    let mut merging = Merging::new(alloc);
    for (_key, versions) in keys {
        add_key(&mut merging, span, versions.as_slice(), filter, place)?;
    }
    merging.into_pieces()
}

/// The rows of a table that pass, at all moments from `from` up to, and not including, `to`.
///
/// NoSpan where there is no such moment, then NoTable, then NoColumn and BadType of the filter.
pub fn over_select<'a>(
    alloc: Global,
    tables: &'a Tables,
    table: &Word,
    filter: Option<&Filter>,
    from: u64,
    to: u64,
) -> Result<LentPieces<'a>, OverFail>
    ensures value { IfOk result (IsSelect tables.now table.now (option_copied filter.entry) from to) }
    ensures answer { Answers (select_over (columns_in tables.now) (state_at tables.now) table.now (option_copied filter.entry) from to) result }
{
    if from >= to {
        return Err(OverFail::NoSpan);
    }
    let Some(shown) = shown_table(tables, table) else {
        return Err(OverFail::NoTable);
    };
    let place = match filter_place(shown.columns.as_slice(), filter) {
        Ok(place) => place,
        Err(fail) => return Err(of_filter(fail)),
    };
    let span = Span {
        from: from.max(shown.created),
        to,
    };
    match select_keys(alloc, span, shown.keys, filter, place) {
        Ok(pieces) => Ok(pieces),
        Err(_) => Err(OverFail::NoMemory),
    }
}
