//! The rows of two tables joined over a span.

ghost use Rattle.std.specs.Prelude.{◌≡◌, ◌≤◌, length, IfOk, OnOk, map, slice_get};
ghost use Rattle.sequenced_query.specs.Cells.{cell, part_of, join_key, join_all};
ghost use Rattle.std.specs.List.{flat_map};
ghost use Rattle.std.specs.List.Sorted.{IsStrictlySortedBy};
ghost use Rattle.sequenced_query.specs.Listing.{IsListing};
ghost use Rattle.sequenced_query.specs.Wanted.{cells_of, join_cell, meeting_cmp};
ghost use Rattle.sequenced_query.specs.Merging.{AddsTo, merged};
ghost use Rattle.sequenced_query.specs.Plain.{are_joining, column_named, joined_row};
ghost use Rattle.sequenced_query.specs.Columns.{columns_in};
ghost use Rattle.sequenced_query.specs.Spans.{IsJoin, join_over, Answers};
ghost use Rattle.sequenced_query.specs.Refusals.{joining_places};
ghost use Rattle.tuple_bytes.specs.Limits.{max_columns};
ghost use Rattle.tt_table.specs.Tables.{state_at};

use crate::columns::{column_named, is_same_kind};
use crate::error::OverFail;
use crate::lending::{LentPieces, LentRow};
use crate::listing::Listing;
use crate::meeting::{Meeting, wanted_by};
use crate::merging::Merging;
use crate::span::Span;
use crate::spots::version_at;
use crate::table::shown_table;
use std::alloc::{AllocError, Global};
use std::collections::BTreeSet;
use tt_table::{Keys, Tables, Version, Versions};
use tuple_bytes::{Column, Row, Value, Word};

/// The places of the columns that are compared.
#[derive(Clone, Copy, Debug)]
pub(crate) struct Places {
    pub(crate) left: usize,
    pub(crate) right: usize,
}

// Whether two rows are equal and not Null at their places.
fn are_joining(places: Places, left: &[Value], right: &[Value]) -> bool
    ensures value { result ≡ are_joining (slice_get left.now places.left) (slice_get right.now places.right) }
{
    match (left.get(places.left), right.get(places.right)) {
        (Some(a), Some(b)) => !matches!(a, Value::Null) && a.cmp(b).is_eq(),
        _ => false,
    }
}

// Adds a left row with a right version, during its part of a span, if they join.
fn add_right_version<'a>(
    merging: &mut Merging<'a>,
    span: Span,
    places: Places,
    left: &'a Row,
    right: &'a Version,
) -> Result<(), AllocError>
    ensures value { OnOk result (AddsTo merging.old (cell span right.now (joined_row places.left places.right left.now right.now.row)) merging.new) }
{
    if !are_joining(places, left.as_slice(), right.row.as_slice()) {
        return Ok(());
    }
    match span.part_of(right) {
        Some(part) => {
            let (left, right) = (left.as_slice(), right.row.as_slice());
            merging.add(part, LentRow { left, right })
        }
        None => Ok(()),
    }
}

// Adds a left version with a right version, during their part of a span, if they join.
fn add_versions<'a>(
    merging: &mut Merging<'a>,
    span: Span,
    places: Places,
    left: &'a Version,
    right: &'a Version,
) -> Result<(), AllocError>
    ensures value { OnOk result (AddsTo merging.old (join_cell places.left places.right left.now.row right.now (part_of span left.now)) merging.new) }
{
    match span.part_of(left) {
        Some(part) => add_right_version(merging, part, places, &left.row, right),
        None => Ok(()),
    }
}

// Adds the two versions that meet.
fn add_meeting<'a>(
    merging: &mut Merging<'a>,
    span: Span,
    places: Places,
    lefts: &'a [Version],
    rights: &[&'a Versions],
    meeting: Meeting,
) -> Result<(), AllocError>
    ensures value { OnOk result (AddsTo merging.old (cells_of span places.left places.right lefts.now (map (λ r. r.now) rights.now) meeting) merging.new) }
{
    let Some(left) = lefts.get(meeting.left) else {
        return Ok(());
    };
    match version_at(rights, meeting.key, meeting.right) {
        Some(right) => add_versions(merging, span, places, left, right),
        None => Ok(()),
    }
}

// Adds a left key with each right version that it meets, in the order of right keys, and then of time.
fn add_wanted<'a>(
    merging: &mut Merging<'a>,
    span: Span,
    places: Places,
    lefts: &'a [Version],
    rights: &[&'a Versions],
    wanted: &BTreeSet<Meeting>,
) -> Result<(), AllocError>
    ensures value { OnOk result (AddsTo merging.old (flat_map (cells_of span places.left places.right lefts.now (map (λ r. r.now) rights.now)) wanted.now.keys) merging.new) }
    ensures rising { IsStrictlySortedBy meeting_cmp wanted.now.keys }
{
    for meeting in wanted.iter() {
        add_meeting(merging, span, places, lefts, rights, *meeting)?;
    }
    Ok(())
}

// Adds a left key with each right key. Versions that share no value, or no moment, have nothing to add.
fn add_left_key<'a>(
    alloc: Global,
    merging: &mut Merging<'a>,
    span: Span,
    places: Places,
    lefts: &'a [Version],
    rights: &[&'a Versions],
    listing: &Listing,
) -> Result<(), AllocError>
    requires listed { IsListing places.right span (map (λ r. r.now) rights.now) listing.now }
    ensures value { OnOk result (AddsTo merging.old (join_key span places.left places.right (map (λ r. r.now) rights.now) lefts.now) merging.new) }
{
    let wanted = wanted_by(alloc, listing, places.left, span, lefts)?;
    add_wanted(merging, span, places, lefts, rights, &wanted)
}

// The versions of each key, in the keys' order.
fn versions_of_keys<'a>(alloc: Global, keys: Keys<'a>) -> Result<Vec<&'a Versions>, AllocError>
    ensures value { IfOk result (λ found. map (λ r. r.now) found.items ≡ map (λ k. k.1) keys.entry) }
{
    let mut found = Vec::new(alloc);
    for (_key, versions) in keys {
        found.push(versions)?;
    }
    Ok(found)
}

// The pieces of all keys.
fn join_keys<'a>(
    alloc: Global,
    span: Span,
    places: Places,
    left_keys: Keys<'a>,
    right_keys: Keys<'a>,
) -> Result<LentPieces<'a>, AllocError>
    ensures value { IfOk result (λ pieces. pieces ≡ merged (join_all span places.left places.right (map (λ k. k.1) left_keys.entry) (map (λ k. k.1) right_keys.entry))) }
{
    let rights = versions_of_keys(alloc, right_keys)?;
    let listing = Listing::of_keys(alloc, places.right, span, &rights)?;
    let mut merging = Merging::new(alloc);
    for (_key, lefts) in left_keys {
        add_left_key(
            alloc,
            &mut merging,
            span,
            places,
            lefts.as_slice(),
            &rights,
            &listing,
        )?;
    }
    merging.into_pieces()
}

// The places of the columns that are compared.
fn joining_places(
    lefts: &[Column],
    left: &Word,
    rights: &[Column],
    right: &Word,
) -> Result<Places, OverFail>
    requires { length rights.now ≤ max_columns }
    ensures value { result ≡ joining_places (column_named left.now lefts.now) (column_named right.now rights.now) }
{
    let Some((left, left_kind)) = column_named(lefts, left) else {
        return Err(OverFail::NoColumn);
    };
    let Some((right, right_kind)) = column_named(rights, right) else {
        return Err(OverFail::NoColumn);
    };
    if is_same_kind(left_kind, right_kind) {
        Ok(Places { left, right })
    } else {
        Err(OverFail::BadType {
            column: (right + 1) as u8,
        })
    }
}

/// Each left row with each right row where the two columns are equal and not Null, at all moments from
/// `from` up to, and not including, `to`.
///
/// NoSpan where there is no such moment, then NoTable, then NoColumn, then BadType of the right column
/// where the two have different kinds.
pub fn over_join<'a>(
    alloc: Global,
    tables: &'a Tables,
    left: &Word,
    left_column: &Word,
    right: &Word,
    right_column: &Word,
    from: u64,
    to: u64,
) -> Result<LentPieces<'a>, OverFail>
    ensures value { IfOk result (IsJoin tables.now left.now left_column.now right.now right_column.now from to) }
    ensures answer { Answers (join_over (columns_in tables.now) (state_at tables.now) left.now left_column.now right.now right_column.now from to) result }
{
    if from >= to {
        return Err(OverFail::NoSpan);
    }
    let (Some(left), Some(right)) = (shown_table(tables, left), shown_table(tables, right)) else {
        return Err(OverFail::NoTable);
    };
    let lefts = left.columns.as_slice();
    let rights = right.columns.as_slice();
    let places = match joining_places(lefts, left_column, rights, right_column) {
        Ok(places) => places,
        Err(fail) => return Err(fail),
    };
    let span = Span {
        from: from.max(left.created).max(right.created),
        to,
    };
    match join_keys(alloc, span, places, left.keys, right.keys) {
        Ok(pieces) => Ok(pieces),
        Err(_) => Err(OverFail::NoMemory),
    }
}
