//! The versions of a left key that meet versions of right keys.

ghost use Rattle.std.specs.Prelude.{IfOk, OnOk, IfSome, Some};
ghost use Rattle.sequenced_query.specs.Listing.{join_value, spots_at};
ghost use Rattle.sequenced_query.specs.Wanted.{AreWanted, HasMeetings, IsKept, IsWanted};

use crate::listing::{Listing, join_value};
use crate::span::Span;
use std::alloc::{AllocError, Global};
use std::collections::BTreeSet;
use tt_table::Version;
use tuple_bytes::Value;

/// A version of a left key and a right version, by their places: that of the right key among all keys, and that of
/// each version among those of its key.
#[derive(Clone, Copy, Debug, PartialEq, Eq, PartialOrd, Ord)]
pub(crate) struct Meeting {
    pub(crate) key: usize,
    pub(crate) left: usize,
    pub(crate) right: usize,
}

// Wants a left version, by its place, with the right versions that have a value while its part lasts.
fn want_value(
    wanted: &mut BTreeSet<Meeting>,
    listing: &Listing,
    left: usize,
    part: Span,
    value: &Value,
) -> Result<(), AllocError>
    ensures stays { OnOk result (IsKept wanted.old.keys wanted.new.keys) }
    ensures added { OnOk result (HasMeetings left part wanted.new.keys (spots_at listing.now value.now)) }
{
    match listing.spots_at(value) {
        Some(spots) => spots.want(wanted, left, part),
        None => Ok(()),
    }
}

// The same with its own value, if it joins by one.
fn want_row(
    wanted: &mut BTreeSet<Meeting>,
    listing: &Listing,
    column: usize,
    left: usize,
    part: Span,
    row: &[Value],
) -> Result<(), AllocError>
    ensures stays { OnOk result (IsKept wanted.old.keys wanted.new.keys) }
    ensures added { OnOk result (IfSome (join_value column row.now) (λ x. HasMeetings left part wanted.new.keys (spots_at listing.now x))) }
{
    match join_value(row, column) {
        Some(value) => want_value(wanted, listing, left, part, value),
        None => Ok(()),
    }
}

// The same while it counts within the span.
fn want_version(
    wanted: &mut BTreeSet<Meeting>,
    listing: &Listing,
    column: usize,
    span: Span,
    left: usize,
    version: &Version,
) -> Result<(), AllocError>
    ensures stays { OnOk result (IsKept wanted.old.keys wanted.new.keys) }
    ensures added { OnOk result (IsWanted column span listing.now wanted.new.keys left (Some version.now)) }
{
    match span.part_of(version) {
        Some(part) => want_row(wanted, listing, column, left, part, version.row.as_slice()),
        None => Ok(()),
    }
}

/// Each of these left versions with the right versions that have its value while it counts.
pub(crate) fn wanted_by(
    alloc: Global,
    listing: &Listing,
    column: usize,
    span: Span,
    versions: &[Version],
) -> Result<BTreeSet<Meeting>, AllocError>
    ensures value { IfOk result (λ wanted. AreWanted column span listing.now versions.now wanted.keys) }
{
    let mut wanted = BTreeSet::new(alloc);
    for (left, version) in versions.iter().enumerate() {
        want_version(&mut wanted, listing, column, span, left, version)?;
    }
    Ok(wanted)
}
