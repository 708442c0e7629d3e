//! Where the versions of keys stand, and when they count within a span.

ghost use Rattle.std.specs.Prelude.{◌≡◌, IfOk, OnOk, Some, map, slice_get};
ghost use Rattle.std.specs.Option.{option_copied};
ghost use Rattle.sequenced_query.specs.Spots.{AreSpots, Has, HasSpot, version_at};

use crate::span::Span;
use std::alloc::{AllocError, Global};
use tt_table::{Version, Versions};

/// A version by its place: that of its key among all keys, and its own among the versions of the key. With its part
/// of the span.
#[derive(Clone, Copy, Debug)]
pub(crate) struct Spot {
    pub(crate) part: Span,
    pub(crate) key: usize,
    pub(crate) version: usize,
}

/// The version at a place.
pub(crate) fn version_at<'a>(
    keys: &[&'a Versions],
    key: usize,
    version: usize,
) -> Option<&'a Version>
    ensures value { option_copied result ≡ version_at (map (λ k. k.now) keys.now) key version }
{
    match keys.get(key) {
        Some(versions) => versions.as_slice().get(version),
        None => None,
    }
}

fn push_spot(spots: &mut Vec<Spot>, spot: Spot) -> Result<(), AllocError>
    ensures stays { OnOk result ((s : _) → Has s spots.old.items → Has s spots.new.items) }
    ensures added { OnOk result (Has spot spots.new.items) }
{
    spots.push(spot)?;
    Ok(())
}

// Adds the spot of a version, if it counts within the span.
fn add_version(
    spots: &mut Vec<Spot>,
    span: Span,
    key: usize,
    place: usize,
    version: &Version,
) -> Result<(), AllocError>
    ensures stays { OnOk result ((s : _) → Has s spots.old.items → Has s spots.new.items) }
    ensures added { OnOk result (HasSpot span spots.new.items key place (Some version.now)) }
{
    match span.part_of(version) {
        Some(part) => push_spot(
            spots,
            Spot {
                part,
                key,
                version: place,
            },
        ),
        None => Ok(()),
    }
}

// Adds those of a key.
fn add_key(
    spots: &mut Vec<Spot>,
    span: Span,
    key: usize,
    versions: &[Version],
) -> Result<(), AllocError>
    ensures stays { OnOk result ((s : _) → Has s spots.old.items → Has s spots.new.items) }
    ensures added { OnOk result ((n : _) → HasSpot span spots.new.items key n (slice_get versions.now n)) }
{
    for (place, version) in versions.iter().enumerate() {
        add_version(spots, span, key, place, version)?;
    }
    Ok(())
}

// Those of all keys, key by key.
fn spots_by_key(alloc: Global, span: Span, keys: &[&Versions]) -> Result<Vec<Spot>, AllocError>
    ensures value { IfOk result (λ spots. AreSpots span (map (λ k. k.now) keys.now) spots.items) }
{
    let mut spots = Vec::new(alloc);
    for (key, versions) in keys.iter().enumerate() {
        add_key(&mut spots, span, key, versions.as_slice())?;
    }
    Ok(spots)
}

/// The spots of all versions that count within the span, in the order in which they begin.
pub(crate) fn spots_of(
    alloc: Global,
    span: Span,
    keys: &[&Versions],
) -> Result<Vec<Spot>, AllocError>
    ensures value { IfOk result (λ spots. AreSpots span (map (λ k. k.now) keys.now) spots.items) }
{
    let mut spots = spots_by_key(alloc, span, keys)?;
    spots.sort_unstable_by_key(|spot| spot.part.from);
    Ok(spots)
}
