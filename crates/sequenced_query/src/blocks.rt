//! Spots one behind another, and which of them meet a span.
//!
//! Counted from 1, entry n closes a block: the last entries up to it, as many as the greatest power of 2 that divides
//! n. It knows a span around all of this block. Who looks for the spots that meet a span goes from the last entry to
//! the first, and leaves a block out where the span around it doesn't meet. Where spots come in the order of their
//! starts, that takes at most the square of the logarithm for each spot that is found, and mostly a few steps.

ghost use Rattle.std.specs.Prelude.{◌≡◌, ◌≤◌, ◌<◌, ◌+◌, [], ◌∷◌, ◌++◌, IfOk, OnOk, OnErr, length, slice_index_or};
ghost use Rattle.sequenced_query.specs.Blocks.{AreBlocks, IsInside, block_start};
ghost use Rattle.sequenced_query.specs.Wanted.{HasMeetings, IsKept, WantsBetween, WantsSpot};

use crate::meeting::Meeting;
use crate::span::Span;
use crate::spots::Spot;
use std::alloc::{AllocError, Global};
use std::collections::BTreeSet;
use std::marker::Model;

/// A spot, and a span around the parts of the block that it closes.
#[derive(Clone, Copy, Debug)]
struct Entry {
    spot: Spot,
    block: Span,
}

/// Spots one behind another.
#[derive(Drop)]
pub(crate) struct Blocks {
    entries: Vec<Entry>,
}

impl Model for Blocks {
    ghost use Rattle.std.specs.Prelude.{List, map};
    ghost use Rattle.sequenced_query.specs.declared.spots.Spot.{Spot as ASpot};
    ghost use Rattle.sequenced_query.specs.Blocks.{AreBlocks};

    ghost Value = { List ASpot };

    ghost view = { λ b. map (λ e. e.spot) b.entries.items };

    ghost invariant = { λ b. AreBlocks b.entries.items };
}

// How many of the first so many entries are before the block that the last of them closes.
fn block_start(count: usize) -> usize
    requires { 0 < count }
    ensures value { result ≡ block_start count }
    ensures before { result < count }
{
    count & (count - 1)
}

// A span around the block that one more part closes behind these entries.
fn block_with(entries: &[Entry], part: Span) -> Span
    requires { AreBlocks entries.now }
    ensures own { IsInside part result }
    ensures others { (j : _) (d : _) → block_start (length entries.now + 1) ≤ j → j < length entries.now → IsInside (slice_index_or entries.now j d).spot.part result }
{
    let first = block_start(entries.len() + 1);
    let mut block = part;
    let mut count = entries.len();
    while count > first {
        block = block.around(entries[count - 1].block);
        count = block_start(count);
    }
    block
}

// Wants a spot with a left version, if it meets its part.
fn want_spot(
    wanted: &mut BTreeSet<Meeting>,
    left: usize,
    part: Span,
    spot: Spot,
) -> Result<(), AllocError>
    ensures stays { OnOk result (IsKept wanted.old.keys wanted.new.keys) }
    ensures added { OnOk result (WantsSpot left part wanted.new.keys spot) }
{
    if !spot.part.meets(part) {
        return Ok(());
    }
    wanted.insert(Meeting {
        key: spot.key,
        left,
        right: spot.version,
    })?;
    Ok(())
}

// Looks at the last of the first so many entries, and says how many are left to look at.
fn want_last(
    wanted: &mut BTreeSet<Meeting>,
    left: usize,
    part: Span,
    entries: &[Entry],
    count: usize,
) -> Result<usize, AllocError>
    requires spans { AreBlocks entries.now }
    requires some { 0 < count }
    requires within { count ≤ length entries.now }
    ensures fewer { IfOk result (λ rest. rest < count) }
    ensures stays { OnOk result (IsKept wanted.old.keys wanted.new.keys) }
    ensures added { IfOk result (λ rest. WantsBetween left part wanted.new.keys entries.now rest count) }
{
    let entry = entries[count - 1];
    if !entry.block.meets(part) {
        return Ok(block_start(count));
    }
    want_spot(wanted, left, part, entry.spot)?;
    Ok(count - 1)
}

// Wants each spot that meets a left version's part.
fn want_entries(
    wanted: &mut BTreeSet<Meeting>,
    left: usize,
    part: Span,
    entries: &[Entry],
) -> Result<(), AllocError>
    requires { AreBlocks entries.now }
    ensures stays { OnOk result (IsKept wanted.old.keys wanted.new.keys) }
    ensures added { OnOk result (WantsBetween left part wanted.new.keys entries.now 0 (length entries.now)) }
{
    let mut count = entries.len();
    while count > 0 {
        count = want_last(wanted, left, part, entries, count)?;
    }
    Ok(())
}

impl Blocks {
    /// No spot, with memory for one.
    pub(crate) fn new(alloc: Global) -> Result<Blocks, AllocError>
        ensures value { IfOk result (λ made. made ≡ []) }
    {
        Ok(Blocks {
            entries: Vec::with_capacity(alloc, 1)?,
        })
    }

    /// One more spot behind these.
    pub(crate) fn push(&mut self, spot: Spot) -> Result<(), AllocError>
        ensures ok { OnOk result (self.new ≡ self.old ++ spot ∷ []) }
        ensures err { OnErr result (self.new ≡ self.old) }
    {
        let block = block_with(&self.entries, spot.part);
        self.entries.push(Entry { spot, block })?;
        Ok(())
    }

    /// Wants each spot that meets a left version's part, with this version by its place.
    pub(crate) fn want(
        &self,
        wanted: &mut BTreeSet<Meeting>,
        left: usize,
        part: Span,
    ) -> Result<(), AllocError>
        ensures stays { OnOk result (IsKept wanted.old.keys wanted.new.keys) }
        ensures added { OnOk result (HasMeetings left part wanted.new.keys self.now) }
    {
        want_entries(wanted, left, part, &self.entries)
    }
}
