//! The diagram.

ghost use Rattle.std.specs.Prelude.{◌≡◌, ◌≤◌, ◌++◌, [], IfErr, IfOk, Ok, OnOk, length, codes};
ghost use Rattle.std.specs.List.{flat_map};
ghost use Rattle.outside_words.specs.Faults.{HasCause};
ghost use Rattle.outside_words.specs.Told.{WhereTold};
ghost use Rattle.notary_link.specs.declared.fail.AskFail.TheVariants.{NotaryFault};
ghost use Rattle.notary_link.specs.Fails.{ask_in_doubt};
ghost use Rattle.notary_link.specs.Notary.{Unchanged, GoesOn, IsCounted};
ghost use Rattle.audit_model.specs.Asked.{IsTold};
ghost use Rattle.corruption_diagram.specs.Spans.{IsReadFail};
ghost use Rattle.corruption_diagram.specs.Diagram.{diagram, row, batch_sign, mark_event, analysis_event, batch_events, placed, event_line, max_events, AreInOrder, AreAll};

use crate::drawing::{put_event, put_events};
use crate::event::{Event, put_in_order};
use crate::rows::{bad_row, batch_row, mark_row};
use notary_link::{AskFail, Mark, Notary};
use std::alloc::{AllocError, Global};
use tuple_bytes::Blob;

/// A diagram has at most so many events, and so no more tiles.
pub const MAX_EVENTS: u32 = 64;

/// The diagram of so many tiles, of which these are bad, as of now; none where there are too many events.
pub fn grid<N: Notary>(
    alloc: Global,
    notary: &mut N,
    id: u64,
    tiles: u32,
    bad: &[bool],
    now: u64,
) -> Result<Option<Blob>, AskFail>
    requires bad { length bad.now ≡ tiles }
    ensures value { WhereTold (N.state notary.old).lists (N.state notary.new).lists (λ before after.
        IsTold (Ok (diagram (before.batches id) (before.marks id) tiles bad.now now)) result) }
    ensures only { IfErr result IsReadFail }
    ensures same { Unchanged (N.state notary.old) (N.state notary.new) }
    ensures asked { (N.state notary.new).asked ≡ (N.state notary.old).asked }
    ensures frame { GoesOn (N.state notary.old) (N.state notary.new) }
    ensures cause { HasCause NotaryFault (N.state notary.old).faults (N.state notary.new).faults result }
    ensures counted { IsCounted ask_in_doubt (N.state notary.old) (N.state notary.new) result }
{
    if tiles > MAX_EVENTS {
        return Ok(None);
    }
    let mut events = Vec::new(alloc);
    add_batches(alloc, notary, id, tiles, &mut events)?;
    if !add_marks(alloc, notary, id, tiles, &mut events)? {
        return Ok(None);
    }
    let text = draw(alloc, &events, bad, tiles, now)?;
    Ok(Some(text))
}

/// Adds the batches of so many tiles to no events.
fn add_batches<N: Notary>(
    alloc: Global,
    notary: &mut N,
    id: u64,
    tiles: u32,
    events: &mut Vec<Event>,
) -> Result<(), AskFail>
    requires few { tiles ≤ max_events }
    requires none { events.old.items ≡ [] }
    ensures value { WhereTold (N.state notary.old).lists (N.state notary.new).lists (λ before after.
        OnOk result (AreInOrder (batch_events (before.batches id) tiles) events.new.items)) }
    ensures only { IfErr result IsReadFail }
    ensures same { Unchanged (N.state notary.old) (N.state notary.new) }
    ensures asked { (N.state notary.new).asked ≡ (N.state notary.old).asked }
    ensures frame { GoesOn (N.state notary.old) (N.state notary.new) }
    ensures cause { HasCause NotaryFault (N.state notary.old).faults (N.state notary.new).faults result }
    ensures counted { IsCounted ask_in_doubt (N.state notary.old) (N.state notary.new) result }
{
    for tile in 0..tiles {
        let moment = notary.moment_of(id, tile + 1)?.unwrap_or(0);
        add_batch(alloc, moment, tile, tiles, events)?;
    }
    Ok(())
}

/// Adds the marks to the batches of so many tiles. Answers whether there are not too many events.
fn add_marks<N: Notary>(
    alloc: Global,
    notary: &mut N,
    id: u64,
    tiles: u32,
    events: &mut Vec<Event>,
) -> Result<bool, AskFail>
    requires few { tiles ≤ max_events }
    ensures value { WhereTold (N.state notary.old).lists (N.state notary.new).lists (λ before after.
        AreInOrder (batch_events (before.batches id) tiles) events.old.items
        → IfOk result (AreAll (before.batches id) (before.marks id) tiles events.new.items)) }
    ensures only { IfErr result IsReadFail }
    ensures same { Unchanged (N.state notary.old) (N.state notary.new) }
    ensures asked { (N.state notary.new).asked ≡ (N.state notary.old).asked }
    ensures frame { GoesOn (N.state notary.old) (N.state notary.new) }
    ensures cause { HasCause NotaryFault (N.state notary.old).faults (N.state notary.new).faults result }
    ensures counted { IsCounted ask_in_doubt (N.state notary.old) (N.state notary.new) result }
{
    for place in 0..MAX_EVENTS + 1 - tiles {
        match notary.mark_at(id, place)? {
            Some(mark) => add_mark(alloc, mark, tiles, events)?,
            None => return Ok(true),
        }
    }
    Ok(false)
}

/// Adds a tile's batch.
fn add_batch(
    alloc: Global,
    moment: u64,
    tile: u32,
    tiles: u32,
    events: &mut Vec<Event>,
) -> Result<(), AllocError>
    ensures ok { OnOk result (events.new.items ≡ placed (record { moment = moment; row = row (batch_sign tile) tiles }) events.old.items) }
{
    let row = batch_row(alloc, tile, tiles)?;
    put_in_order(events, Event { moment, row })
}

/// Adds a mark.
fn add_mark(
    alloc: Global,
    mark: Mark,
    tiles: u32,
    events: &mut Vec<Event>,
) -> Result<(), AllocError>
    ensures ok { OnOk result (events.new.items ≡ placed (mark_event tiles mark) events.old.items) }
{
    let row = mark_row(alloc, mark, tiles)?;
    put_in_order(
        events,
        Event {
            moment: mark.moment,
            row,
        },
    )
}

/// The text: the events in order, and what the analysis found.
fn draw(
    alloc: Global,
    events: &[Event],
    bad: &[bool],
    tiles: u32,
    now: u64,
) -> Result<Blob, AllocError>
    requires bad { length bad.now ≡ tiles }
    ensures value { IfOk result (λ text. text ≡ codes "diagram\n" ++ flat_map event_line events.now ++ event_line (analysis_event bad.now tiles now)) }
{
    let row = bad_row(alloc, bad, tiles)?;
    let analysis = Event { moment: now, row };
    let mut out = Vec::new(alloc);
    out.extend_from_slice(b"diagram\n")?;
    put_events(alloc, &mut out, events)?;
    put_event(alloc, &mut out, &analysis)?;
    Ok(Blob::from_vec(out))
}
