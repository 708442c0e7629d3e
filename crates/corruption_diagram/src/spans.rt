//! The spans of a tile.

ghost use Rattle.std.specs.Prelude.{◌≡◌, ◌+◌, ◌<◌, ◌^◌, max, unwrap_or, IfErr, IfOk, Ok};
ghost use Rattle.outside_words.specs.Faults.{HasCause};
ghost use Rattle.outside_words.specs.Told.{WhereTold};
ghost use Rattle.notary_link.specs.declared.fail.AskFail.TheVariants.{NotaryFault};
ghost use Rattle.notary_link.specs.Fails.{ask_in_doubt};
ghost use Rattle.notary_link.specs.Notary.{Unchanged, GoesOn, IsCounted};
ghost use Rattle.audit_model.specs.Asked.{IsTold};
ghost use Rattle.corruption_diagram.specs.Spans.{when_changed, when_first_changed, IsReadFail};
ghost use Rattle.corruption_diagram.specs.CleanMarks.{StandFor};

use crate::clean_marks::CleanMarks;
use crate::first::{Shown, shown_with};
use crate::span::Span;
use notary_link::{AskFail, Notary};
use std::alloc::Global;

/// When a granule of the tile was changed, as of now.
pub fn when<N: Notary>(
    alloc: Global,
    notary: &mut N,
    id: u64,
    tile: u32,
    now: u64,
) -> Result<Span, AskFail>
    requires small { tile + 1 < 2 ^ 32 }
    ensures value { WhereTold (N.state notary.old).lists (N.state notary.new).lists (λ before after.
        IsTold (Ok (when_changed (before.batches id) (before.marks id) tile now)) result) }
    ensures ends { IfOk result (λ span. span.to ≡ now) }
    ensures only { IfErr result IsReadFail }
    ensures same { Unchanged (N.state notary.old) (N.state notary.new) }
    ensures asked { (N.state notary.new).asked ≡ (N.state notary.old).asked }
    ensures frame { GoesOn (N.state notary.old) (N.state notary.new) }
    ensures cause { HasCause NotaryFault (N.state notary.old).faults (N.state notary.new).faults result }
    ensures counted { IsCounted ask_in_doubt (N.state notary.old) (N.state notary.new) result }
{
    let clean = CleanMarks::read(alloc, notary, id)?;
    when_by(&clean, notary, id, tile, now)
}

/// The same, by the clean marks of the id that were read before.
pub fn when_by<N: Notary>(
    clean: &CleanMarks,
    notary: &mut N,
    id: u64,
    tile: u32,
    now: u64,
) -> Result<Span, AskFail>
    requires small { tile + 1 < 2 ^ 32 }
    ensures value { WhereTold (N.state notary.old).lists (N.state notary.new).lists (λ before after.
        StandFor (before.marks id) clean.now → IsTold (Ok (when_changed (before.batches id) (before.marks id) tile now)) result) }
    ensures ends { IfOk result (λ span. span.to ≡ now) }
    ensures only { IfErr result IsReadFail }
    ensures same { Unchanged (N.state notary.old) (N.state notary.new) }
    ensures asked { (N.state notary.new).asked ≡ (N.state notary.old).asked }
    ensures frame { GoesOn (N.state notary.old) (N.state notary.new) }
    ensures cause { HasCause NotaryFault (N.state notary.old).faults (N.state notary.new).faults result }
    ensures counted { IsCounted ask_in_doubt (N.state notary.old) (N.state notary.new) result }
{
    let sealed = notary.moment_of(id, tile + 1)?.unwrap_or(0);
    let cleared = clean.last_over(tile).unwrap_or(0);
    Ok(Span {
        from: sealed.max(cleared),
        to: now,
    })
}

/// When the tile was changed for the first time.
pub fn first_when<N: Notary>(notary: &mut N, id: u64, tile: u32, now: u64) -> Result<Span, AskFail>
    requires small { tile + 1 < 2 ^ 32 }
    ensures value { WhereTold (N.state notary.old).lists (N.state notary.new).lists (λ before after.
        IsTold (Ok (when_first_changed (before.batches id) (before.marks id) tile now)) result) }
    ensures only { IfErr result IsReadFail }
    ensures same { Unchanged (N.state notary.old) (N.state notary.new) }
    ensures asked { (N.state notary.new).asked ≡ (N.state notary.old).asked }
    ensures frame { GoesOn (N.state notary.old) (N.state notary.new) }
    ensures cause { HasCause NotaryFault (N.state notary.old).faults (N.state notary.new).faults result }
    ensures counted { IsCounted ask_in_doubt (N.state notary.old) (N.state notary.new) result }
{
    let sealed = notary.moment_of(id, tile + 1)?.unwrap_or(0);
    let mut shown = Shown {
        cleared: 0,
        found: None,
    };
    for place in 0..u32::MAX {
        match notary.mark_at(id, place)? {
            Some(mark) => shown = shown_with(shown, mark, tile),
            None => return Ok(first_span(sealed, shown, now)),
        }
    }
    Ok(first_span(sealed, shown, now))
}

/// From the later of two moments to the one at which the change was found, or now.
fn first_span(sealed: u64, shown: Shown, now: u64) -> Span
    ensures value { result ≡ record { from = max sealed shown.cleared; to = unwrap_or shown.found now } }
{
    Span {
        from: sealed.max(shown.cleared),
        to: shown.found.unwrap_or(now),
    }
}
