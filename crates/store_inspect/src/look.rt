//! What is odd about the bytes of a store file.

ghost use Rattle.std.specs.Prelude.{◌≡◌, ◌++◌, ◌∷◌, [], List, ℕ, None, length, IfOk, OnOk};
ghost use Rattle.tuple_bytes.specs.declared.item.Item.{Item as AnItem};
ghost use Rattle.tuple_bytes.specs.Spelling.{FitsHeader};
ghost use Rattle.store_inspect.specs.Front.{headless};
ghost use Rattle.store_inspect.specs.Known.{KnowsItems};
ghost use Rattle.store_inspect.specs.Reading.{HasBytes, HasFront};
ghost use Rattle.store_inspect.specs.Runs.{past_limit};
ghost use Rattle.store_inspect.specs.Store.{is_other, is_first, store_ahead, KnowsStore, IsSeen};

use crate::front::headless;
use crate::granules::Granules;
use crate::items::{Walk, walked};
use crate::runs::read_runs;
use crate::seen::{StoreKnown, StoreSeen};
use crate::store_file::StoreFile;
use file_findings::{Finding, Made, note, note_all};
use history_model::{Format, Front, front_of};
use std::alloc::Global;
use tuple_bytes::{Header, MAX_FILE};

/// The number of a segment after all that a file may have.
const PAST: u32 = 1_024;

/// All that is odd about what was read of a file, and what is known of it.
pub(crate) fn seen_in(
    alloc: Global,
    id: Option<u64>,
    second: u64,
    file: &StoreFile,
) -> Made<StoreSeen>
    ensures value { IfOk result (λ seen. (bytes : List ℕ) → HasBytes file.now bytes → IsSeen id second bytes seen) }
{
    match front_of(&file.front) {
        Some(front) => seen_under(alloc, id, second, file, front),
        None => seen_headless(alloc, file),
    }
}

/// Of a file without a header.
fn seen_headless(alloc: Global, file: &StoreFile) -> Made<StoreSeen>
    ensures findings { IfOk result (λ seen. seen.findings.items ≡ headless file.now.front.items ∷ []) }
    ensures known { IfOk result (λ seen. seen.known ≡ None) }
{
    let mut findings = Vec::new(alloc);
    findings.push(headless(&file.front))?;
    Ok(StoreSeen {
        findings,
        known: None,
    })
}

/// Of a file with one.
fn seen_under(
    alloc: Global,
    id: Option<u64>,
    second: u64,
    file: &StoreFile,
    front: Front,
) -> Made<StoreSeen>
    requires fits { FitsHeader front.header }
    requires front { HasFront front file.now.front.items }
    ensures value { IfOk result (λ seen. (bytes : List ℕ) → HasBytes file.now bytes → IsSeen id second bytes seen) }
{
    let Front { format, header } = front;
    let mut runs = read_runs(alloc, format, &file.front)?;
    note_past(&mut runs.tails, file.size)?;
    let walk = walked(alloc, &header, &runs.items)?;
    let mut findings = Vec::new(alloc);
    let other = Finding::OtherId(header.id);
    note(&mut findings, is_other(id, &header), other)?;
    note(&mut findings, is_first(format), Finding::FirstFormat)?;
    note_all(&mut findings, &runs.tails)?;
    note_all(&mut findings, &walk.findings(alloc)?)?;
    note_ahead(&mut findings, second, &header, walk.moments.greatest)?;
    let items = runs.items.as_slice().len() as u64;
    Ok(StoreSeen {
        findings,
        known: Some(known_of(header, items, walk)),
    })
}

/// Whether the header has another id than is asked for.
fn is_other(id: Option<u64>, header: &Header) -> bool
    ensures value { result ≡ is_other id header.now }
{
    match id {
        Some(id) => id != header.id,
        None => false,
    }
}

fn is_first(format: Format) -> bool
    ensures value { result ≡ is_first format }
{
    match format {
        Format::One => true,
        Format::Two => false,
    }
}

/// Adds the bytes past the limit of a file that is so long.
fn note_past(found: &mut Vec<Finding>, length: u64) -> Made<()>
    ensures value { OnOk result (found.new.items ≡ found.old.items ++ past_limit length) }
{
    let limit = MAX_FILE as u64;
    let past = Finding::Trailing(PAST, limit, length.saturating_sub(limit), 0);
    note(found, length > limit, past)
}

/// Adds that the last moment is after the clock's.
fn note_ahead(found: &mut Vec<Finding>, second: u64, header: &Header, last: u64) -> Made<()>
    ensures value { OnOk result (found.new.items ≡ found.old.items ++ store_ahead second header.now last) }
{
    let clock = second.saturating_sub(header.epoch);
    let ahead = Finding::StoreAhead(last, clock);
    note(found, second < header.epoch || clock < last, ahead)
}

/// What is known of so many items.
fn known_of(header: Header, items: u64, walk: Walk) -> StoreKnown
    ensures value { (its : List AnItem) → KnowsItems header walk its → items ≡ length its → KnowsStore header its result }
{
    let Walk {
        moments,
        granules,
        ..
    } = walk;
    let Granules { eras, filed, .. } = granules;
    StoreKnown {
        header,
        items,
        last: moments.greatest,
        eras,
        filed,
    }
}
