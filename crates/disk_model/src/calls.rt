//! The changing calls that a disk in memory keeps.
ghost use Rattle.std.specs.Prelude.{◌≡◌, ◌∷◌, List, ℕ, OnOk, OnErr, unwrap_or, if◌then◌else◌};
ghost use Rattle.disk_words.specs.Disk.{done};
ghost use Rattle.disk_words.specs.Record.{is_covered};
ghost use Rattle.disk_model.specs.Calls.{call_of, made_of, trace_of, first_of};

use std::alloc::AllocError;

#[derive(Drop)]
pub(crate) enum Change {
    Write(u64, Vec<u8>),
    Cut(u64),
    Sync,
}

/// A changing call, and whether it was done. One that was not done had no effect.
#[derive(Drop)]
pub(crate) struct Made {
    pub(crate) change: Change,
    pub(crate) is_done: bool,
}

/// Adds a changing call to a record, and carries it out where it is to be done. The bytes at the
/// start are kept from the first call on.
pub(crate) fn note(
    bytes: &mut Vec<u8>,
    first: &mut Option<Vec<u8>>,
    made: &mut Vec<Made>,
    change: Change,
    is_done: bool,
) -> Result<(), AllocError>
    ensures bytes { OnOk result
        (bytes.new.items ≡ (if is_done then done (call_of change) bytes.old.items else bytes.old.items)) }
    ensures first { OnOk result
        ((now : List ℕ) → first_of first.new now ≡ first_of first.old bytes.old.items) }
    ensures trace { OnOk result
        (trace_of made.new.items ≡ (call_of change, is_done) ∷ trace_of made.old.items) }
    ensures bytes_kept { OnErr result (bytes.new.items ≡ bytes.old.items) }
    ensures first_kept { OnErr result
        (first_of first.new bytes.new.items ≡ first_of first.old bytes.old.items) }
    ensures trace_kept { OnErr result (made.new.items ≡ made.old.items) }
{
    if first.is_none() {
        *first = Some(bytes.clone()?);
    }
    made.reserve(1)?;
    if is_done {
        change.apply(bytes)?;
    }
    // there is room for it
    made.push(Made { change, is_done })?;
    Ok(())
}

/// Whether a write since the last sync covered a place.
pub(crate) fn is_covered(made: &[Made], place: u64) -> bool
    ensures value { result ≡ is_covered (trace_of made.now) place }
{
    let mut n = made.len();
    while n > 0 {
        n -= 1;
        if let Some(answer) = told_by(&made[n], place) {
            return answer;
        }
    }
    false
}

// Whether it did, where this call tells it.
fn told_by(last: &Made, place: u64) -> Option<bool>
    ensures value { (calls : _) → is_covered (made_of last.now ∷ calls) place
        ≡ unwrap_or result (is_covered calls place) }
{
    match &last.change {
        Change::Write(from, bytes)
            if last.is_done && *from <= place && place - *from < bytes.len() as u64 => Some(true),
        Change::Sync if last.is_done => Some(false),
        _ => None,
    }
}
