//! Changing calls, carried out in place and one after another.
ghost use Rattle.std.specs.Prelude.{◌≡◌, ◌≤◌, List, ℕ, OnOk, OnErr, IfOk, length, take};
ghost use Rattle.disk_words.specs.Disk.{done, written};
ghost use Rattle.disk_words.specs.Record.{bytes_after, bytes_synced};
ghost use Rattle.disk_model.specs.Calls.{call_of, trace_of};

use crate::calls::{Change, Made};
use std::alloc::AllocError;

impl Change {
    pub(crate) fn apply(&self, bytes: &mut Vec<u8>) -> Result<(), AllocError>
        ensures ok { OnOk result (bytes.new.items ≡ done (call_of self.now) bytes.old.items) }
        ensures err { OnErr result (bytes.new.items ≡ bytes.old.items) }
    {
        match self {
            Change::Write(place, piece) => return write(bytes, *place, piece),
            Change::Cut(length) => bytes.truncate(*length as usize),
            Change::Sync => {}
        }
        Ok(())
    }
}

// From past the end on, it begins at the end.
fn write(bytes: &mut Vec<u8>, place: u64, piece: &[u8]) -> Result<(), AllocError>
    ensures ok { OnOk result (bytes.new.items ≡ written place piece.now bytes.old.items) }
    ensures err { OnErr result (bytes.new.items ≡ bytes.old.items) }
{
    let place = bytes.len().min(place as usize);
    let inside = piece.len().min(bytes.len() - place);
    bytes.extend_from_slice(&piece[inside..])?;
    bytes[place..place + inside].copy_from_slice(&piece[..inside]);
    Ok(())
}

/// What reads gave after the last sync of a record, from what they gave at its start.
pub(crate) fn synced(first: &Vec<u8>, made: &[Made]) -> Result<Vec<u8>, AllocError>
    ensures value { IfOk result (λ left. left.items ≡ bytes_synced first.now.items (trace_of made.now)) }
{
    after(first, &made[..until_synced(made)])
}

// How many calls there were when the last sync had been done.
fn until_synced(made: &[Made]) -> usize
    ensures within { result ≤ length made.now }
    ensures value { (first : List ℕ) → bytes_synced first (trace_of made.now)
        ≡ bytes_after first (trace_of (take result made.now)) }
{
    let mut n = made.len();
    while n > 0 {
        let last = &made[n - 1];
        if let Change::Sync = last.change
            && last.is_done
        {
            return n;
        }
        n -= 1;
    }
    0
}

// What reads gave after these calls.
fn after(first: &Vec<u8>, made: &[Made]) -> Result<Vec<u8>, AllocError>
    ensures value { IfOk result (λ left. left.items ≡ bytes_after first.now.items (trace_of made.now)) }
{
    let mut bytes = first.clone()?;
    for made in made {
        if made.is_done {
            made.change.apply(&mut bytes)?;
        }
    }
    Ok(bytes)
}
