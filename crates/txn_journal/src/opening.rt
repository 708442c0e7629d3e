//! Opening a file for appending.

ghost use Rattle.std.specs.Prelude.{◌≡◌, ◌<◌, ◌++◌, ◌∷◌, [], Some, false, length, max, IsTrue, IfSome, IfOk, IfErr, OnOk, OnErr, MatchResult};
ghost use Rattle.outside_words.specs.Faults.{HasCause, HidesNoFault};
ghost use Rattle.outside_words.specs.Shown.{ShowsFaults};
ghost use Rattle.disk_words.specs.Disk.{Unchanged, GoesOn};
ghost use Rattle.std.specs.List.{All};
ghost use Rattle.byte_grammar.specs.Gated.{FitsRecord};
ghost use Rattle.txn_journal.specs.declared.fail.JournalFail.TheVariants.{DiskFault};
ghost use Rattle.txn_journal.specs.Fail.{in_doubt};
ghost use Rattle.txn_journal.specs.Reading.{head_of, IsSeenIn, IsAtFirst};
ghost use Rattle.txn_journal.specs.Held.{StandsIn};
ghost use Rattle.txn_journal.specs.Opening.{held_of, IsOfOpening, IsOfDisk, IsNoFile};

use crate::{Journal, JournalFail, Records, Shape};
use disk_model::Disk;
use std::alloc::{AllocError, Global};
use tuple_bytes::{Blob, Payloads};

/// A file that is open for appending, and what it holds.
#[derive(Drop)]
pub struct Opened<S: Shape> {
    pub journal: Journal<S>,
    pub head: [u8; 64],
    pub payloads: Payloads,
}

/// Opens a file, or finds that it is none of this shape.
pub fn open_journal<D: Disk, S: Shape>(
    alloc: Global,
    disk: &mut D,
) -> Result<Opened<S>, JournalFail>
    ensures value { IfSome (D.state disk.old).reads (λ bytes. MatchResult result
        (λ o. StandsIn S.is_head S.shape o.journal (held_of o.head o.payloads o.journal) bytes)
        (IsNoFile S.is_head bytes)) }
    ensures fresh { IfOk result (λ o. o.journal.is_closed ≡ false) }
    ensures head { IfOk result (λ o. IsTrue (S.is_head o.head)) }
    ensures fit { IfOk result (λ o. All (FitsRecord S.shape) o.payloads) }
    ensures few { IfOk result (λ o. length o.payloads < o.journal.end) }
    ensures within { IfOk result (λ o. o.journal.end < max 65 S.shape.max_file) }
    ensures none_other { IfErr result IsOfOpening }
    ensures same { Unchanged (D.state disk.old) (D.state disk.new) }
    ensures frame { GoesOn (D.state disk.old) (D.state disk.new) }
    ensures cause { HasCause DiskFault (D.state disk.old).faults (D.state disk.new).faults result }
    ensures counted { ShowsFaults in_doubt (D.state disk.old).faults (D.state disk.new).faults result }
{
    let mut records = Records::<S>::at_first(alloc)?;
    match records.read_head(disk)? {
        Some(head) => open_behind_head(alloc, disk, head, records),
        None => Err(JournalFail::NotAStore),
    }
}

/// Reads all payloads, and stands behind them.
fn open_behind_head<D: Disk, S: Shape>(
    alloc: Global,
    disk: &mut D,
    head: [u8; 64],
    mut records: Records<S>,
) -> Result<Opened<S>, JournalFail>
    requires begins { IsAtFirst S.shape.max_file records }
    ensures value { IfSome (D.state disk.old).reads (λ bytes.
        IsSeenIn bytes records → head_of S.is_head bytes ≡ Some head → IfOk result
        (λ o. StandsIn S.is_head S.shape o.journal (held_of o.head o.payloads o.journal) bytes)) }
    ensures fresh { IfOk result (λ o. o.journal.is_closed ≡ false) }
    ensures head { IfOk result (λ o. o.head ≡ head) }
    ensures fit { IfOk result (λ o. All (FitsRecord S.shape) o.payloads) }
    ensures few { IfOk result (λ o. length o.payloads < o.journal.end) }
    ensures within { IfOk result (λ o. o.journal.end < max 65 S.shape.max_file) }
    ensures none_other { IfErr result IsOfDisk }
    ensures same { Unchanged (D.state disk.old) (D.state disk.new) }
    ensures frame { GoesOn (D.state disk.old) (D.state disk.new) }
    ensures cause { HasCause DiskFault (D.state disk.old).faults (D.state disk.new).faults result }
    ensures counted { HidesNoFault (D.state disk.old).faults (D.state disk.new).faults result }
{
    let mut payloads = Payloads::new(alloc);
    'records: while records.advance(disk)? {
        keep(alloc, &mut payloads, records.payload())?;
    }
    Ok(Opened {
        journal: records.journal(),
        head,
        payloads,
    })
}

/// Adds a copy of a payload.
fn keep(alloc: Global, payloads: &mut Payloads, payload: &[u8]) -> Result<(), AllocError>
    ensures ok { OnOk result (payloads.new ≡ payloads.old ++ payload.now ∷ []) }
    ensures err { OnErr result (payloads.new ≡ payloads.old) }
{
    payloads.push(Blob::from_vec(payload.to_vec(alloc)?))
}
