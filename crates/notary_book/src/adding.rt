//! Adding to the file of a book.

ghost use Rattle.std.specs.Prelude.{◌≡◌, ◌+◌, false, length, IfOk, IfErr, IfSome};
ghost use Rattle.outside_words.specs.Faults.{HasCause, HidesNoFault};
ghost use Rattle.outside_words.specs.Told.{WhereTold};
ghost use Rattle.disk_words.specs.declared.DiskFail.TheVariants.{Failed};
ghost use Rattle.disk_words.specs.Disk.{GoesOn};
ghost use Rattle.byte_grammar.specs.Gated.{FitsRecord};
ghost use Rattle.txn_journal.specs.declared.fail.JournalFail.TheVariants.{DiskFault};
ghost use Rattle.notary_book.specs.Books.{book_shape};
ghost use Rattle.txn_journal.specs.Opening.{IsOfDisk};
ghost use Rattle.notary_book.specs.Kept.{IsOpen, next_gate, HasPlace};
ghost use Rattle.notary_book.specs.Adding.{Clears, Makes, Starts, Adds};

use crate::shape::{BookShape, book_head};
use disk_model::{Disk, DiskFail};
use std::alloc::Global;
use txn_journal::{Journal, JournalFail, create, open_journal};

/// Adds a payload behind all others. The file is made first, where there is none.
pub(crate) fn add_payload<D: Disk>(
    alloc: Global,
    disk: &mut D,
    journal: Option<Journal<BookShape>>,
    payload: &[u8],
) -> Result<Journal<BookShape>, JournalFail>
    requires fits { FitsRecord book_shape payload.now }
    requires open { IsOpen journal }
    ensures open { IfOk result (λ now. now.is_closed ≡ false) }
    ensures told { WhereTold (D.state disk.old).reads (D.state disk.new).reads
        (Adds journal payload.now result (D.state disk.old) (D.state disk.new)) }
    ensures only { IfSome (D.state disk.old).reads (λ bytes. HasPlace journal payload.now → IfErr result IsOfDisk) }
    ensures gate { IfSome (D.state disk.old).reads (λ bytes.
        IfOk result (λ now. now.end ≡ next_gate journal + 5 + length payload.now)) }
    ensures frame { GoesOn (D.state disk.old) (D.state disk.new) }
    ensures cause { HasCause DiskFault (D.state disk.old).faults (D.state disk.new).faults result }
    ensures counted { HidesNoFault (D.state disk.old).faults (D.state disk.new).faults result }
{
    let mut journal = started(alloc, disk, journal)?;
    journal.append(alloc, disk, payload)?;
    Ok(journal)
}

/// The journal, of a file that is made where there is none.
fn started<D: Disk>(
    alloc: Global,
    disk: &mut D,
    journal: Option<Journal<BookShape>>,
) -> Result<Journal<BookShape>, JournalFail>
    requires open { IsOpen journal }
    ensures open { IfOk result (λ now. now.is_closed ≡ false) }
    ensures told { WhereTold (D.state disk.old).reads (D.state disk.new).reads
        (Starts journal result (D.state disk.old) (D.state disk.new)) }
    ensures only { IfSome (D.state disk.old).reads (λ bytes. IfErr result IsOfDisk) }
    ensures gate { IfSome (D.state disk.old).reads (λ bytes. IfOk result (λ now. now.end ≡ next_gate journal)) }
    ensures frame { GoesOn (D.state disk.old) (D.state disk.new) }
    ensures cause { HasCause DiskFault (D.state disk.old).faults (D.state disk.new).faults result }
    ensures counted { HidesNoFault (D.state disk.old).faults (D.state disk.new).faults result }
{
    match journal {
        Some(journal) => Ok(journal),
        None => make(alloc, disk),
    }
}

/// Makes the file. The device is cleared first, so that at each moment it may hold one.
#[tactic(auto, using(disk_words::proofs::Frame::goes_on_then))]
fn make<D: Disk>(alloc: Global, disk: &mut D) -> Result<Journal<BookShape>, JournalFail>
    ensures open { IfOk result (λ now. now.is_closed ≡ false) }
    ensures told { WhereTold (D.state disk.old).reads (D.state disk.new).reads
        (Makes result (D.state disk.old) (D.state disk.new)) }
    ensures only { IfSome (D.state disk.old).reads (λ bytes. IfErr result IsOfDisk) }
    ensures gate { IfSome (D.state disk.old).reads (λ bytes. IfOk result (λ now. now.end ≡ 64)) }
    ensures frame { GoesOn (D.state disk.old) (D.state disk.new) }
    ensures cause { HasCause DiskFault (D.state disk.old).faults (D.state disk.new).faults result }
    ensures counted { HidesNoFault (D.state disk.old).faults (D.state disk.new).faults result }
{
    clear(disk)?;
    create::<D, BookShape>(disk, &book_head())?;
    let opened = open_journal::<D, BookShape>(alloc, disk)?;
    Ok(opened.journal)
}

/// Cuts the device to nothing, and syncs.
#[tactic(auto, using(disk_words::proofs::Frame::goes_on_then))]
fn clear<D: Disk>(disk: &mut D) -> Result<(), DiskFail>
    ensures told { WhereTold (D.state disk.old).reads (D.state disk.new).reads
        (Clears result (D.state disk.old) (D.state disk.new)) }
    ensures frame { GoesOn (D.state disk.old) (D.state disk.new) }
    ensures cause { HasCause Failed (D.state disk.old).faults (D.state disk.new).faults result }
    ensures counted { HidesNoFault (D.state disk.old).faults (D.state disk.new).faults result }
{
    disk.cut(0)?;
    disk.sync()
}
