//! Reading a book.

ghost use Rattle.std.specs.Prelude.{◌≡◌, IfOk, OnOk};
ghost use Rattle.outside_words.specs.Faults.{HasCause, HidesNoFault};
ghost use Rattle.outside_words.specs.Told.{WhereTold};
ghost use Rattle.disk_words.specs.declared.DiskFail.TheVariants.{Failed};
ghost use Rattle.disk_words.specs.Disk.{Unchanged, GoesOn};
ghost use Rattle.notary_book.specs.Anew.{Syncs};
ghost use Rattle.notary_book.specs.Kept.{IsReadFrom, IsSettled};
ghost use Rattle.notary_book.specs.Moments.{LeavesNone};

use crate::kept::Kept;
use crate::pages::Pages;
use crate::replay::read_pages;
use crate::shape::BookShape;
use disk_model::{Disk, DiskFail};
use std::alloc::Global;
use txn_journal::{JournalFail, is_free, open_journal};

/// Syncs, so that what is read is the only image, and reads. Nothing comes back where the bytes are no
/// book and no device on which one may be made.
pub(crate) fn open_book<D: Disk>(alloc: Global, disk: &mut D) -> Result<Option<Kept>, DiskFail>
    ensures value { IfOk result (IsReadFrom (D.state disk.new).reads) }
    ensures settled { OnOk result (IsSettled (D.state disk.new)) }
    ensures reads { (D.state disk.new).reads ≡ (D.state disk.old).reads }
    ensures told { WhereTold (D.state disk.old).reads (D.state disk.new).reads
        (LeavesNone (D.state disk.old) (D.state disk.new)) }
    ensures trace { WhereTold (D.state disk.old).reads (D.state disk.new).reads
        (Syncs result (D.state disk.old) (D.state disk.new)) }
    ensures frame { GoesOn (D.state disk.old) (D.state disk.new) }
    ensures cause { HasCause Failed (D.state disk.old).faults (D.state disk.new).faults result }
    ensures counted { HidesNoFault (D.state disk.old).faults (D.state disk.new).faults result }
{
    disk.sync()?;
    read_book(alloc, disk)
}

/// Reads what the file says.
#[tactic(auto, using(disk_words::proofs::Frame::goes_on_then, disk_words::proofs::Steady::unchanged_then))]
fn read_book<D: Disk>(alloc: Global, disk: &mut D) -> Result<Option<Kept>, DiskFail>
    ensures value { IfOk result (IsReadFrom (D.state disk.old).reads) }
    ensures same { Unchanged (D.state disk.old) (D.state disk.new) }
    ensures frame { GoesOn (D.state disk.old) (D.state disk.new) }
    ensures cause { HasCause Failed (D.state disk.old).faults (D.state disk.new).faults result }
    ensures counted { HidesNoFault (D.state disk.old).faults (D.state disk.new).faults result }
{
    match open_journal::<D, BookShape>(alloc, disk) {
        Ok(opened) => match read_pages(alloc, opened.payloads.as_slice())? {
            Some(pages) => Ok(Some(Kept {
                journal: Some(opened.journal),
                pages,
            })),
            None => Ok(None),
        },
        Err(JournalFail::NotAStore) => {
            if !is_free(disk)? {
                return Ok(None);
            }
            Ok(Some(Kept {
                journal: None,
                pages: Pages::new(alloc),
            }))
        }
        Err(JournalFail::NoMemory) => Err(DiskFail::NoMemory),
        Err(_) => Err(DiskFail::Failed),
    }
}
