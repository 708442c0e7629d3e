//! The record of an item is appended to the file of a store, before anything else knows of the item.

ghost use Rattle.std.specs.Prelude.{◌≡◌, true, length, IsSome};
ghost use Rattle.outside_words.specs.Faults.{HasCause};
ghost use Rattle.outside_words.specs.Shown.{ShowsFaults};
ghost use Rattle.outside_words.specs.Told.{WhereTold};
ghost use Rattle.disk_words.specs.Disk.{Unchanged, GoesOn};
ghost use Rattle.byte_grammar.specs.Gated.{FitsRecord};
ghost use Rattle.tuple_bytes.specs.declared.item.Item.{Item as AnItem};
ghost use Rattle.tuple_bytes.specs.Spelling.{Spells};
ghost use Rattle.history_model.specs.Stored.{store_shape};
ghost use Rattle.store_engine.specs.declared.fail.StoreFail.TheVariants.{DiskFault};
ghost use Rattle.store_engine.specs.Opened.{Opened};
ghost use Rattle.store_engine.specs.Fail.{closes};
ghost use Rattle.store_engine.specs.Causes.{IsRefusedBy};
ghost use Rattle.store_engine.specs.Adding.{AddsRecord, GoesBehind, record_fault, stands_at};

use crate::StoreFail;
use disk_model::Disk;
use segment_file::SegmentFile;
use std::alloc::Global;

/// Appends a record where the store isn't closed. A fault of the disk and want of memory close it.
pub(crate) fn append<D: Disk>(
    alloc: Global,
    disk: &mut D,
    file: &mut SegmentFile,
    is_closed: &mut bool,
    payload: &[u8],
) -> Result<(), StoreFail>
    requires fits { FitsRecord store_shape payload.now }
    requires closed_too { file.old.is_closed ≡ true → is_closed.old ≡ true }
    ensures closed_too { file.new.is_closed ≡ true → is_closed.new ≡ true }
    ensures refused { IsRefusedBy
        (record_fault (stands_at file.old is_closed.old) (length payload.now)) result }
    ensures stands { GoesBehind payload.now result
        (stands_at file.old is_closed.old) (stands_at file.new is_closed.new) }
    ensures same { IsSome (record_fault (stands_at file.old is_closed.old) (length payload.now))
        → Unchanged (D.state disk.old) (D.state disk.new) }
    ensures told { WhereTold (D.state disk.old).reads (D.state disk.new).reads (λ before after.
        (item : AnItem) (stand : Opened) → Spells item payload.now → stand.at ≡ stands_at file.old is_closed.old
        → AddsRecord item result stand (D.state disk.old) (D.state disk.new) before after) }
    ensures frame { GoesOn (D.state disk.old) (D.state disk.new) }
    ensures cause { HasCause DiskFault (D.state disk.old).faults (D.state disk.new).faults result }
    ensures counted { ShowsFaults closes (D.state disk.old).faults (D.state disk.new).faults result }
{
    if *is_closed {
        return Err(StoreFail::Closed);
    }
    match file.append(alloc, disk, payload) {
        Ok(()) => Ok(()),
        Err(fail) => {
            let fail = StoreFail::from(fail);
            *is_closed = fail.closes();
            Err(fail)
        }
    }
}
