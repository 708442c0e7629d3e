//! Opening a file: its header, and then its records, each read once and in file order.

ghost use Rattle.std.specs.Prelude.{◌≡◌, ◌<◌, Some, false, IfOk, IfErr, IfSome, MatchResult};
ghost use Rattle.outside_words.specs.Faults.{HasCause, HidesNoFault};
ghost use Rattle.disk_words.specs.declared.DiskFail.TheVariants.{Failed};
ghost use Rattle.disk_words.specs.Disk.{Unchanged, GoesOn};
ghost use Rattle.tuple_bytes.specs.Spelling.{FitsHeader};
ghost use Rattle.history_model.specs.declared.format.Format.TheVariants.{Two};
ghost use Rattle.history_model.specs.Stored.{stored, format_of, found_behind};
ghost use Rattle.segment_file.specs.Walk.{StandsBefore};
ghost use Rattle.store_engine.specs.declared.fail.StoreFail.TheVariants.{DiskFault};
ghost use Rattle.store_engine.specs.Causes.{IsNoStore, IsOfOpening};
ghost use Rattle.store_engine.specs.Contents.{IsInTime};
ghost use Rattle.store_engine.specs.Taking.{HaveReached};
ghost use Rattle.store_engine.specs.Replay.{OpensAs, Replays};

use crate::StoreFail;
use crate::chaining::{no_chained, take_next};
use crate::contents::Contents;
use crate::replay::{Gathered, read_next};
use chain_state::Chains;
use disk_model::{Disk, DiskFail};
use history_model::Format;
use segment_file::{SegmentFile, SegmentRecords, read_front};
use std::alloc::Global;
use tuple_bytes::Header;

/// What the records of a file say, and the file that stands behind them.
#[derive(Drop)]
pub(crate) struct Replayed {
    pub contents: Contents,
    pub chains: Option<Chains>,
    pub file: SegmentFile,
    ghost few: { contents.count < file.end },
    ghost in_time: { IsInTime contents },
    ghost fresh: { file.is_closed ≡ false },
}

/// Opens the file of the store of this id. Its records are read only if the header is the store's, and
/// the file is in segments.
pub(crate) fn open_file<D: Disk>(
    alloc: Global,
    disk: &mut D,
    id: u64,
) -> Result<(Header, Replayed), StoreFail>
    ensures value { IfSome (D.state disk.old).reads (λ bytes. MatchResult result
        (λ o. OpensAs o.0 o.1.contents o.1.chains o.1.file bytes)
        (IsNoStore id (stored bytes).header (format_of bytes))) }
    ensures id { IfOk result (λ o. o.0.id ≡ id) }
    ensures header { IfOk result (λ o. FitsHeader o.0) }
    ensures chained { IfOk result (λ o. HaveReached o.0 o.1.contents.eras o.1.contents.last o.1.chains) }
    ensures none_other { IfErr result IsOfOpening }
    ensures same { Unchanged (D.state disk.old) (D.state disk.new) }
    ensures frame { GoesOn (D.state disk.old) (D.state disk.new) }
    ensures cause { HasCause DiskFault (D.state disk.old).faults (D.state disk.new).faults result }
    ensures counted { HidesNoFault (D.state disk.old).faults (D.state disk.new).faults result }
{
    let Some(front) = read_front(disk)? else {
        return Err(StoreFail::NotAStore);
    };
    if front.header.id != id {
        return Err(StoreFail::NotAStore);
    }
    match front.format {
        Format::One => Err(StoreFail::OldFormat),
        Format::Two => {
            let replayed = replay(alloc, disk, &front.header)?;
            Ok((front.header, replayed))
        }
    }
}

/// Reads the records in file order. Where a moment falls, the file is read anew, in the order of the moments.
fn replay<D: Disk>(alloc: Global, disk: &mut D, header: &Header) -> Result<Replayed, DiskFail>
    requires header { FitsHeader header.now }
    ensures value { IfSome (D.state disk.old).reads (λ bytes. format_of bytes ≡ Some Two
        → IfOk result (λ o. Replays header.now o.contents o.chains o.file bytes)) }
    ensures chained { IfOk result (λ o. HaveReached header.now o.contents.eras o.contents.last o.chains) }
    ensures same { Unchanged (D.state disk.old) (D.state disk.new) }
    ensures frame { GoesOn (D.state disk.old) (D.state disk.new) }
    ensures cause { HasCause Failed (D.state disk.old).faults (D.state disk.new).faults result }
    ensures counted { HidesNoFault (D.state disk.old).faults (D.state disk.new).faults result }
{
    let records = SegmentRecords::at_first(alloc, disk, Format::Two)?;
    match read_in_file_order(alloc, disk, header, records)? {
        Some(replayed) => Ok(replayed),
        None => {
            let records = SegmentRecords::at_first(alloc, disk, Format::Two)?;
            read_in_order_of_moments(alloc, disk, header, records)
        }
    }
}

/// Adds each record as it is read. Nothing comes back where an item may not follow those before it.
fn read_in_file_order<D: Disk>(
    alloc: Global,
    disk: &mut D,
    header: &Header,
    mut records: SegmentRecords,
) -> Result<Option<Replayed>, DiskFail>
    requires begins { records.reading.place ≡ 64 }
    requires header { FitsHeader header.now }
    ensures value { IfSome (D.state disk.old).reads (λ bytes. StandsBefore bytes (found_behind bytes) records
        → IfOk result (λ found. IfSome found (λ o. Replays header.now o.contents o.chains o.file bytes))) }
    ensures chained { IfOk result (λ found. IfSome found
        (λ o. HaveReached header.now o.contents.eras o.contents.last o.chains)) }
    ensures same { Unchanged (D.state disk.old) (D.state disk.new) }
    ensures frame { GoesOn (D.state disk.old) (D.state disk.new) }
    ensures cause { HasCause Failed (D.state disk.old).faults (D.state disk.new).faults result }
    ensures counted { HidesNoFault (D.state disk.old).faults (D.state disk.new).faults result }
{
    let mut contents = Contents::new(alloc, header)?;
    let mut chains = no_chained(alloc, header)?;
    'records: while records.advance(disk)? {
        let follows = read_next(alloc, &mut contents, records.payload())?;
        if !follows {
            return Ok(None);
        }
        take_next(&mut chains, records.payload())?;
    }
    let file = records.file(disk)?;
    Ok(Some(Replayed {
        contents,
        chains,
        file,
    }))
}

/// Gathers the transactions of all records, and adds them in the order of the moments. The chains take
/// them as they are read.
fn read_in_order_of_moments<D: Disk>(
    alloc: Global,
    disk: &mut D,
    header: &Header,
    mut records: SegmentRecords,
) -> Result<Replayed, DiskFail>
    requires begins { records.reading.place ≡ 64 }
    requires header { FitsHeader header.now }
    ensures value { IfSome (D.state disk.old).reads (λ bytes. StandsBefore bytes (found_behind bytes) records
        → IfOk result (λ o. Replays header.now o.contents o.chains o.file bytes)) }
    ensures chained { IfOk result (λ o. HaveReached header.now o.contents.eras o.contents.last o.chains) }
    ensures same { Unchanged (D.state disk.old) (D.state disk.new) }
    ensures frame { GoesOn (D.state disk.old) (D.state disk.new) }
    ensures cause { HasCause Failed (D.state disk.old).faults (D.state disk.new).faults result }
    ensures counted { HidesNoFault (D.state disk.old).faults (D.state disk.new).faults result }
{
    let mut gathered = Gathered::new(alloc, header)?;
    let mut chains = no_chained(alloc, header)?;
    'records: while records.advance(disk)? {
        let payload = records.payload();
        gathered.add(alloc, payload)?;
        take_next(&mut chains, payload)?;
    }
    let file = records.file(disk)?;
    let contents = gathered.in_order_of_moments(alloc)?;
    Ok(Replayed {
        contents,
        chains,
        file,
    })
}
