//! The bytes of a store file, read once.

ghost use Rattle.std.specs.Prelude.{IfSome, IfOk, IfErr};
ghost use Rattle.outside_words.specs.Faults.{HasCause, HidesNoFault};
ghost use Rattle.disk_words.specs.Disk.{Unchanged, GoesOn};
ghost use Rattle.segment_file.specs.declared.fail.SegmentFail.TheVariants.{DiskFault};
ghost use Rattle.segment_file.specs.Fail.{IsOfReading};
ghost use Rattle.store_inspect.specs.Reading.{HasBytes};

use crate::store_file::StoreFile;
use disk_model::Disk;
use segment_file::SegmentFail;
use std::alloc::Global;
use tuple_bytes::MAX_FILE;

/// Reads a file with one call, in memory as large as the file, but at most as a store may be.
#[tactic(auto, using(disk_words::proofs::Frame::goes_on_then, disk_words::proofs::Steady::unchanged_then))]
pub(crate) fn read_file<D: Disk>(alloc: Global, disk: &mut D) -> Result<StoreFile, SegmentFail>
    ensures value { IfSome (D.state disk.old).reads (λ bytes. IfOk result (λ file. HasBytes file bytes)) }
    ensures none_other { IfErr result IsOfReading }
    ensures same { Unchanged (D.state disk.old) (D.state disk.new) }
    ensures frame { GoesOn (D.state disk.old) (D.state disk.new) }
    ensures cause { HasCause DiskFault (D.state disk.old).faults (D.state disk.new).faults result }
    ensures counted { HidesNoFault (D.state disk.old).faults (D.state disk.new).faults result }
{
    let size = disk.length()?;
    let mut front = vec![in alloc; 0; size.min(MAX_FILE as u64) as usize]?;
    let count = disk.read_at(0, &mut front)?;
    front.truncate(count);
    Ok(StoreFile { size, front })
}
