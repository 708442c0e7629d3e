//! A look at a store file.

ghost use Rattle.std.specs.Prelude.{IfSome, IfOk, IfErr};
ghost use Rattle.outside_words.specs.Faults.{HasCause, HidesNoFault};
ghost use Rattle.disk_words.specs.Disk.{Unchanged, GoesOn};
ghost use Rattle.segment_file.specs.declared.fail.SegmentFail.TheVariants.{DiskFault};
ghost use Rattle.segment_file.specs.Fail.{IsOfReading};
ghost use Rattle.store_inspect.specs.Store.{IsSeen};

use crate::look::seen_in;
use crate::reading::read_file;
use crate::seen::StoreSeen;
use disk_model::Disk;
use segment_file::SegmentFail;
use std::alloc::Global;

/// All that is odd about a store file by itself, and what is known of it. With an id, a header of
/// another one is odd. The second is that of the clock.
pub fn inspect_store<D: Disk>(
    alloc: Global,
    id: Option<u64>,
    second: u64,
    disk: &mut D,
) -> Result<StoreSeen, SegmentFail>
    ensures exact { IfSome (D.state disk.old).reads (λ bytes. IfOk result (IsSeen id second bytes)) }
    ensures none_other { IfErr result IsOfReading }
    ensures same { Unchanged (D.state disk.old) (D.state disk.new) }
    ensures frame { GoesOn (D.state disk.old) (D.state disk.new) }
    ensures cause { HasCause DiskFault (D.state disk.old).faults (D.state disk.new).faults result }
    ensures counted { HidesNoFault (D.state disk.old).faults (D.state disk.new).faults result }
{
    let file = read_file(alloc, disk)?;
    let seen = seen_in(alloc, id, second, &file)?;
    Ok(seen)
}
