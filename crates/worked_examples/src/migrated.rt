//! What becomes of a store of the first format, and of damage in segments.

use crate::story::tell;
use std::test::Fail;

/// A store of a few rows has its records at the same places in either format, and only another letter.
const OLD: &str = "\
an old store is read and judged, and nothing is added to it until it is moved
$ sealed 8 1 init 7 60 3 ta
$ alter 8 31
$ link = 0 txns 9; link f87cbf8193e5ef79956ed0ccc181c1f75d54b9efd5ef2653599a6453cc09e26e
$ validate 7 @ 480 = 0 clean 1
$ run 7 = 20 fault OldFormat
< insert t 9 9
$ make 7 1 1 = 20 fault OldFormat
$ notarize 7 @ 480 = 20 fault OldFormat
$ run 8 = 4 fault NotAStore
$ migrate 7 = 0 migrated 9
$ migrate 7 = 13 fault AlreadyThere
$ moved
$ link = 0 txns 9; link f87cbf8193e5ef79956ed0ccc181c1f75d54b9efd5ef2653599a6453cc09e26e
$ validate 7 @ 480 = 0 clean 1
$ run 7 @ 500 = 0
< insert t 9 9
> ok 10
# so is a store of the new format
$ migrate 7 = 0 migrated 10

what can't be moved is refused by its cause
$ migrate 7 = 4 fault NotAStore
$ init 7 60 3 m @ 0 = 0 ready 7
$ migrate 8 = 4 fault NotAStore
$ migrate = 2 fault Usage
$ migrate 7 7 = 2 fault Usage
$ target 00 00
$ migrate 7 = 13 fault AlreadyThere
# one byte, and an output that fails
$ target 00
$ migrate 7 ! 1 = 8
$ target 00
$ hinders 9 4
$ migrate 7 = 5 fault DiskFault
$ migrate 7 = 13 fault AlreadyThere
$ target
$ migrate 7 = 0 migrated 0
$ moved
$ stored a7 445241474f4f4e32 0000000000000007 0000000000000000 0000003c 03 00 [34*00]";

/// Eight rows of 30,000 bytes stand two in a segment.
const DAMAGED: &str = "\
damage hides the rows of its segment alone
$ drill = 0 ready 7; ok 1; ok 2; ok; ok 3; ok; ok 4; ok; ok 5; ok; ok 6; ok; ok 7; ok; ok 8; ok; ok 9; ok; sealed 1; ok; ok
< init 7 60 3 ta; create t k int v text; insert t 0 '[30000*a]'; now 60; insert t 1 '[30000*a]'; now 120; insert t 2 '[30000*a]'; now 180; insert t 3 '[30000*a]'; now 240; insert t 4 '[30000*a]'; now 300; insert t 5 '[30000*a]'; now 360; insert t 6 '[30000*a]'; now 420; insert t 7 '[30000*a]'; now 480; notarize; alter 65536 00; now 500; analyse a3d; analyse tiled
> report a3d id 7 tiles 1 altered; granule 2 when 480 to 500; granule 3 when 480 to 500; checks 7
> first change in tile 0 when 480 to 500; diagram;          480 N;          500 X
> report tiled id 7 tiles 1 altered; tile 0 target 010 candidates 2 3 6 7 when 480 to 500
> first change in tile 0 when 480 to 500; diagram;          480 N;          500 X";

#[test]
fn an_old_store_is_read_and_moved(rt: HostRuntime) -> Result<(), Fail> {
    tell(&rt, rt.alloc(), "", OLD)
}

#[test]
fn damage_stays_in_its_segment(rt: HostRuntime) -> Result<(), Fail> {
    tell(&rt, rt.alloc(), "", DAMAGED)
}
