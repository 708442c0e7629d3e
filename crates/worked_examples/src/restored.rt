//! A new store is made of an altered one and its copy.

use crate::story::tell;
use std::test::Fail;

/// The row of granule G ends with the byte at 135 + 42 G: its value, which is 0.
const RESTORED: &str = "\
what is altered comes from the copy
$ sealed 8 1 init 7 60 3 ta
$ alter 261 01
$ copied
$ alter 261 00
$ alter 345 01
$ restore 7 = 0 restored 8 lost 0
$ restore 7 = 13 fault AlreadyThere
$ moved
$ link = 0 txns 9; link f87cbf8193e5ef79956ed0ccc181c1f75d54b9efd5ef2653599a6453cc09e26e
$ validate 7 @ 480 = 0 clean 1

what neither of the two has is lost
$ sealed 8 1 init 7 60 3 ta
$ alter 345 01
$ copied
$ restore 7 = 0 restored 7 lost 1; lost granules 5 to 5
$ moved
$ validate 7 @ 480 = 1 altered 1 from 0

granules that are lost are told in runs
$ sealed 8 1 init 7 60 3 ta
$ alter 219 01
$ alter 261 01
$ alter 345 01
$ copied
$ restore 7 = 0 restored 5 lost 3; lost granules 2 to 3; lost granules 5 to 5

without the tree a whole tile is lost
$ sealed 8 1 init 7 60 3 t
$ alter 261 01
$ copied
$ alter 261 00
$ alter 345 01
$ restore 7 = 0 restored 0 lost 8; lost granules 0 to 7

without chains of tiles all that follows is lost
$ sealed 16 2 init 7 60 3 m
$ copied
$ alter 513 01
$ restore 7 = 0 restored 16 lost 0
$ target
$ alter 513 00
$ alter 261 01
$ copied
$ restore 7 = 0 restored 0 lost 16; lost granules 0 to 15

a store without its header comes from the copy alone, and needs one
$ sealed 8 1 init 7 60 3 ta
$ copied
$ bytes
$ restore 8 = 0 unsealed
$ restore 7 = 0 restored 8 lost 0
$ copied
$ target
$ restore 7 = 24 fault HeaderLost

what can't be restored is refused by its cause
$ restore = 2 fault Usage
$ restore 07 = 2 fault Usage
$ restore 7 7 = 2 fault Usage
$ sealed 8 1 init 7 60 3 ta
$ target 00 00
$ restore 7 = 13 fault AlreadyThere
$ target 00
$ hinders 9 4
$ restore 7 = 5 fault DiskFault
$ target 00
$ breaks 1 9
$ restore 7 = 5 fault DiskFault
$ fails 1 9
$ restore 7 = 6 fault NotaryFault
$ restore 7 ! 1 = 8
$ restore 7 = 13 fault AlreadyThere";

#[test]
fn a_store_is_restored_from_its_copy(rt: HostRuntime) -> Result<(), Fail> {
    tell(&rt, rt.alloc(), "", RESTORED)
}
