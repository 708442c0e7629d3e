//! Evidence of an alteration, and who examines it.

use crate::desk::{ended, notary, tells};
use crate::story::tell;
use disk_model::MemDisk;
use outside_io::MemSource;
use std::test::Fail;

/// The file of the store that is altered, and of its copy, has 133 bytes.
const GATHERED: &str = "\
what a store and its copy hold of an altered granule is gathered, and examined
$ sealed 8 1 init 7 60 3 ta
$ copied
$ alter 345 01
$ target 00
$ evidence 7 = 0 evidence 1
$ written 4452414745564431 0000000000000007 0000000000000000 0000003c 03 03 00000000 00000001 00000005 00000001 00000025 01 00000007 000000000000012c 0001 02 0174 02 010000000000000005 010000000000000001 01 00000001 00000025 01 00000007 000000000000012c 0001 02 0174 02 010000000000000005 010000000000000000
$ handed
$ examine 7 = 0 granule 5 not as notarized shown 1 original 1 as notarized; examined 1 confirmed 1
$ holds 2 0
# the target is taken now
$ evidence 7 = 13 fault AlreadyThere
# a copy that is altered, too, shows nothing
$ copied
$ target
$ evidence 7 = 0 evidence 1
$ written 4452414745564431 0000000000000007 0000000000000000 0000003c 03 03 00000000 00000001 00000005 00000001 00000025 01 00000007 000000000000012c 0001 02 0174 02 010000000000000005 010000000000000001 00
$ handed
$ examine 7 = 0 granule 5 not as notarized shown 1; examined 1 confirmed 1
# a write of the target that fails, and a line that does
$ target
$ hinders 9 1
$ evidence 7 = 5 fault DiskFault
$ target
$ evidence 7 ! 1 = 8
$ target
$ fails 1 0
$ evidence 7 = 6 fault NotaryFault

of a store that is as filed nothing is shown, and of another header nothing is written
$ sealed 8 1 init 7 60 3 ta
$ evidence 7 = 0 evidence 0
$ written 4452414745564431 0000000000000007 0000000000000000 0000003c 03 03 00000000 00000000
$ target 00
$ alter 23 01
$ evidence 7 = 1 header altered 1
$ written 00
$ evidence 8 = 0 unsealed
$ written 00
$ target 00 00
$ evidence 8 = 13 fault AlreadyThere
$ evidence = 2 fault Usage
$ evidence 7 7 = 2 fault Usage

without a tree no altered granule is found
$ sealed 8 1 init 7 60 3 t
$ evidence 7 = 18 fault NotSealedSo
$ written";

/// The store's row of granule 5 has the value 0. Its last byte stands at 345.
const EXAMINED: &str = "\
a notary tells which lists of an evidence file it holds
$ sealed 8 1 init 7 60 3 ta
$ given 4452414745564431 0000000000000007 0000000000000000 0000003c 03 03 00000000 00000001 00000005 00000001 00000025 01 00000007 000000000000012c 0001 02 0174 02 010000000000000005 010000000000000001 01 00000001 00000025 01 00000007 000000000000012c 0001 02 0174 02 010000000000000005 010000000000000000
$ examine 7 = 0 granule 5 not as notarized shown 1 original 1 as notarized; examined 1 confirmed 1
$ examine 8 = 1 other header
$ given 4452414745564431 0000000000000007 0000000000000000 0000003c 03 03 00000000 00000002 00000005 00000001 00000025 01 00000007 000000000000012c 0001 02 0174 02 010000000000000005 010000000000000000 01 00000001 00000025 01 00000007 000000000000012c 0001 02 0174 02 010000000000000005 010000000000000001 00000006 00000000 00
$ examine 7 = 0 granule 5 as notarized shown 1 original 1 not as notarized
> granule 6 not as notarized shown 0; examined 2 confirmed 1
$ given 4452414745564431 0000000000000007 0000000000000000 0000003c 03 03 00000000 00000000
$ examine 7 = 0 examined 0 confirmed 0
# a granule of a tile that isn't sealed
$ given 4452414745564431 0000000000000007 0000000000000000 0000003c 03 03 00000000 00000001 00000008 00000000 00
$ examine 7 = 11 fault SealMissing node 0 8
# the last byte is missing
$ given 4452414745564431 0000000000000007 0000000000000000 0000003c 03 03 00000000 00000001 00000005 00000001 00000025 01 00000007 000000000000012c 0001 02 0174 02 010000000000000005 010000000000000001 01 00000001 00000025 01 00000007 000000000000012c 0001 02 0174 02 010000000000000005 0100000000000000
$ examine 7 = 23 fault NotEvidence
# another width, and an era that was never filed
$ given 4452414745564431 0000000000000007 0000000000000000 0000003d 03 03 00000000 00000000
$ examine 7 = 1 other header
$ given 4452414745564431 0000000000000007 0000000000000000 0000003c 03 03 00000001 00000000 00000000 03 03 00000000
$ examine 7 = 1 other header

an examination takes neither store nor clock, and a notary without a batch has another header
$ breaks 1 0
$ examine 7 = 23 fault NotEvidence
$ examine = 2 fault Usage
$ examine 07 = 2 fault Usage
$ examine 7 7 = 2 fault Usage
$ given 4452414745564431 0000000000000007 0000000000000000 0000003c 03 03 00000000 00000001 00000005 00000001 00000025 01 00000007 000000000000012c 0001 02 0174 02 010000000000000005 010000000000000001 01 00000001 00000025 01 00000007 000000000000012c 0001 02 0174 02 010000000000000005 010000000000000000
$ examine 7 = 1 other header
$ holds 0 0
$ examine 7 ! 1 = 8
$ fails 1 0
$ examine 7 = 6 fault NotaryFault";

#[test]
fn a_store_and_its_copy_show_an_altered_granule(rt: HostRuntime) -> Result<(), Fail> {
    tell(&rt, rt.alloc(), "", GATHERED)
}

#[test]
fn a_notary_tells_which_lists_it_holds(rt: HostRuntime) -> Result<(), Fail> {
    tell(&rt, rt.alloc(), "", EXAMINED)
}

#[test]
fn an_input_that_fails_is_not_examined(rt: HostRuntime) -> Result<(), Fail> {
    let alloc = rt.alloc();
    let words = ["examine", "7"];
    let mut input = MemSource::new(b"DRAGEVD1".to_vec(alloc)?, 3, [2].to_vec(alloc)?);
    let (store, filed) = (&mut MemDisk::new(alloc), &mut notary(alloc));
    let told = ended(alloc, &words, store, filed, &[], &mut input, &[])?;
    tells(&rt, "an examination", &told, 7, "fault ReadFault\n");
    Ok(())
}
