//! What is filed of a store, and what is found of it later.

use crate::story::tell;
use std::test::Fail;

const FILED: &str = "\
a tile is sealed when it has ended
$ init 8 60 2 m @ 0 = 0 ready 8
$ run 8 scripted = 3
< now 239; notarize; now 240; notarize; notarize; now 239; notarize
> ok; sealed 0; ok; sealed 1; sealed 1; ok; refused ClockBack 240

what is sealed is clean until it is altered
$ notary 1000 10
$ init 7 30 3 ta @ 0 = 0 ready 7
$ validate 7 @ 0 = 0 unsealed
$ notarize 7 @ 239 = 0 sealed 0
$ validate 7 @ 239 = 0 clean 0
$ notarize 7 @ 240 = 0 sealed 1
$ notarize 7 @ 239 = 14 fault ClockBack 240
$ notarize 7 @ 720 = 0 sealed 3
$ validate 7 @ 0 = 0 clean 3
$ notarize 8 @ 720 = 4 fault NotAStore
$ validate @ 720 = 2 fault Usage
$ cut 0
$ validate 7 @ 720 = 1 header altered 3

nothing more is filed of a store that was changed
$ drill = 3
< init 7 60 3 ta; create t k int v int; insert t 0 0; now 60; insert t 1 0; now 120; insert t 2 0; now 180
> ready 7; ok 1; ok 2; ok; ok 3; ok; ok 4; ok
< insert t 3 0; now 240; insert t 4 0; now 300; insert t 5 0; now 360; insert t 6 0; now 420; insert t 7 0
> ok 5; ok; ok 6; ok; ok 7; ok; ok 8; ok; ok 9
< now 480; notarize; now 500; alter 345 01; now 960; notarize
> ok; sealed 1; ok; ok; ok; refused Broken
$ sealed 8 1 init 7 60 3 ta
$ alter 345 01
$ run 7 scripted = 3
< now 960; notarize
> ok; refused Broken
$ notarize 7 @ 960 = 10 fault Broken
$ holds 2 0

what is changed before it is filed, is filed so
$ drill = 0
< init 7 60 0 m; create t k int; now 60; insert t 1; alter 123 02; now 120; notarize; validate
> ready 7; ok 1; ok; ok 2; ok; ok; sealed 2; clean 2

a store whose granules fall, which no line makes, keeps no chains, and is filed all the same
$ init 7 60 0 m @ 0 = 0 ready 7
$ run 7 scripted = 0
< create t k int; now 60; insert t 1; insert t 2
> ok 1; ok; ok 2; ok 3
$ alter 141 00
$ notarize 7 @ 120 = 0 sealed 2
$ validate 7 @ 120 = 0 clean 2
$ holds 3 1

without a batch there is no verdict and no mark
$ init 7 60 3 ta @ 0 = 0 ready 7
$ validate 7 @ 9 = 0 unsealed
$ analyse 7 a3d @ 9 = 0 report a3d id 7 tiles 0 unsealed
$ holds 0 0

a notary without room for marks refuses them
$ notary 1000 1
$ init 7 60 3 ta @ 0 = 0 ready 7
$ notarize 7 @ 0 = 0 sealed 0
$ validate 7 @ 0 = 0 clean 0
$ validate 7 @ 0 = 16 fault Full

a notary with room for the header's seal and the 20 of the first tile takes no more
$ notary 21 9
$ init 7 60 3 ta @ 0 = 0 ready 7
$ notarize 7 @ 960 = 16 fault Full
$ validate 7 @ 960 = 0 clean 1
$ notarize 7 @ 959 = 14 fault ClockBack 960

what the notary lacks is told
$ notary 1000 1
$ init 7 30 3 m @ 0 = 0 ready 7
$ notarize 7 @ 0 = 0 sealed 0
$ validate 7 @ 0 = 0 clean 0
$ validate 7 @ 0 = 16 fault Full
$ stranger
$ validate 7 @ 0 = 11 fault SealMissing cum 0
$ fails 1 0
$ validate 7 @ 0 = 6 fault NotaryFault

without a store there is nothing to run
$ run 7 = 4 fault NotAStore
< create t k int
$ run 7 scripted = 4 fault NotAStore
< create t k int

a crash behind the Frontier leaves it, and no batch
$ drill = 3
< init 9 60 2 ta; create t k int; insert t 1; now 240; crash 4 0; notarize
> ready 9; ok 1; ok 2; ok; ok; crashed
< now 140; insert t 2; now 240; notarize; validate
> ok; refused ClockBack 240; ok; sealed 1; clean 1";

const FOUND: &str = "\
a validation tells the first bad tile, where the granules are the tiles
$ sealed 8 8 init 7 60 0 m
$ validate 7 @ 500 = 0 clean 8
$ damaged alter 345 01; alter 429 01
? 500 validate > altered 8 from 5
$ damaged alter 429 01; alter 135 01
? 500 validate > altered 8 from 0
# the gate of a record in the middle hides all behind it
$ damaged alter 220 00
? 500 validate > altered 8 from 3

a store that was cut or changed for another is altered
$ sealed 3 3 init 7 60 0 ta
$ validate 7 @ 500 = 0 clean 3
$ damaged cut 65
? 500 validate > altered 3 from 0
$ cut 0
$ init 8 60 0 ta @ 0 = 0 ready 8
$ validate 7 @ 500 = 1 header altered 3
$ analyse 7 mono @ 500 = 1 report mono id 7 tiles 3 header altered; every granule of tiles 0 to 2
$ cut 0
$ validate 7 @ 500 = 1 header altered 3";

const SCRIPTED: &str = "\
a script notarizes what it has stored
$ notary 1000 1
$ run 9 scripted @ 5 = 0
< create t k int; insert t 1; now 240; insert t 2; notarize; validate
> ok 1; ok 2; ok; ok 3; sealed 1; clean 1

a script goes on where a mark is refused
$ notary 1000 1
$ run 9 scripted @ 5 = 3
< validate; notarize; validate; validate
> unsealed; sealed 0; clean 0; refused Full";

#[test]
fn what_is_filed_is_found_again(rt: HostRuntime) -> Result<(), Fail> {
    let alloc = rt.alloc();
    tell(&rt, alloc, "", FILED)?;
    tell(&rt, alloc, "", FOUND)?;
    tell(&rt, alloc, "init 9 60 2 m @ 5 = 0 ready 9", SCRIPTED)
}
