//! Stores whose tiles and chains change.

use crate::story::tell;
use std::test::Fail;

/// In the first story tile 0 has granules 0 to 3, tile 1 has 4 and 5, and tile 2 has 6 and 7. The policy is stored at 108,
/// with its exponent at 122, and the last byte of the row at 165.
const ERAS: &str = "\
each era is validated with all others, and analysed by its own chains
$ drill = 3
< init 7 60 2 t; create t k int v int; now 240; notarize; policy 1 a; now 300; insert t 1 0; now 480; notarize; validate
< alter 165 01; now 500; analyse a3d era 1; analyse a3d; analyse tiled era 0; analyse tiled era 2; validate
> ready 7; ok 1; ok; sealed 1; era 1 from tile 1; ok; ok 2; ok; sealed 3; clean 3
> ok; ok; report a3d id 7 era 1 tiles 2 altered; granule 5 when 480 to 500; checks 5
> first change in tile 1 when 480 to 500; diagram
>          240 N..
>          480 .N.
>          480 ..N
>          480 vvv
>          500 .X.
> refused NotSealedSo; report tiled id 7 era 0 tiles 1 clean; refused NoEra; altered 3 from 1

a policy that is altered alters the header, and nothing is filed over it
$ drill = 3
< init 7 60 2 t; create t k int v int; now 240; notarize; policy 1 a; now 300; insert t 1 0; now 480; notarize
< alter 122 02; validate; notarize; policy 3 ta; analyse a3d era 1
> ready 7; ok 1; ok; sealed 1; era 1 from tile 1; ok; ok 2; ok; sealed 3
> ok; header altered 3; refused Broken; refused Broken
> report a3d id 7 tiles 3 header altered; every granule of tiles 0 to 2

an era without a sealed tile is clean, and hides none before it
$ drill = 0
< init 7 60 0 ta; create t k int; policy 1 t; policy 1 m; policy 0 a; now 60; notarize; analyse a3d era 3
< analyse tiled era 1; policy 2 t; analyse tiled era 4; validate
> ready 7; ok 1; era 1 from tile 0; era 2 from tile 0; era 3 from tile 0; ok; sealed 1; report a3d id 7 era 3 tiles 1 clean
> report tiled id 7 era 1 tiles 0 clean; era 4 from tile 1; report tiled id 7 era 4 tiles 0 clean; clean 1

a store has 256 eras, each without a tile but the last
$ init 7 60 0 m @ 0 = 0 ready 7
$ run 7 scripted = 0
< [254*policy 0 m; ]policy 0 m
> [1-254*era # from tile 0; ]era 255 from tile 0
$ policy 7 0 m = 21 fault TooManyEras
$ run 7 scripted = 3
< policy 0 m
> refused TooManyEras
$ notarize 7 @ 60 = 0 sealed 1
$ validate 7 @ 60 = 0 clean 1
$ analyse 7 tiled era 256 @ 60 = 22 fault NoEra
$ analyse 7 tiled era 255 @ 60 = 18 fault NotSealedSo
$ analyse 7 tiled era 254 @ 60 = 0 report tiled id 7 era 254 tiles 0 clean

the words of both are in their ranges, and a policy takes a store
$ policy 7 3 ta = 4 fault NotAStore
$ policy 7 11 ta = 2 fault Usage
$ policy 7 03 ta = 2 fault Usage
$ policy 7 3 at = 2 fault Usage
$ policy 7 3 = 2 fault Usage
$ analyse 7 mono era 0 @ 0 = 2 fault Usage
$ analyse 7 a3d era @ 0 = 2 fault Usage
$ analyse 7 a3d era 4294967296 @ 0 = 2 fault Usage
$ analyse 7 tiled era 1 1 @ 0 = 2 fault Usage
$ analyse 7 tiled 1 era 0 @ 0 = 0 report tiled id 7 era 0 tiles 0 unsealed
$ init 7 60 3 ta @ 0 = 0 ready 7
$ policy 7 10 m = 0 era 1 from tile 0
$ policy 8 10 m = 4 fault NotAStore
$ breaks 1 0
$ policy 7 10 m = 5 fault DiskFault";

#[test]
fn tiles_and_chains_change_from_a_tile_on(rt: HostRuntime) -> Result<(), Fail> {
    tell(&rt, rt.alloc(), "", ERAS)
}
