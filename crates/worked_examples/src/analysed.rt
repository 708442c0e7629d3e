//! Which granules a report names, and when it says that they were altered.

ghost use Rattle.std.specs.Prelude.{◌≡◌};
ghost use Rattle.notary_link.specs.Batches.{IsName};

use crate::desk::{audit, made, notary, sealed, tells};
use crate::story::tell;
use disk_model::MemDisk;
use notary_link::{Name, Notary, Seal};
use sha2::{Digest, Sha256};
use std::alloc::{AllocError, Global};
use std::test::Fail;

const UNALTERED: &str = "\
each algorithm finds a store clean
$ sealed 8 1 init 7 60 3 ta
$ analyse 7 mono @ 500 = 0 report mono id 7 tiles 1 clean
$ analyse 7 tiled @ 500 = 0 report tiled id 7 tiles 1 clean
$ analyse 7 tiled 1024 @ 500 = 0 report tiled id 7 tiles 1 clean
$ analyse 7 a3d @ 500 = 0 report a3d id 7 tiles 1 clean
# an id under which nothing was filed
$ analyse 8 a3d @ 500 = 0 report a3d id 8 tiles 0 unsealed

an algorithm is named, and a number in its range
$ sealed 8 1 init 7 60 3 ta
$ analyse 7 @ 500 = 2 fault Usage
$ analyse 7 mono 1 @ 500 = 2 fault Usage
$ analyse 7 tiled 0 @ 500 = 2 fault Usage
$ analyse 7 tiled 1025 @ 500 = 2 fault Usage
$ analyse 7 tiled 1 1 @ 500 = 2 fault Usage
$ analyse 7 tile @ 500 = 2 fault Usage
$ analyse mono @ 500 = 2 fault Usage

chains that a store has not are not asked for
$ init 7 60 0 m @ 0 = 0 ready 7
$ run 7 @ 0 = 3
< analyse a3d; notarize; analyse a3d; analyse tiled 1; analyse mono; analyse
> report a3d id 7 tiles 0 unsealed; sealed 0; refused NotSealedSo; refused NotSealedSo
> report mono id 7 tiles 0 clean; refused Syntax
$ analyse 7 tiled @ 0 = 18 fault NotSealedSo
$ analyse 7 tiled 1 @ 0 = 18 fault NotSealedSo
$ analyse 7 a3d @ 0 = 18 fault NotSealedSo
$ analyse 7 mono @ 0 = 0 report mono id 7 tiles 0 clean";

const OF_A_TILE: &str = "\
each algorithm names the altered granules of a tile
$ sealed 8 1 init 7 60 3 ta
$ tail
> first change in tile 0 when 480 to 500; diagram;          480 N;          500 X
# the last byte of granule g's row stands at 135 + 42 * g
$ damaged alter 345 01
? 500 analyse mono > report mono id 7 tiles 1 altered; tiles 0 to 0 granules 0 to 7 when 480 to 500; &
? 500 analyse a3d > report a3d id 7 tiles 1 altered; granule 5 when 480 to 500; checks 7; &
? 500 analyse tiled > report tiled id 7 tiles 1 altered; tile 0 target 101 candidates 5 7 when 480 to 500; &
? 500 analyse tiled 1 > report tiled id 7 tiles 1 altered; tile 0 target 101 candidates 5 when 480 to 500; &
? 500 analyse tiled 2 > report tiled id 7 tiles 1 altered; tile 0 target 101 candidates 5 7 when 480 to 500; &
? 500 analyse tiled 3 > report tiled id 7 tiles 1 altered; tile 0 target 101 candidates none when 480 to 500; &
$ damaged alter 261 01; alter 345 01
? 500 analyse tiled > report tiled id 7 tiles 1 altered; tile 0 target 001 candidates 1 3 5 7 when 480 to 500; &
? 500 analyse tiled 1 > report tiled id 7 tiles 1 altered; tile 0 target 001 candidates 1 when 480 to 500; &
? 500 analyse tiled 4 > report tiled id 7 tiles 1 altered; tile 0 target 001 candidates 1 3 5 7 when 480 to 500; &
? 500 analyse tiled 5 > report tiled id 7 tiles 1 altered; tile 0 target 001 candidates none when 480 to 500; &
$ damaged alter 429 01
? 500 analyse tiled > report tiled id 7 tiles 1 altered; tile 0 target 111 candidates 7 when 480 to 500; &
? 500 analyse tiled 1 > report tiled id 7 tiles 1 altered; tile 0 target 111 candidates 7 when 480 to 500; &
? 500 analyse tiled 2 > report tiled id 7 tiles 1 altered; tile 0 target 111 candidates none when 480 to 500; &
$ damaged alter 135 01
? 500 analyse tiled > report tiled id 7 tiles 1 altered; tile 0 target 000 candidates 0 1 2 3 4 5 6 7 when 480 to 500; &
$ damaged alter 135 01; alter 429 01
? 500 analyse tiled > report tiled id 7 tiles 1 altered; tile 0 target 000 candidates 0 1 2 3 4 5 6 7 when 480 to 500; &
? 500 analyse tiled 1 > report tiled id 7 tiles 1 altered; tile 0 target 000 candidates 0 when 480 to 500; &
? 500 analyse tiled 8 > report tiled id 7 tiles 1 altered; tile 0 target 000 candidates 0 1 2 3 4 5 6 7 when 480 to 500; &
? 500 analyse tiled 9 > report tiled id 7 tiles 1 altered; tile 0 target 000 candidates none when 480 to 500; &

a closed gate hides the rows behind it
$ sealed 8 1 init 7 60 3 ta
$ tail
> granule 3 when 480 to 500; granule 4 when 480 to 500; granule 5 when 480 to 500
> granule 6 when 480 to 500; granule 7 when 480 to 500; checks 13
> first change in tile 0 when 480 to 500; diagram;          480 N;          500 X
$ damaged alter 220 00
? 500 analyse a3d > report a3d id 7 tiles 1 altered; &";

const OF_TILES: &str = "\
what a validation found bounds when the first change came
$ sealed 8 8 init 7 60 0 t
$ tail
> first change in tile 5 when 480 to 500; diagram
>          480 N.......
>          480 .N......
>          480 ..N.....
>          480 ...N....
>          480 ....N...
>          480 .....N..
>          480 ......N.
>          480 .......N
>          500 vvvvvx??
$ damaged alter 345 01; alter 429 01
? 500 validate > altered 8 from 5
? 510 analyse mono > report mono id 7 tiles 8 altered; tiles 5 to 7 granules 5 to 7 when 480 to 510; &;          510 .....XXX
? 510 analyse tiled > report tiled id 7 tiles 8 altered; tile 5 target - candidates 5 when 480 to 510; tile 7 target - candidates 7 when 480 to 510; &;          510 .....X.X

twelve granules lie under two roots
$ sealed 12 3 init 7 60 2 a
$ tail
> first change in tile 1 when 720 to 800; diagram
>          720 N..
>          720 .N.
>          720 ..N
>          800 .XX
$ damaged alter 345 01; alter 513 01
? 800 analyse a3d > report a3d id 7 tiles 3 altered; granule 5 when 720 to 800; granule 9 when 720 to 800; checks 12; &";

const OF_A_WEEK: &str = "\
a changed entry of a week is found: its amount, in granule 50
$ week
$ tail
> first change in tile 6 when 432000 to 605000; diagram
>       432000 N....................
>       432000 .N...................
>       432000 ..N..................
>       432000 ...N.................
>       432000 ....N................
>       432000 .....N...............
>       432000 ......N..............
>       432000 .......N.............
>       432000 ........N............
>       432000 .........N...........
>       432000 ..........N..........
>       432000 ...........N.........
>       432000 ............N........
>       432000 .............N.......
>       432000 ..............N......
>       432000 vvvvvvvvvvvvvvv......
>       604800 ...............N.....
>       604800 ................N....
>       604800 .................N...
>       604800 ..................N..
>       604800 ...................N.
>       604800 ....................N
>       605000 vvvvvvx??????????????
$ damaged alter 6764 e9
? 605000 validate > altered 21 from 6
? 605000 analyse mono > report mono id 18 tiles 21 altered; tiles 6 to 20 granules 48 to 167 when 432000 to 605000; &;       605000 ......XXXXXXXXXXXXXXX
? 605000 analyse tiled > report tiled id 18 tiles 21 altered; tile 6 target 010 candidates 50 51 54 55 when 432000 to 605000; &;       605000 ......X..............
? 605000 analyse a3d > report a3d id 18 tiles 21 altered; granule 50 when 432000 to 605000; checks 17; &;       605000 ......X..............";

#[test]
fn a_report_names_what_was_altered(rt: HostRuntime) -> Result<(), Fail> {
    for stories in [UNALTERED, OF_A_TILE, OF_TILES, OF_A_WEEK] {
        tell(&rt, rt.alloc(), "", stories)?;
    }
    Ok(())
}

/// The report of a store whose header was altered, of eight granules in one tile.
const HEADER_ALTERED: &str =
    "report a3d id 7 tiles 1 header altered\nevery granule of tiles 0 to 0\n";

/// How a report begins that names the granules from this one on, of eight.
fn report_from(alloc: Global, first: usize) -> Result<String, AllocError> {
    let mut text = String::from_str(alloc, "report a3d id 7 tiles 1 ")?;
    if first == 8 {
        text.push_str("clean\n")?;
        return Ok(text);
    }
    text.push_str("altered\n")?;
    for granule in first..8 {
        text.push_str(format!(in alloc; "granule {granule} when 480 to 500\n")?.as_str())?;
    }
    text.push_str("checks ")?;
    Ok(text)
}

/// A row is there where the gate behind it is, which stands at place 136 + 42 * g for granule g. A run over a store
/// without a header comes to no line.
#[test]
fn each_cut_alters_the_granules_behind_it(rt: HostRuntime) -> Result<(), Fail> {
    let alloc = rt.alloc();
    let mut filed = notary(alloc);
    let whole = sealed(alloc, "init 7 60 3 ta", 8, &mut filed)?;
    for length in 0..446 {
        let mut bytes = whole.bytes().to_vec(alloc)?;
        bytes.truncate(length);
        let mut store = MemDisk::holding(alloc, bytes);
        let (status, text) = audit(alloc, &mut store, &mut filed, "analyse 7 a3d", "", &[500])?;
        let by_line = audit(
            alloc,
            &mut store,
            &mut filed,
            "run 7",
            "analyse a3d\n",
            &[500],
        )?;
        if length <= 64 {
            assert_eq!(rt; (status, text.as_slice()), (1, HEADER_ALTERED.as_bytes()));
            tells(&rt, "a line", &by_line, 4, "fault NotAStore\n");
        } else {
            let whole = (0..8usize).filter(|g| 137 + 42 * *g <= length).count();
            assert_eq!(rt; status, if whole == 8 { 0 } else { 1 }, "{length}");
            let front = report_from(alloc, whole)?;
            assert!(rt; text.starts_with(front.as_bytes()), "{length}");
            assert_eq!(rt; (by_line.0, by_line.1.as_slice()), (0, text.as_slice()));
        }
    }
    Ok(())
}

/// Each byte of the header turned over. A run comes to its line where there is still a header of this id: one of
/// another first second, or of wider granules.
#[test]
fn a_turned_header_is_told(rt: HostRuntime) -> Result<(), Fail> {
    let alloc = rt.alloc();
    let mut filed = notary(alloc);
    let store = sealed(alloc, "init 7 60 3 ta", 8, &mut filed)?;
    for place in 0usize..64 {
        let mut bytes = store.bytes().to_vec(alloc)?;
        if let Some(byte) = bytes.get_mut(place) {
            *byte ^= 0xff;
        }
        let mut other = MemDisk::holding(alloc, bytes);
        let (status, text) = match place {
            20..=24 | 27 | 28 => (0, HEADER_ALTERED),
            _ => (4, "fault NotAStore\n"),
        };
        for (words, input, status, text) in [
            ("validate 7", "", 1, "header altered 1\n"),
            ("analyse 7 a3d", "", 1, HEADER_ALTERED),
            ("run 7", "analyse a3d\n", status, text),
        ] {
            let told = audit(alloc, &mut other, &mut filed, words, input, &[500])?;
            tells(&rt, words, &told, status, text);
        }
    }
    Ok(())
}

fn seal(name: Name, digest: [u8; 32]) -> Seal
    requires { IsName name }
    ensures { result.name ≡ name }
{
    Seal { name, digest }
}

/// A tile of two empty granules. The seal of the node above both is 32 zero bytes; and there is none.
#[test]
fn a_notary_that_is_wrong_is_refused(rt: HostRuntime) -> Result<(), Fail> {
    let alloc = rt.alloc();
    let mut store = made(alloc, "init 7 60 1 a")?;
    let (words, line) = ("analyse 7 a3d", "analyse a3d\n");
    let header = Sha256::digest(b"\x05\0\0\0\0\0\0\0\x07\0\0\0\0\0\0\0\0\0\0\0\x3c\x01\x02");
    let (left, right) = (
        Sha256::digest(b"\x02\0\0\0\0"),
        Sha256::digest(b"\x02\0\0\0\x01"),
    );
    let seals = [
        seal(Name::Node { level: 0, index: 0 }, left),
        seal(Name::Node { level: 0, index: 1 }, right),
        seal(Name::Node { level: 1, index: 0 }, [0; 32]),
    ];
    for (count, words, input, status, text) in [
        (3, words, "", 19, "fault NotaryInconsistent node 1 0\n"),
        (1, words, "", 11, "fault SealMissing node 1 0\n"),
        (3, "run 7", line, 3, "refused NotaryInconsistent node 1 0\n"),
        (1, "run 7", line, 3, "refused SealMissing node 1 0\n"),
    ] {
        let mut filed = notary(alloc);
        filed.file(7, 0, 0, &[seal(Name::Header, header)])?;
        filed.file(7, 1, 120, &seals[..count])?;
        let told = audit(alloc, &mut store, &mut filed, words, input, &[500])?;
        tells(&rt, words, &told, status, text);
    }
    Ok(())
}
