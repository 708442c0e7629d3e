//! Whole reports: which granules are found, how many nodes are asked for them, and when the tiles were changed.

use crate::desk::{Kept, Stood, empty, report, report_of, turned};
use disk_model::MemDisk;
use forensic_report::{Algorithm, AnalyseFail};
use notary_link::Outcome;
use std::test::Fail;

const REPORTS: [(Stood, &str); 4] = [
    (
        Stood {
            algorithm: Algorithm::Tiled,
            k: 2,
            filed: &[Kept::Row(1, 60, 1), Kept::Row(2, 540, 1)],
            at: 720,
            marks: &[],
            stored: &[Kept::Row(1, 60, 2), Kept::Row(2, 540, 2)],
            now: 800,
        },
        "report tiled id 7 tiles 3 altered\n\
         tile 0 target 01 candidates 1 3 when 720 to 800\n\
         tile 2 target 01 candidates 9 11 when 720 to 800\n\
         first change in tile 0 when 720 to 800\n\
         diagram\n         720 N..\n         720 .N.\n         720 ..N\n         800 X.X\n",
    ),
    // a row is moved to the next granule
    (
        Stood {
            algorithm: Algorithm::A3d,
            k: 2,
            filed: &[Kept::Row(1, 60, 1)],
            at: 240,
            marks: &[],
            stored: &[Kept::Row(1, 120, 1)],
            now: 250,
        },
        "report a3d id 7 tiles 1 altered\n\
         granule 1 when 240 to 250\n\
         granule 2 when 240 to 250\n\
         checks 7\n\
         first change in tile 0 when 240 to 250\n\
         diagram\n         240 N\n         250 X\n",
    ),
    (
        Stood {
            algorithm: Algorithm::A3d,
            k: 0,
            filed: &[Kept::Row(1, 3840, 1)],
            at: 3900,
            marks: &[],
            stored: &[Kept::Row(1, 3840, 2)],
            now: 3910,
        },
        "report a3d id 7 tiles 65 altered\n\
         granule 64 when 3900 to 3910\n\
         checks 2\n\
         first change in tile 64 when 3900 to 3910\n\
         diagram left out\n",
    ),
    (
        Stood {
            algorithm: Algorithm::Tiled,
            k: 0,
            filed: &[Kept::Row(1, 60, 1)],
            at: 120,
            marks: &[(130, 2, Outcome::Clean), (125, 2, Outcome::HeaderAltered)],
            stored: &[Kept::Row(1, 60, 2)],
            now: 140,
        },
        "report tiled id 7 tiles 2 altered\n\
         tile 1 target - candidates 1 when 130 to 140\n\
         first change in tile 1 when 130 to 140\n\
         diagram\n         120 N.\n         120 .N\n         125 HH\n         130 vv\n         140 .X\n",
    ),
];

#[test]
fn reports_say_what_was_altered(rt: HostRuntime) -> Result<(), Fail> {
    let alloc = rt.alloc();
    for (stood, text) in &REPORTS {
        let told = report_of(alloc, stood)?;
        assert!(rt; told.0);
        assert_eq!(rt; told.1.as_slice(), text.as_bytes());
    }
    Ok(())
}

#[test]
fn where_nothing_is_filed_nothing_is_read(rt: HostRuntime) -> Result<(), Fail> {
    let alloc = rt.alloc();
    let mut disk = MemDisk::new(alloc);
    disk.failing([1].to_vec(alloc)?, Vec::new(alloc));
    let told = report(
        alloc,
        &mut disk,
        &mut empty(alloc),
        Algorithm::A3d,
        Some(1),
        0,
    )?;
    let text = b"report a3d id 7 era 1 tiles 0 unsealed\n";
    assert_eq!(rt; (told.0, told.1.as_slice()), (false, text.as_slice()));
    Ok(())
}

/// Of a store of two eras: by which algorithm, of which era, and what is answered.
const OF_ERAS: [(Algorithm, Option<u32>, Result<&str, AnalyseFail>); 5] = [
    (
        Algorithm::A3d,
        Some(1),
        Ok(
            "report a3d id 7 era 1 tiles 2 altered\n\
            granule 5 when 480 to 500\n\
            checks 5\n\
            first change in tile 1 when 480 to 500\n\
            diagram\n         240 N..\n         480 .N.\n         480 ..N\n         480 vvv\n         500 .X.\n",
        ),
    ),
    (
        Algorithm::Tiled,
        Some(0),
        Ok("report tiled id 7 era 0 tiles 1 clean\n"),
    ),
    (Algorithm::A3d, None, Err(AnalyseFail::NotSealedSo)),
    (Algorithm::A3d, Some(0), Err(AnalyseFail::NotSealedSo)),
    (Algorithm::Tiled, Some(2), Err(AnalyseFail::NoEra)),
];

#[test]
fn an_era_has_a_report_of_its_own(rt: HostRuntime) -> Result<(), Fail> {
    let alloc = rt.alloc();
    let (mut disk, mut notary) = turned(alloc)?;
    for (algorithm, era, answer) in &OF_ERAS {
        let told = report(alloc, &mut disk, &mut notary, *algorithm, *era, 500);
        match (told, answer) {
            (Ok(told), Ok(text)) => assert_eq!(rt; told.1.as_slice(), text.as_bytes()),
            (told, answer) => assert_eq!(rt; told.err(), answer.err()),
        }
    }
    Ok(())
}
