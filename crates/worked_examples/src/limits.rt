//! A text that is as large as it may be; an input and an output that fail; a store in a file.

use crate::desk::{call, ended, made, notary, tells};
use crate::story::{NEW, tell};
use disk_model::FileDisk;
use outside_io::MemSource;
use std::alloc::{AllocError, Global};
use std::test::Fail;

const LARGEST: &str = "\
the largest text has 32,737 letters
$ run 7 scripted = 3
< create t k int v text; insert t 1 '[32737*a]'; insert t 2 '[32738*a]'
> ok 1; ok 2; refused TooLong";

#[test]
fn the_largest_text_has_32737_letters(rt: HostRuntime) -> Result<(), Fail> {
    tell(&rt, rt.alloc(), NEW, LARGEST)
}

/// How a run ends over a new store whose input comes in such pieces, where this read fails or this write.
fn run(
    alloc: Global,
    bytes: Vec<u8>,
    piece: usize,
    read: u64,
    write: u64,
) -> Result<(u8, Vec<u8>), AllocError> {
    let mut store = made(alloc, "init 7 60 3 m")?;
    let mut input = MemSource::new(bytes, piece, [read].to_vec(alloc)?);
    let words = ["run", "7", "scripted"];
    let filed = &mut notary(alloc);
    ended(alloc, &words, &mut store, filed, &[], &mut input, &[write])
}

#[test]
fn an_input_or_an_output_that_fails_ends_the_run(rt: HostRuntime) -> Result<(), Fail> {
    let alloc = rt.alloc();
    for (read, write, status, text) in [
        (1, 0, 7, "fault ReadFault\n"),
        (4, 0, 7, "ok 1\nok 2\nfault ReadFault\n"),
        (0, 2, 8, "ok 1\n"),
    ] {
        let lines = b"create t k int\ninsert t 1\ninsert t 2\n".to_vec(alloc)?;
        let told = run(alloc, lines, 10, read, write)?;
        tells(&rt, "a run", &told, status, text);
    }
    Ok(())
}

#[test]
fn an_input_without_an_end_has_a_limit(rt: HostRuntime) -> Result<(), Fail> {
    let alloc = rt.alloc();
    let lines = vec![in alloc; b'\n'; 67_108_864]?;
    let told = run(alloc, lines, 4096, 0, 0)?;
    tells(&rt, "a run", &told, 17, "fault InputLimit\n");
    Ok(())
}

/// The words of a call, its input, and what is written.
const IN_A_FILE: [(&str, &str, &str); 5] = [
    ("init 7 60 3 m", "", "ready 7\n"),
    ("init 7 60 3 m", "", "fault AlreadyThere\n"),
    (
        "link",
        "",
        "txns 0\nlink 7472d54d4aa35e0f4ee072819cb3c15cb704c8fc1c71d3baac0dba7c6fabc9d9\n",
    ),
    (
        "run 7",
        "create t k int v int\ninsert t 5 1\nupdate t 5 2\n",
        "ok 1\nok 2\nok 3\n",
    ),
    (
        "run 7",
        "get t 5\nhistory t 5\nget t 5 as of 1\n",
        "row 5 2\nversion 1 2 row 5 1\nversion 2 - row 5 2\nversions 2\nrow 5 1\n",
    ),
];

#[test]
fn a_store_in_a_file_is_made_once_filled_and_asked(rt: HostRuntime) -> Result<(), Fail> {
    let alloc = rt.alloc();
    let path = "worked_examples_test_store";
    let _ = std::fs::remove_file(&rt, path);
    for (words, input, text) in IN_A_FILE {
        let mut store = FileDisk::new(rt, String::from_str(alloc, path)?);
        let (_, told) = call(alloc, &mut store, words, input, &[0, 1, 2])?;
        assert_eq!(rt; told.as_slice(), text.as_bytes());
    }
    std::fs::remove_file(&rt, path)?;
    Ok(())
}
