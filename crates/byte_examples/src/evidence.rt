//! Evidence by hand: the worked store was altered in granule 5, and its copy has what was notarized there.

use evidence_file::{read_evidence, write_evidence};
use std::alloc::{AllocError, Global};
use std::test::Fail;

/// The letters, and the header fields: id 7, epoch 0, granules of 60 seconds, tiles of 8, all chains.
const HEAD: [u8; 30] = *b"DRAGEVD1\0\0\0\0\0\0\0\x07\0\0\0\0\0\0\0\0\0\0\0\x3c\x03\x03";

/// No era but the first.
const NO_ERA: [u8; 4] = [0; 4];

/// One era more: from tile 1 on, which begins at granule 8, tiles have 2 granules and the tree.
const NEXT_ERA: [u8; 14] = [0, 0, 0, 1, 0, 0, 0, 1, 0, 0, 0, 8, 1, 2];

/// The same from granule 7 on, where no tile begins.
const MISPLACED_ERA: [u8; 14] = [0, 0, 0, 1, 0, 0, 0, 1, 0, 0, 0, 7, 1, 2];

/// A list of one transaction, but for its last byte: number 7 at moment 300 puts the row of 5 and 0.
const LIST: [u8; 44] = [
    0, 0, 0, 1, 0, 0, 0, 37, // one of 37 bytes
    1, 0, 0, 0, 7, 0, 0, 0, 0, 0, 0, 1, 0x2c, 0, 1, // a transaction of one operation
    2, 1, b't', 2, 1, 0, 0, 0, 0, 0, 0, 0, 5, 1, 0, 0, 0, 0, 0, 0, 0, // put
];

/// The file with one entry, which shows the transaction of the store, with a 1, and that of the copy.
fn file(alloc: Global, eras: &[u8], granule: u8) -> Result<Vec<u8>, AllocError> {
    let mut bytes = HEAD.to_vec(alloc)?;
    bytes.extend_from_slice(eras)?;
    bytes.extend_from_slice(&[0, 0, 0, 1, 0, 0, 0, granule])?;
    bytes.extend_from_slice(&LIST)?;
    bytes.extend_from_slice(&[1, 1])?;
    bytes.extend_from_slice(&LIST)?;
    bytes.push(0)?;
    Ok(bytes)
}

#[test]
fn the_worked_file_is_read_and_written_again(rt: HostRuntime) -> Result<(), Fail> {
    let alloc = rt.alloc();
    let bytes = file(alloc, &NO_ERA, 5)?;
    assert_eq!(rt; bytes.len(), 133);
    let Some(evidence) = read_evidence(alloc, &bytes)? else {
        return Err("no evidence")?;
    };
    assert_eq!(rt; evidence.header.id, 7);
    assert_eq!(rt; evidence.entries.as_slice().len(), 1);
    let again = write_evidence(alloc, &evidence)?;
    assert_eq!(rt; again.as_slice(), bytes.as_slice());
    Ok(())
}

/// What is done to the file: its eras, its granule, how many bytes more or fewer; whether it is evidence.
type Changed = (&'static str, &'static [u8], u8, &'static [u8], usize, bool);

const CHANGED: [Changed; 6] = [
    ("nothing", &NO_ERA, 5, &[], 0, true),
    ("an era more", &NEXT_ERA, 5, &[], 0, true),
    ("an era elsewhere", &MISPLACED_ERA, 5, &[], 0, false),
    ("another granule", &NO_ERA, 6, &[], 0, false),
    ("a byte more", &NO_ERA, 5, &[0], 0, false),
    ("a byte fewer", &NO_ERA, 5, &[], 1, false),
];

#[test]
fn a_file_is_read_exactly_where_its_parts_agree(rt: HostRuntime) -> Result<(), Fail> {
    let alloc = rt.alloc();
    for (name, eras, granule, more, fewer, is_evidence) in CHANGED {
        let mut bytes = file(alloc, eras, granule)?;
        bytes.extend_from_slice(more)?;
        bytes.truncate(bytes.len().saturating_sub(fewer));
        let found = read_evidence(alloc, &bytes)?;
        assert_eq!(rt; found.is_some(), is_evidence, "{name}");
    }
    Ok(())
}
