//! A file in segments, from its making to damage in it.

use disk_model::{Disk, MemDisk};
use history_model::Format;
use segment_file::{
    SegmentFail, SegmentFile, create_segmented, open_segmented, read_any, read_part,
};
use std::alloc::Global;
use std::test::Fail;
use tuple_bytes::{Header, is_item};

const HEADER: Header = Header {
    id: 7,
    epoch: 0,
    width: 60,
    k: 3,
    algs: 3,
};

// `create t k int v text` at moment 0
const CREATE: &[u8] = b"\x01\0\0\0\x01\0\0\0\0\0\0\0\0\0\x01\x01\x01t\x02\x01k\x01\x01v\x02";

// A Frontier at moment 480.
const FRONTIER: &[u8] = b"\x02\0\0\0\0\0\0\x01\xe0";

/// The transaction that puts a row of this key and 30,000 letters.
fn insert(alloc: Global, number: u8, key: u8) -> Result<Vec<u8>, Fail> {
    let mut bytes = b"\x01\0\0\0".to_vec(alloc)?;
    bytes.push(number)?;
    bytes.extend_from_slice(b"\0\0\0\0\0\0\0\0\0\x01\x02\x01t\x02\x01\0\0\0\0\0\0\0")?;
    bytes.push(key)?;
    bytes.extend_from_slice(b"\x02\x75\x30")?;
    for _ in 0..30_000 {
        bytes.push(b'a')?;
    }
    Ok(bytes)
}

/// Adds an item; other bytes are none of such a file.
fn add(
    alloc: Global,
    file: &mut SegmentFile,
    disk: &mut MemDisk,
    payload: &[u8],
) -> Result<(), SegmentFail> {
    if is_item(payload) && payload.len() <= 32_768 {
        file.append(alloc, disk, payload)
    } else {
        Err(SegmentFail::NotAStore)
    }
}

#[test]
fn records_go_on_to_the_next_segment(rt: HostRuntime) -> Result<(), Fail> {
    let alloc = rt.alloc();
    let mut disk = MemDisk::new(alloc);
    create_segmented(&mut disk, &HEADER)?;
    let mut file = open_segmented(alloc, &mut disk)?.file;
    assert_eq!(rt; (file.end(), file.calls(25)), (64, 4));
    add(alloc, &mut file, &mut disk, CREATE)?;
    let starts: [(u8, u64, u8); 8] = [
        (0, 94, 4),
        (1, 30_130, 4),
        (2, 65_536, 8),
        (3, 95_572, 4),
        (4, 131_072, 8),
        (5, 161_108, 4),
        (6, 196_608, 8),
        (7, 226_644, 4),
    ];
    for (key, start, calls) in starts {
        let payload = insert(alloc, key + 2, key)?;
        assert_eq!(rt; file.calls(30_031), calls);
        add(alloc, &mut file, &mut disk, &payload)?;
        assert_eq!(rt; file.end(), start + 30_036);
    }
    add(alloc, &mut file, &mut disk, FRONTIER)?;
    assert_eq!(rt; disk.length()?, 256_695);

    let stored = read_any(alloc, &mut disk)?;
    assert_eq!(rt;
        (
            stored.format,
            stored.header,
            stored.items.as_slice().len(),
            stored.end
        ),
        (Some(Format::Two), Some(HEADER), 10, 256_694)
    );

    let mut place = 64;
    let mut parts = [(0, 0, false); 4];
    for part in &mut parts {
        let read = read_part(alloc, &mut disk, place, 3)?;
        *part = (read.items.as_slice().len(), read.end, read.last);
        place = read.end;
    }
    assert_eq!(rt;
        parts,
        [
            (3, 60_166, false),
            (3, 161_108, false),
            (3, 256_680, false),
            (1, 256_694, true)
        ]
    );

    disk.write_at(65_536, &[0])?;
    let stored = read_any(alloc, &mut disk)?;
    assert_eq!(rt; (stored.items.as_slice().len(), stored.end), (8, 256_694));
    Ok(())
}
