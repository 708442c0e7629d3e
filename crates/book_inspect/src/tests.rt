//! Files that are no books.

use crate::{look_at, read_book};
use disk_model::MemDisk;
use file_findings::Finding;
use std::test::Fail;

fn found(rt: &HostRuntime, bytes: &[u8]) -> Result<Vec<Finding>, Fail> {
    let alloc = rt.alloc();
    let mut disk = MemDisk::holding(alloc, bytes.to_vec(alloc)?);
    let read = read_book(alloc, &mut disk)?;
    let seen = look_at(alloc, 7, 1000, read)?;
    Ok(seen.findings)
}

#[test]
fn fronts(rt: HostRuntime) -> Result<(), Fail> {
    assert_eq!(rt; found(&rt, b"")?.as_slice(), [Finding::NoBook].as_slice());
    assert_eq!(rt;
        found(&rt, b"\x00DRAG")?.as_slice(),
        [Finding::NoBook].as_slice()
    );
    assert_eq!(rt;
        found(&rt, b"\xa7DRAGBOX1")?.as_slice(),
        [Finding::DamagedFront(7)].as_slice()
    );
    Ok(())
}
