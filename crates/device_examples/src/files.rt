//! Devices over real files: what each access does with a file that is there, that is missing, and that is none.

use call_devices::{Access, Device, Found, Named, Progress};
use disk_model::{Disk, DiskFail};
use std::fs::{self, File};
use std::io::ErrorKind;
use std::rt::{Files, Runtime};
use std::test::Fail;

const EACH: [Access; 3] = [Access::Writes, Access::Reads, Access::Inspects];

fn device<'a, R: Runtime + Files<File = File> + AllocGlobal + Drop>(
    rt: &R,
    path: &str,
    access: Access,
    progress: &'a Progress,
) -> Result<Device<'a, R>, Fail> {
    let path = Some(path);
    let word = "store";
    Ok(Device::named(rt, Named { word, path }, access, progress)?)
}

#[test]
fn what_is_no_plain_file_is_a_fault(rt: HostRuntime) -> Result<(), Fail> {
    let progress = Progress::new(&rt, false, false);
    for (path, kind) in [
        ("", ErrorKind::InvalidInput),
        (".", ErrorKind::InvalidInput),
        ("/dev/null", ErrorKind::InvalidInput),
        ("call_devices_no_folder/file", ErrorKind::NotFound),
    ] {
        for access in EACH {
            let mut device = device(&rt, path, access, &progress)?;
            assert!(rt; device.left().error.is_none());
            assert_eq!(rt; device.length(), Err(DiskFail::Failed));
            assert_eq!(rt; device.write_at(0, &[1]), Err(DiskFail::Failed));
            assert_eq!(rt; device.left().error.map(|error| error.kind()), Some(kind));
        }
    }
    Ok(())
}

#[test]
fn a_missing_file_is_made_by_the_first_change_alone(rt: HostRuntime) -> Result<(), Fail> {
    let progress = Progress::new(&rt, false, false);
    let path = "call_devices_made";
    let _ = fs::remove_file(&rt, path);
    let mut made = device(&rt, path, Access::Writes, &progress)?;
    assert_eq!(rt; made.left().found, Found::Unasked);
    assert_eq!(rt; made.length(), Ok(0));
    assert_eq!(rt; made.sync(), Ok(()));
    assert!(rt; !fs::exists(&rt, path)?);
    assert_eq!(rt; made.write_at(0, &[1, 2, 3]), Ok(()));
    assert_eq!(rt; made.cut(2), Ok(()));
    assert!(rt; fs::exists(&rt, path)?);
    assert_eq!(rt; made.left().found, Found::Missing);
    assert!(rt; made.left().is_made);
    drop(made);
    let mut again = device(&rt, path, Access::Writes, &progress)?;
    assert_eq!(rt; again.length(), Ok(2));
    assert_eq!(rt; again.left().found, Found::Filled);
    fs::remove_file(&rt, path)?;
    Ok(())
}

#[test]
fn what_is_only_read_is_never_changed(rt: HostRuntime) -> Result<(), Fail> {
    let progress = Progress::new(&rt, false, false);
    let path = "call_devices_read";
    for access in [Access::Reads, Access::Inspects] {
        let _ = fs::remove_file(&rt, path);
        let mut missing = device(&rt, path, access, &progress)?;
        assert_eq!(rt; missing.length(), Ok(0));
        assert_eq!(rt; missing.write_at(0, &[1]), Err(DiskFail::Failed));
        assert!(rt; !fs::exists(&rt, path)?);
        fs::write(&rt, path, b"abc".as_slice())?;
        let mut there = device(&rt, path, access, &progress)?;
        let mut into = [0; 4];
        assert_eq!(rt; there.read_at(1, &mut into), Ok(2));
        assert_eq!(rt; into, [b'b', b'c', 0, 0]);
        assert_eq!(rt; there.sync(), Ok(()));
        assert_eq!(rt; there.write_at(0, &[1]), Err(DiskFail::Failed));
        assert_eq!(rt; there.cut(0), Err(DiskFail::Failed));
        assert_eq!(rt; there.length(), Ok(3));
    }
    fs::remove_file(&rt, path)?;
    Ok(())
}

#[test]
fn a_file_that_appears_meanwhile_is_left_alone(rt: HostRuntime) -> Result<(), Fail> {
    let progress = Progress::new(&rt, false, false);
    let path = "call_devices_appears";
    let _ = fs::remove_file(&rt, path);
    let mut missing = device(&rt, path, Access::Writes, &progress)?;
    assert_eq!(rt; missing.length(), Ok(0));
    fs::write(&rt, path, b"abc".as_slice())?;
    assert_eq!(rt; missing.write_at(0, &[1]), Err(DiskFail::Failed));
    assert_eq!(rt; missing.length(), Err(DiskFail::Failed));
    assert_eq!(rt;
        missing.left().error.map(|error| error.kind()),
        Some(ErrorKind::AlreadyExists)
    );
    drop(missing);
    assert_eq!(rt; fs::read(&rt, path)?.as_slice(), b"abc".as_slice());
    fs::remove_file(&rt, path)?;
    Ok(())
}

#[test]
fn a_file_has_one_writer_or_several_readers(rt: HostRuntime) -> Result<(), Fail> {
    let progress = Progress::new(&rt, false, false);
    let path = "call_devices_locked";
    fs::write(&rt, path, b"abc".as_slice())?;
    for (first, second, answer) in [
        (Access::Writes, Access::Writes, Err(DiskFail::Failed)),
        (Access::Writes, Access::Reads, Err(DiskFail::Failed)),
        (Access::Writes, Access::Inspects, Ok(3)),
        (Access::Reads, Access::Writes, Err(DiskFail::Failed)),
        (Access::Reads, Access::Reads, Ok(3)),
        (Access::Inspects, Access::Writes, Ok(3)),
    ] {
        let mut one = device(&rt, path, first, &progress)?;
        let mut other = device(&rt, path, second, &progress)?;
        assert_eq!(rt; one.length(), Ok(3));
        assert_eq!(rt; other.length(), answer);
        drop(one);
        assert_eq!(rt; other.length(), Ok(3));
    }
    fs::remove_file(&rt, path)?;
    Ok(())
}
