//! A file that is opened when it is first needed, made where there is none, and used by one process at a time.
use std::fs::{self, File, OpenFile, OpenOptions};
use std::io;
use std::path::Path;
use std::rt::Files;

/// An open file that this opening alone has locked, and whether the folder that names it was synced since.
#[derive(Drop)]
pub(crate) struct OpenedFile {
    pub(crate) file: File,
    is_named: bool,
}

/// The file of this path, which is opened and locked where it isn't yet.
pub(crate) fn opened<'a, R: Files<File = File>>(
    rt: &R,
    path: &str,
    slot: &'a mut Option<OpenedFile>,
) -> io::Result<&'a mut OpenedFile> {
    if slot.is_none() {
        *slot = Some(open_and_lock(rt, path)?);
    }
    match slot {
        Some(opened) => Ok(opened),
        None => Err(io::ErrorKind::NotFound.into()),
    }
}

// The lock doesn't wait: where another opening of the file holds it, the error is `WouldBlock`. It goes
// with the file, also where the process is killed.
fn open_and_lock<R: Files<File = File>>(rt: &R, path: &str) -> io::Result<OpenedFile> {
    let file = open_or_make(rt, path)?;
    file.try_lock()?;
    Ok(OpenedFile {
        file,
        is_named: false,
    })
}

fn open_or_make<R: Files<File = File>>(rt: &R, path: &str) -> io::Result<File> {
    match OpenOptions::new().read(true).write(true).open(rt, path) {
        Err(error) if error.kind() == io::ErrorKind::NotFound => OpenOptions::new()
            .read(true)
            .write(true)
            .create(true)
            .open(rt, path),
        outcome => outcome,
    }
}

/// Syncs the file, and once after it was opened the folder that names it: whoever made the file may have
/// been stopped before.
pub(crate) fn sync_with_folder<R: Files<File = File>>(
    rt: &R,
    path: &str,
    opened: &mut OpenedFile,
) -> io::Result<()> {
    opened.file.sync_all()?;
    if !opened.is_named {
        sync_folder_of(rt, path)?;
        opened.is_named = true;
    }
    Ok(())
}

fn sync_folder_of<R: Files<File = File>>(rt: &R, path: &str) -> io::Result<()> {
    match Path::new(path).parent() {
        Some(folder) if !folder.as_str().is_empty() => fs::open(rt, folder)?.sync_all(),
        _ => fs::open(rt, ".")?.sync_all(),
    }
}
