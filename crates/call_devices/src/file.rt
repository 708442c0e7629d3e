//! A file of the system, as its access opens it: at the first call and not before.

ghost use Rattle.std.specs.Prelude.{◌≡◌, ◌≤◌, length, IfOk};

use crate::found::{Found, find};
use disk_model::{Disk, DiskFail, FileDisk};
use std::alloc::AllocError;
use std::fs::{self, File, OpenFile};
use std::io::{self, ErrorKind, Read, Seek, SeekFrom};
use std::rt::{Files, Runtime};

/// What a call does with a file.
#[derive(Clone, Copy, Debug, PartialEq, Eq)]
pub enum Access {
    Writes,
    Reads,
    /// It reads it without a lock.
    Inspects,
}

/// With what it is read or changed.
#[derive(Drop)]
enum Handle<R: Files<File = File> + Drop> {
    /// It is opened for reading and writing, and nobody else may use it meanwhile.
    Written(FileDisk<R>),
    /// It is opened for reading alone, so nothing can change it. Others who only read it may use it, too.
    Read(Option<File>),
}

/// A missing file holds nothing. The first change makes it, so a call that changes nothing leaves none. If another process
/// has filled it by then, that change fails, and so does all after it: what was read isn't what is there.
#[derive(Drop)]
pub struct NamedFile<R: Files<File = File> + Drop> {
    rt: R,
    pub(crate) path: String,
    is_locked: bool,
    handle: Handle<R>,
    pub(crate) found: Found,
    pub(crate) is_made: bool,
    /// Whether it was missing, and couldn't be made.
    is_lost: bool,
}

impl<R: Runtime + Files<File = File> + AllocGlobal + Drop> NamedFile<R> {
    ghost use Rattle.std.specs.String.{string_bytes};

    /// The file of this path.
    pub(crate) fn new(rt: &R, path: &str, access: Access) -> Result<Self, AllocError>
        ensures path { IfOk result (λ file. string_bytes file.path ≡ path.now) }
    {
        let alloc = rt.alloc();
        let handle = match access {
            Access::Writes => {
                Handle::Written(FileDisk::new(rt.clone()?, String::from_str(alloc, path)?))
            }
            _ => Handle::Read(None),
        };
        Ok(NamedFile {
            rt: rt.clone()?,
            path: String::from_str(alloc, path)?,
            is_locked: access == Access::Reads,
            handle,
            found: Found::Unasked,
            is_made: false,
            is_lost: false,
        })
    }
}

impl<R: Files<File = File> + Drop> NamedFile<R> {
    /// Whether there is a file. One that is only read is open then.
    fn is_there(&mut self) -> io::Result<bool> {
        if self.found == Found::Unasked {
            let found = find(&self.rt, self.path.as_str())?;
            if found != Found::Missing {
                self.open()?;
            }
            self.found = found;
        }
        if self.is_lost {
            return Err(ErrorKind::AlreadyExists.into());
        }
        Ok(self.found != Found::Missing || self.is_made)
    }

    fn open(&mut self) -> io::Result<()> {
        if let Handle::Read(handle) = &mut self.handle {
            let file = fs::open(&self.rt, self.path.as_str())?;
            if self.is_locked {
                file.try_lock_shared()?;
            }
            *handle = Some(file);
        }
        Ok(())
    }

    /// The disk of a file that may be changed. It is made and locked, if it is still missing.
    fn made(&mut self) -> io::Result<&mut FileDisk<R>> {
        let is_there = self.is_there()?;
        let Handle::Written(disk) = &mut self.handle else {
            let words = "this command only reads it, and was about to change it";
            return Err(io::Error::new(ErrorKind::PermissionDenied, words));
        };
        if !is_there {
            self.is_lost = true;
            let length = disk.length();
            if explained(disk, length)? > 0 {
                return Err(ErrorKind::AlreadyExists.into());
            }
            self.is_lost = false;
            self.is_made = true;
        }
        Ok(disk)
    }

    pub(crate) fn length(&mut self) -> io::Result<u64> {
        if !self.is_there()? {
            return Ok(0);
        }
        match &mut self.handle {
            Handle::Written(disk) => {
                let outcome = disk.length();
                explained(disk, outcome)
            }
            Handle::Read(Some(file)) => Ok(file.metadata()?.len()),
            Handle::Read(None) => Ok(0),
        }
    }

    pub(crate) fn read_at(&mut self, place: u64, into: &mut [u8]) -> io::Result<usize>
        ensures fits { IfOk result (λ n. n ≤ length into.old) }
    {
        if !self.is_there()? {
            return Ok(0);
        }
        match &mut self.handle {
            Handle::Written(disk) => {
                let outcome = disk.read_at(place, into);
                explained(disk, outcome)
            }
            Handle::Read(Some(file)) => read_on(file, place, into),
            Handle::Read(None) => Ok(0),
        }
    }

    pub(crate) fn write_at(&mut self, place: u64, bytes: &[u8]) -> io::Result<()> {
        let disk = self.made()?;
        let outcome = disk.write_at(place, bytes);
        explained(disk, outcome)
    }

    pub(crate) fn cut(&mut self, length: u64) -> io::Result<()> {
        let disk = self.made()?;
        let outcome = disk.cut(length);
        explained(disk, outcome)
    }

    pub(crate) fn sync(&mut self) -> io::Result<()> {
        if !self.is_there()? {
            return Ok(());
        }
        match &mut self.handle {
            Handle::Written(disk) => {
                let outcome = disk.sync();
                explained(disk, outcome)
            }
            Handle::Read(Some(file)) => file.sync_all(),
            Handle::Read(None) => Ok(()),
        }
    }
}

/// What the disk answered, with the system's reason.
fn explained<R: Files<File = File> + Drop, T>(
    disk: &FileDisk<R>,
    outcome: Result<T, DiskFail>,
) -> io::Result<T>
    ensures value { IfOk result (λ value. outcome ≡ Ok value) }
{
    match outcome {
        Ok(value) => Ok(value),
        Err(_) => Err(disk.error().unwrap_or(ErrorKind::Other.into())),
    }
}

/// Reads from a place on until the buffer is full or the file ends.
fn read_on<F: Read + Seek>(file: &mut F, place: u64, into: &mut [u8]) -> io::Result<usize>
    ensures fits { IfOk result (λ n. n ≤ length into.old) }
{
    file.seek(SeekFrom::Start(place))?;
    let mut done = 0;
    while done < into.len() {
        let count = file.read(&mut into[done..])?;
        if count == 0 {
            break;
        }
        done += count;
    }
    Ok(done)
}
