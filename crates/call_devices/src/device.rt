//! A device that is a file or is in memory.

ghost use Rattle.std.specs.Prelude.{◌≡◌, ◌≢◌, ◌≤◌, IfOk, IsErrOf};
ghost use Rattle.outside_words.specs.Faults.{HasCause, HidesNoFault};
ghost use Rattle.disk_words.specs.declared.DiskFail.TheVariants.{Failed, NoMemory};

use crate::file::{Access, NamedFile};
use crate::found::Found;
use crate::progress::Progress;
use disk_model::{Disk, DiskFail, MemDisk};
use std::alloc::AllocError;
use std::fs::File;
use std::rt::{Files, Runtime};
use std::{fmt, io};

/// A device as the words of a call name it.
#[derive(Clone, Copy)]
pub struct Named<'n> {
    /// The word that names it: `store`, `copy`, `target` or `notary`.
    pub word: &'static str,
    pub path: Option<&'n str>,
}

impl fmt::Display for Named<'_> {
    fn fmt<W: fmt::Write>(&self, f: &mut fmt::Formatter<W>) -> fmt::Result {
        let word = self.word;
        let of = if word == "notary" { "'s book" } else { "" };
        match self.path {
            Some(path) => write!(f, "the {word}{of} {path:?}"),
            None => write!(f, "the {word}{of} in memory"),
        }
    }
}

/// A device of the program.
#[derive(Drop)]
pub enum Device<'a, R: Runtime + Files<File = File> + Drop> {
    File(FileDevice<'a, R>),
    Memory(MemDisk),
}

/// A file that tells nothing of itself but how often it has failed, and shows how far its calls are.
#[derive(Drop)]
pub struct FileDevice<'a, R: Runtime + Files<File = File> + Drop> {
    rt: R,
    file: NamedFile<R>,
    faults: u64,
    /// Why it failed last.
    error: Option<io::Error>,
    progress: &'a Progress,
    /// What the line of progress calls it.
    name: &'static str,
    written: u64,
}

/// What a device says at the end of a call.
#[derive(Clone, Copy)]
pub struct Left {
    /// What was at its path at the first call.
    pub found: Found,
    /// Whether its file was missing, and was made.
    pub is_made: bool,
    /// Whether it was in memory, and held something.
    pub is_gone: bool,
    /// Why its file failed last, if it did.
    pub error: Option<io::Error>,
}

impl<'a, R: Runtime + Files<File = File> + AllocGlobal + Drop> Device<'a, R> {
    ghost use Rattle.std.specs.Prelude.{[], Some, IsNone, IfSome};
    ghost use Rattle.std.specs.String.{string_bytes};
    ghost use Rattle.call_devices.specs.declared.device.Device.TheVariants as devices;
    ghost use Rattle.disk_model.specs.Untold.{TellsOnly};

    /// The file of its path, or an empty device where none is named.
    pub fn named(
        rt: &R,
        named: Named<'_>,
        access: Access,
        progress: &'a Progress,
    ) -> Result<Self, AllocError>
        ensures file { IfSome named.entry.path (λ path. IfOk result (λ device.
            TellsOnly 0 (⟦<Device<'a, R> as Disk>⟧.state device))) }
        ensures path { IfSome named.entry.path (λ path. IfOk result (elim [
          | devices.File it ↦ string_bytes it.file.path ≡ path.now
          | devices.Memory memory ↦ memory ≢ memory
        ])) }
        ensures memory { IsNone named.entry.path → IfOk result (λ device.
            (⟦<Device<'a, R> as Disk>⟧.state device).reads ≡ Some []) }
    {
        match named.path {
            Some(path) => Ok(Device::File(FileDevice {
                rt: rt.clone()?,
                file: NamedFile::new(rt, path, access)?,
                faults: 0,
                error: None,
                progress,
                name: named.word,
                written: 0,
            })),
            None => Ok(Device::Memory(MemDisk::new(rt.alloc()))),
        }
    }
}

impl<R: Runtime + Files<File = File> + Drop> Device<'_, R> {
    pub fn left(&self) -> Left {
        match self {
            Device::File(it) => Left {
                found: it.file.found,
                is_made: it.file.is_made,
                is_gone: false,
                error: it.error,
            },
            Device::Memory(memory) => Left {
                found: Found::Unasked,
                is_made: false,
                is_gone: !memory.bytes().is_empty(),
                error: None,
            },
        }
    }
}

impl<R: Runtime + Files<File = File> + Drop> FileDevice<'_, R> {
    /// What the system answered, where each failure counts as a fault.
    fn counted<T>(&mut self, outcome: io::Result<T>) -> Result<T, DiskFail>
        ensures value { IfOk result (λ value. outcome ≡ Ok value) }
        ensures frame { self.old.faults ≤ self.new.faults }
        ensures cause { HasCause Failed self.old.faults self.new.faults result }
        ensures counted { HidesNoFault self.old.faults self.new.faults result }
        ensures memory { ¬ IsErrOf result NoMemory }
    {
        match outcome {
            Ok(value) => Ok(value),
            Err(error) => {
                self.error = Some(error);
                self.faults = self.faults.saturating_add(1);
                Err(DiskFail::Failed)
            }
        }
    }

    fn show(&self, done: u64, what: &str) {
        self.progress.show(&self.rt, self.name, done, what);
    }
}

impl<'a, R: Runtime + Files<File = File> + Drop> Disk for Device<'a, R> {
    ghost use Rattle.std.proofs.Common.{ap};
    ghost use Rattle.std.specs.Prelude.{Some, true};
    ghost use Rattle.call_devices.specs.declared.device.Device.TheVariants as devices;
    ghost use Rattle.disk_model.specs.Calls.{first_of, trace_of};
    ghost use Rattle.disk_model.specs.Memory.{state_of};
    ghost use Rattle.disk_model.specs.Untold.{untold_state};
    ghost use Rattle.disk_words.proofs.Images.{reads_image_at};
    ghost use Rattle.disk_words.proofs.Images.{counts_now as counts_now_of};
    ghost use Rattle.disk_words.proofs.Images.{only_now as only_now_of};

    ghost state = { elim [
      | devices.File it ↦ untold_state it.faults
      | devices.Memory memory ↦ state_of memory
    ] };

    ghost takes_memory = { true };

    ghost replayed = { elim [
      | devices.File it ↦ tt
      | devices.Memory memory ↦ ap Some memory.replayed
    ] };

    ghost reads_image = { elim [
      | devices.File it ↦ tt
      | devices.Memory memory ↦ reads_image_at (first_of memory.first memory.bytes.items)
          (trace_of memory.made.items) memory.bytes.items memory.replayed
    ] };

    ghost counts_now = { elim [
      | devices.File it ↦ λ t c le now. tt
      | devices.Memory memory ↦ λ t c le now. counts_now_of
          (first_of memory.first memory.bytes.items) (trace_of memory.made.items) t c now
    ] };

    ghost only_now = { elim [
      | devices.File it ↦ λ c was. tt
      | devices.Memory memory ↦ λ c was. only_now_of
          (first_of memory.first memory.bytes.items) (trace_of memory.made.items) c was
    ] };

    fn length(&mut self) -> Result<u64, DiskFail> {
        match self {
            Device::File(it) => {
                let outcome = it.file.length();
                it.counted(outcome)
            }
            Device::Memory(memory) => memory.length(),
        }
    }

    fn read_at(&mut self, place: u64, into: &mut [u8]) -> Result<usize, DiskFail> {
        match self {
            Device::File(it) => {
                it.show(place, "read");
                let outcome = it.file.read_at(place, into);
                it.counted(outcome)
            }
            Device::Memory(memory) => memory.read_at(place, into),
        }
    }

    fn write_at(&mut self, place: u64, bytes: &[u8]) -> Result<(), DiskFail> {
        match self {
            Device::File(it) => {
                let written = it.written.saturating_add(bytes.len() as u64);
                it.written = written;
                it.show(written, "written");
                let outcome = it.file.write_at(place, bytes);
                it.counted(outcome)
            }
            Device::Memory(memory) => memory.write_at(place, bytes),
        }
    }

    fn cut(&mut self, length: u64) -> Result<(), DiskFail> {
        match self {
            Device::File(it) => {
                let outcome = it.file.cut(length);
                it.counted(outcome)
            }
            Device::Memory(memory) => memory.cut(length),
        }
    }

    fn sync(&mut self) -> Result<(), DiskFail> {
        match self {
            Device::File(it) => {
                let outcome = it.file.sync();
                it.counted(outcome)
            }
            Device::Memory(memory) => memory.sync(),
        }
    }
}
