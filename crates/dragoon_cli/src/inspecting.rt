//! The command `inspect`.

use crate::names::{books_of, device_of, devices_of, named_by};
use crate::uses::add;
use call_devices::{Access, Progress};
use call_notes::{Ending, note};
use dragoon_app::Seen;
use inspect_call::{Asked, explain_kind, inspect};
use outside_io::{StdSink, SystemClock};
use std::alloc::AllocError;
use std::fs::File;
use std::rt::{Files, Runtime};

/// The command `inspect`, over the files that are named and as they are.
pub fn inspect_over<R: Runtime + Files<File = File> + AllocGlobal + Drop>(
    rt: &R,
    words: &[String],
    call: &[String],
    asked: Asked,
) -> Result<u8, AllocError> {
    let alloc = rt.alloc();
    let access = Some(Access::Inspects);
    let progress = Progress::new(rt, false, false);
    let (a_store, mut books) = (named_by(words, "store"), books_of(alloc, words)?);
    books.retain(|book| book.path.is_some());
    let mut store = match a_store.path {
        Some(_) => Some(device_of(rt, words, a_store, access, &progress)?),
        None => None,
    };
    let mut disks = devices_of(rt, words, &books, access, &progress)?;
    let mut clock = SystemClock::new(rt.clone()?);
    let mut out = StdSink::new(rt.clone()?);
    let ended = match asked {
        Asked::Explain { kind } => explain_kind(alloc, kind, &mut out),
        Asked::Look { id } => inspect(alloc, id, &mut store, &mut disks, &mut clock, &mut out),
    };
    let mut devices = Vec::new(alloc);
    if let Some(store) = &store {
        add(&mut devices, a_store, access, store.left(), false)?;
    }
    for (book, disk) in books.iter().zip(&disks) {
        add(&mut devices, *book, access, disk.left(), false)?;
    }
    let ending = Ending {
        code: ended.code(),
        call,
        devices: &devices,
        seen: &Seen::new(),
        input: None,
        output: out.error(),
        is_unfed: false,
    };
    let _ = note(rt, &ending);
    Ok(ended.code())
}
