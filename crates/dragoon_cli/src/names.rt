//! Which file each word names.

ghost use Rattle.std.specs.Prelude.{◌≡◌, ◌≢◌, ◌≤◌, length, IfOk, IfSome};
ghost use Rattle.std.specs.String.{string_bytes};
ghost use Rattle.call_devices.specs.declared.device.Device.TheVariants as devices;

use call_devices::{Access, Device, Named, Progress};
use std::alloc::{AllocError, Global};
use std::fs::File;
use std::rt::{Files, Runtime};

/// The device of a word, of which `=` and a path follow.
pub fn named_by<'a>(words: &'a [String], word: &'static str) -> Named<'a> {
    let path = words.iter().find_map(|it| {
        let rest = it.as_str().strip_prefix(word)?;
        rest.strip_prefix("=")
    });
    Named { word, path }
}

/// The books: one for each path between the commas, of which there are at most nine, or one in memory.
pub fn books_of<'a>(alloc: Global, words: &'a [String]) -> Result<Vec<Named<'a>>, AllocError>
    ensures some { IfOk result (λ books. 1 ≤ length books.items) }
    ensures few { IfOk result (λ books. length books.items ≤ 9) }
{
    let all = named_by(words, "notary");
    let mut books = Vec::new(alloc);
    if let Some(paths) = all.path {
        for path in paths.split(',') {
            if books.len() < 9 {
                let path = Some(path);
                books.push(Named { path, ..all })?;
            }
        }
    }
    if books.is_empty() {
        books.push(all)?;
    }
    Ok(books)
}

/// Whether more than one device of the call has this path.
fn is_twice(words: &[String], path: &str) -> bool {
    let mut count: usize = 0;
    for word in words {
        for part in word.as_str().split(['=', ',']) {
            count = count.saturating_add(usize::from(part == path));
        }
    }
    count > 1
}

/// The device: the file that is named, whatever the command does, or else an empty one in memory. What is only read and is
/// named twice is opened as if it were changed, so that the second lock fails: no book counts twice among several.
pub fn device_of<'p, R: Runtime + Files<File = File> + AllocGlobal + Drop>(
    rt: &R,
    words: &[String],
    named: Named<'_>,
    access: Option<Access>,
    progress: &'p Progress,
) -> Result<Device<'p, R>, AllocError>
    ensures path { IfSome named.entry.path (λ path. IfOk result (elim [
      | devices.File it ↦ string_bytes it.file.path ≡ path.now
      | devices.Memory memory ↦ memory ≢ memory
    ])) }
{
    let access = match (named.path, access) {
        (Some(path), Some(Access::Reads)) if is_twice(words, path) => Access::Writes,
        _ => access.unwrap_or(Access::Reads),
    };
    Device::named(rt, named, access, progress)
}

/// The same of each book.
pub fn devices_of<'p, R: Runtime + Files<File = File> + AllocGlobal + Drop>(
    rt: &R,
    words: &[String],
    books: &[Named<'_>],
    access: Option<Access>,
    progress: &'p Progress,
) -> Result<Vec<Device<'p, R>>, AllocError>
    ensures each { IfOk result (λ disks. length disks.items ≡ length books.now) }
{
    let mut disks = Vec::new(rt.alloc());
    for book in books {
        disks.push(device_of(rt, words, *book, access, progress)?)?;
    }
    Ok(disks)
}
