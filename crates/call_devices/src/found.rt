//! What is at a path, which is decided at a device's first call.

use std::fs::{self, File};
use std::io::{self, ErrorKind};
use std::path::Path;
use std::rt::Files;

/// What was at a path at the first call.
#[derive(Clone, Copy, Debug, PartialEq, Eq)]
pub enum Found {
    /// There was no call, so the file wasn't opened.
    Unasked,
    Missing,
    Empty,
    Filled,
}

/// An empty path, a missing folder, and what is no plain file are errors. A pipe isn't opened: that may wait.
pub(crate) fn find<R: Files<File = File>>(rt: &R, path: &str) -> io::Result<Found> {
    if path.is_empty() {
        return Err(error("the path is empty"));
    }
    match fs::metadata(rt, path) {
        Ok(about) if !about.is_file() => Err(error("it is no plain file")),
        Ok(about) if about.len() == 0 => Ok(Found::Empty),
        Ok(_) => Ok(Found::Filled),
        Err(error) if error.kind() == ErrorKind::NotFound => {
            fs::metadata(rt, folder_of(path))?;
            Ok(Found::Missing)
        }
        Err(error) => Err(error),
    }
}

fn error(words: &str) -> io::Error {
    io::Error::new(ErrorKind::InvalidInput, words)
}

fn folder_of(path: &str) -> &str {
    match Path::new(path).parent() {
        Some(folder) if !folder.as_str().is_empty() => folder.as_str(),
        _ => ".",
    }
}
