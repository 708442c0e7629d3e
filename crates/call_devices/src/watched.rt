//! Streams whose calls move the line of progress. Each hands its calls on, and answers what the one below answers.

use crate::progress::Progress;
use outside_io::{Sink, Source, StreamFail};
use std::rt::Runtime;

/// An input that shows how much of it was read, and counts that.
#[derive(Drop)]
pub struct WatchedSource<'a, I: Drop, R: Runtime> {
    pub below: I,
    rt: R,
    progress: &'a Progress,
    /// Whether a person is to be told, before the first read, that it is wanted.
    is_asked: bool,
    bytes: u64,
    is_read: bool,
}

impl<'a, I: Drop, R: Runtime> WatchedSource<'a, I, R> {
    pub fn new(below: I, rt: R, progress: &'a Progress, is_asked: bool) -> Self {
        WatchedSource {
            below,
            rt,
            progress,
            is_asked,
            bytes: 0,
            is_read: false,
        }
    }

    /// Whether it was read, and had no byte.
    pub fn is_unfed(&self) -> bool {
        self.is_read && self.bytes == 0
    }
}

impl<'a, I: Source + Drop, R: Runtime> Source for WatchedSource<'a, I, R> {
    ghost state = { λ s. I.state s.below };

    fn read(&mut self, into: &mut [u8]) -> Result<usize, StreamFail> {
        if self.is_asked && !self.is_read {
            let _ = eprintln!(self.rt;
                "dragoon: the input is read from the terminal; Ctrl-D ends it"
            );
        }
        self.is_read = true;
        self.progress
            .show(&self.rt, "the input", self.bytes, "read");
        let count = self.below.read(into)?;
        self.bytes = self.bytes.saturating_add(count as u64);
        Ok(count)
    }
}

/// An output that takes the line of progress away before it writes to the same terminal.
#[derive(Drop)]
pub struct WatchedSink<'a, O: Drop, R: Runtime> {
    pub below: O,
    rt: R,
    progress: &'a Progress,
}

impl<'a, O: Drop, R: Runtime> WatchedSink<'a, O, R> {
    pub fn new(below: O, rt: R, progress: &'a Progress) -> Self {
        WatchedSink {
            below,
            rt,
            progress,
        }
    }
}

impl<'a, O: Sink + Drop, R: Runtime> Sink for WatchedSink<'a, O, R> {
    ghost state = { λ o. O.state o.below };

    fn write(&mut self, piece: &[u8]) -> Result<usize, StreamFail> {
        self.progress.clear_before_output(&self.rt);
        self.below.write(piece)
    }
}
