//! How far a long call is: one line on standard error, about once a second, which is taken away at the end.

use std::cell::Cell;
use std::rt::Runtime;
use std::time::Instant;

/// The line of progress of a call. The devices have it by reference.
#[derive(Drop)]
pub struct Progress {
    is_wanted: bool,
    /// Whether the output goes to the same terminal.
    is_shared: bool,
    is_shown: Cell<bool>,
    /// When it was shown last, or the call began.
    last: Cell<Option<Instant>>,
}

impl Progress {
    pub fn new<R: Runtime>(rt: &R, is_wanted: bool, is_shared: bool) -> Progress {
        Progress {
            is_wanted,
            is_shared,
            is_shown: Cell::new(false),
            last: Cell::new(Instant::now(rt).ok()),
        }
    }

    /// Says how much of a device is done, unless that was said within the last second. What can't be written is lost.
    pub(crate) fn show<R: Runtime>(&self, rt: &R, device: &str, done: u64, what: &str) {
        if self.is_wanted && self.is_due(rt) {
            let count = done >> 10;
            let _ = eprint!(rt; "\r\x1b[Kdragoon: {device}: {count} KiB {what}");
            self.is_shown.set(true);
            self.last.set(Instant::now(rt).ok());
        }
    }

    /// A clock that can't be read shows nothing.
    fn is_due<R: Runtime>(&self, rt: &R) -> bool {
        match self.last.get() {
            Some(last) => match last.elapsed(rt) {
                Ok(since) => since.as_secs() >= 1,
                Err(_) => false,
            },
            None => false,
        }
    }

    pub(crate) fn clear_before_output<R: Runtime>(&self, rt: &R) {
        if self.is_shared {
            self.clear(rt);
        }
    }

    /// Takes the line away, where one is shown.
    pub fn clear<R: Runtime>(&self, rt: &R) {
        if self.is_shown.get() {
            let _ = eprint!(rt; "\r\x1b[K");
            self.is_shown.set(false);
        }
    }
}
