//! The standard input as a source. It tells nothing of itself but its faults.
ghost use Rattle.std.specs.Prelude.{◌≡◌, ◌<◌, IsSome};
ghost use Rattle.outside_io.specs.Source.{untold_state};

use crate::{Source, StreamFail};
use std::io::{self, Input, Read};

/// The standard input of a runtime. A read is one call of the system, and nothing is read ahead.
#[derive(Drop)]
pub struct StdSource<R: Input + Drop> {
    reader: R::Reader,
    faults: u64,
    error: Option<io::Error>,
    ghost explained: { 0 < faults → IsSome error },
}

impl<R: Input + Drop> StdSource<R> {
    /// A source that has not failed yet.
    pub fn new(rt: R) -> Self
        ensures fresh { ⟦<StdSource<R> as Source>⟧.state result ≡ untold_state 0 }
    {
        StdSource {
            reader: rt.reader(),
            faults: 0,
            error: None,
        }
    }

    /// Why the last read that failed did so, where one did.
    pub fn error(&self) -> Option<io::Error>
        ensures there { 0 < (⟦<StdSource<R> as Source>⟧.state self.now).faults → IsSome result }
    {
        self.error
    }
}

impl<R: Input + Drop> Source for StdSource<R> {
    ghost state = { λ s. untold_state s.faults };

    fn read(&mut self, into: &mut [u8]) -> Result<usize, StreamFail> {
        match self.reader.read(into) {
            Ok(count) => Ok(count),
            Err(error) => {
                self.error = Some(error);
                self.faults = self.faults.saturating_add(1);
                Err(StreamFail::Failed)
            }
        }
    }
}
