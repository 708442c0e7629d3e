//! The standard output as a sink. It tells nothing of itself but its faults.
ghost use Rattle.std.specs.Prelude.{◌≡◌, ◌≤◌, ◌<◌, IsSome};
ghost use Rattle.outside_words.specs.Faults.{Rose};
ghost use Rattle.outside_io.specs.declared.sink.StreamFail.TheVariants.{Failed};
ghost use Rattle.outside_io.specs.Sink.{untold_state};

use crate::{Sink, StreamFail};
use std::io;
use std::io::Write;

/// The standard output of a runtime.
#[derive(Drop)]
pub struct StdSink<R: Print + Drop> {
    rt: R,
    faults: u64,
    error: Option<io::Error>,
    ghost explained: { 0 < faults → IsSome error },
}

impl<R: Print + Drop> StdSink<R> {
    /// A sink that has not failed yet.
    pub fn new(rt: R) -> Self
        ensures fresh { ⟦<StdSink<R> as Sink>⟧.state result ≡ untold_state 0 }
    {
        StdSink {
            rt,
            faults: 0,
            error: None,
        }
    }

    /// Why the last write that failed did so, where one did.
    pub fn error(&self) -> Option<io::Error>
        ensures there { 0 < (⟦<StdSink<R> as Sink>⟧.state self.now).faults → IsSome result }
    {
        self.error
    }

    fn failed(&mut self, error: io::Error) -> StreamFail
        ensures value { result ≡ Failed }
        ensures counts { Rose self.old.faults self.new.faults }
        ensures frame { self.old.faults ≤ self.new.faults }
    {
        self.error = Some(error);
        self.faults = self.faults.saturating_add(1);
        StreamFail::Failed
    }
}

impl<R: Print + Drop> Sink for StdSink<R> {
    ghost state = { λ s. untold_state s.faults };

    /// A write that takes no byte of a piece that has some counts as a fault.
    fn write(&mut self, piece: &[u8]) -> Result<usize, StreamFail> {
        match io::writer(&self.rt).write(piece) {
            Ok(count) if count > 0 || piece.is_empty() => Ok(count),
            Ok(_) => Err(self.failed(io::ErrorKind::WriteZero.into())),
            Err(error) => Err(self.failed(error)),
        }
    }
}
