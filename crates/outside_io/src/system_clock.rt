//! The clock of the system. It tells nothing of itself.
ghost use Rattle.std.specs.Prelude.{◌≡◌};
ghost use Rattle.outside_io.specs.Clock.{untold_clock};

use crate::Clock;
use std::time::{Clock as Time, SystemTime, UNIX_EPOCH};

/// The clock of a runtime, in Unix seconds.
#[derive(Drop)]
pub struct SystemClock<R: Time + Drop> {
    rt: R,
}

impl<R: Time + Drop> SystemClock<R> {
    /// The clock of this runtime.
    pub fn new(rt: R) -> Self
        ensures fresh { ⟦<SystemClock<R> as Clock>⟧.state result ≡ untold_clock }
    {
        SystemClock { rt }
    }
}

impl<R: Time + Drop> Clock for SystemClock<R> {
    ghost state = { λ c. untold_clock };

    /// A clock that can't be read, or stands before 1970, gives 0.
    fn now(&mut self) -> u64 {
        let Ok(time) = SystemTime::now(&self.rt) else {
            return 0;
        };
        match time.duration_since(UNIX_EPOCH) {
            Ok(since) => since.as_secs(),
            Err(_) => 0,
        }
    }
}
