//! A clock in memory.
ghost use Rattle.std.specs.Prelude.{◌≡◌};

use crate::Clock;

/// A clock that gives its moments in order, and then the last one for ever; 0 where there are none.
#[derive(Drop)]
pub struct MemClock {
    moments: Vec<u64>,
    passed: usize,
}

impl MemClock {
    ghost use Rattle.outside_io.specs.Clock.{state_of_moments};

    /// A clock that gives these moments. It takes no memory.
    pub fn new(moments: Vec<u64>) -> Self
        ensures fresh { ⟦<MemClock as Clock>⟧.state result ≡ state_of_moments moments.items 0 }
    {
        MemClock { moments, passed: 0 }
    }
}

impl Clock for MemClock {
    ghost use Rattle.outside_io.specs.Clock.{state_of_moments};

    ghost state = { λ c. state_of_moments c.moments.items c.passed };

    fn now(&mut self) -> u64 {
        let at = self.passed.min(self.moments.len().saturating_sub(1));
        self.passed = at + 1;
        self.moments.get(at).copied().unwrap_or(0)
    }
}
