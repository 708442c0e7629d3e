//! A clock as its callers see it.
ghost use Rattle.outside_io.specs.Clock.{State, Tells, GoesOn};

/// Says what time it is. That can't fail.
pub trait Clock {
    /// The answers still to come, where the clock tells them.
    ghost state: { Self → State };

    /// The seconds of now.
    fn now(&mut self) -> u64
        ensures value { Tells result (state self.old) (state self.new) }
        ensures frame { GoesOn (state self.old) (state self.new) };
}
