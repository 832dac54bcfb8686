//! What a clock promises, and one that stands still.
ghost use Rattle.std.specs.Prelude.{◌≡◌, ℕ, Option};
ghost use Rattle.up_ends.specs.Moments.{IsMoment};
ghost use Rattle.up_ends.specs.Telling.{Coming, Gives};

use std::marker::Model;

/// The first second after the year 9999, since 1970. Every moment is before it.
pub const END_OF_MOMENTS: u64 = 253_402_207_200;

/// Who says what time it is.
pub trait Clock {
    /// The moments still to come, where the clock tells them.
    ghost coming: { Self → Option (Coming ℕ) };

    /// The moment, in seconds since 1970, always before [`END_OF_MOMENTS`].
    fn now(&mut self) -> u64
        ensures below { IsMoment result }
        ensures gives { Gives (coming self.old) result (coming self.new) };
}

/// A clock that stands still.
#[derive(Debug, Drop)]
pub struct FixedClock {
    now: u64,
}

impl Model for FixedClock {
    ghost use Rattle.std.specs.Prelude.{ℕ};
    ghost use Rattle.up_ends.specs.Moments.{IsMoment};

    ghost Value = { ℕ };

    ghost view = { λ clock. clock.now };

    ghost invariant = { λ clock. IsMoment clock.now };
}

impl FixedClock {
    /// A clock that says this moment for good.
    pub fn new(now: u64) -> Self
        requires { IsMoment now }
        ensures { result ≡ now }
    {
        FixedClock { now }
    }
}

impl Clock for FixedClock {
    ghost use Rattle.std.specs.Prelude.{Some, []};

    ghost coming = { λ now. Some (record { first = []; after = now }) };

    fn now(&mut self) -> u64 {
        self.now
    }
}
