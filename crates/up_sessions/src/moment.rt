//! A moment.
ghost use Rattle.std.specs.Prelude.{◌≡◌};
ghost use Rattle.up_ends.specs.Moments.{IsMoment};

use std::marker::Model;

/// A moment that a clock gave, in seconds since 1970.
#[derive(Drop)]
pub(crate) struct Moment {
    seconds: u64,
}

impl Model for Moment {
    ghost use Rattle.std.specs.Prelude.{ℕ};
    ghost use Rattle.up_ends.specs.Moments.{IsMoment};

    ghost Value = { ℕ };

    ghost view = { λ moment. moment.seconds };

    ghost invariant = { λ moment. IsMoment moment.seconds };
}

impl Moment {
    pub(crate) fn of(seconds: u64) -> Moment
        requires { IsMoment seconds }
        ensures { result ≡ seconds }
    {
        Moment { seconds }
    }

    pub(crate) fn seconds(&self) -> u64
        ensures is { result ≡ self.now }
        ensures below { IsMoment result }
    {
        self.seconds
    }
}
