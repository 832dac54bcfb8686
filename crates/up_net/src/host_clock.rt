//! The clock of a host.
ghost use Rattle.std.specs.Prelude.{◌≡◌, ◌<◌, None};
ghost use Rattle.up_ends.specs.Telling.{Gives};
ghost use Rattle.up_net.specs.Moments.{ReadsOnce, moment_of};

use crate::day_clock::DayClock;
use std::marker::Model;
use std::time::Duration;
use up_ends::{Clock, END_OF_MOMENTS};

/// A clock over that of a machine. A moment outside the bound of all moments is answered by the nearest within it: the last where
/// the machine's is too late, and the first where it stands before 1970 or cannot be read. It is seen as that clock.
#[derive(Drop)]
pub struct HostClock<C: DayClock> {
    clock: C,
}

impl<C: DayClock> Model for HostClock<C> {
    ghost Value = { C };

    ghost view = { λ clock. clock.clock };
}

impl<C: DayClock> HostClock<C> {
    /// A clock over this one.
    pub fn new(clock: C) -> Self
        ensures { result ≡ clock }
    {
        HostClock { clock }
    }
}

impl<C: DayClock> Clock for HostClock<C> {
    ghost use Rattle.std.specs.Prelude.{None};

    ghost coming = { λ _. None };

    fn now(&mut self) -> u64
        ensures below { result < END_OF_MOMENTS }
        ensures gives { Gives None result None }
        // It is the moment of one reading.
        ensures reading { ReadsOnce C.reads self.old result self.new }
    {
        moment_of(self.clock.since_1970())
    }
}

/// The moment of what a machine's clock reads.
fn moment_of(time: Option<Duration>) -> u64
    ensures moment { result ≡ moment_of time }
    ensures below { result < END_OF_MOMENTS }
{
    match time {
        Some(time) => time.as_secs().min(END_OF_MOMENTS - 1),
        None => 0,
    }
}
