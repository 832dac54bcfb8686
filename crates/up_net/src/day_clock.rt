//! Clocks that read the time of day.
ghost use Rattle.std.specs.Prelude.{Option};
ghost use Rattle.std.specs.declared.time.Duration.{Duration as Time};

use std::time::Duration;

/// A clock that reads the time since 1970.
pub trait DayClock {
    /// Whether one reading leads from one state to the other. Of a machine's clock nothing is told: any reading may come.
    ghost reads: { Self → Option Time → Self → Type 0 };

    /// The time since 1970. `None` where the clock stands before it or cannot be read.
    fn since_1970(&mut self) -> Option<Duration>
        ensures { reads self.old result self.new };
}
