//! Why a line was not done.
use std::alloc::AllocError;

/// Why a line of the input was not done.
#[derive(Clone, Copy, Debug, PartialEq, Eq)]
pub enum LineStop {
    /// It says nothing that a line may say.
    Malformed,
    /// There was no memory.
    OutOfMemory,
}

impl From<AllocError> for LineStop {
    ghost use Rattle.std.specs.Prelude.{◌≡◌};
    ghost use Rattle.up_following.specs.declared.stop.LineStop.TheVariants.{OutOfMemory};

    ghost from_gives = { λ _ e. e ≡ OutOfMemory };

    fn from(_error: AllocError) -> LineStop {
        LineStop::OutOfMemory
    }
}
