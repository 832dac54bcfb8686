//! Why a line of a script was not done.
use std::alloc::AllocError;

/// Why a line of a script was not done.
#[derive(Clone, Copy, Debug, PartialEq, Eq)]
pub enum LineStop {
    /// It is malformed, by itself or by what came before it.
    Malformed,
    /// The verifier failed.
    HelperFault,
    /// A disk failed.
    DiskFault,
    /// There was no memory.
    OutOfMemory,
}

impl From<AllocError> for LineStop {
    ghost use Rattle.std.specs.Prelude.{◌≡◌};
    ghost use Rattle.up_script.specs.declared.stop.LineStop.TheVariants.{OutOfMemory};

    ghost from_gives = { λ _ e. e ≡ OutOfMemory };

    fn from(_error: AllocError) -> LineStop {
        LineStop::OutOfMemory
    }
}
