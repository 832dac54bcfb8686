//! Why words of a line were not read.

ghost use Rattle.std.specs.Prelude.{◌≡◌};
ghost use Rattle.up_text.specs.declared.fault.LineFault.TheVariants.{OutOfMemory};

use std::alloc::{AllocError, AllocFailed};

/// Why words of a line were not read.
#[derive(Clone, Copy, Debug, PartialEq, Eq)]
pub(crate) enum LineFault {
    /// The line is malformed.
    Malformed,
    /// There is no memory for what the words stand for.
    OutOfMemory,
}

impl From<AllocError> for LineFault {
    ghost from_gives = { λ _ e. e ≡ OutOfMemory };

    fn from(_e: AllocError) -> LineFault {
        LineFault::OutOfMemory
    }
}

impl<T: Drop> From<AllocFailed<T>> for LineFault {
    ghost from_gives = { λ _ e. e ≡ OutOfMemory };

    fn from(_e: AllocFailed<T>) -> LineFault {
        LineFault::OutOfMemory
    }
}
