//! Why a piece of a stream was not taken.

ghost use Rattle.std.specs.Prelude.{◌≡◌, Some};
ghost use Rattle.up_frame.specs.Message.{message};
ghost use Rattle.up_frame.specs.declared.fault.FrameFault.TheVariants.{OutOfMemory};

use std::alloc::AllocError;
use std::error::Error;
use std::fmt;

/// Why a piece of a stream was not taken.
#[derive(Clone, Copy, Debug, PartialEq, Eq)]
pub enum FrameFault {
    /// The length of the frame that begins at this place of the stream, counted in bytes from 0, is 0 or
    /// over the limit.
    BadFrame(u64),
    /// There is no memory for the piece.
    OutOfMemory,
}

impl fmt::Display for FrameFault {
    ghost output = { λ fault. Some (message fault) };

    fn fmt<W: fmt::Write>(&self, f: &mut fmt::Formatter<W>) -> fmt::Result {
        match self {
            FrameFault::BadFrame(place) => write!(f, "no frame at byte {place}"),
            FrameFault::OutOfMemory => write!(f, "out of memory"),
        }
    }
}

impl Error for FrameFault {}

impl From<AllocError> for FrameFault {
    ghost from_gives = { λ _ e. e ≡ OutOfMemory };

    fn from(_e: AllocError) -> FrameFault {
        FrameFault::OutOfMemory
    }
}
