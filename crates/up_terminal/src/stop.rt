//! Why a line was not done, and why a session ended.
ghost use Rattle.std.specs.Prelude.{◌≡◌};
ghost use Rattle.up_terminal.specs.Sessions.{code_by};

use std::alloc::AllocError;

/// Why a line was not done.
#[derive(Clone, Copy, Debug, PartialEq, Eq)]
pub enum LineStop {
    /// No answer came.
    AskFault,
    /// There was no memory, here or where it was asked.
    OutOfMemory,
}

impl From<AllocError> for LineStop {
    ghost use Rattle.std.specs.Prelude.{◌≡◌};
    ghost use Rattle.up_terminal.specs.declared.stop.LineStop.TheVariants.{OutOfMemory};

    ghost from_gives = { λ _ e. e ≡ OutOfMemory };

    fn from(_error: AllocError) -> LineStop {
        LineStop::OutOfMemory
    }
}

/// Why a session ended before its input did.
#[derive(Clone, Copy, Debug, PartialEq, Eq)]
pub enum Stop {
    /// A line is malformed, and was named.
    BadLine,
    /// The source failed.
    ReadFault,
    /// The sink failed.
    WriteFault,
    /// There was no memory, here or where it was asked.
    OutOfMemory,
    /// A line has too many bytes, or the source was read too often.
    TooLong,
    /// No answer came.
    AskFault,
}

impl From<AllocError> for Stop {
    ghost use Rattle.std.specs.Prelude.{◌≡◌};
    ghost use Rattle.up_terminal.specs.declared.stop.Stop.TheVariants.{OutOfMemory};

    ghost from_gives = { λ _ e. e ≡ OutOfMemory };

    fn from(_error: AllocError) -> Stop {
        Stop::OutOfMemory
    }
}

/// The number of the status with which a session ends.
pub(crate) fn code(ended: Result<(), Stop>) -> u8
    ensures { result ≡ code_by ended }
{
    match ended {
        Ok(()) => 0,
        Err(Stop::BadLine) => 1,
        Err(Stop::ReadFault) => 2,
        Err(Stop::WriteFault) => 3,
        Err(Stop::OutOfMemory) => 4,
        Err(Stop::TooLong) => 7,
        Err(Stop::AskFault) => 11,
    }
}
