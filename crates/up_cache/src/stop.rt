//! Why a run of `upspin copy` ended before all was done.
ghost use Rattle.std.specs.Prelude.{◌≡◌};
ghost use Rattle.up_cache.specs.Printing.{code_by};

use std::alloc::AllocError;
use up_command::Status;

/// Why a run ended before all was done.
#[derive(Clone, Copy, Debug, PartialEq, Eq)]
pub enum Stop {
    /// The sink failed.
    WriteFault,
    /// There was no memory, here or where it was asked.
    OutOfMemory,
    /// No answer came.
    AskFault,
}

impl From<AllocError> for Stop {
    ghost use Rattle.std.specs.Prelude.{◌≡◌};
    ghost use Rattle.up_cache.specs.declared.stop.Stop.TheVariants.{OutOfMemory};

    ghost from_gives = { λ _ e. e ≡ OutOfMemory };

    fn from(_error: AllocError) -> Stop {
        Stop::OutOfMemory
    }
}

/// The number of the status with which a run ends.
pub(crate) fn code(ended: Result<(), Stop>) -> u8
    ensures { result ≡ code_by ended }
{
    match ended {
        Ok(()) => Status::Done.code(),
        Err(Stop::WriteFault) => Status::WriteFault.code(),
        Err(Stop::OutOfMemory) => Status::OutOfMemory.code(),
        Err(Stop::AskFault) => Status::AskFault.code(),
    }
}
