//! Why an entry was refused.

ghost use Rattle.std.specs.Prelude.{◌≡◌};
ghost use Rattle.up_entry.specs.declared.fault.EntryFault.TheVariants.{OutOfMemory};

use crate::what::What;
use std::alloc::{AllocError, AllocFailed};
use thiserror::Error;

/// Why an entry was refused.
#[derive(Clone, Copy, Debug, PartialEq, Eq, Error)]
pub enum EntryFault {
    /// The first rule that fails.
    #[error("the entry breaks a rule")]
    Invalid(What),
    /// There is no memory for the entry.
    #[error("out of memory")]
    OutOfMemory,
}

impl From<AllocError> for EntryFault {
    ghost from_gives = { λ _ fault. fault ≡ OutOfMemory };

    fn from(_error: AllocError) -> EntryFault {
        EntryFault::OutOfMemory
    }
}

impl<T: Drop> From<AllocFailed<T>> for EntryFault {
    ghost from_gives = { λ _ fault. fault ≡ OutOfMemory };

    fn from(_error: AllocFailed<T>) -> EntryFault {
        EntryFault::OutOfMemory
    }
}
