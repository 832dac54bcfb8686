//! Why a field was not read.

ghost use Rattle.std.specs.Prelude.{◌≡◌};
ghost use Rattle.up_bytes.specs.declared.fault.FieldFault.TheVariants.{OutOfMemory};

use std::alloc::{AllocError, AllocFailed};
use thiserror::Error;

/// Why a field was not read. The reader's place is then as before the call.
#[derive(Clone, Copy, Debug, PartialEq, Eq, Error)]
pub enum FieldFault {
    /// The input ends within the field.
    #[error("the input ends within a field")]
    Short,
    /// No spelling of a value stands at this place: the byte where the field begins, or the first
    /// byte after the last field, counted from 0 at the start of the input.
    #[error("no spelling of a field")]
    Spelling(u64),
    /// There is no memory for the value.
    #[error("out of memory")]
    OutOfMemory,
}

impl From<AllocError> for FieldFault {
    ghost from_gives = { λ _ e. e ≡ OutOfMemory };

    fn from(_e: AllocError) -> FieldFault {
        FieldFault::OutOfMemory
    }
}

impl<T: Drop> From<AllocFailed<T>> for FieldFault {
    ghost from_gives = { λ _ e. e ≡ OutOfMemory };

    fn from(_e: AllocFailed<T>) -> FieldFault {
        FieldFault::OutOfMemory
    }
}
