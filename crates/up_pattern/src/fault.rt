//! Why a text is no pattern.
ghost use Rattle.std.specs.Prelude.{◌≡◌};
ghost use Rattle.up_pattern.specs.declared.fault.ElementFault.TheVariants.{OutOfMemory};

use std::alloc::{AllocError, AllocFailed};
use thiserror::Error;
use up_names::NameFault;

/// Why a text is no pattern. `Name` comes first, and of the elements the first in the text.
#[derive(Clone, Copy, Debug, PartialEq, Eq, Error)]
pub enum PatternFault {
    /// Over 4,096 bytes, or no user's name before the first slash.
    #[error("the pattern does not begin with a user's name, or is too long")]
    Name,
    /// An element that is malformed, is not UTF-8, has a byte below 0x20 or 0x7F, or reads `.` or `..` through escapes:
    /// its place from 0 among all that stand behind slashes, empty ones, `.` and `..` too.
    #[error("an element of the pattern is malformed")]
    Element(u64),
    /// Want of memory.
    #[error("out of memory")]
    OutOfMemory,
}

impl From<NameFault> for PatternFault {
    ghost use Rattle.up_pattern.specs.PatternGives.{owner_fault};

    ghost from_gives = { λ name fault. fault ≡ owner_fault name };

    fn from(fault: NameFault) -> PatternFault {
        match fault {
            NameFault::OutOfMemory => PatternFault::OutOfMemory,
            _ => PatternFault::Name,
        }
    }
}

/// Why a text is no element of a pattern.
#[derive(Clone, Copy, Debug, PartialEq, Eq)]
pub(crate) enum ElementFault {
    Malformed,
    OutOfMemory,
}

impl ElementFault {
    ghost use Rattle.up_pattern.specs.PatternGives.{piece_fault};

    /// The fault of a pattern whose piece at that place has this one.
    pub(crate) fn at(self, place: u64) -> PatternFault
        ensures { result ≡ piece_fault place self }
    {
        match self {
            ElementFault::Malformed => PatternFault::Element(place),
            ElementFault::OutOfMemory => PatternFault::OutOfMemory,
        }
    }
}

impl From<AllocError> for ElementFault {
    ghost from_gives = { λ _ fault. fault ≡ OutOfMemory };

    fn from(_error: AllocError) -> ElementFault {
        ElementFault::OutOfMemory
    }
}

impl<T: Drop> From<AllocFailed<T>> for ElementFault {
    ghost from_gives = { λ _ fault. fault ≡ OutOfMemory };

    fn from(_failed: AllocFailed<T>) -> ElementFault {
        ElementFault::OutOfMemory
    }
}
