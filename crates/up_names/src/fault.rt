//! Why a text is no name, and no text of rules or members.
ghost use Rattle.std.specs.Prelude.{◌≡◌};
ghost use Rattle.up_names.specs.declared.fault.NameFault.TheVariants as name_fault;
ghost use Rattle.up_names.specs.declared.fault.TextFault.TheVariants as text_fault;

use std::alloc::{AllocError, AllocFailed};
use thiserror::Error;

/// Why a text is no user name or path. Where several hold, it is the first in the order of the variants for a user,
/// and for a path its own `TooLong`, then its owner's faults, then `Element`.
#[derive(Clone, Copy, Debug, PartialEq, Eq, Error)]
pub enum NameFault {
    /// A user name of over 254 bytes, without its final period, or a path of over 4,096: how many.
    #[error("the name is too long")]
    TooLong(u64),
    /// A number of `@` in a user name other than one: how many.
    #[error("a user name has one @")]
    AtSigns(u64),
    /// The local part, before `+` and `@`.
    #[error("the local part is no name")]
    Local,
    /// The suffix, between `+` and `@`.
    #[error("the suffix is no name")]
    Suffix,
    /// The domain, behind the `@`.
    #[error("the domain is no name")]
    Domain,
    /// An element that is not UTF-8, or has a byte below 0x20 or 0x7F: the place of its first byte, from 0.
    #[error("an element of the path is no name")]
    Element(u64),
    /// Want of memory.
    #[error("out of memory")]
    OutOfMemory,
}

/// Why a text is no Access or Group text.
#[derive(Clone, Copy, Debug, PartialEq, Eq, Error)]
pub enum TextFault {
    /// A line that does not fit: the number of the first one, from 1.
    #[error("a line of the text is bad")]
    BadText(u64),
    /// Want of memory.
    #[error("out of memory")]
    OutOfMemory,
}

impl From<AllocError> for NameFault {
    ghost from_gives = { λ _ fault. fault ≡ name_fault.OutOfMemory };

    fn from(_error: AllocError) -> NameFault {
        NameFault::OutOfMemory
    }
}

impl<T: Drop> From<AllocFailed<T>> for NameFault {
    ghost from_gives = { λ _ fault. fault ≡ name_fault.OutOfMemory };

    fn from(_error: AllocFailed<T>) -> NameFault {
        NameFault::OutOfMemory
    }
}

impl From<AllocError> for TextFault {
    ghost from_gives = { λ _ fault. fault ≡ text_fault.OutOfMemory };

    fn from(_error: AllocError) -> TextFault {
        TextFault::OutOfMemory
    }
}

impl<T: Drop> From<AllocFailed<T>> for TextFault {
    ghost from_gives = { λ _ fault. fault ≡ text_fault.OutOfMemory };

    fn from(_error: AllocFailed<T>) -> TextFault {
        TextFault::OutOfMemory
    }
}
