//! Why a line of a script could not be done.

use std::error::Error;
use std::fmt;

/// Why a line of a script could not be done.
#[derive(Clone, Copy, Debug, PartialEq, Eq)]
pub enum LineFault {
    /// What it stands on failed: a disk where a host is opened, the verifier where somebody signs on.
    Fault,
    /// Want of memory.
    OutOfMemory,
}

impl fmt::Display for LineFault {
    fn fmt<W: fmt::Write>(&self, f: &mut fmt::Formatter<W>) -> fmt::Result {
        match self {
            LineFault::Fault => write!(f, "a disk or the verifier failed"),
            LineFault::OutOfMemory => write!(f, "out of memory"),
        }
    }
}

impl Error for LineFault {}
