//! Why a line was not done.
use std::alloc::{AllocError, AllocFailed};
use up_entry::EntryFault;
use up_names::{NameFault, TextFault};

/// Why a line was not done.
#[derive(Clone, Copy, Debug, PartialEq, Eq)]
pub enum Fault {
    /// The line does not fit: its answer is `bad line`.
    BadLine,
    /// There was no memory. The run ends.
    OutOfMemory,
}

impl From<AllocError> for Fault {
    fn from(_error: AllocError) -> Fault {
        Fault::OutOfMemory
    }
}

impl<T: Drop> From<AllocFailed<T>> for Fault {
    fn from(_error: AllocFailed<T>) -> Fault {
        Fault::OutOfMemory
    }
}

impl From<NameFault> for Fault {
    fn from(fault: NameFault) -> Fault {
        match fault {
            NameFault::OutOfMemory => Fault::OutOfMemory,
            _ => Fault::BadLine,
        }
    }
}

impl From<TextFault> for Fault {
    fn from(fault: TextFault) -> Fault {
        match fault {
            TextFault::OutOfMemory => Fault::OutOfMemory,
            TextFault::BadText(_) => Fault::BadLine,
        }
    }
}

impl From<EntryFault> for Fault {
    fn from(fault: EntryFault) -> Fault {
        match fault {
            EntryFault::OutOfMemory => Fault::OutOfMemory,
            EntryFault::Invalid(_) => Fault::BadLine,
        }
    }
}
