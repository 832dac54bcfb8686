//! Why a server that was dialled gave no answer.
use std::alloc::AllocError;
use std::error::Error;
use std::{fmt, io};

/// Why a server that was dialled gave no answer.
#[derive(Clone, Copy, Debug, PartialEq, Eq)]
pub enum CallFault {
    /// There is no such server, the user was not signed on, or the stream failed, ended, or had a message that may not come.
    Failed,
    /// The message is longer than a server takes. It was not sent.
    TooLong,
    /// There was no memory here.
    OutOfMemory,
}

impl fmt::Display for CallFault {
    fn fmt<W: fmt::Write>(&self, f: &mut fmt::Formatter<W>) -> fmt::Result {
        match self {
            CallFault::Failed => write!(f, "the server could not be asked"),
            CallFault::TooLong => write!(f, "the message is longer than a server takes"),
            CallFault::OutOfMemory => write!(f, "out of memory"),
        }
    }
}

impl Error for CallFault {}

impl From<AllocError> for CallFault {
    fn from(_error: AllocError) -> CallFault {
        CallFault::OutOfMemory
    }
}

impl From<io::Error> for CallFault {
    fn from(error: io::Error) -> CallFault {
        if error.kind() == io::ErrorKind::OutOfMemory {
            CallFault::OutOfMemory
        } else {
            CallFault::Failed
        }
    }
}
