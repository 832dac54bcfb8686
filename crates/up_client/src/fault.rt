//! Why a file could not be got or put.
ghost use Rattle.std.specs.Prelude.{◌≡◌};
ghost use Rattle.up_client.specs.declared.fault.ClientFault.TheVariants as client_fault;

use std::alloc::{AllocError, AllocFailed};
use std::error::Error;
use std::fmt;
use up_refs::Reference;
use up_wire::Reply;

/// Why a file could not be got or put. Blocks are counted from 0.
#[derive(Debug, Drop)]
pub enum ClientFault {
    /// A server refused, by this reply.
    Refused(Reply),
    /// A 21st link was met.
    TooManyLinks,
    /// The path to which a link leads has over 4,096 bytes.
    TooLong,
    /// A directory stands there.
    IsDir,
    /// The entry was shown without its blocks.
    NoRead,
    /// The file is packed in a way that is not read here: its packing.
    Opaque(u8),
    /// This block is kept at another server.
    Elsewhere(u64),
    /// A block has another size than its entry says: its number, the size that it says, and the one that it has.
    BadSize(u64, u64, u64),
    /// Bytes do not have the reference that they were asked by, or were kept by: that one, and their own.
    Corrupt(Reference, Reference),
    /// No answer came.
    Failed,
    /// What was done is not what was asked for.
    Odd,
    /// Want of memory.
    OutOfMemory,
}

impl fmt::Display for ClientFault {
    fn fmt<W: fmt::Write>(&self, f: &mut fmt::Formatter<W>) -> fmt::Result {
        f.write_str(match self {
            ClientFault::Refused(_) => "the server refused",
            ClientFault::TooManyLinks => "there are too many links",
            ClientFault::TooLong => "a link leads to too long a path",
            ClientFault::IsDir => "it is a directory",
            ClientFault::NoRead => "there is no right to read it",
            ClientFault::Opaque(_) => "it is packed in a way that is not read here",
            ClientFault::Elsewhere(_) => "a block is kept at another server",
            ClientFault::BadSize(_, _, _) => "a block has another size",
            ClientFault::Corrupt(_, _) => "a block has another digest",
            ClientFault::Failed => "no answer came",
            ClientFault::Odd => "the answer is of another kind",
            ClientFault::OutOfMemory => "out of memory",
        })
    }
}

impl Error for ClientFault {}

impl From<AllocError> for ClientFault {
    ghost from_gives = { λ _ fault. fault ≡ client_fault.OutOfMemory };

    fn from(_error: AllocError) -> ClientFault {
        ClientFault::OutOfMemory
    }
}

impl<T: Drop> From<AllocFailed<T>> for ClientFault {
    ghost from_gives = { λ _ fault. fault ≡ client_fault.OutOfMemory };

    fn from(_error: AllocFailed<T>) -> ClientFault {
        ClientFault::OutOfMemory
    }
}
