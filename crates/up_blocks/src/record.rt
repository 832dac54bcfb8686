//! The records of a store's log.

use up_bytes::Bytes;
use up_refs::Reference;

/// A record of a store's log, as contracts see it.
#[derive(Debug, Drop, PartialEq, Eq)]
pub enum BlockRecord {
    /// A block was put: its reference, how many bytes it has, and these, where the disk tells them.
    Put(Reference, u64, Option<Bytes>),
    /// The block with this reference was deleted.
    Delete(Reference),
}

/// What is kept in memory of a record: all but the bytes.
#[derive(Clone, Copy, Debug, PartialEq, Eq)]
pub enum Kept {
    Put(Reference, u64),
    Delete(Reference),
}
