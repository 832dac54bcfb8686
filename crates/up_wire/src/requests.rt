//! What is asked of a server.

use crate::keys::KeyCard;
use up_bytes::Bytes;
use up_entry::PutEntry;

/// A request. Each text in it is any bytes: what they may be is judged by the server that is asked.
#[derive(Debug, Drop, PartialEq, Eq)]
pub enum Request {
    /// Of a directory: the entry at a path.
    Lookup(Bytes),
    /// Of a directory: to put an entry at its name.
    Put(PutEntry),
    /// Of a directory: to delete the item at a path.
    Delete(Bytes),
    /// Of a directory: the entries whose paths match a pattern.
    Glob(Bytes),
    /// Of a directory: the entry of the Access file that governs a path.
    WhichAccess(Bytes),
    /// Of a directory: what happened under a path behind a position of its log; or what there is, for -1; or where its log
    /// ends, for -2.
    Watch(Bytes, i64),
    /// Of a directory: the text of the Group file at a path.
    GroupText(Bytes),
    /// Of a store: the block of a reference.
    Get(Bytes),
    /// Of a store: to keep a block.
    StorePut(Bytes),
    /// Of a store: to delete the block of a reference.
    StoreDelete(Bytes),
    /// Of a key server: the record of a user.
    KeyLookup(Bytes),
    /// Of a key server: to put the record of a user.
    KeyPut(KeyCard),
}
