//! Entries as they are handed to Put.

use crate::entries::{Block, Entry};
use up_bytes::Bytes;
use up_lists::Items;

/// An entry as it is handed to Put, of which nothing is known yet.
#[derive(Debug, Drop, PartialEq, Eq)]
pub struct PutEntry {
    pub signed_name: Bytes,
    pub packing: u8,
    /// In seconds since 1970; it may be negative.
    pub time: i64,
    pub blocks: Items<Block>,
    pub packdata: Bytes,
    /// The text of a link's target; empty for an entry of another kind.
    pub link: Bytes,
    pub writer: Bytes,
    pub name: Bytes,
    /// 0 for a file, 1 for a directory, 2 for a link.
    pub attr: u8,
    /// The sequence that the item has to have now: 0 where any will do, -1 where there has to be none.
    pub sequence: i64,
}

/// An entry that keeps all rules, and the sequence that was handed in with it.
#[derive(Debug, Drop, PartialEq, Eq)]
pub struct Checked {
    /// The entry, with sequence 0.
    pub entry: Entry,
    /// -1 or more.
    pub sequence: i64,
}
