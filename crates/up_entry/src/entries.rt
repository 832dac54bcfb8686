//! Entries and their blocks.

use up_bytes::Bytes;
use up_lists::Items;
use up_names::{Path, User};
use up_refs::Reference;

/// What stands at a path.
#[derive(Clone, Copy, Debug, PartialEq, Eq)]
pub enum Kind {
    /// A file, of blocks.
    File,
    /// A directory.
    Directory,
    /// A link to another path.
    Link,
}

/// The attributes of an entry.
#[derive(Clone, Copy, Debug, PartialEq, Eq)]
pub struct Attr {
    pub kind: Kind,
    /// The mark of an entry that is shown without its blocks and packdata.
    pub incomplete: bool,
}

/// Where a store answers.
#[derive(Debug, Drop, PartialEq, Eq)]
pub enum Endpoint {
    /// The store of the directory's own host.
    Local,
    /// The store at an address; a good one has 1 to 255 bytes from 0x21 to 0x7E.
    Address(Bytes),
}

/// Where a block is kept.
#[derive(Debug, Drop, PartialEq, Eq)]
pub struct Location {
    pub endpoint: Endpoint,
    /// What the store knows the block by.
    pub reference: Reference,
}

/// A block of a file.
#[derive(Debug, Drop, PartialEq, Eq)]
pub struct Block {
    pub location: Location,
    /// The place in the file of the block's first byte, from 0.
    pub offset: u64,
    /// How many bytes of the file the block has.
    pub size: u64,
    /// What the packing wrote of the block.
    pub packdata: Bytes,
}

/// An entry of a tree.
#[derive(Debug, Drop, PartialEq, Eq)]
pub struct Entry {
    /// The name under which the entry was written.
    pub signed_name: Path,
    /// How the blocks are packed: 1 is plain, 2 to 255 are opaque.
    pub packing: u8,
    /// In seconds since 1970; it may be negative.
    pub time: i64,
    pub blocks: Items<Block>,
    /// What the packing wrote of the whole file.
    pub packdata: Bytes,
    /// Where a link leads: one of another kind has none.
    pub link: Option<Path>,
    /// Who wrote the entry.
    pub writer: User,
    pub name: Path,
    pub attr: Attr,
    /// The position in the tree's log of the last Put of this name, from 1.
    pub sequence: u64,
}
