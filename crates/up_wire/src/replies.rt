//! What a server answers.

use crate::keys::KeyRecord;
use up_bytes::Bytes;
use up_entry::{Entry, What};
use up_lists::Items;
use up_refs::Reference;
use up_rights::Right;

/// A row of a Glob.
#[derive(Debug, Drop, PartialEq, Eq)]
pub struct Row {
    pub entry: Entry,
    /// How many elements of the pattern remain behind a link on the way; 0 for any other row.
    pub rest: u64,
}

/// An event of a Watch.
#[derive(Debug, Drop, PartialEq, Eq)]
pub struct WatchEvent {
    /// The position of the record in the log, from 1.
    pub position: u64,
    /// Whether the entry was deleted, and not put.
    pub delete: bool,
    /// The entry that was put, or the one that was deleted.
    pub entry: Entry,
}

/// What was done, by the request that asked for it.
#[derive(Debug, Drop, PartialEq, Eq)]
pub enum Done {
    /// The log has a further record, at this position.
    Changed(u64),
    /// The entry that was looked up.
    Entry(Entry),
    /// The rows of a Glob, in the order of paths.
    Rows(Items<Row>),
    /// The entry of the governing Access file, if there is one.
    Access(Option<Entry>),
    /// The events of a Watch, in order, and the sequence to go on from.
    Events(Items<WatchEvent>, u64),
    /// The text of a Group file.
    Text(Bytes),
    /// The reference of the block that was kept.
    Reference(Reference),
    /// The bytes of a block.
    Bytes(Bytes),
    /// A user's key record.
    Key(KeyRecord),
}

/// A reply: what was done, or why nothing was. They stand in the order of their numbers, from 0.
#[derive(Debug, Drop, PartialEq, Eq)]
pub enum Reply {
    Ok(Done),
    /// A part of the request is malformed.
    Invalid(What),
    /// The path's tree is not one of the host's.
    WrongHost,
    /// A link stands at the path or above it.
    FollowLink(Entry),
    /// The user has no right there, be something there or not.
    Private,
    /// The user has some right there, and not this one.
    Permission(Right),
    /// The item, or for a Put its parent, is not there.
    NotExist,
    /// The parent, or a Glob's directory, is a file.
    NotDir,
    /// A directory stands where a file or a link would be put.
    IsDir,
    /// Something stands where nothing should.
    Exist,
    /// The item's sequence, which is another one.
    BadSequence(u64),
    /// The directory has a child.
    NotEmpty,
    /// A control file's block that could not be had as the entry says.
    BadBlock(Reference),
    /// The first line of a control file's text that does not parse, from 1.
    BadText(u64),
    /// How many bytes the record, or the reply, would have.
    TooLarge(u64),
    /// How many records the log holds, which takes no more.
    Full(u64),
    /// A disk, or a peer that was asked for a block, failed.
    Io,
    /// There was no memory.
    OutOfMemory,
}
