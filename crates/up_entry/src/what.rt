//! What of a request is not valid.

/// What of a request is malformed, of all requests.
#[derive(Clone, Copy, Debug, PartialEq, Eq)]
pub enum What {
    /// A name is no path text; or a key request's user is no user name; or a pattern is over 4,096 bytes or begins with no
    /// user name.
    Name,
    /// An entry's signed name is no path text, or cleans to another path than its name.
    SignedName,
    /// An entry's writer is not the session's user.
    Writer,
    /// An entry's packing is 0, or not 1 for a directory, a link or a control file.
    Packing,
    /// An entry's attr is none of the three kinds, or has the incomplete mark.
    Attr,
    /// A link's target is no path text, or an entry of another kind has one.
    Link,
    /// An entry's blocks break their rule.
    Blocks,
    /// A directory or a link has packdata.
    Packdata,
    /// At a root stands no directory.
    Root,
    /// At an Access path stands no file, or at a Group path a link.
    Control,
    /// The blocks of a control file have more than 32,768 bytes.
    ControlSize,
    /// A sequence is below what it may be, or, in a Watch, above the log's length.
    Sequence,
    /// An element of a pattern is malformed: its number, from 0.
    Pattern(u64),
    /// A text is no reference.
    Reference,
    /// A block is too long.
    Block,
    /// A key record breaks its rules.
    Key,
    /// The path to watch is of a snapshot tree.
    SnapshotWatch,
    /// A path is no group name.
    GroupName,
}
