//! Laws of the length of replies. Each function does nothing; its contract is the law.
ghost use Rattle.up_alone.specs.Short.{ConnectionRepliesAreShort, HostRepliesAreShort, KeyRepliesAreShort, StoreRepliesAreShort, TreeRepliesAreShort};

use up_disk::Disk;
use up_peer::Loader;

/// What a tree answers has at most 67,108,864 bytes.
pub fn tree_replies_are_short()
    ensures { TreeRepliesAreShort }
{}

/// What a store answers has at most 67,108,864 bytes.
pub fn store_replies_are_short()
    ensures { StoreRepliesAreShort }
{}

/// What the keys answer has at most 67,108,864 bytes.
pub fn key_replies_are_short()
    ensures { KeyRepliesAreShort }
{}

/// What a call of a host came to has at most 67,108,864 bytes, whether or not the host is shared.
pub fn host_replies_are_short()
    ensures { HostRepliesAreShort }
{}

/// The payload that answers a request on a connection to a host that is not shared has at most 67,108,864 bytes.
pub fn connection_replies_are_short<D: Disk, L: Loader>()
    ensures { ConnectionRepliesAreShort D.Disk L.Loader }
{}
