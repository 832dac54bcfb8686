//! The calls of a disk in memory that change it or what a crash may leave of it.
ghost use Rattle.std.specs.Prelude.{◌≤◌, ◌+◌, ◌^◌, length};

use up_lists::Items;

/// A write: its place, its bytes, and how many of them a read gives: all, or the front half where it failed.
#[derive(Debug, Drop)]
pub struct Written {
    pub at: u64,
    pub bytes: Items<u8>,
    pub landed: u64,
    ghost within: { at + length bytes ≤ 2 ^ 62 },
}

#[derive(Debug, Drop)]
pub enum Call {
    Write(Written),
    Cut(u64),
    Sync,
}

/// What of the calls since the last sync has landed when the disk stops.
#[derive(Clone, Copy, Debug, PartialEq, Eq)]
pub enum Landing {
    Nothing,
    /// All bytes of each write, and each cut.
    Everything,
    FrontHalf,
    BackHalf,
    /// This byte in place of each byte written.
    Filled(u8),
    /// The bytes written, as far as the old size goes. No cut.
    OldSize,
    /// The greatest size and no byte written: zeros stand behind the old size. No cut.
    SizeAlone,
}
