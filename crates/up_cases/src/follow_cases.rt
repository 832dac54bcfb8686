//! Stored cases of a follower: what it pulls from a feed in memory, what it answers, and what `upspin follow` prints, over ends and a disk
//! in memory.
mod feeds;
mod follows;
mod runs;

pub use follows::Follows;
