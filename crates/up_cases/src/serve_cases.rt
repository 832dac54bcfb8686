//! Stored cases of what `upspin serve` does before it listens: the words, the logs that are opened, the users that are enrolled, and logs
//! that are moved, over ends and disks in memory.
pub mod plans;
mod serves;

pub use serves::Serves;
