//! Stored cases of who reads what: the readers of one path of a tree, and whole reports of `upspin share`, over ends and disks in memory.
pub mod reports;
mod shares;

pub use shares::Shares;
