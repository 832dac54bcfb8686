//! Stored cases about hosts over disks in memory, alone, with peers and behind a connection, and what is answered of them.
mod asking;
mod direct;
mod events;
mod hosts;
mod lines;
mod opening;
mod peers;
mod requests;
mod served;
mod sessions;
mod sharing;
pub mod stopping;
mod talking;
mod waiting;
mod words;

pub use hosts::Hosts;
