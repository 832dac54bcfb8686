//! Topics of stored cases about files that are got and put, and what is answered of them.
//!
//! This crate promises nothing: the program `up_cases` runs on it.
#![tactic(auto)]

mod caches;
mod client;
mod copies;
mod terminal;

pub use caches::CacheLines;
pub use client::ClientLines;
pub use copies::CopyLines;
pub use terminal::TerminalLines;
