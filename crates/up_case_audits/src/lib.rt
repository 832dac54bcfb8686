//! Stored cases of `upspin audit`: over new logs and over any bytes, on disks in memory.
//!
//! This crate promises nothing: the program `up_cases` runs on it.
#![tactic(auto)]

mod audits;

pub use audits::Audits;
