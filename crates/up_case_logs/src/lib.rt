//! Topics of stored cases about the bytes of records, disks that crash, and the logs on them.
//!
//! This crate promises nothing: the program `up_cases` runs on it.
#![tactic(auto)]

mod crashes;
mod fields;
mod logs;
mod moves;
mod records;

pub use crashes::{Crashes, add_appended, add_open_fault, limits_of};
pub use fields::Fields;
pub use logs::Logs;
pub use moves::Moves;
pub use records::Records;
