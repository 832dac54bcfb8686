//! The topic of stored cases about two trees that are asked the same, and what is answered of them.
//!
//! This crate promises nothing: the program `up_cases` runs on it.
#![tactic(auto)]

mod lists;
mod worlds;

pub use worlds::Worlds;
