//! Topics of stored cases about trees over their logs, and what is answered of them.
//!
//! This crate promises nothing: the program `up_cases` runs on it.
#![tactic(auto)]

mod asked;
mod looked;
mod tree;

pub use asked::Asked;
pub use tree::Trees;
