//! The lines of stored cases: what they are made of, how one is read, answered and compared, and what a topic is.
//!
//! A line that asks has its answer behind ` -> `; one that is empty or begins with `#` says nothing, and every other one answers
//! nothing. A [`Topic`] does what the lines of a file say. This crate promises nothing: the program `up_cases` runs on it.
#![tactic(auto)]

mod answer;
mod blocks;
mod entries;
mod fault;
mod lines;
mod members;
mod tally;
mod topic;
mod words;

pub use answer::Answer;
pub use blocks::{add_blocks, add_endpoint, blocks_of};
pub use entries::{add_entry, add_fault, add_record, what_word};
pub use fault::Fault;
pub use lines::{Case, File, case_of, compare, run_lines};
pub use members::{add_item, add_members};
pub use tally::Tally;
pub use topic::Topic;
pub use words::{
    Words, byte_of, bytes_of, bytes_of_digits, int_of, number_of, path_of, string_of, text_of,
    user_of,
};
