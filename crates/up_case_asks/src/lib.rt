//! What stored lines that ask a tree share: a tree over an empty disk, what the next request comes with, what the words of a script ask
//! for a user, and the lines of a reply.
//!
//! This crate promises nothing: the program `up_cases` runs on it.
#![tactic(auto)]

mod asking;
mod given;
mod replies;
mod trees;

pub use asking::{ask, ask_snapshots};
pub use given::{Given, is_in_calendar, load_line, moment};
pub use replies::{add_lines, add_reply};
pub use trees::{WIDE, empty_tree, new_tree, owner_of, path_in, tree_of};
