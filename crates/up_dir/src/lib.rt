//! The answer to a request over a tree's log, as one step of a tree.
//!
//! [`step`] is all that a tree ever does for a user: it answers exactly as `answer` of `up_answers` says over the log, with what was
//! loaded and fetched for the request, and adds exactly the record that `added` says where the reply is its position (`Steps` of
//! `up_commit`). Want of memory may come in place of any answer, `Io` in place of a position alone where the disk failed, and the
//! disk's count of faults rises at no other answer (`quiet`). What a crash leaves is told of every moment of the call (`Survives` of
//! `specs/Crashes.antt`).
//!
//! What comes before it is handed on here: [`route_of`] says where a request goes and which blocks have to be fetched for it,
//! [`foreign`] which groups of other owners have to be loaded. [`step_asked`], [`tree_asked`] and [`foreign_asked`] are the same for a
//! request that was read before, by `asked_of` of `up_list`: whoever asks several times reads it once.
//!
//! A request on a path of the tree leads to a reply or to a record over the tree in memory (`leading.rt`), which changes nothing; then
//! the record is added, or the reply told.
#![tactic(auto)]

mod answering;
mod leading;

pub use answering::{step, step_asked};
pub use up_edits::{Fetched, Route, route_of, tree_asked};
pub use up_foreign::{foreign, foreign_asked};
