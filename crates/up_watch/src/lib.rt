//! Watch: what happened under a path of a tree, or what there is.
//!
//! [`watch`] of a tree over its log, and [`watch_in`] of a tree in memory, reply exactly as `watch_reply` of `up_answers` says
//! (`specs/Watches.antt` there); want of memory alone is free. [`watch`] has TooLarge in place of a reply that is too long; [`watch_in`]
//! replies however long that is. From 0 on a sequence asks for the changes of items on which the user has any right now and had any
//! directly after the record (`specs/Events.antt` there), the first 256 of them; at -1 for the items as they are now; at -2 for the
//! length of the log.
//!
//! No old tree is made. The records of the watched paths are found by their positions, the entry that a Delete deleted is that
//! of the record before it on the same path (`deleted` of `proofs/Puts.antt`), and rights are read by the texts of control files
//! as they were. What one Access text decided for the user is kept by the text's directory, with the number of records after which it
//! did, once for the tree as it is and once for the tree as it was (`src/decided.rt`); it is decided again only where that text or a
//! Group file has changed since (`texts_stay` of `up_mem_tree`). So no record is looked at but those of the watched paths, and what is
//! kept is what the text gave then (`AreDecided` of `specs/Decided.antt`). Items are found by a walk from the watched path down, which
//! meets each once (`found_once` of `proofs/Closed.antt`), and are sorted then.
#![tactic(auto)]

mod batch;
mod changed;
mod decided;
mod events;
mod items;
mod watcher;
mod watches;

pub use watches::{watch, watch_in};
