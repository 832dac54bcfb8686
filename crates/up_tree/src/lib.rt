//! The tree over its log: what every answer of a directory server depends on.
//!
//! A [`TreeState`] is seen as its owner, its limits and the records of its log (`specs/States.antt`); what stands at a path, the
//! children of a directory and the texts of its control files are those that the log gives, now or after any number of its records.
//! `open` opens a device as such a log or says what is wrong with it, `fits` says whether a record fits as the next one, and `apply`
//! adds it: from then on each crash leaves the log with it, and a crash before that leaves the log, or the log with it or with a record
//! that was doubtful before, as far as the disk tells what a crash leaves.
//! The disk's count of faults rises in no call that answers anything but a fault (`quiet`).
#![tactic(auto)]

mod old;
mod replay;
mod state;

pub use old::Old;
pub use state::TreeState;
pub use up_mem_tree::NodeRef;
