//! Which blocks of a stopped server's store nobody names any more.
//!
//! [`audit_of`] gives how many blocks a store holds, and exactly those that no log of a tree uses, in order of their bytes (`audit_of`
//! of `specs/Audits.antt`): a log uses each block, whatever its endpoint, of each entry of the tree as it is now and as it was directly
//! before each snapshot. No old tree is made for this. The records are gone through once, and an entry is in the tree that a snapshot
//! shows exactly where the snapshot was taken while the entry stood; that is known once its path is changed again. Each record and each
//! block costs a constant number of searches in a map; what is kept is the references that are used.
//!
//! [`audit_run`] is the whole report: it reads the words, opens the logs, prints `held H loose L` and a line for each loose block, and
//! puts the disks back in their places, whatever happened. What came of it is one of two cases of `Audits` (`reports`); each status
//! comes for its cause alone.
#![tactic(auto)]

mod audit;
mod marks;
mod run;
mod text;
mod used;
mod words;

pub use audit::{Audit, audit_of};
pub use run::{audit_run, audit_within};
pub use words::audit_words;
