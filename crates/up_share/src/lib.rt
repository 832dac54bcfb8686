//! Who reads what of a tree, by name.
//!
//! [`readers_of`] tells who may read at a path, under the texts that were loaded: exactly all that the definition names, in order and
//! each once (`items`), and exactly the groups of other owners that are met on the way and have no text (`unread`). For every user the
//! right to read, by the very test that `up_policy` answers by, holds exactly where the user, the user's domain or everyone is told
//! (`test`, `meaning`).
//!
//! [`share_run`] is `upspin share`, over any sink and a list of disks. What it prints is exactly the report on the tree whose log is on
//! the one disk (`report` of `specs/Report.antt`): a line for each file in order of paths, with all who read it while nothing of other
//! owners is loaded, and then a line for each group that is unread for some file; or it is the line that tells why the log does not open
//! (`shares`). Each status has its cause (`usage`, `usage_only`, `causes`), the disk is back in its place whatever the status, and where
//! the disk tells a log and no count of faults rises, all was printed, or memory was wanting (`complete`). [`share_words`] gives exactly
//! what the words say.
#![tactic(auto)]

mod known;
mod plan;
mod ranked;
mod readers;
mod report;
mod search;
mod share;

pub use plan::{SharePlan, share_words};
pub use readers::{Readers, readers_of};
pub use share::share_run;
