//! The tree that a log gives, kept in memory.
//!
//! A [`MemTree`] is seen as its owner, the records of its log, and the record that was made ready to be entered next. Each entry is kept
//! once, in its record. `node` is exactly what stands at a path, `standing` what stands nearest to it on the way up, `child` a directory's
//! children in the order of paths, `access_at` and `group_at` the texts of control files after any number of records, `nearest_at` the one
//! that governs a path; `fits` tells exactly whether a record fits the log. `make_ready` takes all memory that a record needs, so that
//! `enter` takes none. Each call costs what it looks at, times a logarithm: so do `positions_under`, of the changes at and below a path,
//! and `texts_stay`, by which what a text decided at one position is known to hold at another, whatever the records between them change.
//! `others` has each group of another owner that a text names, or has named, and `first_naming` a position before which no change can meet
//! such a group by the tree's own texts. `laws.rt` says what holds of every log.
#![tactic(auto)]

mod changes;
mod changes_below;
mod edits;
mod entering;
mod fitting;
mod gone;
mod groups;
mod guesses;
mod history;
mod kept;
mod laws;
mod making;
mod mem_tree;
mod namings;
mod nearest;
mod nodes;
mod others;
mod positions;
mod reading;
mod rooms;
mod slots;
mod standing;
mod starts;
mod steps;
mod walk;

pub use fitting::has_snapshots;
pub use groups::is_group;
pub use laws::{
    fits_is_told_by_rules, fronts_are_logs, items_stand_below_directories,
    items_stand_in_directories, sequences_are_positions,
};
pub use mem_tree::MemTree;
pub use nodes::{NodeRef, put_by};
