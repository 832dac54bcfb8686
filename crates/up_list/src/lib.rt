//! Links, Glob, and the replies of a tree to who looks at it.
//!
//! All is answered over any tree: [`Onlooker`] is a user before a tree, the tree of a log or a snapshot tree, with what was loaded
//! of the groups of others. Its ghost `look` is that tree, its owner, the user and the loaded texts; each reply here is exactly
//! the definition's over `look`, and want of memory alone is free.
//!
//! [`asked_of`] reads what a request asks of a directory, or says what of it is malformed (`asked_of` of `specs/Asking.antt`).
//! [`check`] tests links, and then rights (`check` of `specs/Checks.antt`): the link at the shortest prefix is met first, and is
//! told to who has a right on it alone.
//!
//! [`lookup`], [`which_access`] and [`group_text`] reply as `specs/Reads.antt` says, [`glob_for`] as `specs/Globs.antt` does: the
//! rows of the items that match, in order of paths, each entry as the user is shown it. It looks into those directories alone
//! whose names match on the way; what it finds there, level by level, are the rows (`rows_sorted` of `proofs/SortLemmas.antt`).
//!
//! [`first_link`] and [`glob`] are asked of a tree over its log, by the same definitions.
//!
//! A [`TreeView`] is a tree over its log, and a [`MemView`] one in memory, as it is or as it was after its first records: what rights
//! are read by (`up_policy`'s `Facts`). A [`TreeLook`] is an onlooker of the tree in memory as it is.
#![tactic(auto)]

mod asking;
mod checks;
mod decided;
mod found;
mod globs;
mod onlooker;
mod reads;
mod state;
mod tree_view;
mod view;
mod walk;

pub use asking::{ReadRequest, asked_of};
pub use checks::check;
pub use found::Found;
pub use globs::glob_for;
pub use onlooker::Onlooker;
pub use reads::{group_text, lookup, which_access};
pub use state::{first_link, glob};
pub use tree_view::TreeView;
pub use up_mem_tree::is_group;
pub use view::{MemView, TreeLook, path_made};
