//! Snapshot trees: under the moment of each snapshot, the tree as it was.
//!
//! A snapshot tree is a tree like any other (`snapshot_tree` of `up_answers`): the tree of the records before each Snap, moved under
//! the UTC date and time of its moment, with made-up directories of year, month and day above. No old tree is made for it: at each
//! path stands what the first snapshot shows that bears on the path ([`first_snapshots_show`]), and what stood at a path after the
//! first records is read off the last change of that path among them. [`item_at`] finds it. At or below the root of a snapshot the
//! path itself tells the moment, and a step back is made for each later change of the path; above, a step for each snapshot of the log.
//!
//! A [`SnapLook`] is a user before that tree: an `Onlooker`, over which `up_list` answers. A directory of years, months, days or
//! roots is listed by a step for each snapshot of the log; one that a snapshot shows by the paths in the old directory that some record
//! changes, those that stand there now and those that stood there once.
//!
//! [`snap_step`] answers a request on the snapshot tree: exactly what `answer` of `up_answers` says, whatever was loaded or fetched. A
//! snapshot is added exactly where the reply is its position. [`snap_asked`] answers so a request that was read before. [`snap_path`] is
//! where a snapshot is shown.
#![tactic(auto)]

mod laws;
mod listing;
mod look;
mod moments;
mod old;
mod outcome;
mod shown;
mod snap_user;
mod standing;
mod step;
mod written;

pub use laws::{first_snapshots_show, snapshot_trees_are_rooted};
pub use look::SnapLook;
pub use moments::root_at;
pub use shown::Shown;
pub use snap_user::snap_path;
pub use standing::item_at;
pub use step::{snap_asked, snap_step};
