//! The tree that a log gives: definitions that the tree in memory, and all that is answered of a tree, stand on.
//!
//! `specs/Trees.antt` has a tree (`Tree`), what a record makes of it (`after_record`), and the tree of a log (`tree_of`);
//! `specs/Fits.antt` which record fits a log as its next one (`Fits`), and what a log is (`IsLog`); `specs/Rights.antt` what a
//! tree says of rights (`facts_of`); `specs/Changes.antt` and `specs/Snapshots.antt` the changes and snapshots of a log;
//! `specs/Logs.antt` a log with its owner and limits, and its bytes.
#![tactic(auto)]

mod node;

pub use node::Node;
