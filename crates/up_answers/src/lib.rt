//! The answer to a request over a tree's log, as definitions, and the laws on it. All that a server ever says of a tree is said by
//! these definitions.
//!
//! `specs/Answers.antt` has what a request leads to (`outcome`), what is answered (`answer`), and the record that is added (`added`):
//! by Put and Delete (`specs/Puts.antt`, `specs/Deletes.antt`), by Watch (`specs/Watches.antt`), and in a snapshot tree
//! (`specs/SnapshotTrees.antt`, `specs/SnapshotReplies.antt`). `specs/Needs.antt` has the groups that have to be loaded,
//! `specs/Views.antt` what a user sees at a path, and `specs/Agreement.antt` when two logs agree for a user.
//!
//! The laws are the contracts of the functions of [`laws`]. Above all, [`laws::answers_agree`]: two logs that agree for a user give
//! the user the same answer, to whatever is asked.
#![tactic(auto)]

pub mod laws;
