//! What is answered to a user in a directory whose Access file gives all to that user, over a tree of which no more is known.
//!
//! `specs/Plots.antt` says what is known of the tree. That each answer is then as `proofs/` has it is proved for every owner, directory and
//! user, and rests on the definitions of rights and answers alone.
#![tactic(auto)]

/// Nothing.
pub fn nothing() {}
