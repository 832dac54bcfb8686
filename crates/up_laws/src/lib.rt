//! The laws of two worlds as contracts of calls: what a user is answered depends on what the user sees alone.
//!
//! [`two_worlds`] asks two trees the same; [`two_histories`] makes two lists of turns on two trees, in which others do what they like;
//! [`more_texts`] tests a right with less loaded and with more. The trees' disks may be of different types. All stands on the contract
//! of `up_dir::step` alone, and on the laws of `up_answers::laws`.
//!
//! `specs/Turns.antt` has what a turn is and when it stops a run, `specs/Worlds.antt` and `specs/Histories.antt` what the two calls
//! promise.
#![tactic(auto)]

mod histories;
pub mod laws;
mod texts;
mod turns;
mod worlds;

pub use histories::two_histories;
pub use texts::more_texts;
pub use turns::{Pairs, Turn};
pub use worlds::two_worlds;
