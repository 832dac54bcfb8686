//! `upspin follow`: what the lines of its input do, what is printed, and the status of a run.
//!
//! The contract of [`follow_run`] is the promise of `upspin follow` from end to end, over any feed, source, sink and disk. The input is
//! read whole first; then the disk is opened as the owner's log, and each line in turn pulls from the feed, or asks the follower as a
//! user whom it names. `Follows` of `specs/FollowAnswers.antt` has what is then left: of a log that did not open, why; of one that did,
//! `Followed` (`specs/FollowRuns.antt`): what each line did, one after the other (`LineCame`), and that what is written is their text.
//! Each status has its cause, and the disk is back in its place whatever the status.
#![tactic(auto)]

mod follow;
mod line;
mod owner;
mod run;
mod stop;
mod turns;

pub use follow::{follow_run, follow_within};
pub use line::FollowLine;
pub use owner::follow_owner;
pub use stop::LineStop;
