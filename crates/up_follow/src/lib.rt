//! A follower: the log of a tree kept a second time, by records pulled from a feed, and answered from.
//!
//! A [`Feed`] gives the records of a leader's log in batches. [`Follower::pull`] takes one batch and adds its records in order, each
//! decoded once and tested once (`pulls`, `Pulls` of `specs/Pulls.antt`): what stopped it is told by the answer, and what came before
//! stands. Over any feed the log of before begins the log of after (`grows`). Over a feed that tells the leader's log, a follower's
//! log that was a front of it is one afterwards (`follows`), `Ok(0)` comes exactly where it was the whole of it (`whole`), and nothing
//! is strange where each of the leader's records decodes and fits those before it (`sound`). What a crash leaves is told of every
//! moment of the call.
//!
//! [`Follower::answer`] answers what only looks, by the same definition `answer` by which the leader's tree answers, with nothing
//! loaded; and leaves all as it was.
#![tactic(auto)]

mod fault;
mod feed;
mod follower;
mod list_feed;
mod reading;
mod taking;

pub use fault::{FeedFault, FollowWhy};
pub use feed::{Batch, Feed};
pub use follower::Follower;
pub use list_feed::ListFeed;
pub use reading::is_read;
