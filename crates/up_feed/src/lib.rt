//! The leader's side of a feed: what a follower pulls of the log of a tree, out of a host that many share.
//!
//! A [`CellFeed`] is the feed of one tree in the same process: each pull lends the tree's cell once, and gives exactly the next 64 records
//! of the log that was lent, or all that are left (`given`). [`feed_talk`] is one connection of a follower: the sign-on, the frames and the
//! ends are those of every connection (`up_talk`), and each question is one such pull of the tree of whoever has signed on. What it does
//! is told by `Feeds` of `specs/Feeding.antt`. That the logs which the answers are over never get shorter is a law ([`feeds_never_fall`]).
//!
//! Nothing is added to any log through either.
#![tactic(auto)]

mod batch;
mod cell_feed;
mod laws;
mod pulling;
mod talking;

pub use cell_feed::CellFeed;
pub use laws::feeds_never_fall;
pub use talking::feed_talk;
