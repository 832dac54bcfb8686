//! What a follower asks of a leader, and what it is answered: the messages of a feed, each with its one spelling.
//!
//! [`write_feed_ask`] and [`write_feed_reply`] write the one spelling of a message, [`read_feed_ask`] and [`read_feed_reply`] take exactly
//! the spellings. That no spelling begins another, and that a cut one is short, is a law ([`feed_messages_have_one_spelling`]). No number
//! of records that is told reserves anything.
#![tactic(auto)]

mod ask;
mod laws;
mod reply;
mod texts;

pub use ask::{FeedAsk, read_feed_ask, write_feed_ask};
pub use laws::feed_messages_have_one_spelling;
pub use reply::{FeedReply, read_feed_reply, write_feed_reply};
