//! Topics of stored cases about texts, names, rights and messages: what the lines of a file say, and what is answered to them.
//!
//! This crate promises nothing: the program `up_cases` runs on it.
#![tactic(auto)]

mod ends;
mod frames;
mod lists;
mod messages;
mod names;
mod patterns;
mod peers;
mod references;
mod replies;
mod requests;
mod rights;
mod signing;
mod texts;

pub use ends::Ends;
pub use frames::Streams;
pub use messages::Messages;
pub use names::Names;
pub use patterns::Patterns;
pub use peers::{PeerLines, add_calls, ask_peer_all};
pub use references::References;
pub use replies::Replies;
pub use requests::Requests;
pub use rights::Rights;
pub use signing::Signing;
pub use texts::Texts;
