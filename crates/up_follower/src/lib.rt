//! What `upspin follow` is run over on the machine: a leader over a connection, and the file of the log.
//!
//! [`leader_of`] and [`log_of`] make both of the command's words, and the program hands them to `follow_run` (`up_following`), whose promise
//! is that of the command. A [`SocketFeed`] is a leader that is dialled: it may answer anything, its failures are counted, and it gives at
//! most 64 records at once (`few`). What a file or a socket does is outside of every proof.
#![tactic(auto)]

mod file;
mod following;
mod socket_feed;

pub use file::{log_of, no_log};
pub use following::leader_of;
pub use socket_feed::SocketFeed;
