//! What is asked of a server, what it answers, and the messages that carry both.
//!
//! The types are the whole vocabulary of requests and replies: directory, store and key server each take their part of
//! `Request` and answer a `Reply`.
//!
//! [`write_client`] and [`write_server`] write the one spelling of a message ([`write_request`] that of a request that somebody else owns), [`read_client`] and [`read_server`] take exactly
//! the spellings and answer `Short` and `Spelling` by the first field that fails, or by the first byte behind the last one.
//! [`reply_size`] is exactly the length of what `write_server` would give; [`bounded`] puts `TooLarge` in place of a reply of
//! what was done that is longer than 67,108,864 bytes. That no spelling begins another, and that a cut one is short, are laws
//! ([`messages_have_one_spelling`], [`key_records_have_one_spelling`]).
#![tactic(auto)]

mod answering;
mod asking;
mod keys;
mod laws;
mod messages;
mod replies;
mod requests;
mod rows;
mod shapes;
mod words;

pub use answering::{bounded, reply_size};
pub use asking::write_request;
pub use keys::{KeyCard, KeyRecord, key_record_size, read_key_record, write_key_record};
pub use laws::{key_records_have_one_spelling, messages_have_one_spelling};
pub use messages::{
    ClientFrame, ServerFrame, read_client, read_server, write_client, write_server,
};
pub use replies::{Done, Reply, Row, WatchEvent};
pub use requests::Request;
