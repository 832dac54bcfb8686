//! One connection: the frames of a client in, and the frames of whoever answers it out.
//!
//! A connection is a sign-on and a run of its user's questions over whatever answers ([`Answers`]), which says what may be asked, by
//! which payload, and which payload answers it; a host has requests and replies. [`talk_to`] is the one loop. What is said of it is one
//! relation, `Talks` of `specs/Talks.antt`: which frames came and which were made for them (a transcript), how it ended and why, and
//! what was written.
//!
//! Frames are read where they lie in one buffer, which is kept. What is made for the frames of one read is written together, before the
//! next read and before the end: at most 64 KiB and what the last frame added. No length that is told reserves anything.
#![tactic(auto)]

mod answers;
mod end;
mod fault;
mod handling;
mod incoming;
mod message;
mod outgoing;
mod reading;
mod requests;
mod stage;
mod turns;

pub use answers::{Answers, Challenge};
pub use end::TalkEnd;
pub use message::FromClient;
pub use requests::request_of;
pub use turns::talk_to;
