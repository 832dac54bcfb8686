//! What a request does to a tree over its log, once it is known what it leads to: a reply, or a record that is to be added.
//!
//! A request that changes nothing is replied to ([`replied`]). One that leads to a record adds it, or is answered by what
//! hindered it ([`change`]): `Steps` of `specs/Steps.antt` says how answer, log and disk hang together, for the tree of a log and for
//! its snapshot tree alike.
#![tactic(auto)]

mod adding;

pub use adding::{change, replied};
