//! One connection to a host that is not shared, and how long the replies of a host are.
//!
//! [`talk_alone`] answers a client by a host that has one caller, and by whoever stands behind it. What is said of the connection is
//! that of `up_talk`, where each request is one call of the host with all that `Host::ask` promises of it; so each answer is that of
//! its log at the log's length of that moment.
//!
//! The payload of a reply has at most 67,108,864 bytes, whatever a tree, the store or the keys of a host answer. A reply of what was done is
//! bounded where it is made, or is small by the limits of the records that it is made of; every other one is small, also that with the
//! link that is to be followed, since a link has neither blocks nor packdata. [`laws`] says this of the definitions by which a host answers, so
//! it holds of each call of a host, shared or not, and of each frame that answers a connection's request. Two things are asked of the values
//! there: that the log's records fit, as those of each log that was opened do, and that the reply is one that the program can hold (its names are
//! canonical, its references have 32 bytes).
#![tactic(auto)]

mod alone;
pub mod laws;

pub use alone::talk_alone;
