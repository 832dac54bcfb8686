//! One connection of many to a host that callers share.
//!
//! [`talk`] answers a client by a shared host, with seats that are one connection's own, and by whoever stands behind the host. What is
//! said of the connection is that of `up_talk`, where each request is one call with all that `Shared::ask` promises: each reply is that
//! of one point of its log's one history, not before anything that the seats had seen. It waits for the turns of the logs.
#![tactic(auto)]

mod laws;
mod together;

pub use laws::shares_come_together;
pub use together::talk;
