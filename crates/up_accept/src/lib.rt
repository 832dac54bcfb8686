//! Connections that come, many at once: each is answered in a thread of its own, by whoever answers.
//!
//! [`serve_each`] accepts so many connections, and returns when all of them have ended. Each has a part of what answers ([`Attends`]),
//! split off for it; where there is no memory for that, or where no thread starts, it is answered in the thread that accepts. At most so
//! many are answered at once, and further ones wait unaccepted. Nothing is promised of how long a connection waits.
#![tactic(auto)]

mod accepting;
mod attends;
mod room;
mod serving;

pub use accepting::accepted;
pub use attends::Attends;
pub use serving::{Bounds, serve_each};
