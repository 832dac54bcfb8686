//! Many connections.
mod crowd;
