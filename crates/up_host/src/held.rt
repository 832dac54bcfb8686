//! A log's state, as a host keeps it.

/// A log's state, and how many records it had when the host was opened.
#[derive(Drop)]
pub struct Held<S> {
    pub state: S,
    pub base: u64,
}
