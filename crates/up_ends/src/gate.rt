//! Where workers wait for one another.

/// Called before and after each request of a worker, by the worker's number and that of its call. It promises
/// nothing.
pub trait Gate {
    /// Before the call.
    fn enter(&self, worker: u64, call: u64);

    /// After the call.
    fn leave(&self, worker: u64, call: u64);
}

/// A gate at which nobody waits.
#[derive(Clone, Copy, Debug, PartialEq, Eq)]
pub struct OpenGate;

impl Gate for OpenGate {
    fn enter(&self, _worker: u64, _call: u64) {}

    fn leave(&self, _worker: u64, _call: u64) {}
}
