//! What every call of a source, a sink or a verifier that fails answers.
use thiserror::Error;

/// A source, a sink or a verifier failed, and its count of faults rose, where it was below 2^64 - 1.
#[derive(Clone, Copy, Debug, PartialEq, Eq, Error)]
#[error("the source, sink or verifier failed")]
pub struct Failed;
