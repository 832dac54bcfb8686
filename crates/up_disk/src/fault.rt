//! What every call of a disk that fails answers.
use thiserror::Error;

/// The disk did not do what it was asked for, and its count of faults rose, where it was below 2^64 - 1.
#[derive(Clone, Copy, Debug, PartialEq, Eq, Error)]
#[error("the disk failed")]
pub struct Failed;
