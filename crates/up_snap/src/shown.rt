//! The snapshot that shows what stands at a path.

/// A snapshot of a log.
#[derive(Clone, Copy, Debug, PartialEq, Eq)]
pub struct Shown {
    /// The position of its record, from 1.
    pub position: u64,
    /// Its moment, in seconds since 1970.
    pub time: u64,
}
