//! A log that does not open.

use up_journal::OpenWhy;

/// The place of a log that does not open among all logs, from 0, and why it does not.
#[derive(Clone, Copy, Debug, PartialEq, Eq)]
pub struct Refused {
    pub which: u64,
    pub why: OpenWhy,
}
