//! The limits of a journal.
ghost use Rattle.std.specs.Prelude.{◌≡◌, ◌<◌, ◌+◌, ◌||◌, nat_le, nat_lt};
ghost use Rattle.up_journal.specs.Format2.{head_size};

use crate::format::HEAD;

/// `records` and `device` bound the records of a log and the bytes of its device, up to and with the closed gate, as
/// far as appending goes; `largest` bounds the bytes of one payload. Where a journal takes limits, `largest` is below
/// 2^32 and `device` at most 2^62.
#[derive(Clone, Copy, Debug, PartialEq, Eq)]
pub struct Limits {
    pub records: u64,
    pub device: u64,
    pub largest: u64,
}

/// The place of a payload on the device, and its bytes.
#[derive(Clone, Copy, Debug, PartialEq, Eq)]
pub struct Span {
    pub at: u64,
    pub size: u64,
}

/// Whether a log of so many records, whose closed gate stands at that place, would pass the limits with a payload of so
/// many bytes more.
pub fn is_full(limits: Limits, records: u64, gate: u64, size: u64) -> bool
    ensures { result ≡ (nat_le limits.records records
        || nat_lt limits.device (gate + 1 + size + head_size)) }
{
    if records >= limits.records || gate >= limits.device {
        return true;
    }
    let left = limits.device - gate - 1;
    left < HEAD || left - HEAD < size
}
