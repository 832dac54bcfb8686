//! What the reports over the logs of a stopped server share: the logs are opened, each at its place in a list of disks, and the disks
//! come back in their places, whatever happened.
//!
//! [`open_trees`] and [`open_logs`] open the first disks one after the other, as the trees of some owners, and as the store behind them.
//! After an `Err` all disks are back in their places: those before the refused one as they were opened, the refused one as it was handed
//! back, those behind it untouched (`RefusesLogs`). After an `Ok`, [`put_trees`] and [`put_logs`] put them back, and take no memory.
//! [`tell_refused`] prints the line of a log that does not open, and answers the status of that (`refused_by`); [`tell`] prints any last
//! line. [`owner_in`] reads whose tree a text names. A server prints the same before it listens, by the same calls.
#![tactic(auto)]

mod logs;
mod opening;
mod owners;
mod refused;
mod telling;

pub use logs::{Logs, open_logs, put_logs};
pub use opening::{open_trees, put_back, put_trees};
pub use owners::owner_in;
pub use refused::Refused;
pub use telling::{Last, add_number, damaged_line, silent, tell, tell_refused};
use up_journal::Limits;

/// The limits of the trees and the store of the servers whose logs are read. A record of the store may have 1,048,640 bytes.
pub const LIMITS: Limits = Limits {
    records: 1_048_576,
    device: 1_073_741_824,
    largest: 131_072,
};
