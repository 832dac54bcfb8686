//! A journal over any disk: a list of payloads of which a crash at any moment leaves all that were acknowledged, and
//! at most one further. No checksum is trusted for that: the gate of a record stands closed on the disk before the
//! record is written, and is opened by a write of its own after a sync. Each record carries the SHA-256 digest of the
//! one before it, so that a log that was changed is known by its last digest.
//!
//! Over a disk that tells its content, a crash at any moment of a call leaves an image whose log is that of the call's start or
//! of its end, or that log with one further record (`any_moment`); for `open` this needs a disk with nothing pending. After an
//! `Ok` of `append` each crash leaves the log with the new record (`safe`, `appended`). `open` gives exactly the log of the
//! image, or the place of the first gate that is damaged, or at which a link is not the digest of the record before; `Full`
//! comes exactly at the limits and before any call of the disk; a fault comes only where the disk's count rose. A disk over a
//! real file tells nothing, and what these clauses say of images is then empty. A disk tells its content after a call, refused
//! or not, exactly where it did before (`told` of `append` and `resolve`, `opened` of `open`, `content` of the reads).
//!
//! [`same_heads`] answers yes exactly where two journals have equally many records and the same head (`exact`); their logs
//! are then equal, or two different byte strings among their records have one SHA-256 (`meaning`).
//!
//! [`migrate`] moves the log of a device of the first format to another device: `Already`, the number of records copied, the
//! place of a damage, or how many records keep the limits, each exactly where it is so (`already`, `copied`, `damaged`, `full`).
//! The old device is synced first and never written (`synced`, `old_stays`). A crash at any moment leaves a new device that does
//! not begin with the name of the second format, or one that has the old one's log (`crash`); this needs a new device with
//! nothing pending that does not begin with the name. Of an old device that tells nothing these clauses are empty.
//!
//! Bytes from a gate on read in one way, in both formats, and an image has what they read as ([`gates_have_one_reading`],
//! [`images_read_by_their_gates`]).
//!
//! What a reader over the journal needs stands beside it, whatever its records are: `specs/Records.antt` and
//! `specs/Logs.antt` with their lemmas.
#![tactic(auto)]

mod fault;
mod format;
mod image;
mod journal;
mod laws;
mod limits;
mod moves;
mod old;
mod open;
mod read;
mod record;
mod same;
mod switch;

pub use fault::{AppendWhy, MoveWhy, OpenFault, OpenWhy, ReadWhy};
pub use format::{FIRST_GATE, HEAD};
pub use journal::Journal;
pub use laws::{gates_have_one_reading, images_read_by_their_gates};
pub use limits::Limits;
pub use moves::{Moved, migrate};
pub use same::same_heads;
