//! The key server's log: a card for each user, kept over a journal.
//!
//! Contracts see [`Keys`] as the log of its records. All else is said by the key map (`keys_of`), a fold over that log in which
//! the last record of a user counts. [`Keys::lookup`] answers exactly what the map has. [`Keys::put`] adds the record as the last
//! one, is `Full` exactly at the limits, and a `Fault` where the disk's count rose (`puts`), and only there (`quiet`); a crash at any moment leaves
//! the log, or it with the record in hand or with the doubtful one, and after `Ok` it with the record. [`Keys::open`] takes
//! exactly the logs whose records decode and keep their bounds (`opens`, `refuses`), and at every moment each record of the log
//! does (`fitting` of [`Keys::position`]).
//!
//! [`key_step`] answers a request exactly by the rules, in their order, with the record that is added or none (`steps`), and `Io`
//! where the disk's count rose (`cause`), and only there (`quiet`).
#![tactic(auto)]

mod bounds;
mod copying;
mod keys;
mod replay;
mod step;

pub use bounds::keeps_bounds;
pub use copying::copied;
pub use keys::Keys;
pub use step::key_step;
