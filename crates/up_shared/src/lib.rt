//! A host that many callers ask at once.
//!
//! In a [`Shared`] each tree, the store and the keys of a host lie in a cell of their own, and no lock stands round them all. What one
//! caller has of it is in its [`Seats`], one at each cell: what it has seen of each log, which of its records are its own, how often a
//! disk failed in its turns, and its share. [`Shared::split`] makes seats for a second caller, and [`Shared::join`] takes them in
//! again. That seats are those of a host (`AreSeats` of `specs/Sharing.antt`) is a condition of each call, and each call keeps it.
//!
//! [`Shared::ask`] answers a request. What its caller learns is `Asked` of `up_calls`, the same as of a host that has one caller, over
//! what its seats have before and after; that it looked at the log in this call and was answered over no fewer records than it then
//! counted (`looked`); and that the seat's count of failures rose where a disk failed (`risen`), and no disk failed in its turns but as the
//! event shows (`quiet`). What has to be fetched and loaded is so outside the turn of the log that answers, each log in a turn of its own.
#![tactic(auto)]

mod asking;
mod caller;
mod jobs;
mod lending;
mod records;
mod seats;
mod shared;
mod splitting;

pub use shared::{Seats, Shared, TreeCell, TreeSeat};
