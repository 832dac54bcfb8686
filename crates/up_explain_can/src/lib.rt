//! `upspin explain`: why lines are malformed, line by line; and the judge of the lines of `upspin can`.
//!
//! [`explain_with`] reads a script whole and asks a [`Judge`] of each of its lines. The numbers that it prints are exactly those of the
//! lines that the judge's definition has malformed (`meaning`): a malformed line counts for nothing in what follows. The words behind
//! a number are free, but each stands on one line. [`explain_can`] judges by the very definition of what a line of `upspin can`
//! does, `effect_of`; and [`can_ends_at_the_first`] ties the numbers to a run of `upspin can`: it ends with 1 exactly where there is one, and
//! prints the first as its `bad line N`.
#![tactic(auto)]

mod can;
mod can_judge;
mod can_words;
mod control_flaws;
mod explaining;
mod flaw;
mod judge;
mod laws;
mod names;
mod saying;
mod why;

pub use can::explain_can;
pub use explaining::explain_with;
pub use flaw::Flaw;
pub use judge::Judge;
pub use laws::can_ends_at_the_first;
pub use names::{text_named, user_named};
pub use why::{Why, bad_word};
