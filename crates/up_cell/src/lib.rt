//! A cell: one state whose entries only grow, which is lent to one seat at a time.
//!
//! A [`Seat`] is what one caller knows of a [`Cell`]. Contracts see it as `Known` of `specs/Known.antt`: the entries that it has seen, a
//! count that it loaded and how often it loaded, the positions of the entries that were added through it, how often the state failed in
//! its turns, what the state was when the cell was made, and its share of the cell. [`Cell::new`] gives the seat that has seen all
//! entries and has the whole share.
//!
//! [`Cell::lend`] waits for the turn and runs a [`Job`] on the state: the entries of the state that the job is lent begin with all that
//! the seat has seen, and are at least as many as it has loaded; what the job promises of this turn, `lend` promises (`Turned` of
//! `specs/Turned.antt`). [`Cell::seen`] is one load of the count (`seat`, `seen`, `floor`). [`Cell::split`] makes two seats of one and
//! halves the share (`first`, `second`), and [`Cell::join`] one of two, which has seen what either had (`joined`, `this`, `that`). These
//! three take no lock and wait for nobody. A seat of another cell is refused by a condition.
//!
//! Each entry that was added since the cell was made stands in the list of one seat, once. So whoever has the whole share has every
//! position in its own list, after each look and each turn (`HasEvery`: `every`).
//!
//! Nothing is promised of how long a turn is waited for, nor of an order between callers that told each other nothing. A turn that is not
//! free is tried for some times; then the thread sleeps until a turn is given back. A turn that nobody waited for makes no system call.
//!
//! `proofs/Turns.antt` has the lemmas on one turn for whoever keeps seats. What lies behind it all is a table with a word for the count,
//! one for the turn and one for those who sleep, and a slot with the state, under a rule that each step keeps (`specs/Kept.antt`).
#![tactic(auto)]

mod boxed;
mod calls;
mod cell;
mod job;
mod rule;
mod turn;
mod view;

pub use cell::{Cell, Seat};
pub use job::Job;
pub use view::View;
