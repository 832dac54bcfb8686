//! Where a request goes, and what Put and Delete lead to: the record that is added to the tree's log, or the refusal.
//!
//! [`route_of`] looks at no tree: it answers whose log a request goes to, and which blocks have to be fetched for it, or what is
//! replied to a request that is malformed; [`tree_asked`] answers so for a request that was read before. [`put_record`] and
//! [`delete_record`] answer exactly what a Put and a Delete lead to over a tree in memory (`outcome`), and the record to which they lead
//! fits the tree's log (`fits`). They change nothing.
//!
//! What was fetched for a location, and whether one was named before, is found in the logarithm of their number.
#![tactic(auto)]

mod deletes;
mod fetching;
mod index;
mod puts;
mod routes;
mod texts;

pub use deletes::delete_record;
pub use fetching::Fetched;
pub use puts::put_record;
pub use routes::{Route, log_owner, route_of, tree_asked};
