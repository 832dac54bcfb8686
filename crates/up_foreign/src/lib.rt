//! Which groups of other owners have to be loaded for a request.
//!
//! [`foreign`] over a tree and its log, and [`foreign_in`] over a tree in memory, give exactly the needed groups: those that are reached
//! from the texts that govern the places at which the request looks (`up_answers/specs/Needs.antt`), without those that have an answer;
//! [`foreign_asked`] does so for a request that was read before, and goes on from what was kept ([`KeptSearch`], `kept.rt`) of the round
//! before: where more is loaded, a search from the text that governs a path begins where it had come to the first group that had to be
//! loaded (`laws::needed_goes_on`).
//!
//! A Glob looks at each item that its pattern can match, a Watch at the path of each record above its sequence that is under the watched
//! path: in the tree as it is, and in the tree directly after the record. These records are found by their positions. A text that governs
//! many of these places is searched once in the tree as it is, and in the trees before once, and again only where it or a Group file has
//! changed since (`noted.rt`); each further place costs a look at the path. Where no text of the tree names a group of another owner, or
//! has named one, nothing is looked at. A Watch looks at its first changes, then passes over those before the first at which it can meet a
//! group that it has not found, of those that the tree's texts and the loaded ones name; and it ends its search once it has found all
//! (`left.rt`).
#![tactic(auto)]

mod groups;
mod items;
mod kept;
pub mod laws;
mod left;
mod needed;
mod noted;

pub use kept::KeptSearch;
pub use needed::{foreign, foreign_asked, foreign_in};
