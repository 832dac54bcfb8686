//! Peers: the other hosts that are asked for the group texts of other owners and for blocks with an address.
//!
//! A [`Peer`] is asked for the text of a group or for a block. What it was asked, where it tells it, grows by exactly this
//! question with its answer, and by nothing on want of memory (`told`); it answers `Failed` only where its count rose (`counts`),
//! and where it answers anything else the count is as before (`quiet`).
//!
//! A [`Loader`] is what a host asks. What it gives is a relation between its state before, a question, the answer or want of
//! memory, and its state after (`given`); its count is a peer's (`counts`, `quiet`); an object that holds a borrowed loader is tied to it (`tie`, with the laws `same` and
//! `joined`).
//!
//! [`Peers`] is a list of boxed peers, each with the owners whose trees it has and the address whose blocks it has. As a loader
//! it asks the first peer that has the owner or the address, and no other: that peer alone changes, and the answer is exactly
//! what is made of its own (`LoadsFrom` and `FetchesFrom` of `specs/Loading.antt`). A group's text is read: `Text`, or `BadText`
//! with the number of its first bad line. `Missing` comes where nobody has the owner or the address, or where the peer has
//! nothing; `Failed` where the peer failed. A refused `add` leaves the list as it was (`refused`); `faults` and `close` answer
//! the sum of the counts.
//!
//! [`ListPeer`] and [`RefusingPeer`] are peers in memory, whose answers are told (`answer`, `after`).
#![tactic(auto)]

mod answers;
mod boxed;
mod list_peer;
mod loader;
mod peer;
mod peers;
mod refusing_peer;

pub use answers::{PeerAnswer, PeerCall, PeerQuestion};
pub use boxed::BoxedPeer;
pub use list_peer::ListPeer;
pub use loader::Loader;
pub use peer::Peer;
pub use peers::{PeerList, Peers};
pub use refusing_peer::RefusingPeer;
