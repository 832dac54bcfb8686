//! Sign-on: a user shows by the signature of a challenge that it holds the key of its record.
//!
//! [`SignOn::begin`] makes the message of a host, a user and a challenge (`message`), for the key of the user's record (`key`).
//! [`SignOn::prove`] asks a verifier about the signature. It gives a [`Session`] of that user, key and message (`session`), and
//! no other call makes one. Where the verifier tells what it judged, this grew by exactly that question: with Yes for a session,
//! and with No for the refusal `No` (`judged`). `Fault` comes only where the verifier's count rose (`counts`),
//! and the count rises nowhere else, so that a verifier that failed is not asked again (`quiet`).
//!
//! The message ([`message`]) has one reading: by it the host, the user and the challenge are determined
//! ([`messages_have_one_reading`]), as far as hosts are named as [`HostName`] says and users are canonical.
//!
//! That the verifier's Yes is true is not proved: whoever is handed in as a verifier is trusted to judge signatures.
#![tactic(auto)]

mod fault;
mod host_name;
mod laws;
mod session;
mod sign_on;

pub use fault::SignFault;
pub use host_name::HostName;
pub use laws::messages_have_one_reading;
pub use session::Session;
pub use sign_on::{SignOn, message};
