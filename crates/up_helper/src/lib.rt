//! The words of a helper, and the two commands `upspin verify` and `upspin sign`, which stand in for one in tests.
//!
//! A helper is the program that a host asks whether a signature is good. It gets bytes as words of upper-case hexadecimal digits
//! ([`hex_word`], [`bytes_in`]). The contracts of [`verify_run`] and [`sign_run`] are those of the two commands from their words to
//! their status, over any sink: `verify` answers exactly whether the signature is the SHA-256 of the key and the message one after
//! the other (`answer`), and `sign` writes exactly that signature of a user whose key is its name (`signed`). It protects nothing.
#![tactic(auto)]

mod hex_words;
mod sign;
mod signatures;
mod verify;

pub use hex_words::{bytes_in, hex_word};
pub use sign::sign_run;
pub use verify::verify_run;
