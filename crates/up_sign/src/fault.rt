//! Why a sign-on gives no session.

use std::error::Error;
use std::fmt;

/// Why a sign-on gives no session.
#[derive(Clone, Copy, Debug, PartialEq, Eq)]
pub enum SignFault {
    /// The signature is not that of the message by the user's key.
    No,
    /// The verifier failed.
    Fault,
}

impl fmt::Display for SignFault {
    fn fmt<W: fmt::Write>(&self, f: &mut fmt::Formatter<W>) -> fmt::Result {
        match self {
            SignFault::No => write!(f, "the signature is not the user's"),
            SignFault::Fault => write!(f, "the verifier failed"),
        }
    }
}

impl Error for SignFault {}
