//! Why a line is malformed.
ghost use Rattle.std.specs.Prelude.{◌≡◌};
ghost use Rattle.up_explain_can.specs.declared.why.Why.TheVariants.{OutOfMemory};

use crate::flaw::Flaw;
use std::alloc::{AllocError, AllocFailed, Global};
use up_bytes::{Bytes, copy_of};

/// How many bytes of a word are kept to be shown, at most.
const MOST_KEPT: usize = 256;

/// Why a line is malformed, or that this was not found out.
#[derive(Debug, Drop)]
pub enum Why {
    /// A flaw of the line as a whole.
    Line(Flaw),
    /// A flaw of this word of it: the text that it stands for, or the word where it stands for none; of a long one the front.
    Word(Bytes, Flaw),
    /// A flaw in a line of an Access text, whose number this is, from 1, and in this word of it; empty where it is in none.
    AccessText(u64, Bytes, Flaw),
    /// The same of a Group text.
    GroupText(u64, Bytes, Flaw),
    /// There was no memory to judge the line.
    OutOfMemory,
}

impl From<AllocError> for Why {
    ghost from_gives = { λ _ why. why ≡ OutOfMemory };

    fn from(_error: AllocError) -> Why {
        Why::OutOfMemory
    }
}

impl<T: Drop> From<AllocFailed<T>> for Why {
    ghost from_gives = { λ _ why. why ≡ OutOfMemory };

    fn from(_error: AllocFailed<T>) -> Why {
        Why::OutOfMemory
    }
}

/// A flaw of a word; or that there is no memory to say so.
pub fn bad_word(alloc: Global, word: &[u8], flaw: Flaw) -> Why {
    match kept(alloc, word) {
        Ok(word) => Why::Word(word, flaw),
        Err(_) => Why::OutOfMemory,
    }
}

/// As much of a word as is kept.
pub(crate) fn kept(alloc: Global, word: &[u8]) -> Result<Bytes, AllocError> {
    let (front, _) = word.split_at(MOST_KEPT.min(word.len()));
    copy_of(alloc, front)
}
