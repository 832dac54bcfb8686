//! What a peer is asked, and what it answers.
ghost use Rattle.std.specs.Prelude.{◌≡◌, IfOk};

use std::alloc::{AllocError, Global};
use up_bytes::{Bytes, copy_of};
use up_names::Path;
use up_refs::Reference;

/// What a peer is asked for.
#[derive(Debug, Drop, PartialEq, Eq)]
pub enum PeerQuestion {
    /// The text of the group with this name.
    Group(Path),
    /// The block with this reference.
    Block(Reference),
}

/// What a peer answers.
#[derive(Debug, Drop, PartialEq, Eq)]
pub enum PeerAnswer {
    /// The bytes of the group's text, or of the block.
    Got(Bytes),
    /// It has no such text or block, or does not give it.
    Nothing,
    /// It could not be asked, or failed.
    Failed,
}

/// A question that a peer was asked, and its answer.
#[derive(Debug, Drop, PartialEq, Eq)]
pub struct PeerCall {
    pub question: PeerQuestion,
    pub answer: PeerAnswer,
}

impl PeerAnswer {
    /// A copy, in memory of its own.
    pub fn copied(&self, alloc: Global) -> Result<PeerAnswer, AllocError>
        ensures { IfOk result (λ copy. copy ≡ self.now) }
    {
        match self {
            PeerAnswer::Got(bytes) => Ok(PeerAnswer::Got(copy_of(alloc, bytes.as_slice())?)),
            PeerAnswer::Nothing => Ok(PeerAnswer::Nothing),
            PeerAnswer::Failed => Ok(PeerAnswer::Failed),
        }
    }
}
