//! Boxed peers.
ghost use Rattle.up_peer.specs.declared.answers.PeerQuestion.TheVariants as questions;
ghost use Rattle.up_peer.specs.declared.answers.PeerAnswer.TheVariants as answers;

use crate::answers::PeerAnswer;
use crate::peer::Peer;
use std::alloc::{AllocError, Global};
use up_names::Path;
use up_refs::Reference;

/// A peer of any kind. It tells what the peer in the box tells.
#[derive(Drop)]
pub struct BoxedPeer {
    pub peer: Box<dyn Peer + Send>,
}

impl Peer for BoxedPeer {
    ghost asked = { λ boxed. (Peer-box boxed.peer).asked boxed.peer.value };

    ghost fault_count = { λ boxed. (Peer-box boxed.peer).fault_count boxed.peer.value };

    fn load(&mut self, alloc: Global, group: &Path) -> Result<PeerAnswer, AllocError> {
        self.peer.load(alloc, group)
    }

    fn fetch(&mut self, alloc: Global, reference: &Reference) -> Result<PeerAnswer, AllocError> {
        self.peer.fetch(alloc, reference)
    }

    fn faults(&self) -> u64 {
        self.peer.faults()
    }
}
