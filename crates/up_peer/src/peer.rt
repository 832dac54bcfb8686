//! What a peer promises.
ghost use Rattle.std.specs.Prelude.{◌≡◌, ℕ, List, Ok};
ghost use Rattle.std.specs.declared.option.Option.{Option};
ghost use Rattle.up_ends.specs.Telling.{Grew};
ghost use Rattle.up_lists.specs.Counts.{HasCause, StaysUnless};
ghost use Rattle.up_peer.specs.Asking.{call_of};
ghost use Rattle.up_peer.specs.declared.answers.PeerCall.{PeerCall};
ghost use Rattle.up_peer.specs.declared.answers.PeerQuestion.TheVariants as questions;
ghost use Rattle.up_peer.specs.declared.answers.PeerAnswer.TheVariants as answers;

use crate::answers::PeerAnswer;
use std::alloc::{AllocError, Global};
use up_names::Path;
use up_refs::Reference;

/// Another host, which is asked for group texts and blocks. A call that finds no memory adds nothing to what it was asked.
pub trait Peer: Drop {
    /// What it was asked so far, in order and with its answers, where it tells them.
    ghost asked: { Self → Option (List PeerCall) };

    /// How many of its calls failed so far. A count that stands at 2^64 - 1 stays there.
    ghost fault_count: { Self → ℕ };

    /// Asks for the text of a group. The peer knows by itself as whom it asks.
    fn load(&mut self, alloc: Global, group: &Path) -> Result<PeerAnswer, AllocError>
        ensures told { Grew (asked self.old) (asked self.new)
            (call_of (questions.Group group.now) result) }
        ensures counts { HasCause (fault_count self.old) (fault_count self.new)
            (result ≡ Ok answers.Failed) }
        ensures quiet { StaysUnless (fault_count self.old) (fault_count self.new)
            (result ≡ Ok answers.Failed) };

    /// Asks for the block with a reference. That the bytes have the reference is not said.
    fn fetch(&mut self, alloc: Global, reference: &Reference) -> Result<PeerAnswer, AllocError>
        ensures told { Grew (asked self.old) (asked self.new)
            (call_of (questions.Block reference.now) result) }
        ensures counts { HasCause (fault_count self.old) (fault_count self.new)
            (result ≡ Ok answers.Failed) }
        ensures quiet { StaysUnless (fault_count self.old) (fault_count self.new)
            (result ≡ Ok answers.Failed) };

    /// How many of its calls failed so far.
    fn faults(&self) -> u64
        ensures { result ≡ fault_count self.now };
}
