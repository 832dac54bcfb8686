//! A peer in memory that has nothing.
ghost use Rattle.std.specs.Prelude.{◌≡◌, [], ◌++◌, Ok, IfOk};
ghost use Rattle.up_ends.specs.Telling.{Grew};
ghost use Rattle.up_lists.specs.Counts.{HasCause, StaysUnless};
ghost use Rattle.up_peer.specs.Asking.{call_of};
ghost use Rattle.up_peer.specs.declared.answers.PeerAnswer.TheVariants as answers;
ghost use Rattle.up_peer.specs.declared.answers.PeerQuestion.TheVariants as questions;

use crate::answers::{PeerAnswer, PeerCall, PeerQuestion};
use crate::peer::Peer;
use std::alloc::{AllocError, Global};
use std::marker::Model;
use up_names::Path;
use up_refs::Reference;

/// A peer in memory that has nothing: whatever its calls ask, they give `Nothing`. None fails. It tells what it was asked. A
/// call that finds no memory changes nothing.
#[derive(Drop)]
pub struct RefusingPeer {
    calls: Vec<PeerCall>,
}

impl Model for RefusingPeer {
    ghost use Rattle.std.specs.Prelude.{List};
    ghost use Rattle.up_peer.specs.declared.answers.PeerCall.{PeerCall};

    ghost Value = { List PeerCall };

    ghost view = { λ peer. peer.calls.items };
}

impl RefusingPeer {
    /// A peer that was asked nothing yet. It takes no memory.
    pub fn new(alloc: Global) -> RefusingPeer
        ensures { result ≡ [] }
    {
        RefusingPeer {
            calls: Vec::new(alloc),
        }
    }

    /// What it was asked so far, in order and with its answers.
    pub fn calls(&self) -> &[PeerCall]
        ensures { result.now ≡ self.now }
    {
        self.calls.as_slice()
    }

    // Notes a question, and answers that there is nothing.
    fn refuse(&mut self, question: PeerQuestion) -> Result<PeerAnswer, AllocError>
        ensures answer { IfOk result (λ answer. answer ≡ answers.Nothing) }
        ensures told { self.new ≡ self.old ++ call_of question result }
    {
        self.calls.push(PeerCall {
            question,
            answer: PeerAnswer::Nothing,
        })?;
        Ok(PeerAnswer::Nothing)
    }
}

impl Peer for RefusingPeer {
    ghost use Rattle.std.specs.Prelude.{Some};

    ghost asked = { λ peer. Some peer };

    ghost fault_count = { λ _. 0 };

    fn load(&mut self, _alloc: Global, group: &Path) -> Result<PeerAnswer, AllocError>
        ensures answer { IfOk result (λ answer. answer ≡ answers.Nothing) }

        ensures told { Grew (Some self.old) (Some self.new)
            (call_of (questions.Group group.now) result) }
        ensures counts { HasCause 0 0 (result ≡ Ok answers.Failed) }
        ensures quiet { StaysUnless 0 0 (result ≡ Ok answers.Failed) }
    {
        let question = PeerQuestion::Group(group.clone()?);
        self.refuse(question)
    }

    fn fetch(&mut self, _alloc: Global, reference: &Reference) -> Result<PeerAnswer, AllocError>
        ensures answer { IfOk result (λ answer. answer ≡ answers.Nothing) }

        ensures told { Grew (Some self.old) (Some self.new)
            (call_of (questions.Block reference.now) result) }
        ensures counts { HasCause 0 0 (result ≡ Ok answers.Failed) }
        ensures quiet { StaysUnless 0 0 (result ≡ Ok answers.Failed) }
    {
        self.refuse(PeerQuestion::Block(*reference))
    }

    fn faults(&self) -> u64 {
        0
    }
}
