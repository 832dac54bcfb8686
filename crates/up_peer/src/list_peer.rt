//! A peer in memory that gives answers of a list.
ghost use Rattle.std.specs.Prelude.{◌≡◌, [], Ok, OnErr, IfOk, OnOk};
ghost use Rattle.up_ends.specs.Telling.{Grew};
ghost use Rattle.up_lists.specs.Counts.{HasCause, StaysUnless};
ghost use Rattle.up_peer.specs.Asking.{call_of};
ghost use Rattle.up_peer.specs.InMemory.{after_call, faults_after, next_answer};
ghost use Rattle.up_peer.specs.declared.answers.PeerAnswer.TheVariants as answers;
ghost use Rattle.up_peer.specs.declared.answers.PeerQuestion.TheVariants as questions;

use crate::answers::{PeerAnswer, PeerCall, PeerQuestion};
use crate::peer::Peer;
use std::alloc::{AllocError, Global};
use std::collections::VecDeque;
use std::marker::Model;
use up_lists::Items;
use up_names::Path;
use up_refs::Reference;

/// A peer in memory. Whatever its calls ask, they give the answers of its list in order, and then `Nothing`. Each `Failed`
/// counts as a fault. It tells what it was asked. A call that finds no memory changes nothing.
#[derive(Drop)]
pub struct ListPeer {
    coming: VecDeque<PeerAnswer>,
    calls: Vec<PeerCall>,
    faults: u64,
}

impl Model for ListPeer {
    ghost use Rattle.up_peer.specs.InMemory.{AnswerList};

    ghost Value = { AnswerList };

    ghost view = { λ peer. record {
      coming = peer.coming.items;
      calls = peer.calls.items;
      faults = peer.faults;
    } };
}

impl ListPeer {
    /// A peer that gives these answers, and was asked nothing yet.
    pub fn new(alloc: Global, answers: Items<PeerAnswer>) -> ListPeer
        ensures { result ≡ record { coming = answers; calls = []; faults = 0 } }
    {
        ListPeer {
            coming: VecDeque::from(answers.into_vec()),
            calls: Vec::new(alloc),
            faults: 0,
        }
    }

    /// What it was asked so far, in order and with its answers.
    pub fn calls(&self) -> &[PeerCall]
        ensures { result.now ≡ self.now.calls }
    {
        self.calls.as_slice()
    }

    // Gives the next answer, and notes it with the question.
    fn answer(&mut self, alloc: Global, question: PeerQuestion) -> Result<PeerAnswer, AllocError>
        ensures answer { IfOk result (λ answer. answer ≡ next_answer self.old.coming) }
        ensures after { OnOk result (self.new ≡ after_call self.old question) }
        ensures untouched { OnErr result (self.new ≡ self.old) }
        ensures counts { HasCause self.old.faults self.new.faults (result ≡ Ok answers.Failed) }
        ensures quiet { StaysUnless self.old.faults self.new.faults (result ≡ Ok answers.Failed) }
    {
        let answer = self.next_answer(alloc)?;
        self.calls.push(PeerCall { question, answer })?;
        let given = self.coming.pop_front().unwrap_or(PeerAnswer::Nothing);
        self.faults = counted(self.faults, &given);
        Ok(given)
    }

    // A copy of the next answer.
    fn next_answer(&self, alloc: Global) -> Result<PeerAnswer, AllocError>
        ensures { IfOk result (λ answer. answer ≡ next_answer self.now.coming) }
    {
        match self.coming.front() {
            Some(answer) => answer.copied(alloc),
            None => Ok(PeerAnswer::Nothing),
        }
    }
}

// A count of failures after an answer.
fn counted(faults: u64, answer: &PeerAnswer) -> u64
    ensures after { result ≡ faults_after faults answer.now }
    ensures counts { HasCause faults result (answer.now ≡ answers.Failed) }
    ensures quiet { StaysUnless faults result (answer.now ≡ answers.Failed) }
{
    match answer {
        PeerAnswer::Failed => faults.saturating_add(1),
        PeerAnswer::Got(_) | PeerAnswer::Nothing => faults,
    }
}

impl Peer for ListPeer {
    ghost use Rattle.std.specs.Prelude.{Some};

    ghost asked = { λ peer. Some peer.calls };

    ghost fault_count = { λ peer. peer.faults };

    fn load(&mut self, alloc: Global, group: &Path) -> Result<PeerAnswer, AllocError>
        ensures answer { IfOk result (λ answer. answer ≡ next_answer self.old.coming) }
        ensures after { OnOk result
            (self.new ≡ after_call self.old (questions.Group group.now)) }
        ensures untouched { OnErr result (self.new ≡ self.old) }

        ensures told { Grew (Some self.old.calls) (Some self.new.calls)
            (call_of (questions.Group group.now) result) }
        ensures counts { HasCause self.old.faults self.new.faults (result ≡ Ok answers.Failed) }
        ensures quiet { StaysUnless self.old.faults self.new.faults (result ≡ Ok answers.Failed) }
    {
        let question = PeerQuestion::Group(group.clone()?);
        self.answer(alloc, question)
    }

    fn fetch(&mut self, alloc: Global, reference: &Reference) -> Result<PeerAnswer, AllocError>
        ensures answer { IfOk result (λ answer. answer ≡ next_answer self.old.coming) }
        ensures after { OnOk result
            (self.new ≡ after_call self.old (questions.Block reference.now)) }
        ensures untouched { OnErr result (self.new ≡ self.old) }

        ensures told { Grew (Some self.old.calls) (Some self.new.calls)
            (call_of (questions.Block reference.now) result) }
        ensures counts { HasCause self.old.faults self.new.faults (result ≡ Ok answers.Failed) }
        ensures quiet { StaysUnless self.old.faults self.new.faults (result ≡ Ok answers.Failed) }
    {
        self.answer(alloc, PeerQuestion::Block(*reference))
    }

    fn faults(&self) -> u64 {
        self.faults
    }
}
