//! A whole host as a peer of another one.
ghost use Rattle.std.specs.Prelude.{◌≡◌, ◌≢◌, [], ◌++◌, Ok, IfOk};
ghost use Rattle.up_ends.specs.Telling.{Grew};
ghost use Rattle.up_lists.specs.Counts.{HasCause, StaysUnless};
ghost use Rattle.up_host.specs.Peers.{AsksStore, IsBlockAnswer, ReadsBlock, failed_after, group_text_by, peer_answer, peer_done};
ghost use Rattle.up_peer.specs.Asking.{call_of};
ghost use Rattle.up_peer.specs.InMemory.{faults_after};
ghost use Rattle.up_peer.specs.declared.answers.PeerAnswer.TheVariants as answers;
ghost use Rattle.up_peer.specs.declared.answers.PeerQuestion.TheVariants as questions;

use crate::host::Host;
use std::alloc::{AllocError, Global};
use std::marker::Model;
use up_blocks::BlockWhy;
use up_bytes::Bytes;
use up_disk::Disk;
use up_names::{Path, User};
use up_peer::{Peer, PeerAnswer, PeerCall, PeerQuestion};
use up_refs::Reference;
use up_wire::{Done, Reply};

/// A host that another one asks for group texts and blocks, as one user. It tells what it was asked. Each answer `Failed` counts as a
/// fault. A text that it does not give, and a block that it does not have, are `Nothing`.
#[derive(Drop)]
pub struct TreePeer<D: Disk> {
    host: Host<D>,
    asker: User,
    calls: Vec<PeerCall>,
    faults: u64,
}

impl<D: Disk> Model for TreePeer<D> {
    ghost use Rattle.up_host.specs.Peers.{PeerState};

    ghost Value = { PeerState D };

    ghost view = { λ peer. record {
      host = peer.host;
      asker = peer.asker;
      calls = peer.calls.items;
      faults = peer.faults;
    } };
}

impl<D: Disk> TreePeer<D> {
    /// A host as a peer that is asked as this user, and was asked nothing yet. It takes no memory.
    pub fn new(alloc: Global, host: Host<D>, asker: User) -> TreePeer<D>
        ensures { result ≡ record { host = host; asker = asker; calls = []; faults = 0 } }
    {
        TreePeer {
            host,
            asker,
            calls: Vec::new(alloc),
            faults: 0,
        }
    }

    /// What it was asked so far, in order and with its answers.
    pub fn calls(&self) -> &[PeerCall]
        ensures { result.now ≡ self.now.calls }
    {
        self.calls.as_slice()
    }

    // Notes a question with its answer, and counts a failure.
    fn note(
        &mut self,
        alloc: Global,
        question: PeerQuestion,
        answer: PeerAnswer,
    ) -> Result<PeerAnswer, AllocError>
        ensures answer { IfOk result (λ given. given ≡ answer) }
        ensures host { self.new.host ≡ self.old.host }
        ensures asker { self.new.asker ≡ self.old.asker }
        ensures told { self.new.calls ≡ self.old.calls ++ call_of question result }
        ensures failed { self.new.faults ≡ failed_after self.old.faults result }
    {
        let kept = answer.copied(alloc)?;
        self.calls.push(PeerCall {
            question,
            answer: kept,
        })?;
        self.faults = counted(self.faults, &answer);
        Ok(answer)
    }
}

impl<D: Disk> Host<D> {
    // The block with a reference, of the host's store.
    fn block(&mut self, reference: &Reference) -> Result<Bytes, BlockWhy>
        ensures { ReadsBlock D.Disk reference.now self.old self.new result }
    {
        self.store.state.get(reference)
    }
}

// A count of failures after an answer.
fn counted(faults: u64, answer: &PeerAnswer) -> u64
    ensures { result ≡ faults_after faults answer.now }
{
    match answer {
        PeerAnswer::Failed => faults.saturating_add(1),
        PeerAnswer::Got(_) | PeerAnswer::Nothing => faults,
    }
}

// What a peer answers for a reply.
fn answer_of(reply: Reply) -> Result<PeerAnswer, AllocError>
    ensures { IfOk result (λ answer. (reply ≢ Reply.OutOfMemory)
        × (answer ≡ peer_answer reply)) }
{
    match reply {
        Reply::Ok(done) => Ok(done_answer(done)),
        refusal => {
            let answer = refused_answer(&refusal);
            drop(refusal);
            answer
        }
    }
}

// What a peer answers for what was done: a text, or nothing.
fn done_answer(done: Done) -> PeerAnswer
    ensures { result ≡ peer_done done }
{
    match done {
        Done::Text(text) => PeerAnswer::Got(text),
        other => {
            drop(other);
            PeerAnswer::Nothing
        }
    }
}

// What a peer answers for a refusal, which its caller lets go as a whole.
fn refused_answer(refusal: &Reply) -> Result<PeerAnswer, AllocError>
    ensures { IfOk result (λ answer. (refusal.now ≢ Reply.OutOfMemory)
        × (answer ≡ peer_answer refusal.now)) }
{
    match refusal {
        Reply::Io => Ok(PeerAnswer::Failed),
        // What was done is no refusal.
        Reply::OutOfMemory | Reply::Ok(_) => Err(AllocError),
        _ => Ok(PeerAnswer::Nothing),
    }
}

// What a peer answers for what its store gives.
fn block_answer(given: Result<Bytes, BlockWhy>) -> Result<PeerAnswer, AllocError>
    ensures { IfOk result (IsBlockAnswer given) }
{
    match given {
        Ok(bytes) => Ok(PeerAnswer::Got(bytes)),
        Err(BlockWhy::Fault) => Ok(PeerAnswer::Failed),
        Err(BlockWhy::OutOfMemory) => Err(AllocError),
        // A get is never full.
        Err(BlockWhy::NotExist | BlockWhy::Full(_)) => Ok(PeerAnswer::Nothing),
    }
}

/// A load asks for the group's text, and a fetch for the block of the host's store, both as the peer's user.
impl<D: Disk + Drop> Peer for TreePeer<D> {
    ghost use Rattle.std.specs.Prelude.{Some};

    ghost asked = { λ peer. Some peer.calls };

    ghost fault_count = { λ peer. peer.faults };

    #[tactic(auto, using(crate::proofs::PeerLemmas::counts_after, crate::proofs::PeerLemmas::quiet_after))]
    fn load(&mut self, alloc: Global, group: &Path) -> Result<PeerAnswer, AllocError>
        ensures answer { IfOk result (λ answer. answer ≡ peer_answer
            (group_text_by self.old.host.trees self.old.asker group.now)) }
        ensures host { self.new.host ≡ self.old.host }
        ensures asker { self.new.asker ≡ self.old.asker }
        ensures failed { self.new.faults ≡ failed_after self.old.faults result }

        ensures told { Grew (Some self.old.calls) (Some self.new.calls)
            (call_of (questions.Group group.now) result) }
        ensures counts { HasCause self.old.faults self.new.faults (result ≡ Ok answers.Failed) }
        ensures quiet { StaysUnless self.old.faults self.new.faults (result ≡ Ok answers.Failed) }
    {
        let question = PeerQuestion::Group(group.clone()?);
        let reply = self.host.group_text(alloc, &self.asker, group);
        let answer = answer_of(reply)?;
        self.note(alloc, question, answer)
    }

    #[tactic(auto, using(crate::proofs::PeerLemmas::counts_after, crate::proofs::PeerLemmas::quiet_after))]
    fn fetch(&mut self, alloc: Global, reference: &Reference) -> Result<PeerAnswer, AllocError>
        ensures answer { AsksStore D.Disk reference.now self.old.host self.new.host result }
        ensures asker { self.new.asker ≡ self.old.asker }
        ensures failed { self.new.faults ≡ failed_after self.old.faults result }

        ensures told { Grew (Some self.old.calls) (Some self.new.calls)
            (call_of (questions.Block reference.now) result) }
        ensures counts { HasCause self.old.faults self.new.faults (result ≡ Ok answers.Failed) }
        ensures quiet { StaysUnless self.old.faults self.new.faults (result ≡ Ok answers.Failed) }
    {
        let given = self.host.block(reference);
        let answer = block_answer(given)?;
        self.note(alloc, PeerQuestion::Block(*reference), answer)
    }

    fn faults(&self) -> u64 {
        self.faults
    }
}
