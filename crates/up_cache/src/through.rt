//! Whoever is asked, and the blocks that are held, both lent for a while.
ghost use Rattle.std.proofs.Common.{◌∙◌};
ghost use Rattle.std.specs.Prelude.{◌≡◌, IsErr, None, refl};
ghost use Rattle.std.specs.Result.{result_ok};
ghost use Rattle.up_cache.specs.Caching.{CachedAnswers, Keeps, PassedOn, RecalledReply, brought, held_for, is_get, reply_of, wanted};
ghost use Rattle.up_cache.specs.Ties.{IsSame, seen};
ghost use Rattle.up_lists.specs.Counts.{HasCause, StaysUnless};

use crate::block_cache::BlockCache;
use std::alloc::{AllocError, Global};
use up_bytes::Bytes;
use up_client::{Ask, Failed};
use up_refs::Reference;
use up_wire::{Done, Reply, Request};

/// Whoever is asked, and the blocks that are held, both lent for a while; and how many requests for blocks were passed on, and answered from
/// the blocks.
#[derive(Drop)]
pub(crate) struct Through<'a, A: Ask> {
    pub(crate) ask: &'a mut A,
    pub(crate) cache: &'a mut BlockCache,
    pub(crate) asked: u64,
    pub(crate) kept: u64,
}

impl<'a, A: Ask> Through<'a, A> {
    // The reply to a request for a block that is held.
    fn recall(&mut self, alloc: Global, wanted: &Option<Reference>) -> Option<Reply>
        ensures recalled { RecalledReply (held_for self.old.cache.now.blocks wanted.now) (seen self.old)
            result (seen self.new) }
        ensures same { IsSame self.old self.new }
    {
        let Some(reference) = wanted else {
            return None;
        };
        let copy = self.cache.recall(alloc, reference)?;
        self.kept = self.kept.saturating_add(1);
        Some(reply_of(copy))
    }

    // Passes a request on, and keeps the block that its reply brings.
    fn pass_on(
        &mut self,
        alloc: Global,
        request: &Request,
        reference: &Option<Reference>,
    ) -> Result<Reply, Failed>
        requires unheld { held_for self.old.cache.now.blocks reference.now ≡ None }
        requires wanted { reference.now ≡ wanted request.now }
        ensures passed { PassedOn A.answers (seen self.old) request.now (result_ok result)
            (seen self.new) }
        ensures cause { HasCause (A.faults self.old.ask.now) (A.faults self.new.ask.now)
            (IsErr result) }
        ensures quiet { StaysUnless (A.faults self.old.ask.now) (A.faults self.new.ask.now)
            (IsErr result) }
        ensures tie { A.tied self.old.ask.now self.new.ask.now }
        ensures same { IsSame self.old self.new }
    {
        let given = self.ask.ask(alloc, request);
        if is_get(request) {
            self.asked = self.asked.saturating_add(1);
        }
        keep_brought(alloc, self.cache, reference, &given);
        given
    }
}

impl<'a, A: Ask> Ask for Through<'a, A> {
    ghost answers = { λ old request given new. CachedAnswers A.answers (seen old) request given (seen new) };

    ghost faults = { λ through. A.faults through.ask.now };

    ghost tied = { λ old new. (new.ask.ghost_name ≡ old.ask.ghost_name)
        × (new.cache.ghost_name ≡ old.cache.ghost_name) × A.tied old.ask.now new.ask.now };

    fn ask(&mut self, alloc: Global, request: &Request) -> Result<Reply, Failed> {
        let wanted = wanted(request);
        match self.recall(alloc, &wanted) {
            Some(reply) => Ok(reply),
            None => self.pass_on(alloc, request, &wanted),
        }
    }

    ghost same = { λ a. (refl, refl, A.same a.ask.now) };

    ghost joined = { λ a b c p q. (
      q.0 ∙ p.0,
      q.1 ∙ p.1,
      A.joined a.ask.now b.ask.now c.ask.now p.2 q.2,
    ) };
}

// A request for a block.
fn is_get(request: &Request) -> bool
    ensures { result ≡ is_get request.now }
{
    matches!(request, Request::Get(_))
}

// The reference that a request for a block has.
fn wanted(request: &Request) -> Option<Reference>
    ensures { result ≡ wanted request.now }
{
    match request {
        Request::Get(text) => Reference::parse(text.as_slice()),
        _ => None,
    }
}

// The reply to a request for a block, by a copy of its bytes.
fn reply_of(copy: Result<Bytes, AllocError>) -> Reply
    ensures { result ≡ reply_of copy }
{
    match copy {
        Ok(bytes) => Reply::Ok(Done::Bytes(bytes)),
        Err(AllocError) => Reply::OutOfMemory,
    }
}

// Keeps the block that a reply brings. The wanted one is not held yet.
fn keep_brought(
    alloc: Global,
    cache: &mut BlockCache,
    wanted: &Option<Reference>,
    given: &Result<Reply, Failed>,
)
    requires { held_for cache.old.blocks wanted.now ≡ None }
    ensures { Keeps cache.old (brought wanted.now (result_ok given.now)) cache.new }
{
    if let (Some(reference), Ok(Reply::Ok(Done::Bytes(bytes)))) = (wanted, given) {
        cache.keep(alloc, *reference, bytes.as_slice());
    }
}
