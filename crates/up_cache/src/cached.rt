//! Whoever is asked, through a cache of blocks.
ghost use Rattle.std.specs.Prelude.{◌≡◌, ◌≤◌, length, IfOk, List};
ghost use Rattle.up_cache.specs.Blocks.{IsBlockCache};
ghost use Rattle.up_cache.specs.Caching.{CachedAnswers, caching};
ghost use Rattle.up_cache.specs.Steady.{IsSteady};
ghost use Rattle.up_wire.specs.declared.requests.Request.{Request as Requests};
ghost use Rattle.up_wire.specs.declared.replies.Reply.{Reply as Replies};

use crate::block_cache::BlockCache;
use crate::through::Through;
use std::alloc::{AllocError, Global};
use std::marker::Model;
use up_client::{Ask, Failed};
use up_wire::{Reply, Request};

/// Whoever is asked, through a cache of the blocks that were got last.
#[derive(Drop)]
pub struct Cached<A: Ask> {
    ask: A,
    cache: BlockCache,
    asked: u64,
    kept: u64,
}

impl<A: Ask> Model for Cached<A> {
    ghost use Rattle.up_cache.specs.Caching.{Caching};

    ghost Value = { Caching A };

    ghost view = { λ cached. record {
      ask = cached.ask;
      cache = cached.cache;
      asked = cached.asked;
      kept = cached.kept;
    } };
}

impl<A: Ask + Drop> Cached<A> {
    /// A cache of at most so many blocks, 1 to 1,024, which holds none yet.
    pub fn new(alloc: Global, ask: A, capacity: u64) -> Result<Cached<A>, AllocError>
        requires least { 1 ≤ capacity }
        requires most { capacity ≤ 1024 }
        ensures empty { IfOk result (λ cached. cached ≡ caching ask capacity) }
        ensures steady { IfOk result (λ cached. (rows : List (Requests × Replies))
            → IsSteady A.answers rows ask → IsSteady (CachedAnswers A.answers) rows cached) }
    {
        match BlockCache::new(alloc, capacity) {
            Ok(cache) => Ok(Cached {
                ask,
                cache,
                asked: 0,
                kept: 0,
            }),
            Err(AllocError) => {
                drop(ask);
                Err(AllocError)
            }
        }
    }
}

impl<A: Ask> Cached<A> {
    /// How many requests for blocks were passed on so far. A count that stands at 2^64 - 1 stays there.
    pub fn asked(&self) -> u64
        ensures { result ≡ self.now.asked }
    {
        self.asked
    }

    /// How many requests for blocks were answered from the cache so far. A count that stands at 2^64 - 1 stays there.
    pub fn kept(&self) -> u64
        ensures { result ≡ self.now.kept }
    {
        self.kept
    }

    /// How many blocks are held: no more than there may be, and each is bytes and their reference.
    pub fn len(&self) -> u64
        ensures len { result ≡ length self.now.cache.blocks }
        ensures valid { IsBlockCache self.now.cache }
    {
        self.cache.len() as u64
    }
}

impl<A: Ask> Ask for Cached<A> {
    ghost answers = { CachedAnswers A.answers };

    ghost faults = { λ cached. A.faults cached.ask };

    ghost tied = { λ a b. A.tied a.ask b.ask };

    fn ask(&mut self, alloc: Global, request: &Request) -> Result<Reply, Failed> {
        let mut through = Through {
            ask: &mut self.ask,
            cache: &mut self.cache,
            asked: self.asked,
            kept: self.kept,
        };
        let given = through.ask(alloc, request);
        self.asked = through.asked;
        self.kept = through.kept;
        given
    }

    ghost same = { λ a. A.same a.ask };

    ghost joined = { λ a b c. A.joined a.ask b.ask c.ask };
}
