//! Blocks that are held, the one used last first.
ghost use Rattle.std.specs.Prelude.{◌≡◌, ◌≤◌, [], length, IfOk, None, Some};
ghost use Rattle.up_cache.specs.Blocks.{IsBlockCache, Recalled, held};
ghost use Rattle.up_cache.specs.Caching.{Keeps, block_of};

use lru::LruCache;
use std::alloc::{AllocError, Global};
use std::marker::Model;
use std::num::NonZeroUsize;
use up_bytes::{Bytes, copy_of};
use up_refs::Reference;

/// Blocks that are held, the one used last first, and how many of them there may be: 1 to 1,024.
#[derive(Drop)]
pub struct BlockCache {
    blocks: LruCache<Reference, Bytes>,
}

impl Model for BlockCache {
    ghost use Rattle.std.specs.Prelude.{◌≤◌};
    ghost use Rattle.up_cache.specs.Blocks.{AreBlocks, BlockCache as Blocks};

    ghost Value = { Blocks };

    ghost view = { λ cache. record { blocks = cache.blocks.entries; capacity = cache.blocks.cap } };

    ghost invariant = { λ cache. AreBlocks cache.blocks.entries
        × (1 ≤ cache.blocks.cap) × (cache.blocks.cap ≤ 1024) };
}

impl BlockCache {
    /// No block is held yet, and there may be so many.
    pub(crate) fn new(alloc: Global, capacity: u64) -> Result<BlockCache, AllocError>
        requires least { 1 ≤ capacity }
        requires most { capacity ≤ 1024 }
        ensures { IfOk result (λ cache. cache ≡ record { blocks = []; capacity = capacity }) }
    {
        let Some(room) = NonZeroUsize::new(capacity as usize) else {
            unreachable!()
        };
        Ok(BlockCache {
            blocks: LruCache::new(alloc, room)?,
        })
    }

    /// How many blocks are held.
    pub(crate) fn len(&self) -> usize
        ensures len { result ≡ length self.now.blocks }
        ensures valid { IsBlockCache self.now }
    {
        self.blocks.len()
    }

    /// A copy of the bytes that are held with a reference. They come to the front, also where there is no memory for the copy.
    pub(crate) fn recall(
        &mut self,
        alloc: Global,
        reference: &Reference,
    ) -> Option<Result<Bytes, AllocError>>
        ensures { Recalled self.old (held self.old.blocks reference.now) result self.new }
    {
        let copy = match self.blocks.peek(reference) {
            Some(bytes) => copy_of(alloc, bytes.as_slice()),
            None => return None,
        };
        self.blocks.promote(reference);
        Some(copy)
    }

    /// Puts bytes at the front, where the reference that is not held yet is theirs. For want of memory all stays as it was.
    pub(crate) fn keep(&mut self, alloc: Global, reference: Reference, bytes: &[u8])
        requires { held self.old.blocks reference ≡ None }
        ensures { Keeps self.old (block_of reference bytes.now) self.new }
    {
        if Reference::of(bytes) != reference {
            return;
        }
        if let Ok(copy) = copy_of(alloc, bytes) {
            let put = self.blocks.put(reference, copy);
            drop(put);
        }
    }
}
