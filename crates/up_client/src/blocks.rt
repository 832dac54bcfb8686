//! The blocks of a file that are read.
ghost use Rattle.std.specs.Prelude.{◌≡◌, [], IfOk};
ghost use Rattle.std.specs.List.{concat};
ghost use Rattle.up_client.specs.Getting.{block_from, fetched_at, fetching, fitting, joined_blocks};
ghost use Rattle.up_client.specs.Talks.{Talks};
ghost use Rattle.up_entry.specs.declared.entries.Endpoint.TheVariants.{Local};

use crate::ask::Ask;
use crate::fault::ClientFault;
use crate::replies::{bytes_in, reply_to};
use std::alloc::{AllocError, Global};
use up_bytes::Bytes;
use up_entry::{Block, Endpoint};
use up_lists::Items;
use up_refs::Reference;
use up_wire::{Reply, Request};

/// The bytes of all blocks, joined.
pub(crate) fn read_blocks<A: Ask>(
    alloc: Global,
    ask: &mut A,
    blocks: &[Block],
) -> Result<Bytes, ClientFault>
    ensures { Talks A.Ask (joined_blocks blocks.now) ask.old result ask.new }
{
    let pieces = fetch_all(alloc, ask, blocks)?;
    Ok(join(alloc, pieces)?)
}

// The bytes of each block, in order.
fn fetch_all<A: Ask>(
    alloc: Global,
    ask: &mut A,
    blocks: &[Block],
) -> Result<Items<Bytes>, ClientFault>
    ensures { Talks A.Ask (fetching 0 blocks.now []) ask.old result ask.new }
{
    let mut read = Vec::new(alloc);
    let mut i = 0;
    for block in blocks {
        read.push(fetch(alloc, ask, i, block)?)?;
        i += 1;
    }
    Ok(Items::from_vec(read))
}

// The bytes of block i.
fn fetch<A: Ask>(alloc: Global, ask: &mut A, i: u64, block: &Block) -> Result<Bytes, ClientFault>
    ensures { Talks A.Ask (fetched_at block.now.location.endpoint i block.now) ask.old result ask.new }
{
    match &block.location.endpoint {
        Endpoint::Local => fetch_here(alloc, ask, i, block),
        Endpoint::Address(_) => Err(ClientFault::Elsewhere(i)),
    }
}

fn fetch_here<A: Ask>(
    alloc: Global,
    ask: &mut A,
    i: u64,
    block: &Block,
) -> Result<Bytes, ClientFault>
    ensures { Talks A.Ask (fetched_at Local i block.now) ask.old result ask.new }
{
    let digits = block.location.reference.text(alloc)?;
    let request = Request::Get(Bytes::from_vec(digits.into_bytes()));
    let reply = reply_to(alloc, ask, request)?;
    block_from(i, block, reply)
}

// The bytes of block i, by the reply to the request for it.
fn block_from(i: u64, block: &Block, reply: Reply) -> Result<Bytes, ClientFault>
    ensures { result ≡ block_from i block.now reply }
{
    let bytes = bytes_in(reply)?;
    fitting(i, block, bytes)
}

// Bytes that have the size and the reference of block i.
fn fitting(i: u64, block: &Block, bytes: Bytes) -> Result<Bytes, ClientFault>
    ensures { result ≡ fitting i block.now bytes }
{
    let size = bytes.len();
    if size != block.size {
        return Err(ClientFault::BadSize(i, block.size, size));
    }
    let digest = Reference::of(bytes.as_slice());
    if digest != block.location.reference {
        return Err(ClientFault::Corrupt(block.location.reference, digest));
    }
    Ok(bytes)
}

// The pieces, joined: each byte is copied once.
fn join(alloc: Global, pieces: Items<Bytes>) -> Result<Bytes, AllocError>
    ensures { IfOk result (λ bytes. bytes ≡ concat pieces) }
{
    let mut joined = Vec::with_capacity(alloc, size_of(pieces.as_slice()))?;
    for piece in pieces.into_vec() {
        joined.extend_from_slice(piece.as_slice())?;
    }
    Ok(Bytes::from_vec(joined))
}

// How many bytes all pieces have.
fn size_of(pieces: &[Bytes]) -> usize {
    let mut size: usize = 0;
    for piece in pieces {
        size = size.saturating_add(piece.as_slice().len());
    }
    size
}
