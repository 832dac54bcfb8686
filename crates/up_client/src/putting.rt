//! To put a file.
ghost use Rattle.std.specs.Prelude.{◌≡◌, [], drop, take, IfOk, IsErrOf};
ghost use Rattle.up_lists.specs.Counts.{HasCause, StaysUnless};
ghost use Rattle.up_client.specs.declared.fault.ClientFault.TheVariants as client_fault;
ghost use Rattle.up_client.specs.Putting.{block_at, entering, pieces_of, put_file_at, put_talk, reference_from, stored, storing};
ghost use Rattle.up_client.specs.Talks.{Held, Talks};

use crate::ask::Ask;
use crate::fault::ClientFault;
use crate::links::{AtPath, follow};
use crate::replies::{position_in, reference_in, reply_to};
use std::alloc::{AllocError, Global};
use up_bytes::{Bytes, copy_of};
use up_entry::{Block, Endpoint, Location, PutEntry};
use up_lists::Items;
use up_names::{Path, User};
use up_refs::Reference;
use up_wire::{Reply, Request};

/// The greatest size of a block.
const BLOCK_SIZE: usize = 1_048_576;

/// Puts bytes as a plain file at a path, and answers the position of that change: first its blocks are kept, and then its entry
/// is put. Links are followed, at most 20 of them. Blocks that a refused call has kept stay.
///
/// The time is in seconds since 1970. The sequence is the one that the item has to have now: 0 where any will do, -1 where
/// there has to be none.
pub fn put<A: Ask>(
    alloc: Global,
    ask: &mut A,
    user: &User,
    path: &Path,
    time: i64,
    sequence: i64,
    bytes: &[u8],
) -> Result<u64, ClientFault>
    ensures talk { Held A.answers (put_talk user.now path.now time sequence bytes.now)
        ask.old result ask.new }
    ensures cause { HasCause (A.faults ask.old) (A.faults ask.new)
        (IsErrOf result client_fault.Failed) }
    ensures quiet { StaysUnless (A.faults ask.old) (A.faults ask.new)
        (IsErrOf result client_fault.Failed) }
    ensures tie { A.tied ask.old ask.new }
{
    put_file(alloc, ask, user, path, time, sequence, bytes)
}

fn put_file<A: Ask>(
    alloc: Global,
    ask: &mut A,
    user: &User,
    path: &Path,
    time: i64,
    sequence: i64,
    bytes: &[u8],
) -> Result<u64, ClientFault>
    ensures { Talks A.Ask (put_talk user.now path.now time sequence bytes.now)
        ask.old result ask.new }
{
    let blocks = store_all(alloc, ask, bytes)?;
    let file = File {
        user,
        time,
        sequence,
        blocks: blocks.as_slice(),
    };
    enter(alloc, ask, &file, path)
}

// Puts the entry of a file.
fn enter<A: Ask>(
    alloc: Global,
    ask: &mut A,
    file: &File<'_>,
    path: &Path,
) -> Result<u64, ClientFault>
    ensures { Talks A.Ask (entering file.now.user.now file.now.time file.now.sequence path.now
        file.now.blocks.now) ask.old result ask.new }
{
    let done = follow(alloc, ask, file, path)?;
    position_in(done)
}

// Keeps all bytes as blocks, in order.
fn store_all<A: Ask>(alloc: Global, ask: &mut A, bytes: &[u8]) -> Result<Items<Block>, ClientFault>
    ensures { Talks A.Ask (storing 0 (pieces_of bytes.now) []) ask.old result ask.new }
{
    let mut blocks = Vec::new(alloc);
    let mut rest = bytes;
    let mut offset = 0;
    while !rest.is_empty() {
        let (piece, behind) = first_piece(rest, BLOCK_SIZE);
        let size = piece.len() as u64;
        let reference = store(alloc, ask, piece)?;
        blocks.push(block_at(alloc, offset, size, reference))?;
        offset += size;
        rest = behind;
    }
    Ok(Items::from_vec(blocks))
}

// The first bytes, so many or all of them, and what is behind them.
#[tactic(auto, using(std::proofs::lemmas::List::take_min, std::proofs::lemmas::List::drop_min))]
fn first_piece(bytes: &[u8], most: usize) -> (&[u8], &[u8])
    ensures piece { result.0.now ≡ take most bytes.now }
    ensures behind { result.1.now ≡ drop most bytes.now }
{
    bytes.split_at(most.min(bytes.len()))
}

// Keeps one piece, and answers its reference.
fn store<A: Ask>(alloc: Global, ask: &mut A, piece: &[u8]) -> Result<Reference, ClientFault>
    ensures { Talks A.Ask (stored piece.now) ask.old result ask.new }
{
    let request = Request::StorePut(copy_of(alloc, piece)?);
    let reply = reply_to(alloc, ask, request)?;
    reference_from(piece, reply)
}

// The block of a piece of this size, at this place of the file.
fn block_at(alloc: Global, offset: u64, size: u64, reference: Reference) -> Block
    ensures { result ≡ block_at offset size reference }
{
    Block {
        location: Location {
            endpoint: Endpoint::Local,
            reference,
        },
        offset,
        size,
        packdata: Bytes::new(alloc),
    }
}

// The reference that a store gave of a piece, which has to be that of its bytes.
fn reference_from(piece: &[u8], reply: Reply) -> Result<Reference, ClientFault>
    ensures { result ≡ reference_from piece.now reply }
{
    let given = reference_in(reply)?;
    let wanted = Reference::of(piece);
    if given != wanted {
        return Err(ClientFault::Corrupt(wanted, given));
    }
    Ok(given)
}

// A plain file that is put.
#[derive(Clone, Copy)]
struct File<'a> {
    user: &'a User,
    time: i64,
    sequence: i64,
    blocks: &'a [Block],
}

impl<'a> AtPath for File<'a> {
    ghost request = { λ file. put_file_at file.user.now file.time file.sequence file.blocks.now };

    fn at(&self, alloc: Global, path: &Path) -> Result<Request, AllocError> {
        Ok(Request::Put(PutEntry {
            signed_name: copy_of(alloc, path.as_str().as_bytes())?,
            packing: 1,
            time: self.time,
            blocks: copies_of(alloc, self.blocks)?,
            packdata: Bytes::new(alloc),
            link: Bytes::new(alloc),
            writer: copy_of(alloc, self.user.text().as_bytes())?,
            name: copy_of(alloc, path.as_str().as_bytes())?,
            attr: 0,
            sequence: self.sequence,
        }))
    }
}

// The same blocks, in order.
fn copies_of(alloc: Global, blocks: &[Block]) -> Result<Items<Block>, AllocError>
    ensures { IfOk result (λ copies. copies ≡ blocks.now) }
{
    let mut copies = Vec::with_capacity(alloc, blocks.len())?;
    for block in blocks {
        copies.push(block.clone()?)?;
    }
    Ok(Items::from_vec(copies))
}
