//! To get a file.
ghost use Rattle.std.specs.Prelude.{◌≡◌, IfSome, IsErrOf, Err, None, Ok};
ghost use Rattle.up_lists.specs.Counts.{HasCause, StaysUnless};
ghost use Rattle.up_client.specs.declared.fault.ClientFault.TheVariants as client_fault;
ghost use Rattle.up_client.specs.Getting.{blocks_in, file_blocks, get_talk, look_up_at, reading};
ghost use Rattle.up_client.specs.Talks.{Held, Talks};

use crate::ask::Ask;
use crate::blocks::read_blocks;
use crate::fault::ClientFault;
use crate::links::{AtPath, follow};
use std::alloc::{AllocError, Global};
use up_bytes::{Bytes, copy_of};
use up_entry::{Block, Entry, Kind};
use up_lists::Items;
use up_names::Path;
use up_wire::{Done, Request};

/// The bytes of the file at a path. Links are followed, at most 20 of them, and each block has to be the one that the entry
/// names.
pub fn get<A: Ask>(alloc: Global, ask: &mut A, path: &Path) -> Result<Bytes, ClientFault>
    ensures talk { Held A.answers (get_talk path.now) ask.old result ask.new }
    ensures cause { HasCause (A.faults ask.old) (A.faults ask.new)
        (IsErrOf result client_fault.Failed) }
    ensures quiet { StaysUnless (A.faults ask.old) (A.faults ask.new)
        (IsErrOf result client_fault.Failed) }
    ensures tie { A.tied ask.old ask.new }
{
    get_file(alloc, ask, path)
}

fn get_file<A: Ask>(alloc: Global, ask: &mut A, path: &Path) -> Result<Bytes, ClientFault>
    ensures { Talks A.Ask (get_talk path.now) ask.old result ask.new }
{
    let done = follow(alloc, ask, &LookUp, path)?;
    read(alloc, ask, done)
}

// Reads what was looked up.
fn read<A: Ask>(alloc: Global, ask: &mut A, done: Done) -> Result<Bytes, ClientFault>
    ensures { Talks A.Ask (reading done) ask.old result ask.new }
{
    let blocks = blocks_in(done)?;
    read_blocks(alloc, ask, blocks.as_slice())
}

// To look a path up.
#[derive(Clone, Copy)]
struct LookUp;

impl AtPath for LookUp {
    ghost request = { λ _. look_up_at };

    fn at(&self, alloc: Global, path: &Path) -> Result<Request, AllocError> {
        Ok(Request::Lookup(copy_of(alloc, path.as_str().as_bytes())?))
    }
}

// The blocks that are to be read of what was looked up.
fn blocks_in(done: Done) -> Result<Items<Block>, ClientFault>
    ensures { result ≡ blocks_in done }
{
    match done {
        Done::Entry(entry) => file_blocks(entry),
        other => {
            drop(other);
            Err(ClientFault::Odd)
        }
    }
}

fn file_blocks(entry: Entry) -> Result<Items<Block>, ClientFault>
    ensures { result ≡ file_blocks entry.attr.kind entry }
{
    match why_unread(&entry) {
        Some(fault) => {
            drop(entry);
            Err(fault)
        }
        None => Ok(entry.blocks),
    }
}

// The first reason against reading what an entry stands for.
fn why_unread(entry: &Entry) -> Option<ClientFault>
    ensures some { IfSome result (λ fault. file_blocks entry.now.attr.kind entry.now ≡ Err fault) }
    ensures none { result ≡ None → file_blocks entry.now.attr.kind entry.now ≡ Ok entry.now.blocks }
{
    match entry.attr.kind {
        Kind::Link => Some(ClientFault::Odd),
        Kind::Directory => Some(ClientFault::IsDir),
        Kind::File if entry.attr.incomplete => Some(ClientFault::NoRead),
        Kind::File if entry.packing != 1 => Some(ClientFault::Opaque(entry.packing)),
        Kind::File => None,
    }
}
