//! The host of a storm, before its sessions run.
ghost use Rattle.std.specs.Prelude.{◌≡◌, [], ◌∷◌, ◌++◌, IfOk, OnOk};
ghost use Rattle.std.specs.List.{AllByRecursion, list_any};
ghost use Rattle.up_ends.specs.Moments.{IsMoment};
ghost use Rattle.up_storm.specs.Asked.{access_text, put_of};
ghost use Rattle.up_storm.specs.Sessions.{is_fault};
ghost use Rattle.up_storm.specs.Preparing.{AddsWanted, HasAskedAll, HasPrepared, IsPrepared, access_of, block_of, directory_of, prepares, prepares_from, preparing, root_of, roots, whole_block};

use crate::opening::open_host;
use crate::requests::put_of;
use crate::session::is_fault;
use crate::sessions::Nobody;
use crate::sign_on::sign_on;
use crate::texts::{FIRST_OWNER, SECOND_OWNER, access_text, directory_text, owner_text};
use std::alloc::{AllocError, Global};
use std::hash::RandomState;
use up_bytes::{Bytes, copy_of};
use up_disk::{Disk, MemDisk};
use up_entry::{Block, Endpoint, Location};
use up_host::{Call, Event, Host, ask_all};
use up_lists::Items;
use up_peer::{Loader, PeerList, RefusingPeer};
use up_refs::Reference;
use up_wire::Request;

/// A host with both trees, prepared for so many sessions. An `Err` is a disk that failed, or want of memory.
pub(crate) fn prepared(
    alloc: Global,
    random: RandomState,
    sessions: u64,
) -> Result<Host<MemDisk>, AllocError>
    ensures { IfOk result (IsPrepared ⟦<MemDisk as Disk>⟧ ⟦<PeerList<RefusingPeer> as Loader>⟧ [] sessions) }
{
    let mut host = open_host(alloc, random)?;
    match prepare(alloc, &mut host, sessions) {
        Ok(()) => Ok(host),
        Err(error) => {
            drop(host);
            Err(error)
        }
    }
}

// Asks all that prepares a host.
#[tactic(auto, using(crate::proofs::PreparingLemmas::adds_whole, crate::proofs::PreparingLemmas::wanted_moments))]
fn prepare(alloc: Global, host: &mut Host<MemDisk>, sessions: u64) -> Result<(), AllocError>
    ensures { OnOk result (HasPrepared ⟦<MemDisk as Disk>⟧ ⟦<PeerList<RefusingPeer> as Loader>⟧ [] sessions
        host.old host.new) }
{
    let calls = preparing(alloc, sessions)?;
    let mut peers = Nobody::new(alloc);
    let asked = ask_calls(alloc, host, &mut peers, &calls);
    drop(calls);
    asked
}

// Asks calls. An `Err` is a disk that failed, or want of memory.
fn ask_calls<D: Disk, L: Loader>(
    alloc: Global,
    host: &mut Host<D>,
    peers: &mut L,
    calls: &[Call],
) -> Result<(), AllocError>
    requires { AllByRecursion (λ call. IsMoment call.moment) calls.now }
    ensures { OnOk result (HasAskedAll D.Disk L.Loader peers.old host.old calls.now
        host.new) }
{
    let events = ask_all(alloc, host, peers, calls)?;
    if any_fault(events.as_slice()) {
        drop(events);
        return Err(AllocError);
    }
    Ok(())
}

// Whether a disk failed, or memory was wanting, in any of these.
fn any_fault(events: &[Event]) -> bool
    ensures { result ≡ list_any (λ event. is_fault event.reply) events.now }
{
    events.iter().any(|event| is_fault(&event.reply))
}

// All calls that prepare a host for so many sessions.
#[tactic(auto, using(crate::proofs::PreparingLemmas::adds_then))]
fn preparing(alloc: Global, sessions: u64) -> Result<Vec<Call>, AllocError>
    ensures { IfOk result (λ calls. AddsWanted (preparing sessions) [] calls.items) }
{
    let mut calls = Vec::new(alloc);
    add_roots(alloc, &mut calls)?;
    add_sessions(alloc, &mut calls, sessions)?;
    Ok(calls)
}

// Both owners put the roots of their trees.
#[tactic(auto, using(crate::proofs::PreparingLemmas::adds_then))]
fn add_roots(alloc: Global, calls: &mut Vec<Call>) -> Result<(), AllocError>
    ensures { OnOk result (AddsWanted roots calls.old.items calls.new.items) }
{
    add_root(alloc, calls, FIRST_OWNER)?;
    add_root(alloc, calls, SECOND_OWNER)
}

// An owner puts the root of its tree.
fn add_root(alloc: Global, calls: &mut Vec<Call>, owner: &[u8]) -> Result<(), AllocError>
    ensures { OnOk result (AddsWanted (root_of owner.now ∷ []) calls.old.items calls.new.items) }
{
    let path = joined(alloc, owner, b"/")?;
    add_put(alloc, calls, owner, path, 1, Items::new(alloc))
}

// A text with another behind it.
fn joined(alloc: Global, text: &[u8], more: &[u8]) -> Result<Bytes, AllocError>
    ensures { IfOk result (λ whole. whole ≡ text.now ++ more.now) }
{
    let mut out = Vec::new(alloc);
    out.extend_from_slice(text)?;
    out.extend_from_slice(more)?;
    Ok(Bytes::from_vec(out))
}

// What prepares each session in turn.
#[tactic(auto, using(crate::proofs::PreparingLemmas::adding_none, crate::proofs::PreparingLemmas::adding_next, crate::proofs::PreparingLemmas::adding_all))]
fn add_sessions(alloc: Global, calls: &mut Vec<Call>, sessions: u64) -> Result<(), AllocError>
    ensures { OnOk result (AddsWanted (prepares_from 0 sessions) calls.old.items calls.new.items) }
{
    for k in 0..sessions {
        add_session(alloc, calls, k)?;
    }
    Ok(())
}

// What prepares session `k`.
#[tactic(auto, using(crate::proofs::PreparingLemmas::adds_then))]
fn add_session(alloc: Global, calls: &mut Vec<Call>, k: u64) -> Result<(), AllocError>
    ensures { OnOk result (AddsWanted (prepares k) calls.old.items calls.new.items) }
{
    add_directory(alloc, calls, k)?;
    add_block(alloc, calls, k)?;
    add_access(alloc, calls, k)
}

// The directory of session `k` is put.
fn add_directory(alloc: Global, calls: &mut Vec<Call>, k: u64) -> Result<(), AllocError>
    ensures { OnOk result (AddsWanted (directory_of k ∷ []) calls.old.items calls.new.items) }
{
    let path = directory_text(alloc, k)?;
    add_put(alloc, calls, owner_text(k), path, 1, Items::new(alloc))
}

// The text of its Access file is kept as a block.
fn add_block(alloc: Global, calls: &mut Vec<Call>, k: u64) -> Result<(), AllocError>
    ensures { OnOk result (AddsWanted (block_of k ∷ []) calls.old.items calls.new.items) }
{
    let text = access_text(alloc, k)?;
    add(alloc, calls, owner_text(k), Request::StorePut(text))
}

// Its Access file is put.
fn add_access(alloc: Global, calls: &mut Vec<Call>, k: u64) -> Result<(), AllocError>
    ensures { OnOk result (AddsWanted (access_of k ∷ []) calls.old.items calls.new.items) }
{
    let directory = directory_text(alloc, k)?;
    let path = joined(alloc, directory.as_slice(), b"/Access")?;
    let Ok(blocks) = access_blocks(alloc, k) else {
        drop(path);
        return Err(AllocError);
    };
    add_put(alloc, calls, owner_text(k), path, 0, blocks)
}

// The block of the Access file of session `k`.
fn access_blocks(alloc: Global, k: u64) -> Result<Items<Block>, AllocError>
    ensures { IfOk result (λ blocks. blocks ≡ whole_block (access_text k) ∷ []) }
{
    let text = access_text(alloc, k)?;
    let mut blocks = Items::new(alloc);
    blocks.push(whole_block(alloc, text.as_slice()))?;
    Ok(blocks)
}

// A file of one block, which the host's own store keeps.
fn whole_block(alloc: Global, text: &[u8]) -> Block
    ensures { result ≡ whole_block text.now }
{
    Block {
        location: Location {
            endpoint: Endpoint::Local,
            reference: Reference::of(text),
        },
        offset: 0,
        size: text.len() as u64,
        packdata: Bytes::new(alloc),
    }
}

// A Put by an owner.
fn add_put(
    alloc: Global,
    calls: &mut Vec<Call>,
    owner: &[u8],
    path: Bytes,
    attr: u8,
    blocks: Items<Block>,
) -> Result<(), AllocError>
    ensures { OnOk result (AddsWanted
        ((record { who = owner.now; what = put_of owner.now path attr blocks }) ∷ [])
        calls.old.items calls.new.items) }
{
    let Ok(writer) = copy_of(alloc, owner) else {
        drop(path);
        drop(blocks);
        return Err(AllocError);
    };
    let request = put_of(alloc, writer, path, attr, blocks)?;
    add(alloc, calls, owner, request)
}

// A request by whoever has this name.
#[tactic(auto, using(crate::proofs::PreparingLemmas::adds_one))]
fn add(alloc: Global, calls: &mut Vec<Call>, who: &[u8], request: Request) -> Result<(), AllocError>
    ensures { OnOk result (AddsWanted ((record { who = who.now; what = request }) ∷ [])
        calls.old.items calls.new.items) }
{
    match sign_on(alloc, who) {
        Ok(session) => {
            calls.push(Call {
                session,
                request,
                moment: 0,
            })?;
            Ok(())
        }
        Err(error) => {
            drop(request);
            Err(error)
        }
    }
}
