//! What is done in one turn of one log, over its state.
ghost use Rattle.std.specs.Prelude.{◌≡◌, ◌==◌, ◌||◌, None, Ok, IfOk, length};
ghost use Rattle.std.specs.Result.{result_ok};
ghost use Rattle.up_blocks.specs.Blocks as of_blocks;
ghost use Rattle.up_calls.specs.Kept.{where_missing};
ghost use Rattle.up_calls.specs.Loads.{group_text_answer, load_of};
ghost use Rattle.up_calls.specs.Routes.{service_of};
ghost use Rattle.up_calls.specs.Rounds.{bound};
ghost use Rattle.up_calls.specs.Services.{key_fault, store_fault};
ghost use Rattle.up_calls.specs.Steps.{BlockRead, FetchedAs, KeysTried, StoreReads, StoreTried, Tried, said_at};
ghost use Rattle.up_calls.specs.declared.service.Service.TheVariants as service;
ghost use Rattle.up_ends.specs.Growing.{OnlyGrows};
ghost use Rattle.up_ends.specs.Moments.{IsMoment};
ghost use Rattle.up_entry.specs.declared.fetch.Fetch.TheVariants as fetches;
ghost use Rattle.up_foreign.specs.Kept.{Keeps};
ghost use Rattle.up_keys.specs.Keys as of_keys;
ghost use Rattle.up_list.specs.Asking.{asked_of};
ghost use Rattle.up_lists.specs.Counts.{StaysUnless};
ghost use Rattle.up_tree.specs.States.{entries_of, fixed_of, log_of};

use crate::gathering::BOUND;
use crate::loads::{group_text_of, load_of};
use crate::logs::Turn;
use std::alloc::{AllocError, Global};
use std::hash::RandomState;
use up_blocks::{BlockWhy, Blocks};
use up_bytes::Bytes;
use up_dir::{Fetched, step_asked};
use up_disk::Disk;
use up_entry::Fetch;
use up_foreign::{KeptSearch, foreign_asked};
use up_keys::{Keys, key_step};
use up_list::ReadRequest;
use up_names::{Path, User};
use up_policy::{LoadAnswer, Loaded, Names};
use up_refs::Reference;
use up_store::store_step;
use up_tree::TreeState;
use up_wire::{Reply, Request};

/// One turn of a tree: which groups are missing for a request, or else the reply. A reply that tells of want of memory is none. The
/// request's texts were read before, to `asked`. The search for what is missing goes on from what was kept of the turn before.
pub fn try_tree<D: Disk>(
    alloc: Global,
    state: &mut TreeState<D>,
    user: &User,
    request: &Request,
    asked: &ReadRequest,
    loaded: &Loaded,
    kept: &mut KeptSearch,
    fetched: &Fetched,
    now: u64,
) -> Turn
    requires read { asked_of user.now request.now ≡ Ok asked.now }
    requires kept { Keeps state.old.owner state.old.log loaded.now kept.old }
    requires moment { IsMoment now }
    ensures tried { Tried D.Disk (record { user = user.now; request = request.now })
        loaded.now fetched.now now state.old state.new result }
    ensures kept { where_missing result
        (Keeps state.new.owner state.new.log loaded.now kept.new) }
    ensures grows { OnlyGrows entries_of
        (λ state. D.faults state.disk) fixed_of state.old state.new }
{
    let Ok(missing) = foreign_asked(alloc, state, user, asked, loaded, kept) else {
        return Turn::Wanting;
    };
    if !is_enough(&missing, loaded) {
        return Turn::Missing(missing);
    }
    drop(missing);
    let position = state.position();
    let reply = step_asked(alloc, state, user, asked, loaded, fetched, now);
    said_at(reply, position)
}

// Whether loading ends: nothing is missing, or the bound is reached.
fn is_enough(missing: &Names, loaded: &Loaded) -> bool
    ensures { result ≡ (length missing.now == 0 || length loaded.now == bound) }
{
    missing.len() == 0 || loaded.len() == BOUND
}

// The turn that a reply at a position is.
fn said_at(reply: Reply, position: u64) -> Turn
    ensures { result ≡ said_at reply position }
{
    match reply {
        Reply::OutOfMemory => Turn::Wanting,
        reply => Turn::Said(reply, position),
    }
}

/// What is loaded by the text of a group that the tree of its owner gives the host's operator. An `Err` is want of memory.
pub fn read_text<D: Disk>(
    alloc: Global,
    random: RandomState,
    state: &TreeState<D>,
    operator: &User,
    name: &Path,
) -> Result<LoadAnswer, AllocError>
    requires { name.now.owner ≡ state.now.owner }
    ensures { IfOk result (λ answer. answer ≡ load_of name.now.owner
        (group_text_answer (log_of state.now) operator.now name.now)) }
{
    let reply = group_text_of(alloc, random, state, operator, name);
    load_of(name.owner(), reply)
}

/// What the host's own store gives for a reference. An `Err` is want of memory.
pub fn read_block<D: Disk>(
    state: &mut Blocks<D>,
    reference: &Reference,
) -> Result<Fetch, AllocError>
    ensures reads { StoreReads D.Disk state.old state.new }
    ensures given { IfOk result (BlockRead D.Disk state.old state.new reference.now) }
    ensures quiet { StaysUnless (D.faults state.old.disk) (D.faults state.new.disk)
        (result ≡ Ok fetches.Failed) }
    ensures grows { OnlyGrows of_blocks.log_of
        (λ state. D.faults state.disk) of_blocks.limits_of state.old state.new }
{
    let _position = state.position();
    fetched_as(state.get(reference))
}

// What is fetched where the store gave this.
fn fetched_as(given: Result<Bytes, BlockWhy>) -> Result<Fetch, AllocError>
    ensures { FetchedAs given (result_ok result) }
{
    match given {
        Ok(bytes) => Ok(Fetch::Got(bytes)),
        Err(BlockWhy::NotExist) => Ok(Fetch::Missing),
        // A get is never full.
        Err(BlockWhy::Fault | BlockWhy::Full(_)) => Ok(Fetch::Failed),
        Err(BlockWhy::OutOfMemory) => Err(AllocError),
    }
}

/// One turn of the store: the reply to a request of which nothing is malformed, and the number of records over which it is the answer.
pub fn try_store<D: Disk>(
    state: &mut Blocks<D>,
    operator: &User,
    user: &User,
    request: &Request,
) -> (Reply, u64)
    requires store { service_of request.now ≡ service.Store }
    requires sound { store_fault request.now ≡ None }
    ensures tried { StoreTried D.Disk operator.now
        (record { user = user.now; request = request.now })
        state.old state.new result.0 result.1 }
    ensures grows { OnlyGrows of_blocks.log_of
        (λ state. D.faults state.disk) of_blocks.limits_of state.old state.new }
{
    let position = state.position();
    (store_step(state, operator, user, request), position)
}

/// One turn of the keys, likewise.
pub fn try_keys<D: Disk>(state: &mut Keys<D>, user: &User, request: &Request) -> (Reply, u64)
    requires keys { service_of request.now ≡ service.Keys }
    requires sound { key_fault request.now ≡ None }
    ensures tried { KeysTried D.Disk (record { user = user.now; request = request.now })
        state.old state.new result.0 result.1 }
    ensures grows { OnlyGrows of_keys.log_of
        (λ state. D.faults state.disk) of_keys.limits_of state.old state.new }
{
    let position = state.position();
    (key_step(state, user, request), position)
}
