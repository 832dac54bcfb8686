//! A request, and what comes of it.
ghost use Rattle.std.specs.Prelude.{◌≡◌, IfOk};
ghost use Rattle.std.specs.Str.{bytes_eq};
ghost use Rattle.up_commit.specs.Steps.{Steps};
ghost use Rattle.up_answers.specs.Answers.{added, answer, asked_outcome, log_owner, tree_outcome};
ghost use Rattle.up_dir.specs.Crashes.{Survives};
ghost use Rattle.up_dir.specs.Forms.{IsFormed};
ghost use Rattle.up_ends.specs.Growing.{OnlyGrows};
ghost use Rattle.up_ends.specs.Moments.{IsMoment};
ghost use Rattle.up_list.specs.Asking.{owner_asked};
ghost use Rattle.up_list.specs.Changes.{added_by, answer_of};
ghost use Rattle.up_lists.specs.Counts.{StaysUnless};
ghost use Rattle.up_tree.specs.States.{entries_of, fixed_of, log_of};

use crate::leading::led_in;
use std::alloc::{AllocError, Global};
use up_commit::change;
use up_disk::Disk;
use up_edits::{Fetched, log_owner};
use up_entry::EntryFault;
use up_list::{ReadRequest, asked_of};
use up_names::User;
use up_policy::Loaded;
use up_snap::snap_asked;
use up_tree::TreeState;
use up_wire::{Reply, Request};

/// What a tree answers to a user's request, with what was loaded and fetched for it, at a moment in seconds since 1970; a record is
/// added exactly where the reply is its position. `Io` stands for a fetched block that failed, or, in the place of a position, for the
/// tree's disk; `OutOfMemory` may come at any place. After each refusal the tree is as before, but that after a fault of its disk one
/// record may be doubtful. What a crash leaves is told of any moment since the request, and of now.
pub fn step<D: Disk>(
    alloc: Global,
    state: &mut TreeState<D>,
    user: &User,
    request: &Request,
    loaded: &Loaded,
    fetched: &Fetched,
    now: u64,
) -> Reply
    requires { IsMoment now }
    ensures steps { Steps D.Disk
        (answer (log_of state.old) loaded.now fetched.now user.now request.now now)
        (added (log_of state.old) loaded.now fetched.now user.now request.now now)
        state.old state.new result }
    ensures quiet { StaysUnless (D.faults state.old.disk) (D.faults state.new.disk)
        (result ≡ Reply.Io) }
    ensures grows { OnlyGrows entries_of
        (λ state. D.faults state.disk) fixed_of state.old state.new }
    ensures crash { Survives D.Disk
        (added (log_of state.old) loaded.now fetched.now user.now request.now now)
        state.old state.new }
{
    let said = step_request(alloc, state, user, request, loaded, fetched, now);
    // That a crash now leaves the log is told of each tree.
    state.recall();
    said
}

/// The same, but for what a crash leaves.
#[tactic(auto, using(crate::proofs::FormLemmas::formed, up_commit::proofs::StepLemmas::steps_memory))]
fn step_request<D: Disk>(
    alloc: Global,
    state: &mut TreeState<D>,
    user: &User,
    request: &Request,
    loaded: &Loaded,
    fetched: &Fetched,
    now: u64,
) -> Reply
    requires { IsMoment now }
    ensures steps { Steps D.Disk
        (answer (log_of state.old) loaded.now fetched.now user.now request.now now)
        (added (log_of state.old) loaded.now fetched.now user.now request.now now)
        state.old state.new result }
    ensures quiet { StaysUnless (D.faults state.old.disk) (D.faults state.new.disk)
        (result ≡ Reply.Io) }
    ensures grows { OnlyGrows entries_of
        (λ state. D.faults state.disk) fixed_of state.old state.new }
{
    match asked_of(alloc, user, request) {
        Ok(asked) => {
            let reply = step_asked(alloc, state, user, &asked, loaded, fetched, now);
            drop(asked);
            reply
        }
        Err(EntryFault::Invalid(what)) => Reply::Invalid(what),
        Err(EntryFault::OutOfMemory) => Reply::OutOfMemory,
    }
}

/// What a tree answers to a user's request that was read before, as [`step`] of that request.
pub fn step_asked<D: Disk>(
    alloc: Global,
    state: &mut TreeState<D>,
    user: &User,
    asked: &ReadRequest,
    loaded: &Loaded,
    fetched: &Fetched,
    now: u64,
) -> Reply
    requires moment { IsMoment now }
    requires formed { IsFormed asked.now }
    ensures steps { Steps D.Disk
        (answer_of (log_of state.old)
        (asked_outcome (log_of state.old) loaded.now fetched.now user.now asked.now now))
        (added_by (log_of state.old)
        (asked_outcome (log_of state.old) loaded.now fetched.now user.now asked.now now))
        state.old state.new result }
    ensures quiet { StaysUnless (D.faults state.old.disk) (D.faults state.new.disk)
        (result ≡ Reply.Io) }
    ensures grows { OnlyGrows entries_of
        (λ state. D.faults state.disk) fixed_of state.old state.new }
    ensures crash { Survives D.Disk (added_by (log_of state.old)
        (asked_outcome (log_of state.old) loaded.now fetched.now user.now asked.now now))
        state.old state.new }
{
    let reply = step_by_owner(alloc, state, user, asked, loaded, fetched, now);
    // That a crash now leaves the log is told of each tree.
    state.recall();
    reply
}

/// The same, but for what a crash leaves.
#[tactic(auto, using(up_commit::proofs::StepLemmas::steps_memory))]
fn step_by_owner<D: Disk>(
    alloc: Global,
    state: &mut TreeState<D>,
    user: &User,
    asked: &ReadRequest,
    loaded: &Loaded,
    fetched: &Fetched,
    now: u64,
) -> Reply
    requires moment { IsMoment now }
    requires formed { IsFormed asked.now }
    ensures steps { Steps D.Disk
        (answer_of (log_of state.old)
        (asked_outcome (log_of state.old) loaded.now fetched.now user.now asked.now now))
        (added_by (log_of state.old)
        (asked_outcome (log_of state.old) loaded.now fetched.now user.now asked.now now))
        state.old state.new result }
    ensures quiet { StaysUnless (D.faults state.old.disk) (D.faults state.new.disk)
        (result ≡ Reply.Io) }
    ensures grows { OnlyGrows entries_of
        (λ state. D.faults state.disk) fixed_of state.old state.new }
{
    if asked.owner() == state.owner() {
        return step_in_tree(alloc, state, user, asked, loaded, fetched);
    }
    let Ok(in_log) = is_in_log_of(state.owner(), asked.owner()) else {
        return Reply::OutOfMemory;
    };
    if in_log {
        return snap_asked(alloc, state, user, asked, now);
    }
    Reply::WrongHost
}

/// Whether the paths of an owner belong to the log of this one.
fn is_in_log_of(base: &User, owner: &User) -> Result<bool, AllocError>
    ensures { IfOk result (λ same. same ≡ bytes_eq (log_owner owner.now) base.now) }
{
    let found = log_owner(owner)?;
    let same = found == *base;
    drop(found);
    Ok(same)
}

/// The same, on a path of the tree.
fn step_in_tree<D: Disk>(
    alloc: Global,
    state: &mut TreeState<D>,
    user: &User,
    asked: &ReadRequest,
    loaded: &Loaded,
    fetched: &Fetched,
) -> Reply
    requires owned { owner_asked asked.now ≡ state.old.owner }
    requires formed { IsFormed asked.now }
    ensures steps { Steps D.Disk
        (answer_of (log_of state.old)
        (tree_outcome (log_of state.old) loaded.now fetched.now user.now asked.now))
        (added_by (log_of state.old)
        (tree_outcome (log_of state.old) loaded.now fetched.now user.now asked.now))
        state.old state.new result }
    ensures quiet { StaysUnless (D.faults state.old.disk) (D.faults state.new.disk)
        (result ≡ Reply.Io) }
    ensures grows { OnlyGrows entries_of
        (λ state. D.faults state.disk) fixed_of state.old state.new }
{
    let led = led_in(alloc, state.memory(), loaded, fetched, user, asked);
    change(state, led)
}
