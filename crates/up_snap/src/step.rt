//! A request on a snapshot tree, and what comes of it.
ghost use Rattle.std.specs.Prelude.{◌≡◌, IfOk, Ok};
ghost use Rattle.up_commit.specs.Steps.{Steps};
ghost use Rattle.up_answers.specs.Answers.{added, answer, fault_reply};
ghost use Rattle.up_answers.specs.Fetching.{Fetched};
ghost use Rattle.up_answers.specs.SnapshotReplies.{snapshot_outcome};
ghost use Rattle.up_ends.specs.Growing.{OnlyGrows};
ghost use Rattle.up_ends.specs.Moments.{IsMoment};
ghost use Rattle.up_journal.specs.declared.limits.Limits.{Limits};
ghost use Rattle.up_list.specs.Asking.{asked_of, owner_asked};
ghost use Rattle.up_list.specs.Changes.{added_by, answer_of};
ghost use Rattle.up_list.specs.declared.asking.ReadRequest.{ReadRequest};
ghost use Rattle.up_lists.specs.Counts.{StaysUnless};
ghost use Rattle.up_policy.specs.Loadings.{Loading};
ghost use Rattle.up_log_tree.specs.Fits.{Fits};
ghost use Rattle.up_snap.specs.Outcomes.{IsOfSnapshots, log_with};
ghost use Rattle.up_tree.specs.States.{entries_of, fixed_of, log_of};

use crate::look::SnapLook;
use crate::outcome::{Led, outcome_for};
use std::alloc::{AllocError, Global};
use up_commit::change;
use up_disk::Disk;
use up_entry::EntryFault;
use up_list::{ReadRequest, asked_of};
use up_mem_tree::MemTree;
use up_names::User;
use up_tree::TreeState;
use up_wire::{Reply, Request};

/// What a tree answers to a user's request on its snapshot tree, at a moment in seconds since 1970; a snapshot is added exactly where
/// the reply is its position. Nothing is loaded or fetched for it. `Io` stands, in the place of a position, for the tree's disk;
/// `OutOfMemory` may come at any place. After each refusal the tree is as before.
pub fn snap_step<D: Disk>(
    alloc: Global,
    state: &mut TreeState<D>,
    user: &User,
    request: &Request,
    now: u64,
) -> Reply
    requires moment { IsMoment now }
    requires place { (asked : ReadRequest) → asked_of user.now request.now ≡ Ok asked
        → IsOfSnapshots state.old.owner (owner_asked asked) }
    ensures steps { (loaded : Loading) (fetched : Fetched) → Steps D.Disk
        (answer (log_of state.old) loaded fetched user.now request.now now)
        (added (log_of state.old) loaded fetched user.now request.now now)
        state.old state.new result }
    ensures quiet { StaysUnless (D.faults state.old.disk) (D.faults state.new.disk)
        (result ≡ Reply.Io) }
    ensures grows { OnlyGrows entries_of (λ state. D.faults state.disk) fixed_of state.old state.new }
{
    match asked_of(alloc, user, request) {
        Ok(asked) => {
            let reply = snap_asked(alloc, state, user, &asked, now);
            drop(asked);
            reply
        }
        Err(fault) => refused(fault),
    }
}

/// The reply to a request of which something is malformed.
fn refused(fault: EntryFault) -> Reply
    ensures { result ≡ fault_reply fault }
{
    match fault {
        EntryFault::Invalid(what) => Reply::Invalid(what),
        EntryFault::OutOfMemory => Reply::OutOfMemory,
    }
}

/// What a tree answers to a user's request on its snapshot tree, as [`snap_step`] has it, once the request's texts were read.
pub fn snap_asked<D: Disk>(
    alloc: Global,
    state: &mut TreeState<D>,
    user: &User,
    asked: &ReadRequest,
    now: u64,
) -> Reply
    requires moment { IsMoment now }
    requires place { IsOfSnapshots state.old.owner (owner_asked asked.now) }
    ensures steps { Steps D.Disk
        (answer_of (log_of state.old) (snapshot_outcome (log_of state.old) user.now asked.now now))
        (added_by (log_of state.old) (snapshot_outcome (log_of state.old) user.now asked.now now))
        state.old state.new result }
    ensures quiet { StaysUnless (D.faults state.old.disk) (D.faults state.new.disk)
        (result ≡ Reply.Io) }
    ensures grows { OnlyGrows entries_of (λ state. D.faults state.disk) fixed_of state.old state.new }
{
    let led = asked_in_memory(alloc, state.memory(), user, asked, now);
    change(state, led)
}

/// What a user's request on the snapshot tree of a log in memory leads to.
#[tactic(auto, using(crate::proofs::SnapUserLemmas::is_snap_user))]
fn asked_in_memory(
    alloc: Global,
    tree: &MemTree,
    user: &User,
    asked: &ReadRequest,
    now: u64,
) -> Result<Led, AllocError>
    requires moment { IsMoment now }
    requires place { IsOfSnapshots tree.now.owner (owner_asked asked.now) }
    ensures led { (limits : Limits) → IfOk result (λ led. led
        ≡ snapshot_outcome (log_with tree.now.owner limits tree.now.log) user.now asked.now now) }
    ensures fits { IfOk result (λ led. IfOk led (Fits tree.now.owner tree.now.log)) }
{
    let snap_user = asked.owner();
    let _text = snap_user.text();
    let look = SnapLook::new(tree, snap_user, user);
    outcome_for(alloc, tree, &look, asked, now)
}
