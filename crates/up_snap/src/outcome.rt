//! What a request on a snapshot tree leads to.
ghost use Rattle.std.specs.Prelude.{◌≡◌, ◌∷◌, [], codes, is_none, is_some, IfOk};
ghost use Rattle.up_answers.specs.SnapshotReplies.{snapshot_delete, snapshot_outcome, snapshot_put, snapshot_record, takes_snapshot};
ghost use Rattle.up_journal.specs.declared.limits.Limits.{Limits};
ghost use Rattle.up_list.specs.Asking.{owner_asked};
ghost use Rattle.up_list.specs.Changes.{right_to_put};
ghost use Rattle.up_names.specs.PathOrder.{path_eq};
ghost use Rattle.up_log_tree.specs.Fits.{Fits, root_of, snapshot_user};
ghost use Rattle.up_log_tree.specs.Logs.{Log};
ghost use Rattle.up_log_tree.specs.Snapshots.{snap_at};
ghost use Rattle.up_log_tree.specs.Trees.{node_at, tree_of};
ghost use Rattle.up_ends.specs.Moments.{IsMoment};
ghost use Rattle.up_snap.specs.Looked.{IsSnapUser, look_at};
ghost use Rattle.up_snap.specs.Outcomes.{log_with};

use crate::look::is_there;
use std::alloc::{AllocError, Global};
use up_entry::{Entry, Kind, Rec, What};
use up_list::{Onlooker, ReadRequest, check, glob_for, group_text, lookup, which_access};
use up_mem_tree::MemTree;
use up_names::{Path, User};
use up_rights::Right;
use up_wire::Reply;

/// A reply; or a record that is to be added first.
pub(crate) type Led = Result<Rec, Reply>;

/// What a user's request on the snapshot tree of a log leads to at a moment; `look` is the user before that tree.
#[tactic(auto, unfolding(up_answers::specs::SnapshotReplies::snapshot_outcome))]
pub(crate) fn outcome_for<O: Onlooker>(
    alloc: Global,
    tree: &MemTree,
    look: &O,
    asked: &ReadRequest,
    now: u64,
) -> Result<Led, AllocError>
    requires snap_user { IsSnapUser tree.now.owner (owner_asked asked.now) }
    requires seen { O.look look.now
        ≡ look_at tree.now.owner tree.now.log (O.look look.now).user }
    requires moment { IsMoment now }
    ensures led { (limits : Limits) → IfOk result (λ led. led
        ≡ snapshot_outcome (log_with tree.now.owner limits tree.now.log)
        (O.look look.now).user asked.now now) }
    ensures fits { IfOk result (λ led. IfOk led (Fits tree.now.owner tree.now.log)) }
{
    match asked {
        ReadRequest::Lookup(path) => Ok(Err(lookup(alloc, look, path)?)),
        ReadRequest::WhichAccess(path) => Ok(Err(which_access(alloc, look, path)?)),
        ReadRequest::GroupText(path) => Ok(Err(group_text(alloc, look, path)?)),
        ReadRequest::Glob(pattern) => Ok(Err(glob_for(alloc, look, pattern)?)),
        ReadRequest::Watch(_, _) => Ok(Err(Reply::Invalid(What::SnapshotWatch))),
        ReadRequest::Delete(path) => Ok(Err(deleted(alloc, look, path)?)),
        ReadRequest::Put(put) => taken(alloc, tree, look, &put.entry, now),
    }
}

/// The reply to a Delete.
#[tactic(auto, unfolding(up_answers::specs::SnapshotReplies::snapshot_delete))]
fn deleted<O: Onlooker>(alloc: Global, look: &O, path: &Path) -> Result<Reply, AllocError>
    requires { path.now.owner ≡ (O.look look.now).owner }
    ensures { IfOk result (λ reply. reply ≡ snapshot_delete (O.look look.now) path.now) }
{
    match check(alloc, look, path, false, None)? {
        Some(refusal) => Ok(refusal),
        None => Ok(Reply::Permission(Right::Delete)),
    }
}

/// What a Put leads to: a snapshot, or a refusal.
#[tactic(auto, unfolding(up_answers::specs::SnapshotReplies::snapshot_put))]
fn taken<O: Onlooker>(
    alloc: Global,
    tree: &MemTree,
    look: &O,
    entry: &Entry,
    now: u64,
) -> Result<Led, AllocError>
    requires snap_user { IsSnapUser tree.now.owner (O.look look.now).owner }
    requires owned { entry.now.name.owner ≡ (O.look look.now).owner }
    requires moment { IsMoment now }
    ensures led { (limits : Limits) → IfOk result (λ led. led
        ≡ snapshot_put (log_with tree.now.owner limits tree.now.log) (O.look look.now)
        entry.now now) }
    ensures fits { IfOk result (λ led. IfOk led (Fits tree.now.owner tree.now.log)) }
{
    if let Some(refusal) = check(alloc, look, &entry.name, true, None)? {
        return Ok(Err(refusal));
    }
    if takes_snapshot(entry) {
        return snapshot_record(tree, entry.name.owner(), now);
    }
    let right = right_to_put(alloc, look, &entry.name)?;
    Ok(Err(Reply::Permission(right)))
}

/// The right that a Put needs, by what stands there.
fn right_to_put<O: Onlooker>(alloc: Global, look: &O, path: &Path) -> Result<Right, AllocError>
    ensures { IfOk result (λ right. right
        ≡ right_to_put (node_at (O.look look.now).tree path.now)) }
{
    let there = is_there(look.item(alloc, path)?);
    Ok(if there { Right::Write } else { Right::Create })
}

/// Whether an entry is the file that takes a snapshot when it is put.
fn takes_snapshot(entry: &Entry) -> bool
    ensures { (log : Log) → entry.now.name.owner ≡ snapshot_user log.owner
        → result ≡ takes_snapshot log entry.now }
{
    entry.attr.kind == Kind::File && is_taker(&entry.name)
}

/// Whether a path has one element, which is the name of that file.
fn is_taker(path: &Path) -> bool
    ensures { result ≡ path_eq path.now
        (record { owner = path.now.owner; elements = codes "TakeSnapshot" ∷ [] }) }
{
    path.len() == 1
        && match path.element(0) {
            Some(name) => name == "TakeSnapshot",
            None => false,
        }
}

/// A snapshot of the tree as it is; or a refusal, where the tree has no root, or a snapshot of the same second is there.
#[tactic(auto, unfolding(up_answers::specs::SnapshotReplies::snapshot_record), using(crate::proofs::OutcomeLemmas::snap_fits))]
fn snapshot_record(tree: &MemTree, snap_user: &User, now: u64) -> Result<Led, AllocError>
    requires snap_user { IsSnapUser tree.now.owner snap_user.now }
    requires moment { IsMoment now }
    ensures led { (limits : Limits) → IfOk result (λ led. led
        ≡ snapshot_record (log_with tree.now.owner limits tree.now.log) now) }
    ensures fits { IfOk result (λ led. IfOk led (Fits tree.now.owner tree.now.log)) }
{
    let _text = snap_user.text();
    tree.recall();
    if has_no_root(tree)? {
        return Ok(Err(Reply::NotExist));
    }
    if has_snapshot(tree, now) {
        return Ok(Err(Reply::Exist));
    }
    Ok(Ok(Rec::Snap(now)))
}

/// Whether nothing stands at the tree's root.
fn has_no_root(tree: &MemTree) -> Result<bool, AllocError>
    ensures { IfOk result (λ bare. bare
        ≡ is_none (node_at (tree_of tree.now.log) (root_of tree.now.owner))) }
{
    let root = Path::root(tree.owner().clone()?)?;
    Ok(tree.node(&root).is_none())
}

/// Whether a snapshot of that second is there.
fn has_snapshot(tree: &MemTree, now: u64) -> bool
    ensures { result ≡ is_some (snap_at tree.now.log now) }
{
    tree.snap_at(now).is_some()
}
