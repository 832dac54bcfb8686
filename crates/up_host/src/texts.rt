//! The text of a group, as a host gives it to who asks.
ghost use Rattle.std.specs.Prelude.{◌≡◌, ◌≢◌, IfOk};
ghost use Rattle.up_answers.specs.Answers.{log_owner};
ghost use Rattle.up_calls.specs.Loads.{group_text_answer};
ghost use Rattle.up_host.specs.Peers.{answer_elsewhere, group_text_by};
ghost use Rattle.up_list.specs.Reads.{group_text_reply};
ghost use Rattle.up_snap.specs.Looked.{look_at};
ghost use Rattle.up_snap.specs.Outcomes.{IsOfSnapshots};
ghost use Rattle.up_tree.specs.States.{log_of};

use crate::host::Host;
use crate::trees::tree_of;
use std::alloc::{AllocError, Global};
use std::hash::RandomState;
use up_calls::group_text_of;
use up_disk::Disk;
use up_edits::log_owner;
use up_entry::What;
use up_list::group_text;
use up_mem_tree::{MemTree, is_group};
use up_names::{Path, User};
use up_snap::SnapLook;
use up_tree::TreeState;
use up_wire::{Reply, bounded};

impl<D: Disk> Host<D> {
    /// The answer to a user who asks for the text of a group, with nothing loaded: that of the tree of the group's owner, or of the
    /// snapshot tree of its base user, or `WrongHost` where the host does not have it. A path that is no group's is `Invalid`.
    pub fn group_text(&self, alloc: Global, asker: &User, path: &Path) -> Reply
        ensures { result ≢ Reply.OutOfMemory
            → result ≡ group_text_by self.now.trees asker.now path.now }
    {
        match log_owner(path.owner()) {
            Ok(owner) => self.text_of(alloc, &owner, asker, path),
            Err(_) => Reply::OutOfMemory,
        }
    }

    // The same, by the owner of the log to which the path belongs.
    fn text_of(&self, alloc: Global, owner: &User, asker: &User, path: &Path) -> Reply
        requires { owner.now ≡ log_owner path.now.owner }
        ensures { result ≢ Reply.OutOfMemory
            → result ≡ group_text_by self.now.trees asker.now path.now }
    {
        match tree_of(&self.trees, owner) {
            Some(held) => text_in(alloc, self.random, &held.state, asker, path),
            None => elsewhere(path),
        }
    }
}

// The answer of the tree whose log answers on the path.
fn text_in<D: Disk>(
    alloc: Global,
    random: RandomState,
    state: &TreeState<D>,
    asker: &User,
    path: &Path,
) -> Reply
    requires { log_owner path.now.owner ≡ state.now.owner }
    ensures { result ≢ Reply.OutOfMemory
        → result ≡ group_text_answer (log_of state.now) asker.now path.now }
{
    if path.owner() == state.owner() {
        return group_text_of(alloc, random, state, asker, path);
    }
    let _text = path.as_str();
    if !is_group(path) {
        return Reply::Invalid(What::GroupName);
    }
    match old_text(alloc, state.memory(), asker, path) {
        Ok(reply) => bounded(reply),
        Err(_) => Reply::OutOfMemory,
    }
}

// The text of a group in the snapshot tree.
#[tactic(auto, using(up_snap::proofs::SnapUserLemmas::is_snap_user))]
fn old_text(alloc: Global, tree: &MemTree, asker: &User, path: &Path) -> Result<Reply, AllocError>
    requires { IsOfSnapshots tree.now.owner path.now.owner }
    ensures { IfOk result (λ reply. reply ≡ group_text_reply
        (look_at tree.now.owner tree.now.log asker.now) path.now) }
{
    let snap_user = path.owner();
    let _text = snap_user.text();
    group_text(alloc, &SnapLook::new(tree, snap_user, asker), path)
}

// The answer where the host does not have the tree.
fn elsewhere(path: &Path) -> Reply
    ensures { result ≡ answer_elsewhere path.now }
{
    if is_group(path) {
        Reply::WrongHost
    } else {
        Reply::Invalid(What::GroupName)
    }
}
