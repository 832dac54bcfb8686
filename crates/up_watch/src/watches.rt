//! The reply to Watch.
ghost use Rattle.std.specs.Prelude.{◌≡◌, ◌≢◌, IfOk, pos};
ghost use Rattle.up_answers.specs.Watches.{items_under, watch_reply, watched};
ghost use Rattle.up_log_tree.specs.Logs.{Limits as Bounds};
ghost use Rattle.up_log_tree.specs.Trees.{tree_of};
ghost use Rattle.up_tree.specs.States.{log_of};
ghost use Rattle.up_wire.specs.Bounds.{bounded};
ghost use Rattle.up_wire.specs.declared.replies.Reply.TheVariants.{OutOfMemory};
ghost use Rattle.up_watch.specs.Watching.{log_in};

use crate::batch::batch;
use crate::items::items_under;
use crate::watcher::{Known, Reader};
use std::alloc::{AllocError, Global};
use up_disk::Disk;
use up_entry::What;
use up_list::{TreeLook, check};
use up_lists::Items;
use up_mem_tree::MemTree;
use up_names::{Path, User};
use up_policy::Loaded;
use up_tree::TreeState;
use up_wire::{Done, Reply, WatchEvent, bounded};

/// The reply to Watch of a path of the tree's owner: what happened under it above a sequence, or what there is. Want of memory is
/// a reply too.
pub fn watch<D: Disk>(
    alloc: Global,
    state: &TreeState<D>,
    loaded: &Loaded,
    user: &User,
    path: &Path,
    sequence: i64,
) -> Reply
    requires { path.now.owner ≡ state.now.owner }
    ensures { result ≢ OutOfMemory → result
        ≡ bounded (watch_reply (log_of state.now) loaded.now user.now path.now sequence) }
{
    match watch_in(alloc, state.memory(), loaded, user, path, sequence) {
        Ok(reply) => bounded(reply),
        Err(AllocError) => Reply::OutOfMemory,
    }
}

/// The reply to Watch of a path of a tree in memory, however long it is: what happened under it above a sequence, or what there is. It
/// looks at no limit of the log.
#[tactic(auto, unfolding(up_answers::specs::Watches::watch_reply))]
pub fn watch_in(
    alloc: Global,
    tree: &MemTree,
    loaded: &Loaded,
    user: &User,
    path: &Path,
    sequence: i64,
) -> Result<Reply, AllocError>
    requires { path.now.owner ≡ tree.now.owner }
    ensures { (limits : Bounds) → IfOk result (λ reply. reply
        ≡ watch_reply (log_in tree.now limits) loaded.now user.now path.now sequence) }
{
    if sequence < -2 {
        return Ok(Reply::Invalid(What::Sequence));
    }
    let look = TreeLook::new(tree, loaded, user);
    if let Some(refusal) = check(alloc, &look, path, true, None)? {
        return Ok(refusal);
    }
    told(alloc, tree, loaded, user, path, sequence)
}

/// What is told of a path, by the sequence.
#[tactic(auto, unfolding(up_answers::specs::Watches::watched))]
fn told(
    alloc: Global,
    tree: &MemTree,
    loaded: &Loaded,
    user: &User,
    path: &Path,
    sequence: i64,
) -> Result<Reply, AllocError>
    requires { path.now.owner ≡ tree.now.owner }
    ensures { (limits : Bounds) → IfOk result (λ reply. reply
        ≡ watched (log_in tree.now limits) loaded.now user.now path.now sequence) }
{
    if sequence >= 0 {
        return told_above(alloc, tree, loaded, user, path, sequence as u64);
    }
    let records = tree.position();
    let items = if sequence == -1 {
        items_now(alloc, tree, loaded, user, path)?
    } else {
        Vec::new(alloc)
    };
    Ok(Reply::Ok(Done::Events(Items::from_vec(items), records)))
}

/// What happened under a path above a sequence of 0 or more.
#[tactic(auto, unfolding(up_answers::specs::Watches::watched))]
fn told_above(
    alloc: Global,
    tree: &MemTree,
    loaded: &Loaded,
    user: &User,
    path: &Path,
    sequence: u64,
) -> Result<Reply, AllocError>
    requires { path.now.owner ≡ tree.now.owner }
    ensures { (limits : Bounds) → IfOk result (λ reply. reply
        ≡ watched (log_in tree.now limits) loaded.now user.now path.now (pos sequence)) }
{
    if sequence > tree.position() {
        return Ok(Reply::Invalid(What::Sequence));
    }
    let reader = Reader::new(tree, loaded, user);
    let mut known = Known::new(alloc);
    let positions = tree.positions_under(path, sequence);
    let reply = batch(alloc, &reader, &mut known, positions);
    drop(known);
    reply
}

/// The items under a path on which the user has any right, as they are now.
fn items_now(
    alloc: Global,
    tree: &MemTree,
    loaded: &Loaded,
    user: &User,
    path: &Path,
) -> Result<Vec<WatchEvent>, AllocError>
    ensures { IfOk result (λ items. items.items ≡ items_under (record {
      owner = tree.now.owner;
      tree = tree_of tree.now.log;
      loaded = loaded.now;
      user = user.now;
    }) path.now) }
{
    let reader = Reader::new(tree, loaded, user);
    let mut known = Known::new(alloc);
    let items = items_under(
        alloc,
        &TreeLook::new(tree, loaded, user),
        &reader,
        &mut known,
        path,
    );
    drop(known);
    items
}
