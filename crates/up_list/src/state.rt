//! Links and Glob of a tree over its log.
ghost use Rattle.std.specs.Prelude.{◌≡◌, ◌≢◌, true, IfOk};
ghost use Rattle.std.specs.Option.{option_and_then, option_copied, option_map};
ghost use Rattle.up_log_tree.specs.Trees.{tree_of};
ghost use Rattle.up_mem_tree.specs.Nodes.{node_of};
ghost use Rattle.up_wire.specs.Bounds.{bounded};
ghost use Rattle.up_wire.specs.declared.replies.Reply.TheVariants.{OutOfMemory};
ghost use Rattle.up_list.specs.Checks.{first_link, tested, ways_before};
ghost use Rattle.up_list.specs.Entries.{entry_of, if_link};
ghost use Rattle.up_list.specs.Globs.{glob_reply};
ghost use Rattle.up_list.specs.States.{look_at, name_of};

use crate::globs::glob_for;
use crate::view::{TreeLook, standing};
use std::alloc::{AllocError, Global};
use up_disk::Disk;
use up_entry::{Entry, Kind};
use up_mem_tree::{MemTree, NodeRef};
use up_names::{Path, User};
use up_pattern::Pattern;
use up_policy::Loaded;
use up_tree::TreeState;
use up_wire::{Reply, bounded};

/// The path of the link that is met on the way to a path: at its shortest prefix at which one stands. Where `itself` is false,
/// the path itself is not looked at.
#[tactic(auto, unfolding(crate::specs::Checks::ways_before))]
pub fn first_link<D: Disk>(
    _alloc: Global,
    state: &TreeState<D>,
    path: &Path,
    itself: bool,
) -> Result<Option<Path>, AllocError>
    ensures { IfOk result (λ found. found
        ≡ option_map name_of (first_link (tree_of state.now.log) (tested itself path.now))) }
{
    if itself {
        return link_on_way(state.memory(), path);
    }
    let above = path.parent()?;
    match &above {
        Some(parent) => link_on_way(state.memory(), parent),
        None => Ok(None),
    }
}

/// The path of the link that is met on the way to a path or at it.
#[tactic(auto, using(crate::proofs::LinkLemmas::first_link_on_way, crate::proofs::ViewLemmas::rooted_log))]
fn link_on_way(tree: &MemTree, path: &Path) -> Result<Option<Path>, AllocError>
    ensures { IfOk result (λ found. found
        ≡ option_map name_of (first_link (tree_of tree.now.log) (tested true path.now))) }
{
    tree.recall();
    match link_of(standing(tree, path)) {
        Some(link) => Ok(Some(link.name.clone()?)),
        None => Ok(None),
    }
}

/// The entry of a node, where it is a link.
fn link_of(node: Option<NodeRef<'_>>) -> Option<&Entry>
    ensures { option_copied result
        ≡ option_and_then if_link (option_map entry_of (option_map node_of node.entry)) }
{
    let entry = node?.entry;
    match entry.attr.kind {
        Kind::Link => Some(entry),
        Kind::File | Kind::Directory => None,
    }
}

/// The reply to Glob of a pattern of the tree's owner. Want of memory is a reply too.
pub fn glob<D: Disk>(
    alloc: Global,
    state: &TreeState<D>,
    loaded: &Loaded,
    user: &User,
    pattern: &Pattern,
) -> Reply
    requires { pattern.now.owner ≡ state.now.owner }
    ensures { result ≢ OutOfMemory
        → result ≡ bounded (glob_reply (look_at state.now loaded.now user.now) pattern.now) }
{
    let look = TreeLook::new(state.memory(), loaded, user);
    match glob_for(alloc, &look, pattern) {
        Ok(reply) => bounded(reply),
        Err(AllocError) => Reply::OutOfMemory,
    }
}
