//! The tree as it was after its first records.
ghost use Rattle.std.specs.Prelude.{◌≡◌, ◌≤◌, ◌<◌, ◌+◌, length, option_map, slice_get, take, IfOk, OnOk};
ghost use Rattle.std.specs.Option.{option_copied};
ghost use Rattle.up_log_tree.specs.Trees.{children, node_at, tree_at};
ghost use Rattle.up_mem_tree.specs.Nodes.{node_of};

use std::alloc::AllocError;
use std::marker::Model;
use up_mem_tree::{MemTree, NodeRef};
use up_names::Path;

/// A tree as it was after some first records of its log.
#[derive(Drop)]
pub struct Old {
    tree: MemTree,
}

impl Model for Old {
    ghost use Rattle.up_log_tree.specs.Trees.{Tree, tree_of};

    ghost Value = { Tree };

    ghost view = { λ old. tree_of old.tree.log };
}

impl Old {
    /// What stood at a path.
    pub fn node(&self, path: &Path) -> Option<NodeRef<'_>>
        ensures { option_map node_of result ≡ node_at self.now path.now }
    {
        self.tree.node(path)
    }

    /// The path of child `i` of a directory, from 0, in the order of paths.
    pub fn child(&self, dir: &Path, i: u64) -> Option<&Path>
        ensures { option_copied result ≡ slice_get (children self.now dir.now) i }
    {
        self.tree.child(dir, i)
    }
}

/// The tree as it was after its first `n` records.
pub(crate) fn old_tree(tree: &MemTree, n: u64) -> Result<Old, AllocError>
    requires { n ≤ length tree.now.log }
    ensures { IfOk result (λ old. old ≡ tree_at tree.now.log n) }
{
    // That the owner is no snapshot user is told here.
    tree.recall();
    let mut old = MemTree::new(tree.owner().allocator(), tree.owner().clone()?);
    match enter_first(&mut old, tree, n) {
        Ok(()) => Ok(Old { tree: old }),
        Err(fault) => {
            drop(old);
            Err(fault)
        }
    }
}

/// Enters the first `n` records of another tree into an empty one of the same owner.
fn enter_first(old: &mut MemTree, tree: &MemTree, n: u64) -> Result<(), AllocError>
    requires owner { old.old.owner ≡ tree.now.owner }
    requires empty { old.old.log ≡ take 0 tree.now.log }
    requires within { n ≤ length tree.now.log }
    ensures { OnOk result (old.new.log ≡ take n tree.now.log) }
{
    for i in 0..n {
        enter_next(old, tree, i)?;
    }
    Ok(())
}

/// Enters the record behind the first `i` of another tree into a tree that has these.
#[tactic(auto, using(crate::proofs::Olds::fits_next, crate::proofs::Olds::taken_next))]
fn enter_next(old: &mut MemTree, tree: &MemTree, i: u64) -> Result<(), AllocError>
    requires owner { old.old.owner ≡ tree.now.owner }
    requires log { old.old.log ≡ take i tree.now.log }
    requires within { i < length tree.now.log }
    ensures owner { old.new.owner ≡ tree.now.owner }
    ensures log { OnOk result (old.new.log ≡ take (i + 1) tree.now.log) }
{
    // That each record fits those before it, and their number its type, is told with the number.
    let _records = tree.position();
    let Some(rec) = tree.rec_at(i + 1) else {
        return Ok(());
    };
    old.make_ready(rec.clone()?)?;
    old.enter();
    Ok(())
}
