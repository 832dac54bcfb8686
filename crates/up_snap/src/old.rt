//! What stood at a path after the first records of a log.
ghost use Rattle.std.specs.Prelude.{◌≡◌, take, option_map, IfOk};
ghost use Rattle.up_log_tree.specs.Changes.{last_change};
ghost use Rattle.up_log_tree.specs.Trees.{node_at, tree_at};
ghost use Rattle.up_snap.specs.Shown.{old_path};
ghost use Rattle.up_mem_tree.specs.Nodes.{node_of};

use crate::moments::within;
use std::alloc::{AllocError, Global};
use up_mem_tree::{MemTree, NodeRef, put_by};
use up_names::{Path, User};

/// The path that a snapshot shows at a path: the elements behind the four of its moment.
pub(crate) fn old_path(owner: &User, path: &Path) -> Result<Path, AllocError>
    ensures { IfOk result (λ old. old ≡ old_path owner.now path.now) }
{
    let mut old = Path::root(owner.clone()?)?;
    for i in 4..path.len() {
        let Some(name) = path.element(i) else {
            return Err(AllocError);
        };
        old = within(&old, name)?;
    }
    Ok(old)
}

/// The position of the last of the first `n` records that changes a path.
///
/// It goes back from change to change, and looks at no other record.
fn change_then(tree: &MemTree, path: &Path, n: u64) -> Result<Option<u64>, AllocError>
    ensures { IfOk result (λ at. at ≡ last_change (take n tree.now.log) path.now) }
{
    let mut last = tree.last_change(path);
    for _step in 0..u64::MAX {
        let Some(at) = last else {
            return Ok(None);
        };
        if at <= n {
            return Ok(Some(at));
        }
        last = tree.change_before(at);
    }
    // No log has so many records.
    Err(AllocError)
}

/// What stood at a path after the first `n` records.
pub(crate) fn node_then<'a>(
    tree: &'a MemTree,
    path: &Path,
    n: u64,
) -> Result<Option<NodeRef<'a>>, AllocError>
    ensures { IfOk result (λ found. option_map node_of found
        ≡ node_at (tree_at tree.now.log n) path.now) }
{
    match change_then(tree, path, n)? {
        Some(at) => Ok(put_by(tree.rec_at(at))),
        None => Ok(None),
    }
}
