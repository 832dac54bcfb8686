//! What stands nearest to a path, on the way from it up to the root.
ghost use Rattle.std.specs.Prelude.{◌≡◌, option_map, Some};
ghost use Rattle.std.specs.Option.{option_and_then};
ghost use Rattle.up_names.specs.PathNames.{PathName};
ghost use Rattle.up_mem_tree.specs.Kept.{Stands, slots_of};
ghost use Rattle.up_mem_tree.specs.Nodes.{node_of};
ghost use Rattle.up_mem_tree.specs.Slots.{path_in};
ghost use Rattle.up_log_tree.specs.Trees.{node_at, standing_prefix, tree_of};

use crate::kept::Kept;
use crate::nodes::NodeRef;
use up_names::Path;

impl Kept {
    /// What stands at a slot.
    fn node_in(&self, id: usize) -> Option<NodeRef<'_>>
        requires stands { Stands self.now }
        requires there { (path : PathName) × (path_in (slots_of self.now) id ≡ Some path) }
        ensures { (path : PathName) → path_in (slots_of self.now) id ≡ Some path
            → option_map node_of result ≡ node_at (tree_of self.now.log.items) path }
    {
        match self.slot_with(Some(id)) {
            Some(slot) => self.node_of_slot(slot),
            None => None,
        }
    }

    /// What stands at the longest prefix of a path at which something stands, the path itself included.
    pub(crate) fn standing(&self, path: &Path) -> Option<NodeRef<'_>>
        requires { Stands self.now }
        ensures { option_map node_of result
            ≡ option_and_then (node_at (tree_of self.now.log.items))
            (standing_prefix (tree_of self.now.log.items) path.now) }
    {
        let Some((depth, deepest)) = self.deepest(path) else {
            return None;
        };
        let mut id = deepest;
        for _up in 0..depth {
            if let Some(node) = self.node_in(id) {
                return Some(node);
            }
            let Some(above) = self.id_above(id) else {
                unreachable!()
            };
            id = above;
        }
        self.node_in(id)
    }
}
