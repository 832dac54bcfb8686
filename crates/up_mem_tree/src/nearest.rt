//! The Access file that governs a path.
ghost use Rattle.std.specs.Prelude.{◌≡◌, ◌≤◌, Some, length, option_map};
ghost use Rattle.std.specs.Option.{option_copied};
ghost use Rattle.up_names.specs.PathNames.{PathName, cut};
ghost use Rattle.up_mem_tree.specs.Kept.{Stands, paths_of, slots_of};
ghost use Rattle.up_mem_tree.specs.Slots.{IsParentIdOf, path_in};
ghost use Rattle.up_policy.specs.Governors.{first_text, prefixes};
ghost use Rattle.up_log_tree.specs.Rights.{facts_of, governing_prefix};
ghost use Rattle.up_log_tree.specs.Trees.{tree_at};

use crate::history::text_at;
use crate::kept::Kept;
use crate::slots::slot_at;
use up_access::AccessText;
use up_names::Path;

impl Kept {
    /// The rules of the Access file in the directory at a slot, after the first `n` records.
    fn access_in(&self, id: usize, n: u64) -> Option<&AccessText>
        requires stands { Stands self.now }
        requires within { n ≤ length self.now.log.items }
        requires there { (dir : PathName) × (path_in (slots_of self.now) id ≡ Some dir) }
        ensures { (dir : PathName) → path_in (slots_of self.now) id ≡ Some dir
            → option_copied result
            ≡ (facts_of self.now.owner (tree_at self.now.log.items n)).access dir }
    {
        match self.slot_with(Some(id)) {
            Some(slot) => text_at(slot.access.as_slice(), n, self.log.len() as u64),
            None => None,
        }
    }

    /// The slot of the directory that a slot's path stands in, where it has one.
    pub(crate) fn id_above(&self, id: usize) -> Option<usize>
        requires stands { Stands self.now }
        ensures { (path : PathName) → path_in (slots_of self.now) id ≡ Some path
            → IsParentIdOf (paths_of self.now) (slots_of self.now) path result }
    {
        match slot_at(self.slots.as_slice(), id) {
            Some(slot) => slot.parent,
            None => None,
        }
    }

    /// The rules of the Access file that governed a path after the first `n` records, and the number of elements of the directory in
    /// which it stood. The path's text is read once.
    pub(crate) fn nearest_at(&self, path: &Path, n: u64) -> Option<(u64, &AccessText)>
        requires stands { Stands self.now }
        requires within { n ≤ length self.now.log.items }
        ensures text { option_map (λ found. found.1.now) result
            ≡ first_text (facts_of self.now.owner (tree_at self.now.log.items n)).access
            (prefixes path.now) }
        ensures dir { option_map (λ found. cut found.0 path.now) result
            ≡ governing_prefix (tree_at self.now.log.items n) path.now }
    {
        let Some((depth, deepest)) = self.deepest(path) else {
            return None;
        };
        let mut id = deepest;
        for up in 0..depth {
            if let Some(text) = self.access_in(id, n) {
                return Some((depth - up, text));
            }
            let Some(above) = self.id_above(id) else {
                unreachable!()
            };
            id = above;
        }
        match self.access_in(id, n) {
            Some(text) => Some((0, text)),
            None => None,
        }
    }
}
