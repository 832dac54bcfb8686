//! From the root, or from a slot nearer to it, down to a path: each element is read once.
ghost use Rattle.std.specs.Prelude.{◌≡◌, ◌<◌, length, ◌+◌, Some};
ghost use Rattle.up_names.specs.PathNames.{cut};
ghost use Rattle.up_mem_tree.specs.Kept.{Stands, paths_of, slots_of};
ghost use Rattle.up_mem_tree.specs.Slots.{IsDeepest, IsIdOf, IsParentIdOf, path_in};

use crate::kept::Kept;
use crate::slots::find_among;
use up_names::Path;

impl Kept {
    /// The slot of the longest prefix of a path that has one, and the number of its elements.
    pub(crate) fn deepest(&self, path: &Path) -> Option<(u64, usize)>
        requires { Stands self.now }
        ensures { IsDeepest (paths_of self.now) (slots_of self.now) path.now result }
    {
        if self.slots.is_empty() || path.owner() != &self.owner {
            return None;
        }
        let (start, first) = self.begin(path);
        let mut id = first;
        for n in start..path.len() {
            match self.step(id, path, n) {
                Some(next) => id = next,
                None => {
                    self.note_end(first, id);
                    return Some((n, id));
                }
            }
        }
        self.note_end(first, id);
        Some((path.len(), id))
    }

    /// One element down from a slot that has the first `n` elements of the path.
    fn step(&self, id: usize, path: &Path, n: u64) -> Option<usize>
        requires stands { Stands self.now }
        requires at { path_in (slots_of self.now) id ≡ Some (cut n path.now) }
        requires within { n < length path.now.elements }
        ensures { IsIdOf (paths_of self.now) (slots_of self.now) (cut (n + 1) path.now) result }
    {
        let Some(element) = path.element(n) else {
            return None;
        };
        find_among(self.slots.as_slice(), &self.slots[id].named, element).1
    }

    /// The slots of a path and of its parent, where they have them.
    pub(crate) fn ids_of(&self, path: &Path) -> (Option<usize>, Option<usize>)
        requires { Stands self.now }
        ensures own { IsIdOf (paths_of self.now) (slots_of self.now) path.now result.0 }
        ensures parent { IsParentIdOf (paths_of self.now) (slots_of self.now) path.now result.1 }
    {
        let Some((n, id)) = self.deepest(path) else {
            return (None, None);
        };
        let below = path.len() - n;
        if below == 0 {
            (Some(id), self.slots[id].parent)
        } else if below == 1 {
            (None, Some(id))
        } else {
            (None, None)
        }
    }

    /// The slot of a path.
    pub(crate) fn id_of(&self, path: &Path) -> Option<usize>
        requires { Stands self.now }
        ensures { IsIdOf (paths_of self.now) (slots_of self.now) path.now result }
    {
        self.ids_of(path).0
    }
}
