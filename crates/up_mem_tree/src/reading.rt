//! What stands at each path, and what stood there.
ghost use Rattle.std.specs.Prelude.{◌≡◌, ◌≤◌, true, filter, length, option_map, slice_get, Some};
ghost use Rattle.std.specs.Option.{option_copied};
ghost use Rattle.up_mem_tree.specs.Kept.{IsOwnSlot, Stands, paths_of, slots_of};
ghost use Rattle.up_names.specs.PathNames.{PathName};
ghost use Rattle.up_mem_tree.specs.Nodes.{node_of};
ghost use Rattle.up_mem_tree.specs.Slots.{IsIdOf, named_paths};
ghost use Rattle.up_log_tree.specs.Changes.{last_change};
ghost use Rattle.up_log_tree.specs.Rights.{facts_of};
ghost use Rattle.up_log_tree.specs.Trees.{children, is_parent, node_at, tree_at, tree_of};

use crate::history::{stays, text_at};
use crate::kept::Kept;
use crate::nodes::{NodeRef, put_by, record_at};
use crate::positions::if_any;
use crate::slots::{Slot, path_in, slot_at};
use up_access::AccessText;
use up_group::GroupText;
use up_names::Path;

impl Kept {
    /// The slot of a path, where it has one.
    pub(crate) fn own_slot(&self, path: &Path) -> Option<&Slot>
        requires { Stands self.now }
        ensures { IsOwnSlot self.now path.now (option_copied result) }
    {
        self.slot_with(self.id_of(path))
    }

    /// The slot with a number, where there is one.
    pub(crate) fn slot_with(&self, id: Option<usize>) -> Option<&Slot>
        requires { Stands self.now }
        ensures { (path : PathName) → IsIdOf (paths_of self.now) (slots_of self.now) path id
            → IsOwnSlot self.now path (option_copied result) }
    {
        match id {
            Some(id) => slot_at(self.slots.as_slice(), id),
            None => None,
        }
    }

    /// What stands at the path of a slot.
    pub(crate) fn node_of_slot(&self, slot: &Slot) -> Option<NodeRef<'_>>
        requires { Stands self.now }
        ensures { (path : PathName) → IsOwnSlot self.now path (Some slot.now)
            → option_map node_of result ≡ node_at (tree_of self.now.log.items) path }
    {
        put_by(record_at(self.log.as_slice(), slot.last))
    }

    /// What stands at a path.
    pub(crate) fn node(&self, path: &Path) -> Option<NodeRef<'_>>
        requires { Stands self.now }
        ensures { option_map node_of result ≡ node_at (tree_of self.now.log.items) path.now }
    {
        match self.own_slot(path) {
            Some(slot) => self.node_of_slot(slot),
            None => None,
        }
    }

    /// The path of the child at place `i`, from 0.
    pub(crate) fn child(&self, dir: &Path, i: u64) -> Option<&Path>
        requires { Stands self.now }
        ensures { option_copied result
            ≡ slice_get (children (tree_of self.now.log.items) dir.now) i }
    {
        match self.own_slot(dir) {
            Some(slot) => match slot.children.get(i) {
                Some(id) => path_in(self.slots.as_slice(), *id),
                None => None,
            },
            None => None,
        }
    }

    /// The path at place `i`, from 0, of those in a directory that some record changes.
    pub(crate) fn named(&self, dir: &Path, i: u64) -> Option<&Path>
        requires { Stands self.now }
        ensures { option_copied result
            ≡ slice_get (filter (is_parent dir.now) (named_paths self.now.log.items)) i }
    {
        let Some(id) = self.id_of(dir) else {
            return None;
        };
        let Some(slot) = slot_at(self.slots.as_slice(), id) else {
            return None;
        };
        match slot.named.get(i) {
            Some(id) => path_in(self.slots.as_slice(), *id),
            None => None,
        }
    }

    /// The position of the last record that changes a path.
    pub(crate) fn last_change(&self, path: &Path) -> Option<u64>
        requires { Stands self.now }
        ensures { result ≡ last_change self.now.log.items path.now }
    {
        match self.own_slot(path) {
            Some(slot) => if_any(slot.last),
            None => None,
        }
    }

    /// The rules of the Access file in a directory after the first `n` records.
    pub(crate) fn access_at(&self, dir: &Path, n: u64) -> Option<&AccessText>
        requires stands { Stands self.now }
        requires within { n ≤ length self.now.log.items }
        ensures { option_copied result
            ≡ (facts_of self.now.owner (tree_at self.now.log.items n)).access dir.now }
    {
        match self.own_slot(dir) {
            Some(slot) => text_at(slot.access.as_slice(), n, self.log.len() as u64),
            None => None,
        }
    }

    /// Whether no record behind the first `m`, up to record `n`, changes the Access file in a directory.
    pub(crate) fn access_stays(&self, dir: &Path, m: u64, n: u64) -> bool
        requires stands { Stands self.now }
        requires order { m ≤ n }
        requires within { n ≤ length self.now.log.items }
        ensures { result ≡ true
            → (facts_of self.now.owner (tree_at self.now.log.items m)).access dir.now
            ≡ (facts_of self.now.owner (tree_at self.now.log.items n)).access dir.now }
    {
        match self.own_slot(dir) {
            Some(slot) => stays(slot.access.as_slice(), m, n, self.log.len() as u64),
            None => true,
        }
    }

    /// The items of the Group file at a path after the first `n` records.
    pub(crate) fn group_at(&self, path: &Path, n: u64) -> Option<&GroupText>
        requires stands { Stands self.now }
        requires within { n ≤ length self.now.log.items }
        ensures { option_copied result
            ≡ (facts_of self.now.owner (tree_at self.now.log.items n)).group path.now }
    {
        match self.own_slot(path) {
            Some(slot) => text_at(slot.group.as_slice(), n, self.log.len() as u64),
            None => None,
        }
    }
}
