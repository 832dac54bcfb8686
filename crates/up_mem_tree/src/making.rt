//! The step of a record, made before the record is written.
ghost use Rattle.std.specs.Prelude.{◌≡◌, ◌<◌, ℕ, List, IfOk, IsSome, option_map, Some, None};
ghost use Rattle.up_names.specs.PathNames.{PathName, parent_of};
ghost use Rattle.up_entry.specs.declared.records.Rec.TheVariants.{Delete, Put};
ghost use Rattle.up_mem_tree.specs.Edits.{HasRoomFor};
ghost use Rattle.up_log_tree.specs.Fits.{Fits, PutFits};
ghost use Rattle.up_mem_tree.specs.Kept.{HasAbove, IsAboveIn, IsStepFor, Stands, paths_of, slots_of};
ghost use Rattle.up_log_tree.specs.Orders.{with_path};
ghost use Rattle.up_mem_tree.specs.Slots.{AreSiblings, IsIdOf, IsParentIdOf, known, known_all};
ghost use Rattle.up_mem_tree.specs.Steps.{HasOwnRoom, IsEditTo, IsOwnOf, IsStepOf, fresh_slot, own_id, without_path};
ghost use Rattle.up_log_tree.specs.Trees.{node_at, tree_of};

use crate::changes::{changes_by_delete, changes_by_put};
use crate::edits::Edit;
use crate::history::Change;
use crate::kept::Kept;
use crate::rooms::reserve_change;
use crate::slots::{Slot, find_among, last_element};
use crate::steps::{Own, ParentStep, Step};
use std::alloc::{AllocError, Global};
use up_access::AccessText;
use up_bytes::Bytes;
use up_entry::{Entry, Rec};
use up_group::GroupText;
use up_maps::LongList;
use up_names::Path;

/// A path becomes one of its siblings, or stays one.
fn addition(slots: &[Slot], ids: &LongList<usize>, path: &Path, id: usize) -> Edit
    ensures { (dir : PathName) (paths : List PathName)
        → AreSiblings (known_all slots.now) dir ids.now.items paths
        → parent_of path.now ≡ Some dir
        → IsEditTo result id path.now paths (with_path path.now paths) }
{
    let (place, found) = find_among(slots, ids, last_element(path));
    if found.is_some() {
        Edit::Same
    } else {
        Edit::Added(place, id)
    }
}

/// A path is no longer one of its siblings.
fn removal(slots: &[Slot], ids: &LongList<usize>, path: &Path) -> Edit
    ensures { (dir : PathName) (paths : List PathName) (id : ℕ)
        → AreSiblings (known_all slots.now) dir ids.now.items paths
        → parent_of path.now ≡ Some dir
        → IsEditTo result id path.now paths (without_path path.now paths) }
{
    let (place, found) = find_among(slots, ids, last_element(path));
    if found.is_some() {
        Edit::Removed(place)
    } else {
        Edit::Same
    }
}

/// The slot of a path that has none yet, with room for a change of its Group file.
fn fresh_slot(
    alloc: Global,
    path: &Path,
    parent: Option<usize>,
    group: &Option<Change<GroupText>>,
) -> Result<Slot, AllocError>
    ensures slot { IfOk result (λ slot. known slot ≡ fresh_slot path.now parent) }
    ensures room { IfOk result (λ slot. HasRoomFor slot.group group.now) }
{
    let mut changes = Vec::new(alloc);
    reserve_change(&mut changes, group)?;
    Ok(Slot {
        path: path.clone()?,
        last: 0,
        parent,
        named: LongList::new(alloc),
        children: LongList::new(alloc),
        access: Vec::new(alloc),
        group: changes,
    })
}

/// The slot of a path: the one found, or a new one.
fn own_of(
    alloc: Global,
    found: Option<usize>,
    path: &Path,
    parent: Option<usize>,
    group: &Option<Change<GroupText>>,
) -> Result<Own, AllocError>
    ensures own { IfOk result (λ own. (paths : List PathName) (slots : List _)
        → IsIdOf paths slots path.now found → IsOwnOf paths slots path.now parent own) }
    ensures room { IfOk result (λ own. HasOwnRoom own group.now) }
{
    match found {
        Some(id) => Ok(Own::There(id)),
        None => Ok(Own::New(fresh_slot(alloc, path, parent, group)?)),
    }
}

/// The number that the slot of a path has, or will have.
fn own_id(slots: &[Slot], own: &Own) -> usize
    ensures { result ≡ own_id (known_all slots.now) own.now }
{
    match own {
        Own::There(id) => *id,
        Own::New(_) => slots.len(),
    }
}

impl Kept {
    /// What a Put changes in the directory of its path.
    fn put_above(
        &self,
        parent: Option<usize>,
        path: &Path,
        own: usize,
        access: Option<Change<AccessText>>,
    ) -> Option<ParentStep>
        requires stands { Stands self.now }
        requires parent { IsParentIdOf (paths_of self.now) (slots_of self.now) path.now parent }
        requires above { HasAbove (paths_of self.now) path.now }
        ensures id { option_map (λ (step : ParentStep). step.id) result ≡ parent }
        ensures step { IsAboveIn self.now path.now own (with_path path.now) access result }
    {
        let id = parent?;
        let slots = self.slots.as_slice();
        let slot = &self.slots[id];
        Some(ParentStep {
            id,
            named: addition(slots, &slot.named, path, own),
            children: addition(slots, &slot.children, path, own),
            access,
        })
    }

    /// What a deletion changes in the directory of its path.
    fn delete_above(
        &self,
        parent: Option<usize>,
        path: &Path,
        own: usize,
        access: Option<Change<AccessText>>,
    ) -> Option<ParentStep>
        requires stands { Stands self.now }
        requires parent { IsParentIdOf (paths_of self.now) (slots_of self.now) path.now parent }
        requires above { HasAbove (paths_of self.now) path.now }
        ensures id { option_map (λ (step : ParentStep). step.id) result ≡ parent }
        ensures step { IsAboveIn self.now path.now own (without_path path.now) access result }
    {
        let id = parent?;
        let slots = self.slots.as_slice();
        let slot = &self.slots[id];
        Some(ParentStep {
            id,
            named: addition(slots, &slot.named, path, own),
            children: removal(slots, &slot.children, path),
            access,
        })
    }

    /// The step of a Put that fits.
    fn put_step(&self, entry: &Entry, text: &Bytes) -> Result<Step, AllocError>
        requires stands { Stands self.now }
        requires fits { PutFits self.now.owner self.now.log.items entry.now text.now }
        ensures step { IfOk result
            (IsStepOf self.now.owner self.now.log.items (Put entry.now text.now) entry.now.name
            (Some (record { entry = entry.now; text = text.now })) (paths_of self.now)
            (slots_of self.now)) }
        ensures room { IfOk result (λ step. HasOwnRoom step.own step.group) }
    {
        let path = &entry.name;
        let position = entry.sequence;
        let (access, group) = changes_by_put(&self.owner, position, entry, text)?;
        let (found, parent) = self.ids_of(path);
        let own = own_of(*self.slots.allocator(), found, path, parent, &group)?;
        let id = own_id(self.slots.as_slice(), &own);
        Ok(Step {
            position,
            own,
            group,
            parent: self.put_above(parent, path, id, access),
        })
    }

    /// The step of a Delete that fits.
    fn delete_step(&self, path: &Path) -> Step
        requires stands { Stands self.now }
        requires there { IsSome (node_at (tree_of self.now.log.items) path.now) }
        ensures step { IsStepOf self.now.owner self.now.log.items (Delete path.now) path.now None
            (paths_of self.now) (slots_of self.now) result }
        ensures room { HasOwnRoom result.own result.group }
    {
        let position = self.log.len() as u64 + 1;
        let (access, group) = changes_by_delete(position, path);
        let (found, parent) = self.ids_of(path);
        let Some(own) = found else { unreachable!() };
        Step {
            position,
            own: Own::There(own),
            group,
            parent: self.delete_above(parent, path, own, access),
        }
    }

    /// The step of a record that fits; a Snap has none.
    pub(crate) fn step_of(&self, rec: &Rec) -> Result<Option<Step>, AllocError>
        requires stands { Stands self.now }
        requires fits { Fits self.now.owner self.now.log.items rec.now }
        ensures { IfOk result (IsStepFor self.now rec.now) }
    {
        match rec {
            Rec::Put(entry, text) => Ok(Some(self.put_step(entry, text)?)),
            Rec::Delete(path) => Ok(Some(self.delete_step(path))),
            Rec::Snap(_) => Ok(None),
        }
    }
}
