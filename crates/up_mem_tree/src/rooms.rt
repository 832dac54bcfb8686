//! Room for what a record changes, so that it is entered without memory.
ghost use Rattle.std.specs.Prelude.{◌≡◌, ◌<◌, ℕ, OnOk, IfSome, Some, slice_get};
ghost use Rattle.up_mem_tree.specs.Edits.{CanEdit, HasRoomFor, IsWithin};
ghost use Rattle.up_mem_tree.specs.Slots.{known_all};
ghost use Rattle.up_mem_tree.specs.Steps.{CanEnterAbove, CanEnterOwn, CanStep, HasOwnRoom, IsApart, IsInRange, IsParentWithin};

use crate::edits::Edit;
use crate::history::Change;
use crate::slots::Slot;
use crate::steps::{Own, ParentStep, Step};
use std::alloc::AllocError;
use up_group::GroupText;
use up_maps::LongList;

/// Makes room for an edit of siblings.
fn reserve_siblings(ids: &mut LongList<usize>, edit: Edit) -> Result<(), AllocError>
    ensures items { ids.new.items ≡ ids.old.items }
    ensures room { OnOk result (IsWithin ids.old.items edit → CanEdit ids.new edit) }
{
    match edit {
        Edit::Added(_, _) => ids.reserve_one(),
        Edit::Same | Edit::Removed(_) => Ok(()),
    }
}

/// Makes room for a change.
pub(crate) fn reserve_change<T>(
    changes: &mut Vec<Change<T>>,
    change: &Option<Change<T>>,
) -> Result<(), AllocError>
    ensures items { changes.new.items ≡ changes.old.items }
    ensures room { OnOk result (HasRoomFor changes.new change.now) }
{
    match change {
        Some(_) => changes.reserve(1),
        None => Ok(()),
    }
}

/// Makes room in the slot of a directory.
fn reserve_above(slots: &mut Vec<Slot>, parent: &ParentStep) -> Result<(), AllocError>
    requires { IsParentWithin slots.old.items parent.now }
    ensures same { known_all slots.new.items ≡ known_all slots.old.items }
    ensures room { OnOk result (CanEnterAbove slots.new.items (Some parent.now)) }
{
    let slot = &mut slots[parent.id];
    reserve_siblings(&mut slot.named, parent.named)?;
    reserve_siblings(&mut slot.children, parent.children)?;
    reserve_change(&mut slot.access, &parent.access)
}

/// Makes room at the path itself.
fn reserve_own(
    slots: &mut Vec<Slot>,
    own: &Own,
    group: &Option<Change<GroupText>>,
) -> Result<(), AllocError>
    requires range { IsInRange slots.old.items own.now }
    requires room { HasOwnRoom own.now group.now }
    ensures same { known_all slots.new.items ≡ known_all slots.old.items }
    ensures others { (id : ℕ) → IsApart own.now id → slice_get slots.new.items id
        ≡ slice_get slots.old.items id }
    ensures room { OnOk result (CanEnterOwn slots.new own.now group.now) }
{
    match own {
        Own::There(id) => reserve_change(&mut slots[*id].group, group),
        Own::New(_) => slots.reserve(1),
    }
}

/// Makes room for a step. What the slots have stays, whatever the answer.
pub(crate) fn reserve_step(slots: &mut Vec<Slot>, step: &Step) -> Result<(), AllocError>
    requires above { IfSome step.now.parent (IsParentWithin slots.old.items) }
    requires apart { IfSome step.now.parent (λ parent. IsApart step.now.own parent.id) }
    requires range { IsInRange slots.old.items step.now.own }
    requires room { HasOwnRoom step.now.own step.now.group }
    ensures same { known_all slots.new.items ≡ known_all slots.old.items }
    ensures ready { OnOk result (CanStep slots.new step.now) }
{
    if let Some(parent) = &step.parent {
        reserve_above(slots, parent)?;
    }
    reserve_own(slots, &step.own, &step.group)
}
