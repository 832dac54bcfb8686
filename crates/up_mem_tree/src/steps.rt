//! What a record that puts or deletes makes of the slots.
ghost use Rattle.std.specs.Prelude.{◌≡◌, ◌≢◌, ℕ, IfSome, slice_get};
ghost use Rattle.std.specs.Vec.{vec_capacity, vec_len};
ghost use Rattle.up_mem_tree.specs.Slots.{known_all};
ghost use Rattle.up_mem_tree.specs.Steps.{CanEnterAbove, CanEnterOwn, IsApart, last_before, stepped, stepped_above, stepped_own};

use crate::edits::{Edit, enter_own, enter_parent};
use crate::history::Change;
use crate::slots::{Slot, slot_at};
use up_access::AccessText;
use up_group::GroupText;

/// The slot of the path that a record changes.
#[derive(Drop)]
pub(crate) enum Own {
    There(usize),
    New(Slot),
}

/// What a record changes in the directory of its path.
#[derive(Drop)]
pub(crate) struct ParentStep {
    pub(crate) id: usize,
    pub(crate) named: Edit,
    pub(crate) children: Edit,
    pub(crate) access: Option<Change<AccessText>>,
}

/// What a record changes: its path's slot, and its directory.
#[derive(Drop)]
pub(crate) struct Step {
    pub(crate) position: u64,
    pub(crate) own: Own,
    pub(crate) group: Option<Change<GroupText>>,
    pub(crate) parent: Option<ParentStep>,
}

/// What is changed in the directory.
fn enter_above(slots: &mut Vec<Slot>, parent: Option<ParentStep>)
    requires { CanEnterAbove slots.old.items parent }
    ensures slots { known_all slots.new.items ≡ stepped_above parent (known_all slots.old.items) }
    ensures others { (id : ℕ) → IfSome parent (λ p. p.id ≢ id) → slice_get slots.new.items id
        ≡ slice_get slots.old.items id }
    ensures len { vec_len slots.new ≡ vec_len slots.old }
    ensures room { vec_capacity slots.new ≡ vec_capacity slots.old }
{
    if let Some(parent) = parent {
        enter_parent(
            &mut slots[parent.id],
            parent.named,
            parent.children,
            parent.access,
        );
    }
}

/// What is changed at the path.
fn enter_at(slots: &mut Vec<Slot>, own: Own, position: u64, group: Option<Change<GroupText>>)
    requires { CanEnterOwn slots.old own group }
    ensures { known_all slots.new.items
        ≡ stepped_own own position group (known_all slots.old.items) }
{
    match own {
        Own::There(id) => enter_own(&mut slots[id], position, group),
        Own::New(mut slot) => {
            enter_own(&mut slot, position, group);
            slots.push_reserved(slot);
        }
    }
}

/// The position of the change before, or 0.
fn last_before(slots: &[Slot], own: &Own) -> u64
    ensures { result ≡ last_before own.now (known_all slots.now) }
{
    match own {
        Own::There(id) => match slot_at(slots, *id) {
            Some(slot) => slot.last,
            None => 0,
        },
        Own::New(_) => 0,
    }
}

/// Makes a step, and answers the position of the change before it on the same path, or 0. It takes no memory.
pub(crate) fn enter_step(slots: &mut Vec<Slot>, step: Step) -> u64
    requires above { CanEnterAbove slots.old.items step.parent }
    requires own { CanEnterOwn slots.old step.own step.group }
    requires apart { IfSome step.parent (λ parent. IsApart step.own parent.id) }
    ensures before { result ≡ last_before step.own (known_all slots.old.items) }
    ensures slots { known_all slots.new.items ≡ stepped step (known_all slots.old.items) }
{
    let Step {
        position,
        own,
        group,
        parent,
    } = step;
    let before = last_before(slots.as_slice(), &own);
    enter_above(slots, parent);
    enter_at(slots, own, position, group);
    before
}
