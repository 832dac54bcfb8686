//! What a record changes in the slots.
ghost use Rattle.std.specs.Prelude.{◌≡◌};
ghost use Rattle.up_mem_tree.specs.Edits.{CanEdit, HasRoomFor, changes_in, edited, entered_own, entered_parent};
ghost use Rattle.up_mem_tree.specs.Slots.{known};

use crate::history::Change;
use crate::slots::Slot;
use up_access::AccessText;
use up_group::GroupText;
use up_maps::LongList;

/// What becomes of a list of siblings.
#[derive(Clone, Copy)]
pub(crate) enum Edit {
    Same,
    /// One more slot, at a place.
    Added(u64, usize),
    /// The slot at a place is taken out.
    Removed(u64),
}

/// Edits a list of siblings. It takes no memory.
fn edit_siblings(ids: &mut LongList<usize>, edit: Edit)
    requires { CanEdit ids.old edit }
    ensures { ids.new.items ≡ edited edit ids.old.items }
{
    match edit {
        Edit::Same => {}
        Edit::Added(place, id) => ids.insert_reserved(place, id),
        Edit::Removed(place) => {
            let _removed = ids.remove(place);
        }
    }
}

/// Adds a change, where there is one and room for it.
fn add_change<T: Drop>(changes: &mut Vec<Change<T>>, change: Option<Change<T>>)
    requires { HasRoomFor changes.old change }
    ensures { changes.new.items ≡ changes_in changes.old.items change }
{
    if let Some(change) = change {
        changes.push_reserved(change);
    }
}

/// What a record changes at its own path.
#[tactic(auto, unfolding(crate::specs::Slots::known, crate::specs::Edits::entered_own))]
pub(crate) fn enter_own(slot: &mut Slot, position: u64, group: Option<Change<GroupText>>)
    requires { HasRoomFor slot.old.group group }
    ensures { known slot.new ≡ entered_own position group (known slot.old) }
{
    slot.last = position;
    add_change(&mut slot.group, group);
}

/// What a record changes in the directory of its path.
#[tactic(auto, unfolding(crate::specs::Slots::known, crate::specs::Edits::entered_parent))]
pub(crate) fn enter_parent(
    slot: &mut Slot,
    named: Edit,
    children: Edit,
    access: Option<Change<AccessText>>,
)
    requires named { CanEdit slot.old.named named }
    requires children { CanEdit slot.old.children children }
    requires access { HasRoomFor slot.old.access access }
    ensures { known slot.new ≡ entered_parent named children access (known slot.old) }
{
    edit_siblings(&mut slot.named, named);
    edit_siblings(&mut slot.children, children);
    add_change(&mut slot.access, access);
}
