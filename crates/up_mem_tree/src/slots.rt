//! The slots of a tree: what is kept of each path that a record has named.
ghost use Rattle.std.specs.Prelude.{◌≡◌, List, slice_get};
ghost use Rattle.std.specs.Option.{option_copied};
ghost use Rattle.up_names.specs.PathNames.{PathName, extended};
ghost use Rattle.up_mem_tree.specs.Slots.{AreSiblings, IsFoundAs, ends_in, is_below, known_all, path_in};
ghost use Rattle.up_log_tree.specs.Trees.{last_element};

use crate::history::Change;
use up_access::AccessText;
use up_group::GroupText;
use up_maps::{Below, LongList};
use up_names::Path;

/// What is kept of a path. It stays when the item is deleted, for what was.
#[derive(Drop)]
pub(crate) struct Slot {
    pub(crate) path: Path,
    /// The position of the last record that changes the path: what stands there now is what that one has put.
    pub(crate) last: u64,
    /// The slot of the directory that the path stands in; that of a root has none.
    pub(crate) parent: Option<usize>,
    /// The slots of the paths with one element more, in order of paths.
    pub(crate) named: LongList<usize>,
    /// Those of them at which something stands now.
    pub(crate) children: LongList<usize>,
    /// The changes of the Access file in the directory.
    pub(crate) access: Vec<Change<AccessText>>,
    /// The changes of the Group file at the path.
    pub(crate) group: Vec<Change<GroupText>>,
}

/// The last element of a path; that of a root is empty.
pub(crate) fn last_element(path: &Path) -> &str
    ensures { result.now ≡ last_element path.now }
{
    let len = path.len();
    if len == 0 {
        return "";
    }
    match path.element(len - 1) {
        Some(element) => element,
        None => "",
    }
}

/// The slot with that number.
pub(crate) fn slot_at(slots: &[Slot], id: usize) -> Option<&Slot>
    ensures { option_copied result ≡ slice_get slots.now id }
{
    slots.get(id)
}

/// The path of the slot with that number.
#[tactic(auto, using(crate::proofs::SlotLemmas::path_of_slot))]
pub(crate) fn path_in(slots: &[Slot], id: usize) -> Option<&Path>
    ensures { option_copied result ≡ path_in (known_all slots.now) id }
{
    match slot_at(slots, id) {
        Some(slot) => Some(&slot.path),
        None => None,
    }
}

/// An element that is sought among the last ones of siblings.
#[derive(Drop)]
struct Sought<'a> {
    slots: &'a [Slot],
    element: &'a str,
}

impl Below<usize> for Sought<'_> {
    ghost below = { λ sought id. is_below (known_all sought.slots.now) sought.element.now id };

    fn is_below(&self, id: &usize) -> bool {
        match path_in(self.slots, *id) {
            Some(path) => last_element(path) < self.element,
            None => false,
        }
    }
}

/// Whether the path of a slot ends in this element.
fn ends_in(slots: &[Slot], id: usize, element: &str) -> bool
    ensures { result ≡ ends_in (known_all slots.now) element.now id }
{
    match path_in(slots, id) {
        Some(path) => last_element(path) == element,
        None => false,
    }
}

/// The place of an element among the last ones of siblings, and the slot that has it.
pub(crate) fn find_among(
    slots: &[Slot],
    ids: &LongList<usize>,
    element: &str,
) -> (u64, Option<usize>)
    ensures { (dir : PathName) (paths : List PathName)
        → AreSiblings (known_all slots.now) dir ids.now.items paths
        → IsFoundAs (extended dir element.now) ids.now.items paths result.0 result.1 }
{
    let place = ids.find(&Sought { slots, element });
    let Some(id) = ids.get(place) else {
        return (place, None);
    };
    if ends_in(slots, *id, element) {
        (place, Some(*id))
    } else {
        (place, None)
    }
}
