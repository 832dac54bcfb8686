//! What can still be needed, and from which change on: a search passes over changes at which nothing can be, and ends once all was found.
ghost use Rattle.std.specs.Prelude.{◌≡◌, ◌≤◌, ◌<◌, ◌∷◌, [], ℕ, List, true, IfOk, OnOk, Some, length, slice_get, Contains};
ghost use Rattle.std.specs.FinMap.Entries.{find};
ghost use Rattle.std.specs.Map.{keys_of};
ghost use Rattle.up_foreign.specs.Reaching.{AreLeft, AreLeftWhereMet, HasReadOnes, IsLeftAt, IsNeededBy, IsRising, IsSoon, KeepsLeft, MayCover, is_unanswered};
ghost use Rattle.up_mem_tree.specs.MemTrees.{TreeLog};
ghost use Rattle.up_names.specs.PathNames.{PathName};
ghost use Rattle.up_names.specs.PathOrder.{path_cmp};
ghost use Rattle.up_policy.specs.Loadings.{Loading};
ghost use Rattle.up_policy.specs.Members.{groups_in};

use std::alloc::{AllocError, Global};
use std::mem::replace;
use up_maps::OrderedMap;
use up_mem_tree::MemTree;
use up_names::{Item, Path, User};
use up_policy::{Loaded, Names};

/// With more groups left than this, the first position at which one of them can be needed is not looked for anew when one is found.
const FEW: u64 = 256;

/// Once so many changes were looked at, and again each time their number has doubled, it is looked for from which change on each group can
/// be met, among as many texts as changes were looked at.
const MANY: u64 = 256;

/// The groups that can be needed and are not among the names yet, each with a position before which it is not; one before which none of
/// them is; how many of the names were looked at, and whether all groups were gathered.
#[derive(Drop)]
pub(crate) struct Left {
    pub(crate) groups: OrderedMap<Path, u64>,
    pub(crate) soon: u64,
    pub(crate) seen: u64,
    pub(crate) whole: bool,
}

/// Whether a group has to be loaded once it is reached: it is another owner's, and has no answer yet.
fn is_unanswered(owner: &User, loaded: &Loaded, group: &Path) -> bool
    ensures { result ≡ is_unanswered owner.now loaded.now group.now }
{
    group.owner() != owner && loaded.answer(group).is_none()
}

/// The earlier one of a position and that at which a group is left already.
fn earliest(groups: &OrderedMap<Path, u64>, group: &Path, from: u64) -> u64
    ensures from { result ≤ from }
    ensures was { (n : ℕ) → IsLeftAt groups.now.entries n group.now → result ≤ n }
{
    match groups.get(group) {
        Some(was) => from.min(*was),
        None => from,
    }
}

/// Adds a group, which can be needed from a position on.
fn add_path(groups: &mut OrderedMap<Path, u64>, group: Path, from: u64) -> Result<(), AllocError>
    ensures kept { KeepsLeft groups.old.entries groups.new.entries }
    ensures added { OnOk result ((n : ℕ) → from ≤ n → IsLeftAt groups.new.entries n group) }
{
    groups.reserve_one()?;
    let first = earliest(groups, &group, from);
    groups.put_reserved(group, first);
    Ok(())
}

/// Adds a group, where it would have to be loaded, wherever it is reached.
fn add_group(
    owner: &User,
    loaded: &Loaded,
    group: &Path,
    groups: &mut OrderedMap<Path, u64>,
) -> Result<(), AllocError>
    ensures kept { KeepsLeft groups.old.entries groups.new.entries }
    ensures added { OnOk result
        (AreLeft owner.now loaded.now groups.new.entries (group.now ∷ [])) }
{
    if !is_unanswered(owner, loaded, group) {
        return Ok(());
    }
    let copy = group.clone()?;
    add_path(groups, copy, 0)
}

/// Adds the group that an item is, where it is one.
fn add_item(
    owner: &User,
    loaded: &Loaded,
    item: &Item,
    groups: &mut OrderedMap<Path, u64>,
) -> Result<(), AllocError>
    ensures kept { KeepsLeft groups.old.entries groups.new.entries }
    ensures added { OnOk result
        (AreLeft owner.now loaded.now groups.new.entries (groups_in (item.now ∷ []))) }
{
    match item {
        Item::Group(group) => add_group(owner, loaded, group, groups),
        Item::Everyone | Item::Domain(_) | Item::User(_) => Ok(()),
    }
}

/// Adds those among these items.
fn add_items(
    owner: &User,
    loaded: &Loaded,
    items: &[Item],
    groups: &mut OrderedMap<Path, u64>,
) -> Result<(), AllocError>
    ensures kept { KeepsLeft groups.old.entries groups.new.entries }
    ensures added { OnOk result
        (AreLeft owner.now loaded.now groups.new.entries (groups_in items.now)) }
{
    for item in items {
        add_item(owner, loaded, item, groups)?;
    }
    Ok(())
}

/// Adds those that a loaded text names.
fn add_text(
    owner: &User,
    loaded: &Loaded,
    name: &Path,
    groups: &mut OrderedMap<Path, u64>,
) -> Result<(), AllocError>
    ensures kept { KeepsLeft groups.old.entries groups.new.entries }
    ensures added { OnOk result (HasReadOnes owner.now loaded.now name.now groups.new.entries) }
{
    match loaded.text(name) {
        Some(text) => add_items(owner, loaded, text.items(), groups),
        None => Ok(()),
    }
}

/// Adds those that all loaded texts name.
fn add_loaded(
    owner: &User,
    loaded: &Loaded,
    groups: &mut OrderedMap<Path, u64>,
) -> Result<(), AllocError>
    ensures kept { KeepsLeft groups.old.entries groups.new.entries }
    ensures added { OnOk result ((name : PathName)
        → HasReadOnes owner.now loaded.now name groups.new.entries) }
{
    for i in 0..u64::MAX {
        let Some(name) = loaded.name(i) else {
            return Ok(());
        };
        add_text(owner, loaded, name, groups)?;
    }
    // No memory holds so many.
    Err(AllocError)
}

/// The records above a position that change a path under this one, and how many they are.
#[derive(Clone, Copy)]
pub(crate) struct Range<'a> {
    pub(crate) path: &'a Path,
    pub(crate) above: u64,
    pub(crate) changes: usize,
}

/// Adds a group that the tree's texts name, or have named, where it would have to be loaded: from the first change on at which it can be
/// met, for which at most so many texts are looked at.
fn add_other(
    tree: &MemTree,
    loaded: &Loaded,
    range: Range,
    most: u64,
    group: &Path,
    groups: &mut OrderedMap<Path, u64>,
) -> Result<(), AllocError>
    ensures kept { KeepsLeft groups.old.entries groups.new.entries }
    ensures added { OnOk result (AreLeftWhereMet tree.now loaded.now range.entry.path.now range.entry.above
        groups.new.entries (group.now ∷ [])) }
{
    if !is_unanswered(tree.owner(), loaded, group) {
        return Ok(());
    }
    let Some(first) = tree.first_naming(group, range.path, range.above, most) else {
        return Ok(());
    };
    let copy = group.clone()?;
    add_path(groups, copy, first)
}

/// Adds those that the tree's texts name, or have named.
fn add_others(
    tree: &MemTree,
    loaded: &Loaded,
    range: Range,
    most: u64,
    others: &OrderedMap<Path, usize>,
    groups: &mut OrderedMap<Path, u64>,
) -> Result<(), AllocError>
    ensures kept { KeepsLeft groups.old.entries groups.new.entries }
    ensures added { OnOk result (AreLeftWhereMet tree.now loaded.now range.entry.path.now range.entry.above
        groups.new.entries (keys_of others.now.entries)) }
{
    for i in 0..u64::MAX {
        let Some(group) = others.key_at(i) else {
            return Ok(());
        };
        add_other(tree, loaded, range, most, group, groups)?;
    }
    // No memory holds so many.
    Err(AllocError)
}

/// Adds all that can be needed at the changes of a range.
fn add_all(
    tree: &MemTree,
    loaded: &Loaded,
    range: Range,
    most: u64,
    others: &OrderedMap<Path, usize>,
    groups: &mut OrderedMap<Path, u64>,
) -> Result<(), AllocError>
    ensures own { OnOk result (AreLeftWhereMet tree.now loaded.now range.entry.path.now range.entry.above
        groups.new.entries (keys_of others.now.entries)) }
    ensures read { OnOk result ((name : PathName)
        → HasReadOnes tree.now.owner loaded.now name groups.new.entries) }
{
    add_others(tree, loaded, range, most, others, groups)?;
    add_loaded(tree.owner(), loaded, groups)
}

/// The position of a group at a place, where there is one.
fn from_at(groups: &OrderedMap<Path, u64>, i: u64) -> Option<u64>
    ensures { (group : PathName) → Some group ≡ slice_get (keys_of groups.now.entries) i
        → result ≡ find path_cmp group groups.now.entries }
{
    groups.get(groups.key_at(i)?).copied()
}

/// The first position at which one of these groups can be needed, where none of them can before `was`; the greatest number where there are
/// none. As soon as one is found that can be needed from `was` on, it ends.
fn soonest(groups: &OrderedMap<Path, u64>, was: u64) -> u64
    ensures { IsSoon groups.now.entries was → IsSoon groups.now.entries result }
{
    let mut soon = u64::MAX;
    for i in 0..groups.len() {
        match from_at(groups, i) {
            Some(from) if from > was => soon = soon.min(from),
            Some(_) | None => return was,
        }
    }
    soon
}

/// Whether it is looked ahead once so many changes were looked at, where so many groups were ever named.
fn is_turn(count: u64, groups: u64) -> bool {
    count >= groups.max(MANY) && count.is_power_of_two()
}

/// The place of the first of some positions that is not before `soon`, from a place on.
fn place_from(positions: &[u64], i: usize, soon: u64) -> usize
    requires rising { IsRising positions.now }
    requires within { i ≤ length positions.now }
    ensures later { i ≤ result }
    ensures within { result ≤ length positions.now }
    ensures passed { (k n : ℕ) → k < result → i ≤ k → slice_get positions.now k ≡ Some n → n < soon }
{
    if i < positions.len() && soon <= positions[i] {
        return i;
    }
    let mut low = i;
    let mut high = positions.len();
    while low < high {
        let middle = low + (high - low) / 2;
        if positions[middle] < soon {
            low = middle + 1;
        } else {
            high = middle;
        }
    }
    low
}

impl Left {
    /// All that can be needed at the changes of a range: from the first change on at which it can be met, for which at most so many texts
    /// are looked at, or from the range's first. Where as many groups as changes were ever named, or more, nothing is gathered.
    pub(crate) fn new(
        alloc: Global,
        tree: &MemTree,
        loaded: &Loaded,
        range: Range,
        most: u64,
    ) -> Result<Left, AllocError>
        ensures { IfOk result (λ left. MayCover tree.now loaded.now range.entry.path.now range.entry.above left []) }
    {
        let mut groups = OrderedMap::new(alloc);
        let others = tree.others();
        if others.len() >= range.changes as u64 {
            return Ok(Left {
                groups,
                soon: 0,
                seen: 0,
                whole: false,
            });
        }
        let share = most / others.len().max(1);
        match add_all(tree, loaded, range, share, others, &mut groups) {
            Ok(()) => Ok(Left {
                soon: soonest(&groups, 0),
                groups,
                seen: 0,
                whole: true,
            }),
            Err(fault) => {
                drop(groups);
                Err(fault)
            }
        }
    }

    /// Looks for from which change on each group can be met, once as many changes were looked at as groups were ever named, and among as
    /// many texts as changes. Besides, it gathers anew what the loaded texts name.
    pub(crate) fn look_ahead(
        &mut self,
        alloc: Global,
        tree: &MemTree,
        loaded: &Loaded,
        range: Range,
        count: u64,
    ) -> Result<(), AllocError>
        ensures { OnOk result ((names : List PathName)
            → MayCover tree.now loaded.now range.entry.path.now range.entry.above self.old names
            → MayCover tree.now loaded.now range.entry.path.now range.entry.above self.new names) }
    {
        if !is_turn(count, tree.others().len()) {
            return Ok(());
        }
        let left = Left::new(alloc, tree, loaded, range, count)?;
        drop(replace(self, left));
        Ok(())
    }

    /// Takes a name out.
    fn take_out(&mut self, names: &Names, i: u64)
        ensures whole { self.new.whole ≡ self.old.whole }
        ensures kept { (tree : TreeLog) (loaded : Loading) (path : PathName) (above : ℕ)
            → MayCover tree loaded path above self.old names.now
            → MayCover tree loaded path above self.new names.now }
    {
        if let Some(name) = names.get(i) {
            let _was = self.groups.remove(name);
        }
    }

    /// Takes out the names that were found since.
    fn take_found(&mut self, names: &Names)
        ensures whole { self.new.whole ≡ self.old.whole }
        ensures kept { (tree : TreeLog) (loaded : Loading) (path : PathName) (above : ℕ)
            → MayCover tree loaded path above self.old names.now
            → MayCover tree loaded path above self.new names.now }
    {
        for i in self.seen..names.len() {
            self.take_out(names, i);
        }
        self.seen = names.len();
    }

    /// Takes out the names that were found since, and looks for the first position of those that are left.
    fn pass(&mut self, names: &Names)
        ensures whole { self.new.whole ≡ self.old.whole }
        ensures kept { (tree : TreeLog) (loaded : Loading) (path : PathName) (above : ℕ)
            → MayCover tree loaded path above self.old names.now
            → MayCover tree loaded path above self.new names.now }
    {
        let before = self.groups.len();
        self.take_found(names);
        let now = self.groups.len();
        if now < before && now <= FEW {
            self.soon = soonest(&self.groups, self.soon);
        }
    }

    /// The place, from `i` on, of the next position at which what is left can be needed; that behind the last one where nothing is. Each
    /// name is looked at once, however often this is asked, and once more after each look ahead.
    pub(crate) fn next(&mut self, names: &Names, positions: &[u64], i: usize) -> usize
        requires rising { IsRising positions.now }
        requires within { i ≤ length positions.now }
        ensures later { i ≤ result }
        ensures within { result ≤ length positions.now }
        ensures kept { (tree : TreeLog) (loaded : Loading) (path : PathName) (above : ℕ)
            → MayCover tree loaded path above self.old names.now
            → MayCover tree loaded path above self.new names.now }
        ensures found { (tree : TreeLog) (loaded : Loading) (path : PathName) (above : ℕ)
            → MayCover tree loaded path above self.old names.now
            → (k n : ℕ) (group : PathName) → i ≤ k → k < result → slice_get positions.now k ≡ Some n
            → IsNeededBy tree loaded path above n group → Contains names.now group }
    {
        let whole = self.whole;
        if !whole {
            return i;
        }
        self.pass(names);
        place_from(positions, i, self.soon)
    }
}
