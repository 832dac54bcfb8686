//! The items of a directory of a snapshot tree.
ghost use Rattle.std.specs.Prelude.{◌≡◌, ◌<◌, ◌≤◌, ◌-◌, ◌++◌, ◌∷◌, [], ℕ, true, Some, List, filter, length, map, IfOk, OnOk};
ghost use Rattle.std.specs.FinMap.Entries.{find, put};
ghost use Rattle.std.specs.List.{cons_option, filter_map};
ghost use Rattle.std.specs.Map.{keys_of};
ghost use Rattle.std.specs.Option.{option_copied, option_map};
ghost use Rattle.up_names.specs.PathNames.{cut, is_under};
ghost use Rattle.up_names.specs.PathOrder.{path_cmp};
ghost use Rattle.up_list.specs.Entries.{entries_in, entry_at};
ghost use Rattle.up_list.specs.Founds.{entry_found};
ghost use Rattle.up_log_tree.specs.Fits.{snapshot_user};
ghost use Rattle.up_log_tree.specs.Snapshots.{snapshots_of};
ghost use Rattle.up_mem_tree.specs.Slots.{named_paths};
ghost use Rattle.up_log_tree.specs.Trees.{is_parent, last_element};
ghost use Rattle.up_answers.specs.SnapshotTrees.{snapshots_to};
ghost use Rattle.up_snap.specs.Firsts.{sooner};
ghost use Rattle.up_ends.specs.Moments.{IsMoment};
ghost use Rattle.up_snap.specs.Listed.{IsNaming, IsTaken, kept_entry, short_path};
ghost use Rattle.up_snap.specs.Shown.{first_to, shown_root};
ghost use Rattle.up_snap.specs.declared.shown.Shown.{Shown};

use crate::moments::root_at;
use crate::old::{node_then, old_path};
use crate::shown::Shown;
use crate::standing::{earlier, first_to, item_by, moved_to};
use crate::written::may_bear;
use std::alloc::{AllocError, Global};
use up_entry::Entry;
use up_list::Found;
use up_maps::OrderedMap;
use up_mem_tree::MemTree;
use up_names::{NameFault, Path, User};

/// The items in a directory of the snapshot tree, in order of paths.
pub(crate) fn items_in<'a>(
    alloc: Global,
    tree: &MemTree,
    snap_user: &User,
    dir: &Path,
) -> Result<Vec<Found<'a>>, AllocError>
    requires { snap_user.now ≡ snapshot_user tree.now.owner }
    ensures { IfOk result (λ found. map entry_found found.items
        ≡ entries_in (snapshots_to tree.now.owner tree.now.log (length tree.now.log)) dir.now) }
{
    if dir.len() < 4 {
        return made_items(alloc, tree, snap_user, dir);
    }
    tree.recall();
    match first_to(alloc, tree, snap_user, dir)? {
        Some(shown) => kept_items(alloc, tree, dir, shown),
        None => Ok(Vec::new(alloc)),
    }
}

/// Adds what was found to a list, if it was.
#[tactic(auto, using(crate::proofs::ListedLemmas::pushed, crate::proofs::ListedLemmas::not_pushed))]
fn push_found<'a>(items: &mut Vec<Found<'a>>, found: Option<Found<'a>>) -> Result<(), AllocError>
    ensures { OnOk result (map entry_found items.new.items
        ≡ map entry_found items.old.items ++ cons_option (option_map entry_found found.entry) []) }
{
    match found {
        Some(found) => {
            items.push(found)?;
            Ok(())
        }
        None => Ok(()),
    }
}

/// The items in a directory that a snapshot shows: those that stood in the old one and have room for their new names.
///
/// They are among the paths that some record has changed: those that stand in the old directory now, and those that stood there once.
fn kept_items<'a>(
    alloc: Global,
    tree: &MemTree,
    dir: &Path,
    shown: Shown,
) -> Result<Vec<Found<'a>>, AllocError>
    requires taken { IsTaken tree.now.log shown }
    requires below { is_under dir.now
        (shown_root (snapshot_user tree.now.owner) shown.time) ≡ true }
    ensures { IfOk result (λ found. map entry_found found.items
        ≡ entries_in (snapshots_to tree.now.owner tree.now.log (length tree.now.log)) dir.now) }
{
    tree.recall();
    let old = old_path(tree.owner(), dir)?;
    kept_under(alloc, tree, dir, &old, shown.position - 1)
}

/// What stood in an old directory after the first `n` records, as items in this directory.
fn kept_under<'a>(
    alloc: Global,
    tree: &MemTree,
    dir: &Path,
    old: &Path,
    n: u64,
) -> Result<Vec<Found<'a>>, AllocError>
    ensures { IfOk result (λ found. map entry_found found.items
        ≡ filter_map (kept_entry tree.now.log dir.now n)
        (filter (is_parent old.now) (named_paths tree.now.log))) }
{
    let mut items = Vec::new(alloc);
    for i in 0..u64::MAX {
        let Some(path) = tree.named(old, i) else {
            return Ok(items);
        };
        let found = kept_item(tree, dir, path, n)?;
        push_found(&mut items, found)?;
    }
    // No memory holds so many.
    Err(AllocError)
}

/// The item in a directory of what stood at an old path after the first `n` records.
fn kept_item<'a>(
    tree: &MemTree,
    dir: &Path,
    old: &Path,
    n: u64,
) -> Result<Option<Found<'a>>, AllocError>
    ensures { IfOk result (λ found. option_map entry_found found
        ≡ kept_entry tree.now.log dir.now n old.now) }
{
    match kept_entry(tree, dir, old, n)? {
        Some(entry) => Ok(Some(Found::Made(entry))),
        None => Ok(None),
    }
}

/// The entry in a directory of what stood at an old path, where its new name is not too long.
///
/// The last element of a path is a name; so this one can only be too long.
fn kept_entry(tree: &MemTree, dir: &Path, old: &Path, n: u64) -> Result<Option<Entry>, AllocError>
    ensures { IfOk result (λ entry. entry ≡ kept_entry tree.now.log dir.now n old.now) }
{
    let Some(node) = node_then(tree, old, n)? else {
        return Ok(None);
    };
    let path = short_path(dir.join(last_element(old)))?;
    moved_if(node.entry, path)
}

/// The path that was made of a directory and a path's last element, or `None` where it would be too long.
fn short_path(joined: Result<Path, NameFault>) -> Result<Option<Path>, AllocError>
    ensures { result ≡ short_path joined }
{
    match joined {
        Ok(path) => Ok(Some(path)),
        Err(NameFault::TooLong(_)) => Ok(None),
        // A path's last element is one: what is left is want of memory.
        Err(_) => Err(AllocError),
    }
}

/// A copy of an entry under this name, if there is one. Without one no memory is wanting.
fn moved_if(entry: &Entry, name: Option<Path>) -> Result<Option<Entry>, AllocError>
    ensures moved { IfOk result
        (λ copy. copy ≡ option_map (λ name. record entry.now { name = name }) name) }
    ensures none { name ≡ None → result ≡ Ok None }
{
    match name {
        Some(name) => Ok(Some(moved_to(entry, name)?)),
        None => Ok(None),
    }
}

/// The last element of a path; that of a root is empty.
fn last_element(path: &Path) -> &str
    ensures { result.now ≡ last_element path.now }
{
    let len = path.len();
    if len == 0 {
        return "";
    }
    match path.element(len - 1) {
        Some(element) => element,
        None => "",
    }
}

/// The items in a directory above the roots of snapshots.
fn made_items<'a>(
    alloc: Global,
    tree: &MemTree,
    snap_user: &User,
    dir: &Path,
) -> Result<Vec<Found<'a>>, AllocError>
    requires snap_user { snap_user.now ≡ snapshot_user tree.now.owner }
    requires short { length dir.now.elements < 4 }
    ensures { IfOk result (λ found. map entry_found found.items
        ≡ entries_in (snapshots_to tree.now.owner tree.now.log (length tree.now.log)) dir.now) }
{
    let names = names_in(alloc, tree, snap_user, dir)?;
    made_under(alloc, tree, dir, &names)
}

/// The items at these paths.
fn made_under<'a>(
    alloc: Global,
    tree: &MemTree,
    dir: &Path,
    names: &OrderedMap<Path, Shown>,
) -> Result<Vec<Found<'a>>, AllocError>
    requires { IsNaming (snapshot_user tree.now.owner) tree.now.log dir.now
        (keys_of (snapshots_of tree.now.log)) names.now.entries }
    ensures { IfOk result (λ found. map entry_found found.items
        ≡ entries_in (snapshots_to tree.now.owner tree.now.log (length tree.now.log)) dir.now) }
{
    tree.recall();
    let mut items = Vec::new(alloc);
    for i in 0..u64::MAX {
        let Some(path) = names.key_at(i) else {
            return Ok(items);
        };
        let found = made_item(alloc, tree, path, names.get(path))?;
        push_found(&mut items, found)?;
    }
    // No memory holds so many.
    Err(AllocError)
}

/// The item at a path, by the first snapshot that bears on it.
fn made_item<'a>(
    alloc: Global,
    tree: &MemTree,
    path: &Path,
    first: Option<&Shown>,
) -> Result<Option<Found<'a>>, AllocError>
    requires { option_copied first ≡ first_to (snapshot_user tree.now.owner) tree.now.log path.now
        (length tree.now.log) }
    ensures { IfOk result (λ found. option_map entry_found found
        ≡ entry_at (snapshots_to tree.now.owner tree.now.log (length tree.now.log)) path.now) }
{
    tree.recall();
    match first {
        Some(shown) => item_by(alloc, tree, path, *shown),
        None => Ok(None),
    }
}

/// The paths in a directory that are above the root of a snapshot, or are one, each with the first such snapshot.
fn names_in(
    alloc: Global,
    tree: &MemTree,
    snap_user: &User,
    dir: &Path,
) -> Result<OrderedMap<Path, Shown>, AllocError>
    requires { length dir.now.elements < 4 }
    ensures { IfOk result (λ names. IsNaming snap_user.now tree.now.log dir.now
        (keys_of (snapshots_of tree.now.log)) names.entries) }
{
    tree.recall();
    let mut names = OrderedMap::new(alloc);
    for i in 0..u64::MAX {
        let Some(time) = tree.snap_time(i) else {
            return Ok(names);
        };
        add_name(alloc, tree, snap_user, dir, time, &mut names)?;
    }
    // No log has so many records.
    Err(AllocError)
}

/// Adds the path in a directory that is above the root of the snapshot of a moment, or is it.
fn add_name(
    alloc: Global,
    tree: &MemTree,
    snap_user: &User,
    dir: &Path,
    time: u64,
    names: &mut OrderedMap<Path, Shown>,
) -> Result<(), AllocError>
    requires moment { IsMoment time }
    requires short { length dir.now.elements < 4 }
    ensures { OnOk result ((times : List ℕ)
        → IsNaming snap_user.now tree.now.log dir.now times names.old.entries
        → IsNaming snap_user.now tree.now.log dir.now (times ++ time ∷ []) names.new.entries) }
{
    if !may_bear(dir, time) {
        return Ok(());
    }
    let root = root_at(alloc, snap_user, time)?;
    let Some(position) = tree.snap_at(time) else {
        return Ok(());
    };
    if !root.is_under(dir) {
        return Ok(());
    }
    let name = front_of(&root, dir.len() + 1)?;
    put_first(names, name, Shown { position, time })
}

/// Puts a snapshot at a path, unless an earlier one is there.
fn put_first(
    names: &mut OrderedMap<Path, Shown>,
    name: Path,
    other: Shown,
) -> Result<(), AllocError>
    ensures { OnOk result ((first : Shown)
        → Some first ≡ sooner (find path_cmp name names.old.entries) (Some other)
        → names.new.entries ≡ put path_cmp name first names.old.entries) }
{
    let known = match names.get(&name) {
        Some(known) => Some(*known),
        None => None,
    };
    names.reserve_one()?;
    names.put_reserved(name, earlier(known, other));
    Ok(())
}

/// The path of the first `n` elements.
pub(crate) fn front_of(path: &Path, n: u64) -> Result<Path, AllocError>
    requires { n ≤ length path.now.elements }
    ensures { IfOk result (λ front. front ≡ cut n path.now) }
{
    let mut front = path.clone()?;
    front.shorten(n);
    Ok(front)
}
