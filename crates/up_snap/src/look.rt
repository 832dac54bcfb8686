//! A user before the snapshot tree of a log.
ghost use Rattle.std.specs.Prelude.{◌≡◌, ◌≤◌, None, IfOk, is_some, length, option_map};
ghost use Rattle.up_names.specs.PathNames.{cut, extended};
ghost use Rattle.up_list.specs.Entries.{entry_at, entry_on_way};
ghost use Rattle.up_list.specs.Founds.{entry_found};
ghost use Rattle.up_list.specs.Seen.{has_name};
ghost use Rattle.up_list.specs.Reads.{file_text};
ghost use Rattle.up_log_tree.specs.Fits.{snapshot_user};
ghost use Rattle.up_log_tree.specs.Rights.{access_node};
ghost use Rattle.up_log_tree.specs.Trees.{node_at};
ghost use Rattle.up_answers.specs.SnapshotTrees.{snapshots_to};
ghost use Rattle.up_snap.specs.Looked.{IsSnapUser, first_named, held_by, look_at};

use crate::listing::{front_of, items_in};
use crate::standing::{item_at, standing_at};
use std::alloc::{AllocError, Global};
use std::marker::Model;
use up_bytes::Bytes;
use up_entry::Entry;
use up_list::{Found, Onlooker, path_made};
use up_mem_tree::MemTree;
use up_names::{Path, User};
use up_rights::{Right, RightSet};

/// A user before the snapshot tree of a log. Nothing is loaded for it, and no old tree is made: what stands at a path is read off
/// the records.
#[derive(Drop)]
pub struct SnapLook<'a> {
    tree: &'a MemTree,
    snap_user: &'a User,
    user: &'a User,
}

impl<'a> Model for SnapLook<'a> {
    ghost use Rattle.up_list.specs.Looks.{Look};
    ghost use Rattle.up_snap.specs.Looked.{IsSnapUser, look_at};

    ghost Value = { Look };

    ghost view = { λ look. look_at look.tree.now.owner look.tree.now.log look.user.now };

    ghost invariant = { λ look. IsSnapUser look.tree.now.owner look.snap_user.now };
}

impl<'a> SnapLook<'a> {
    /// A user before the snapshot tree of this tree, whose owner is the snapshot user `snap_user`.
    pub fn new(tree: &'a MemTree, snap_user: &'a User, user: &'a User) -> SnapLook<'a>
        requires { IsSnapUser tree.now.owner snap_user.now }
        ensures { result ≡ look_at tree.now.owner tree.now.log user.now }
    {
        SnapLook {
            tree,
            snap_user,
            user,
        }
    }
}

impl Onlooker for SnapLook<'_> {
    ghost look = { λ look. look };

    fn owner(&self) -> &User {
        self.snap_user
    }

    fn rights(&self, _alloc: Global, _path: &Path) -> Result<RightSet, AllocError> {
        Ok(held_by(self.user, self.tree.owner()))
    }

    fn item(&self, alloc: Global, path: &Path) -> Result<Option<Found<'_>>, AllocError> {
        self.tree.recall();
        item_at(alloc, self.tree, self.snap_user, path)
    }

    fn item_on_way(&self, alloc: Global, path: &Path) -> Result<Option<Found<'_>>, AllocError> {
        self.tree.recall();
        item_on_way(alloc, self.tree, self.snap_user, path)
    }

    fn item_in(
        &self,
        alloc: Global,
        dir: &Path,
        name: &str,
    ) -> Result<Option<Found<'_>>, AllocError> {
        item_named(alloc, self.tree, self.snap_user, dir, name)
    }

    fn items_in(&self, alloc: Global, dir: &Path) -> Result<Vec<Found<'_>>, AllocError> {
        items_in(alloc, self.tree, self.snap_user, dir)
    }

    fn has_access(&self, alloc: Global, dir: &Path) -> Result<bool, AllocError> {
        has_access(alloc, self.tree, self.snap_user, dir)
    }

    fn governing(&self, _alloc: Global, _path: &Path) -> Result<Option<Found<'_>>, AllocError> {
        self.tree.recall();
        Ok(None)
    }

    fn text(&self, alloc: Global, path: &Path) -> Result<Option<Bytes>, AllocError> {
        text_at(alloc, self.tree, self.snap_user, path)
    }
}

/// The rights of a user on the snapshot tree of this owner's: read and list for the owner, and none for anyone else.
fn held_by(user: &User, owner: &User) -> RightSet
    ensures { result ≡ held_by user.now owner.now }
{
    if user == owner {
        RightSet::empty().with(Right::Read).with(Right::List)
    } else {
        RightSet::empty()
    }
}

/// Whether an item is found. It is let go.
pub(crate) fn is_there(found: Option<Found>) -> bool
    ensures { result ≡ is_some (option_map entry_found found.entry) }
{
    let there = found.is_some();
    drop(found);
    there
}

/// Whether a directory has an Access file.
#[tactic(auto, using(crate::proofs::LookLemmas::has_some))]
fn has_access(
    alloc: Global,
    tree: &MemTree,
    snap_user: &User,
    dir: &Path,
) -> Result<bool, AllocError>
    requires { snap_user.now ≡ snapshot_user tree.now.owner }
    ensures { IfOk result (λ has. has ≡ is_some (access_node
        (snapshots_to tree.now.owner tree.now.log (length tree.now.log)) dir.now)) }
{
    Ok(is_there(item_named(alloc, tree, snap_user, dir, "Access")?))
}

/// The text of the file at a path.
fn text_at(
    alloc: Global,
    tree: &MemTree,
    snap_user: &User,
    path: &Path,
) -> Result<Option<Bytes>, AllocError>
    requires { snap_user.now ≡ snapshot_user tree.now.owner }
    ensures { IfOk result (λ text. text ≡ file_text (node_at
        (snapshots_to tree.now.owner tree.now.log (length tree.now.log)) path.now)) }
{
    match standing_at(alloc, tree, snap_user, path)? {
        Some(found) => found.text(),
        None => Ok(None),
    }
}

/// The item at the longest prefix of a path at which something stands, the path itself included.
fn item_on_way<'a>(
    alloc: Global,
    tree: &MemTree,
    snap_user: &User,
    path: &Path,
) -> Result<Option<Found<'a>>, AllocError>
    requires { snap_user.now ≡ snapshot_user tree.now.owner }
    ensures { IfOk result (λ found. option_map entry_found found
        ≡ entry_on_way (snapshots_to tree.now.owner tree.now.log (length tree.now.log)) path.now) }
{
    match item_at(alloc, tree, snap_user, path)? {
        Some(found) => Ok(Some(found)),
        None => item_above(alloc, tree, snap_user, path),
    }
}

/// The same where nothing stands at the path itself. Items stand at the shorter ones of the prefixes alone, so that the last of
/// them is found by looks at prefixes twice as long each time, and then by halving.
fn item_above<'a>(
    alloc: Global,
    tree: &MemTree,
    snap_user: &User,
    path: &Path,
) -> Result<Option<Found<'a>>, AllocError>
    requires snap_user { snap_user.now ≡ snapshot_user tree.now.owner }
    requires none { entry_at (snapshots_to tree.now.owner tree.now.log (length tree.now.log)) path.now
        ≡ None }
    ensures { IfOk result (λ found. option_map entry_found found
        ≡ entry_on_way (snapshots_to tree.now.owner tree.now.log (length tree.now.log)) path.now) }
{
    tree.recall();
    let mut low = 0;
    let mut high = path.len();
    while low < high {
        let middle = low + low.min((high - low) / 2);
        if stands_at(alloc, tree, snap_user, path, middle)? {
            low = middle + 1;
        } else {
            high = middle;
        }
    }
    if low == 0 {
        return Ok(None);
    }
    let front = front_of(path, low - 1)?;
    item_at(alloc, tree, snap_user, &front)
}

/// Whether something stands at the prefix with the first `n` elements of a path.
fn stands_at(
    alloc: Global,
    tree: &MemTree,
    snap_user: &User,
    path: &Path,
    n: u64,
) -> Result<bool, AllocError>
    requires snap_user { snap_user.now ≡ snapshot_user tree.now.owner }
    requires within { n ≤ length path.now.elements }
    ensures { IfOk result (λ stands. stands ≡ is_some (entry_at
        (snapshots_to tree.now.owner tree.now.log (length tree.now.log)) (cut n path.now))) }
{
    let front = front_of(path, n)?;
    let found = item_at(alloc, tree, snap_user, &front);
    drop(front);
    Ok(is_there(found?))
}

/// The item of this name in a directory.
#[tactic(auto, using(up_list::proofs::GlobLemmas::joined_is))]
fn item_named<'a>(
    alloc: Global,
    tree: &MemTree,
    snap_user: &User,
    dir: &Path,
    name: &str,
) -> Result<Option<Found<'a>>, AllocError>
    requires { snap_user.now ≡ snapshot_user tree.now.owner }
    ensures { IfOk result (λ found. option_map entry_found found
        ≡ entry_at (snapshots_to tree.now.owner tree.now.log (length tree.now.log))
        (extended dir.now name.now)) }
{
    match path_made(dir.join(name))? {
        Some(path) => item_at(alloc, tree, snap_user, &path),
        None => item_among(alloc, tree, snap_user, dir, name),
    }
}

/// The same, found by looking at each item of the directory.
fn item_among<'a>(
    alloc: Global,
    tree: &MemTree,
    snap_user: &User,
    dir: &Path,
    name: &str,
) -> Result<Option<Found<'a>>, AllocError>
    requires { snap_user.now ≡ snapshot_user tree.now.owner }
    ensures { IfOk result (λ found. option_map entry_found found
        ≡ entry_at (snapshots_to tree.now.owner tree.now.log (length tree.now.log))
        (extended dir.now name.now)) }
{
    tree.recall();
    let items = items_in(alloc, tree, snap_user, dir)?;
    copy_named(items.as_slice(), dir.len(), name)
}

/// The first of these items that has this name as the element of its path at a place.
fn copy_named<'a>(items: &[Found<'_>], at: u64, name: &str) -> Result<Option<Found<'a>>, AllocError>
    ensures { IfOk result (λ found. option_map entry_found found
        ≡ first_named at name.now items.now) }
{
    for found in items {
        if has_name(at, name, found.entry()) {
            return Ok(Some(Found::Made(found.entry().clone()?)));
        }
    }
    Ok(None)
}

/// Whether the element of an item's path at a place is this name.
#[tactic(auto, using(up_list::proofs::ViewLemmas::element_is))]
fn has_name(at: u64, name: &str, entry: &Entry) -> bool
    ensures { result ≡ has_name at name.now entry.now }
{
    match entry.name.element(at) {
        Some(element) => element == name,
        None => name.is_empty(),
    }
}
