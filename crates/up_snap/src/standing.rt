//! What stands at a path of a snapshot tree.
ghost use Rattle.std.specs.Prelude.{◌≡◌, ◌≤◌, ◌||◌, Some, length, option_map, IfOk, IfSome};
ghost use Rattle.up_list.specs.Entries.{entry_at, entry_of};
ghost use Rattle.up_list.specs.Founds.{entry_found};
ghost use Rattle.up_list.specs.Reads.{file_text};
ghost use Rattle.up_log_tree.specs.Fits.{snapshot_user};
ghost use Rattle.up_log_tree.specs.Trees.{node_at, tree_at};
ghost use Rattle.up_answers.specs.SnapshotTrees.{made_up, snapshots_to};
ghost use Rattle.up_names.specs.Texts.{UserName};
ghost use Rattle.up_names.specs.PathNames.{PathName, is_under};
ghost use Rattle.up_snap.specs.Firsts.{IsTimed, bearing_at, sooner};
ghost use Rattle.up_ends.specs.Moments.{IsMoment};
ghost use Rattle.up_snap.specs.Shown.{first_to, old_path, shown_node, shown_root};
ghost use Rattle.up_mem_tree.specs.Nodes.{node_of};
ghost use Rattle.up_snap.specs.Standing.{standing_node};

use crate::moments::root_at;
use crate::old::{node_then, old_path};
use crate::shown::Shown;
use crate::written::moment_of;
use std::alloc::{AllocError, Global};
use std::mem;
use up_bytes::Bytes;
use up_entry::{Attr, Entry, Kind};
use up_list::Found;
use up_lists::Items;
use up_mem_tree::{MemTree, NodeRef};
use up_names::{Path, User};

/// What stands at a path: an item that the tree had then, or a directory that is made up.
#[derive(Clone, Copy)]
pub(crate) enum Standing<'a> {
    Kept(NodeRef<'a>),
    MadeUp(Shown),
}

/// The one of two snapshots that was taken first.
pub(crate) fn earlier(first: Option<Shown>, other: Shown) -> Shown
    ensures { Some result ≡ sooner first (Some other) }
{
    match first {
        Some(known) if known.position <= other.position => known,
        _ => other,
    }
}

/// The first of the snapshots that bear on a path.
pub(crate) fn first_to(
    alloc: Global,
    tree: &MemTree,
    snap_user: &User,
    path: &Path,
) -> Result<Option<Shown>, AllocError>
    ensures { IfOk result (λ first. first
        ≡ first_to snap_user.now tree.now.log path.now (length tree.now.log)) }
{
    if path.len() < 4 {
        first_above(alloc, tree, snap_user, path)
    } else {
        first_below(alloc, tree, snap_user, path)
    }
}

/// The same, found among all moments.
fn first_above(
    alloc: Global,
    tree: &MemTree,
    snap_user: &User,
    path: &Path,
) -> Result<Option<Shown>, AllocError>
    ensures { IfOk result (λ first. first
        ≡ first_to snap_user.now tree.now.log path.now (length tree.now.log)) }
{
    tree.recall();
    let mut first = None;
    for i in 0..u64::MAX {
        let Some(time) = tree.snap_time(i) else {
            return Ok(first);
        };
        first = sooner_to(alloc, tree, snap_user, path, time, first)?;
    }
    // No log has so many records.
    Err(AllocError)
}

/// The same, of a path that has as many elements as the root of a snapshot, or more: the moment is read off the path.
fn first_below(
    alloc: Global,
    tree: &MemTree,
    snap_user: &User,
    path: &Path,
) -> Result<Option<Shown>, AllocError>
    requires { 4 ≤ length path.now.elements }
    ensures { IfOk result (λ first. first
        ≡ first_to snap_user.now tree.now.log path.now (length tree.now.log)) }
{
    tree.recall();
    match moment_of(path) {
        Some(time) => sooner_to(alloc, tree, snap_user, path, time, None),
        None => Ok(None),
    }
}

/// Whether a path is at or below the root of a snapshot, or above it.
fn bears_on(path: &Path, root: &Path) -> bool
    ensures { result ≡ (is_under path.now root.now || is_under root.now path.now) }
{
    path.is_under(root) || root.is_under(path)
}

/// The first snapshot that bears on a path, among those that were looked at and one more.
fn sooner_to(
    alloc: Global,
    tree: &MemTree,
    snap_user: &User,
    path: &Path,
    time: u64,
    first: Option<Shown>,
) -> Result<Option<Shown>, AllocError>
    requires { IsMoment time }
    ensures { IfOk result (λ found. found
        ≡ sooner first (bearing_at snap_user.now tree.now.log path.now time)) }
{
    let root = root_at(alloc, snap_user, time)?;
    if !bears_on(path, &root) {
        return Ok(first);
    }
    match tree.snap_at(time) {
        Some(position) => Ok(Some(earlier(first, Shown { position, time }))),
        None => Ok(first),
    }
}

/// What stands at a path on which a snapshot bears first.
pub(crate) fn standing_by<'a>(
    alloc: Global,
    tree: &'a MemTree,
    path: &Path,
    shown: Shown,
) -> Result<Option<Standing<'a>>, AllocError>
    requires calendar { IsMoment shown.time }
    requires position { 1 ≤ shown.position }
    ensures found { IfOk result (λ found. option_map (standing_node tree.now.owner path.now) found
        ≡ shown_node tree.now.owner tree.now.log path.now shown) }
    ensures timed { IfOk result (λ found. IfSome found IsTimed) }
{
    let _text = path.as_str();
    let below = is_below(alloc, path, shown.time)?;
    if !below {
        return Ok(Some(Standing::MadeUp(shown)));
    }
    match node_shown(tree, path, shown.position - 1)? {
        Some(node) => Ok(Some(Standing::Kept(node))),
        None => Ok(None),
    }
}

/// What stood after the first `n` records at the path that a snapshot shows at this one.
fn node_shown<'a>(tree: &'a MemTree, path: &Path, n: u64) -> Result<Option<NodeRef<'a>>, AllocError>
    ensures { IfOk result (λ found. option_map node_of found
        ≡ node_at (tree_at tree.now.log n) (old_path tree.now.owner path.now)) }
{
    let old = old_path(tree.owner(), path)?;
    let found = node_then(tree, &old, n);
    drop(old);
    found
}

/// Whether a path is at or below the root of the snapshot of a moment.
fn is_below(alloc: Global, path: &Path, time: u64) -> Result<bool, AllocError>
    requires { IsMoment time }
    ensures { IfOk result (λ below. below ≡ is_under path.now (shown_root path.now.owner time)) }
{
    let root = root_at(alloc, path.owner(), time)?;
    let below = path.is_under(&root);
    drop(root);
    Ok(below)
}

/// What stands at a path of the snapshot tree.
pub(crate) fn standing_at<'a>(
    alloc: Global,
    tree: &'a MemTree,
    snap_user: &User,
    path: &Path,
) -> Result<Option<Standing<'a>>, AllocError>
    requires { snap_user.now ≡ snapshot_user tree.now.owner }
    ensures found { IfOk result (λ found. option_map (standing_node tree.now.owner path.now) found
        ≡ node_at (snapshots_to tree.now.owner tree.now.log (length tree.now.log)) path.now) }
    ensures timed { IfOk result (λ found. IfSome found IsTimed) }
{
    tree.recall();
    match first_to(alloc, tree, snap_user, path)? {
        Some(shown) => standing_by(alloc, tree, path, shown),
        None => Ok(None),
    }
}

/// The item at a path of the snapshot tree.
pub fn item_at<'a>(
    alloc: Global,
    tree: &MemTree,
    snap_user: &User,
    path: &Path,
) -> Result<Option<Found<'a>>, AllocError>
    requires { snap_user.now ≡ snapshot_user tree.now.owner }
    ensures { IfOk result (λ found. option_map entry_found found
        ≡ entry_at (snapshots_to tree.now.owner tree.now.log (length tree.now.log)) path.now) }
{
    match standing_at(alloc, tree, snap_user, path)? {
        Some(found) => Ok(Some(Found::Made(found.entry(alloc, tree.owner(), path)?))),
        None => Ok(None),
    }
}

/// The item at a path, by the first snapshot that bears on it.
pub(crate) fn item_by<'a>(
    alloc: Global,
    tree: &MemTree,
    path: &Path,
    shown: Shown,
) -> Result<Option<Found<'a>>, AllocError>
    requires calendar { IsMoment shown.time }
    requires position { 1 ≤ shown.position }
    ensures { IfOk result (λ found. option_map entry_found found
        ≡ option_map entry_of (shown_node tree.now.owner tree.now.log path.now shown)) }
{
    match standing_by(alloc, tree, path, shown)? {
        Some(found) => Ok(Some(Found::Made(found.entry(alloc, tree.owner(), path)?))),
        None => Ok(None),
    }
}

/// The entry of an item under another name.
fn renamed(entry: &Entry, name: &Path) -> Result<Entry, AllocError>
    ensures { IfOk result (λ copy. copy ≡ record entry.now { name = name.now }) }
{
    moved_to(entry, name.clone()?)
}

/// The same, where the name is handed over.
pub(crate) fn moved_to(entry: &Entry, name: Path) -> Result<Entry, AllocError>
    ensures { IfOk result (λ copy. copy ≡ record entry.now { name = name }) }
{
    let mut copy = entry.clone()?;
    drop(mem::replace(&mut copy.name, name));
    Ok(copy)
}

/// The entry of a directory that is made up: plain, of the tree's owner, with the time and position of a snapshot.
fn made_up(alloc: Global, owner: &User, shown: Shown, path: &Path) -> Result<Entry, AllocError>
    requires { IsMoment shown.time }
    ensures { IfOk result (λ entry. entry
        ≡ (made_up owner.now shown.time shown.position path.now).entry) }
{
    // What may fail comes first: then nothing but names is let go where it does.
    Ok(Entry {
        signed_name: path.clone()?,
        name: path.clone()?,
        writer: owner.clone()?,
        packing: 1,
        time: shown.time as i64,
        blocks: Items::new(alloc),
        packdata: Bytes::new(alloc),
        link: None,
        attr: Attr {
            kind: Kind::Directory,
            incomplete: false,
        },
        sequence: shown.position,
    })
}

impl Standing<'_> {
    /// The entry of what stands at a path.
    pub(crate) fn entry(
        &self,
        alloc: Global,
        owner: &User,
        path: &Path,
    ) -> Result<Entry, AllocError>
        requires { IsTimed self.now }
        ensures { IfOk result (λ entry. entry ≡ (standing_node owner.now path.now self.now).entry) }
    {
        match self {
            Standing::Kept(old) => renamed(old.entry, path),
            Standing::MadeUp(shown) => made_up(alloc, owner, *shown, path),
        }
    }

    /// The text of what stands at a path, where it is a file.
    pub(crate) fn text(&self) -> Result<Option<Bytes>, AllocError>
        ensures { IfOk result (λ text. (owner : UserName) (path : PathName)
            → text ≡ file_text (Some (standing_node owner path self.now))) }
    {
        match self {
            Standing::Kept(old) if old.entry.attr.kind == Kind::File => {
                Ok(Some(old.text.clone()?))
            }
            _ => Ok(None),
        }
    }
}
