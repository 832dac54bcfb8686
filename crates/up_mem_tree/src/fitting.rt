//! Whether a record fits the log as its next one.
ghost use Rattle.std.specs.Prelude.{◌≡◌, ◌==◌, ◌&&◌, IfOk, MatchOption, Some, ⊤, is_ok, is_some, length, option_map};
ghost use Rattle.std.specs.List.{list_any};
ghost use Rattle.std.specs.Option.{option_copied};
ghost use Rattle.up_names.specs.PathNames.{PathName, parent_of};
ghost use Rattle.up_access.specs.AccessTexts.{access_of};
ghost use Rattle.up_group.specs.GroupTexts.{group_of};
ghost use Rattle.up_mem_tree.specs.Kept.{IsOwnSlot, Stands, paths_of, slots_of};
ghost use Rattle.up_mem_tree.specs.Nodes.{node_of};
ghost use Rattle.up_mem_tree.specs.Slots.{IsIdOf, IsParentIdOf};
ghost use Rattle.up_log_tree.specs.Fits.{control_for, delete_fits, fits, has_place, has_snapshots, is_directory_node, is_snap_at, may_replace, put_fits, root_of, snap_fits, text_fits};
ghost use Rattle.up_log_tree.specs.Trees.{node_at, tree_of};

use crate::kept::Kept;
use crate::nodes::NodeRef;
use crate::slots::Slot;
use std::alloc::AllocError;
use up_access::parse_access;
use up_bytes::Bytes;
use up_entry::{Entry, Kind, Rec, has_fixed_form};
use up_group::parse_group;
use up_names::{Control, Path, TextFault, User};

/// The first second of the year 10000 in the earliest time zone.
const CALENDAR_END: u64 = 253_402_207_200;

/// How many bytes the name of a user may have, so that its snapshot user's, which has 9 more, is no longer than 254.
const LONGEST_USER: usize = 245;

/// Which control file an entry of this kind is at a path.
fn control_for(kind: Kind, path: &Path) -> Control
    ensures { result ≡ control_for kind path.now }
{
    match kind {
        Kind::File => path.control_kind(),
        Kind::Directory | Kind::Link => Control::Ordinary,
    }
}

/// Whether an Access text parses.
fn access_parses(owner: &User, text: &[u8]) -> Result<bool, AllocError>
    ensures { IfOk result (λ parses. parses ≡ is_ok (access_of owner.now text.now)) }
{
    match parse_access(owner, text) {
        Ok(_) => Ok(true),
        Err(TextFault::OutOfMemory) => Err(AllocError),
        Err(TextFault::BadText(_)) => Ok(false),
    }
}

/// Whether a Group text parses.
fn group_parses(owner: &User, text: &[u8]) -> Result<bool, AllocError>
    ensures { IfOk result (λ parses. parses ≡ is_ok (group_of owner.now text.now)) }
{
    match parse_group(owner, text) {
        Ok(_) => Ok(true),
        Err(TextFault::OutOfMemory) => Err(AllocError),
        Err(TextFault::BadText(_)) => Ok(false),
    }
}

/// Whether the text of a control file parses; any other text is empty.
fn text_fits(owner: &User, control: Control, text: &Bytes) -> Result<bool, AllocError>
    ensures { IfOk result (λ fitting. fitting ≡ text_fits owner.now control text.now) }
{
    match control {
        Control::Access => access_parses(owner, text.as_slice()),
        Control::Group => group_parses(owner, text.as_slice()),
        Control::Ordinary => Ok(text.is_empty()),
    }
}

/// Whether what stands there is a directory.
fn is_directory_node(found: Option<NodeRef<'_>>) -> bool
    ensures { result ≡ is_directory_node (option_map node_of found.entry) }
{
    match found {
        Some(node) => matches!(node.entry.attr.kind, Kind::Directory),
        None => false,
    }
}

/// Whether an entry of this kind may take the place of what stands there.
fn may_replace(found: Option<NodeRef<'_>>, kind: Kind) -> bool
    ensures { result ≡ may_replace (option_map node_of found.entry) kind }
{
    match found {
        Some(node) => {
            matches!(node.entry.attr.kind, Kind::File) && !matches!(kind, Kind::Directory)
        }
        None => true,
    }
}

/// Whether a tree of this owner may have snapshots: the owner has no suffix, and a name of at most 245 bytes, to which `+snapshot` can be
/// added.
#[tactic(auto, using(crate::proofs::SnapUsers::has_room))]
pub fn has_snapshots(owner: &User) -> bool
    ensures { result ≡ has_snapshots owner.now }
{
    owner.suffix().is_none() && owner.text().len() <= LONGEST_USER
}

/// Whether something stands at a slot's path, and nothing below it.
fn is_bare(slot: &Slot, found: Option<NodeRef<'_>>) -> bool
    ensures { result ≡ (is_some found.entry && (length slot.now.children.items == 0)) }
{
    found.is_some() && slot.children.is_empty()
}

impl Kept {
    /// The slot of the directory of a path, by its number, where it has one.
    fn parent_slot(&self, parent: Option<usize>) -> Option<&Slot>
        requires { Stands self.now }
        ensures { (path : PathName)
            → IsParentIdOf (paths_of self.now) (slots_of self.now) path parent
            → MatchOption (parent_of path) ⊤ (λ dir. IsOwnSlot self.now dir (option_copied result)) }
    {
        self.slot_with(parent)
    }

    /// Whether the path is the root, or stands in a directory, whose slot has that number, where there is one.
    fn has_place(&self, path: &Path, parent: Option<usize>) -> bool
        requires stands { Stands self.now }
        requires parent { IsParentIdOf (paths_of self.now) (slots_of self.now) path.now parent }
        ensures { result ≡ has_place self.now.owner (tree_of self.now.log.items) path.now }
    {
        if path.len() == 0 {
            return path.owner() == &self.owner;
        }
        match self.parent_slot(parent) {
            Some(slot) => is_directory_node(self.node_of_slot(slot)),
            None => false,
        }
    }

    /// What stands at a path, whose slot has that number, where there is one.
    fn node_with(&self, _path: &Path, own: Option<usize>) -> Option<NodeRef<'_>>
        requires stands { Stands self.now }
        requires own { IsIdOf (paths_of self.now) (slots_of self.now) _path.now own }
        ensures { option_map node_of result ≡ node_at (tree_of self.now.log.items) _path.now }
    {
        match self.slot_with(own) {
            Some(slot) => self.node_of_slot(slot),
            None => None,
        }
    }

    /// Whether a Put fits. It walks to the path once.
    #[tactic(auto, unfolding(up_log_tree::specs::Fits::put_fits))]
    fn put_fits(&self, entry: &Entry, text: &Bytes) -> Result<bool, AllocError>
        requires { Stands self.now }
        ensures { IfOk result (λ fitting. fitting
            ≡ put_fits self.now.owner self.now.log.items entry.now text.now) }
    {
        let (own, parent) = self.ids_of(&entry.name);
        let fits = has_fixed_form(entry)
            && entry.sequence == self.log.len() as u64 + 1
            && self.has_place(&entry.name, parent)
            && may_replace(self.node_with(&entry.name, own), entry.attr.kind);
        if !fits {
            return Ok(false);
        }
        text_fits(&self.owner, control_for(entry.attr.kind, &entry.name), text)
    }

    /// Whether a Delete fits.
    #[tactic(auto, unfolding(up_log_tree::specs::Fits::delete_fits))]
    fn delete_fits(&self, path: &Path) -> bool
        requires { Stands self.now }
        ensures { result ≡ delete_fits self.now.log.items path.now }
    {
        match self.own_slot(path) {
            Some(slot) => is_bare(slot, self.node_of_slot(slot)),
            None => false,
        }
    }

    /// Whether there is a root.
    fn is_rooted(&self) -> Result<bool, AllocError>
        requires { Stands self.now }
        ensures { IfOk result (λ rooted. rooted
            ≡ is_some (node_at (tree_of self.now.log.items) (root_of self.now.owner))) }
    {
        let root = Path::root(self.owner.clone()?)?;
        Ok(self.node(&root).is_some())
    }

    /// Whether there is a snapshot of that time.
    fn has_snap(&self, time: u64) -> bool
        requires { Stands self.now }
        ensures { result ≡ list_any (is_snap_at time) self.now.log.items }
    {
        match self.snaps.get(&time) {
            Some(_) => true,
            None => false,
        }
    }

    /// Whether a Snap fits.
    #[tactic(auto, unfolding(up_log_tree::specs::Fits::snap_fits))]
    fn snap_fits(&self, time: u64) -> Result<bool, AllocError>
        requires { Stands self.now }
        ensures { IfOk result (λ fitting. fitting
            ≡ snap_fits self.now.owner self.now.log.items time) }
    {
        let rooted = self.is_rooted()?;
        Ok(has_snapshots(&self.owner) && rooted && time < CALENDAR_END && !self.has_snap(time))
    }

    /// Whether a record fits as the next one.
    pub(crate) fn fits(&self, rec: &Rec) -> Result<bool, AllocError>
        requires { Stands self.now }
        ensures { IfOk result (λ fitting. fitting
            ≡ fits self.now.owner self.now.log.items rec.now) }
    {
        match rec {
            Rec::Put(entry, text) => self.put_fits(entry, text),
            Rec::Delete(path) => Ok(self.delete_fits(path)),
            Rec::Snap(time) => self.snap_fits(*time),
        }
    }
}
