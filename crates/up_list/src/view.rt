//! The tree of a log, as it is or as it was, and a user before it.
ghost use Rattle.std.specs.Prelude.{◌≡◌, ◌≤◌, Err, IfOk, IsErr, alloc_error, length, map, take};
ghost use Rattle.std.specs.Option.{option_and_then, option_copied, option_map};
ghost use Rattle.up_names.specs.Faults.{Gives};
ghost use Rattle.up_names.specs.PathNames.{cut, extended, joined};
ghost use Rattle.up_list.specs.Entries.{entries_in, entry_at, entry_of, entry_on_way, path_made};
ghost use Rattle.up_list.specs.Founds.{entry_found};
ghost use Rattle.up_list.specs.Reads.{file_text};
ghost use Rattle.up_list.specs.Seen.{group_listed, has_name, look_of};
ghost use Rattle.up_log_tree.specs.Rights.{access_path, facts_of, governing_prefix, group_paths};
ghost use Rattle.up_log_tree.specs.Trees.{tree_of};
ghost use Rattle.up_mem_tree.specs.Nodes.{node_of};

use crate::found::Found;
use crate::globs::within;
use crate::onlooker::Onlooker;
use std::alloc::{AllocError, Global};
use std::marker::Model;
use up_access::AccessText;
use up_bytes::Bytes;
use up_entry::{Entry, Kind};
use up_group::GroupText;
use up_mem_tree::{MemTree, NodeRef};
use up_names::{NameFault, Path, User, parse_path};
use up_policy::{Facts, Loaded, rights_of};
use up_rights::RightSet;

/// A tree as it was after the first records of its log: what rights are read by. It parses nothing.
#[derive(Drop)]
pub struct MemView<'a> {
    tree: &'a MemTree,
    at: u64,
}

impl<'a> Model for MemView<'a> {
    ghost use Rattle.std.specs.Prelude.{◌≤◌, length, take};
    ghost use Rattle.up_list.specs.Seen.{Seen};

    ghost Value = { Seen };

    ghost view = { λ view. record {
      owner = view.tree.now.owner;
      records = take view.at view.tree.now.log;
    } };

    ghost invariant = { λ view. view.at ≤ length view.tree.now.log };
}

impl<'a> MemView<'a> {
    /// The tree as it is.
    #[tactic(auto, using(crate::proofs::ViewLemmas::seen_whole))]
    pub fn new(tree: &'a MemTree) -> MemView<'a>
        ensures { result ≡ record { owner = tree.now.owner; records = tree.now.log } }
    {
        let at = tree.position();
        MemView { tree, at }
    }

    /// The tree as it was after the first `n` records.
    pub fn at(tree: &'a MemTree, n: u64) -> MemView<'a>
        requires { n ≤ length tree.now.log }
        ensures { result ≡ record { owner = tree.now.owner; records = take n tree.now.log } }
    {
        MemView { tree, at: n }
    }
}

impl Facts for MemView<'_> {
    ghost tree = { λ seen. facts_of seen.owner (tree_of seen.records) };

    ghost group_paths = { λ seen. group_paths (tree_of seen.records) };

    #[tactic(auto, unfolding(up_log_tree::specs::Rights::facts_of))]
    fn owner(&self) -> &User {
        self.tree.owner()
    }

    fn access(&self, dir: &Path) -> Option<&AccessText> {
        self.tree.access_at(dir, self.at)
    }

    fn nearest(&self, path: &Path) -> Option<&AccessText> {
        match self.tree.nearest_at(path, self.at) {
            Some((_, text)) => Some(text),
            None => None,
        }
    }

    fn group(&self, path: &Path) -> Option<&GroupText> {
        self.tree.group_at(path, self.at)
    }

    ghost groups_listed = { group_listed };
}

/// A user before the tree of a log as it is, with what was loaded of the groups of others.
#[derive(Drop)]
pub struct TreeLook<'a> {
    tree: &'a MemTree,
    view: MemView<'a>,
    loaded: &'a Loaded,
    user: &'a User,
}

impl<'a> Model for TreeLook<'a> {
    ghost use Rattle.std.specs.Prelude.{◌≡◌};
    ghost use Rattle.up_list.specs.Looks.{Look};
    ghost use Rattle.up_list.specs.Seen.{Seen, look_of};

    ghost Value = { Look };

    ghost view = { λ look. look_of
        (record { owner = look.tree.now.owner; records = look.tree.now.log })
        look.loaded.now look.user.now };

    ghost invariant = { λ look. look.view
        ≡ record { owner = look.tree.now.owner; records = look.tree.now.log } };
}

impl<'a> TreeLook<'a> {
    /// A user before a tree.
    pub fn new(tree: &'a MemTree, loaded: &'a Loaded, user: &'a User) -> TreeLook<'a>
        ensures { result
            ≡ look_of (record { owner = tree.now.owner; records = tree.now.log })
            loaded.now user.now }
    {
        TreeLook {
            tree,
            view: MemView::new(tree),
            loaded,
            user,
        }
    }
}

impl Onlooker for TreeLook<'_> {
    ghost look = { λ look. look };

    fn owner(&self) -> &User {
        self.tree.owner()
    }

    #[tactic(auto, unfolding(crate::specs::Looks::rights, up_log_tree::specs::Rights::facts_of))]
    fn rights(&self, alloc: Global, path: &Path) -> Result<RightSet, AllocError> {
        rights_of(alloc, &self.view, self.loaded, self.user, path)
    }

    #[tactic(auto, using(crate::proofs::ViewLemmas::rooted_log))]
    fn item(&self, _alloc: Global, path: &Path) -> Result<Option<Found<'_>>, AllocError> {
        self.tree.recall();
        Ok(kept(self.tree.node(path)))
    }

    #[tactic(auto, using(crate::proofs::ViewLemmas::rooted_log))]
    fn item_on_way(&self, _alloc: Global, path: &Path) -> Result<Option<Found<'_>>, AllocError> {
        self.tree.recall();
        Ok(kept(standing(self.tree, path)))
    }

    fn item_in(
        &self,
        _alloc: Global,
        dir: &Path,
        name: &str,
    ) -> Result<Option<Found<'_>>, AllocError> {
        named_in(self.tree, dir, name, dir.join(name))
    }

    fn items_in(&self, alloc: Global, dir: &Path) -> Result<Vec<Found<'_>>, AllocError> {
        items_of(alloc, self.tree, dir)
    }

    #[tactic(auto, using(crate::proofs::ViewLemmas::has_text))]
    fn has_access(&self, _alloc: Global, dir: &Path) -> Result<bool, AllocError> {
        Ok(self.view.access(dir).is_some())
    }

    #[tactic(auto, using(crate::proofs::ViewLemmas::rooted_log))]
    fn governing(&self, alloc: Global, path: &Path) -> Result<Option<Found<'_>>, AllocError> {
        let records = self.tree.position();
        governing_in(alloc, self.tree, path, records)
    }

    fn text(&self, _alloc: Global, path: &Path) -> Result<Option<Bytes>, AllocError> {
        file_text(self.tree.node(path))
    }
}

/// The entry of a node that a tree keeps.
pub(crate) fn kept<'a>(node: Option<NodeRef<'a>>) -> Option<Found<'a>>
    ensures { option_map entry_found result ≡ option_map entry_of (option_map node_of node.entry) }
{
    let node = node?;
    Some(Found::Kept(node.entry))
}

/// What stands at the longest prefix of a path at which something stands, the path itself included.
pub(crate) fn standing<'a>(tree: &'a MemTree, path: &Path) -> Option<NodeRef<'a>>
    ensures { option_map entry_of (option_map node_of result)
        ≡ entry_on_way (tree_of tree.now.log) path.now }
{
    tree.standing(path)
}

/// The items in a directory, in order of paths.
fn items_of<'a>(alloc: Global, tree: &'a MemTree, dir: &Path) -> Result<Vec<Found<'a>>, AllocError>
    ensures { IfOk result (λ found. map entry_found found.items
        ≡ entries_in (tree_of tree.now.log) dir.now) }
{
    tree.recall();
    let mut items = Vec::new(alloc);
    for i in 0..u64::MAX {
        let Some(path) = tree.child(dir, i) else {
            return Ok(items);
        };
        let Some(node) = tree.node(path) else {
            unreachable!()
        };
        items.push(Found::Kept(node.entry))?;
    }
    // No memory holds so many.
    Err(AllocError)
}

/// The path that was made of a directory and a name, or `None` where the two make none. Memory is wanting only where it was for
/// the path.
pub fn path_made(joined: Result<Path, NameFault>) -> Result<Option<Path>, AllocError>
    ensures { result ≡ path_made joined }
{
    match joined {
        Ok(path) => Ok(Some(path)),
        Err(NameFault::OutOfMemory) => Err(AllocError),
        Err(_) => Ok(None),
    }
}

/// The item of this name in a directory, once its path was made. Memory is wanting only where it was for the path.
#[tactic(auto, using(crate::proofs::GlobLemmas::joined_is))]
fn named_in<'a>(
    tree: &'a MemTree,
    dir: &Path,
    name: &str,
    made: Result<Path, NameFault>,
) -> Result<Option<Found<'a>>, AllocError>
    requires { Gives (λ path. path) made (joined dir.now name.now) }
    ensures found { IfOk result (λ found. option_map entry_found found
        ≡ entry_at (tree_of tree.now.log) (extended dir.now name.now)) }
    ensures memory { IsErr result → path_made made ≡ Err alloc_error }
{
    match path_made(made)? {
        Some(path) => Ok(kept(tree.node(&path))),
        None => Ok(kept(child_named(tree, dir, name))),
    }
}

/// The item of this name in a directory, found by looking at each. It takes no memory.
fn child_named<'a>(tree: &'a MemTree, dir: &Path, name: &str) -> Option<NodeRef<'a>>
    ensures { option_map entry_of (option_map node_of result)
        ≡ entry_at (tree_of tree.now.log) (extended dir.now name.now) }
{
    let at = dir.len();
    for i in 0..tree.position() {
        let Some(path) = tree.child(dir, i) else {
            return None;
        };
        let Some(node) = tree.node(path) else {
            unreachable!()
        };
        if has_name(at, name, node.entry) {
            return Some(node);
        }
    }
    None
}

/// Whether the element of an item's path at a place is this name.
#[tactic(auto, using(crate::proofs::ViewLemmas::element_is))]
fn has_name(at: u64, name: &str, entry: &Entry) -> bool
    ensures { result ≡ has_name at name.now entry.now }
{
    match entry.name.element(at) {
        Some(element) => element == name,
        None => name.is_empty(),
    }
}

/// The Access file that governs a path, in a tree that has so many records.
fn governing_in<'a>(
    alloc: Global,
    tree: &'a MemTree,
    path: &Path,
    records: u64,
) -> Result<Option<Found<'a>>, AllocError>
    requires { records ≡ length tree.now.log }
    ensures { IfOk result (λ found. option_map entry_found found
        ≡ option_and_then (λ dir. entry_at (tree_of tree.now.log) (access_path dir))
        (governing_prefix (tree_of tree.now.log) path.now)) }
{
    let Some((n, _)) = tree.nearest_at(path, records) else {
        return Ok(None);
    };
    let file = access_file(alloc, path, n)?;
    Ok(kept(tree.node(&file)))
}

/// The path of the Access file in the directory of the first `n` elements of a path.
///
/// It is asked for where that file stands; so its text is no longer than a path's may be.
#[tactic(auto, using(crate::proofs::ViewLemmas::cut_past))]
fn access_file(alloc: Global, path: &Path, n: u64) -> Result<Path, AllocError>
    ensures { IfOk result (λ file. file ≡ access_path (cut n path.now)) }
{
    let front = if n < path.len() {
        path.front(n)
    } else {
        path.as_str()
    };
    match parse_path(alloc, front.as_bytes()) {
        Ok(dir) => within(&dir, "Access"),
        Err(_) => Err(AllocError),
    }
}

/// The text of a node that is a file.
fn file_text(node: Option<NodeRef<'_>>) -> Result<Option<Bytes>, AllocError>
    ensures { IfOk result (λ text. text ≡ file_text (option_map node_of node.entry)) }
{
    match node {
        Some(node) if node.entry.attr.kind == Kind::File => Ok(Some(node.text.clone()?)),
        _ => Ok(None),
    }
}
