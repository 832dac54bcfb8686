//! A tree as one user meets it.
ghost use Rattle.std.specs.Prelude.{◌≡◌, IfOk, is_some, map};
ghost use Rattle.std.specs.Option.{option_map};
ghost use Rattle.up_names.specs.PathNames.{extended};
ghost use Rattle.up_log_tree.specs.Trees.{node_at};
ghost use Rattle.up_log_tree.specs.Rights.{access_node};
ghost use Rattle.up_list.specs.Founds.{entry_found};
ghost use Rattle.up_list.specs.Governing.{governing_file};
ghost use Rattle.up_list.specs.Looks.{Look, rights};
ghost use Rattle.up_list.specs.Reads.{file_text};
ghost use Rattle.up_list.specs.Entries.{entry_at, entry_on_way, entries_in};
ghost use Rattle.up_list.specs.Rooted.{IsRooted};

use crate::found::Found;
use std::alloc::{AllocError, Global};
use up_bytes::Bytes;
use up_names::{Path, User};
use up_rights::RightSet;

/// A user before a tree: the tree of a log, or a snapshot tree. All that is answered to who looks is read through it.
pub trait Onlooker {
    // The tree with its owner, the user, and what was loaded of the groups of others.
    ghost look: { Self → Look };

    /// The tree's owner.
    fn owner(&self) -> &User
        ensures { result.now ≡ (look self.now).owner };

    /// The rights of the user on a path of the tree's owner.
    fn rights(&self, alloc: Global, path: &Path) -> Result<RightSet, AllocError>
        requires { path.now.owner ≡ (look self.now).owner }
        ensures { IfOk result (λ held. held ≡ rights (look self.now) path.now) };

    /// The item at a path.
    fn item(&self, alloc: Global, path: &Path) -> Result<Option<Found<'_>>, AllocError>
        // Each item stands at its name, and all but the root in a directory.
        ensures rooted { IsRooted (look self.now).owner (look self.now).tree }
        ensures found { IfOk result (λ found. option_map entry_found found
            ≡ entry_at (look self.now).tree path.now) };

    /// The item at the longest prefix of a path at which something stands, the path itself included.
    fn item_on_way(&self, alloc: Global, path: &Path) -> Result<Option<Found<'_>>, AllocError>
        // Each item stands at its name, and all but the root in a directory.
        ensures rooted { IsRooted (look self.now).owner (look self.now).tree }
        ensures found { IfOk result (λ found. option_map entry_found found
            ≡ entry_on_way (look self.now).tree path.now) };

    /// The item of this name in a directory.
    fn item_in(
        &self,
        alloc: Global,
        dir: &Path,
        name: &str,
    ) -> Result<Option<Found<'_>>, AllocError>
        ensures { IfOk result (λ found. option_map entry_found found
            ≡ entry_at (look self.now).tree (extended dir.now name.now)) };

    /// All items in a directory, in order of paths.
    fn items_in(&self, alloc: Global, dir: &Path) -> Result<Vec<Found<'_>>, AllocError>
        ensures { IfOk result (λ found. map entry_found found.items
            ≡ entries_in (look self.now).tree dir.now) };

    /// Whether a directory has an Access file of its own.
    fn has_access(&self, alloc: Global, dir: &Path) -> Result<bool, AllocError>
        ensures { IfOk result (λ has. has ≡ is_some (access_node (look self.now).tree dir.now)) };

    /// The Access file that governs a path of the tree's owner.
    fn governing(&self, alloc: Global, path: &Path) -> Result<Option<Found<'_>>, AllocError>
        // Each item stands at its name, and all but the root in a directory.
        ensures rooted { IsRooted (look self.now).owner (look self.now).tree }
        ensures found { IfOk result (λ found. option_map entry_found found
            ≡ governing_file (look self.now) path.now) };

    /// The text of the file at a path.
    fn text(&self, alloc: Global, path: &Path) -> Result<Option<Bytes>, AllocError>
        ensures { IfOk result (λ text. text ≡ file_text (node_at (look self.now).tree path.now)) };
}
