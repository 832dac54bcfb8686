//! The Access and Group files that a `can` script has named so far.
ghost use Rattle.std.specs.Prelude.{◌≡◌, OnErr, OnOk};
ghost use Rattle.up_can.specs.CanFiles.{bare_tree, with_text};

use std::alloc::AllocError;
use std::hash::RandomState;
use up_group::GroupText;
use up_names::{Path, User};
use up_policy::{Facts, LoadAnswer, Loaded, MapFacts};

/// All that a script has named: the tree's own files, and the texts of other owners' groups, as if they were loaded.
#[derive(Drop)]
pub struct CanFiles {
    pub tree: MapFacts,
    pub loaded: Loaded,
}

impl CanFiles {
    /// A tree of this owner, without any of these files. It takes no memory. The paths that lines name are hashed with
    /// these keys.
    pub fn new(random: RandomState, owner: User) -> CanFiles
        ensures { result ≡ bare_tree owner }
    {
        let alloc = owner.allocator();
        CanFiles {
            tree: MapFacts::new(alloc, random, owner),
            loaded: Loaded::new(alloc, random),
        }
    }

    /// Sets the text of a group: the tree's own, or that of another owner's group, as if it were loaded. An `Err` changes
    /// nothing.
    pub fn set_text(&mut self, path: Path, text: GroupText) -> Result<(), AllocError>
        ensures set { OnOk result (self.new ≡ with_text self.old path text) }
        ensures unchanged { OnErr result (self.new ≡ self.old) }
    {
        if path.owner() == self.tree.owner() {
            self.tree.set_group(path, text)
        } else {
            self.loaded.set(path, LoadAnswer::Text(text))
        }
    }
}
