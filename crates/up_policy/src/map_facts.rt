//! The Access and Group files of a tree, held in memory.
ghost use Rattle.std.specs.Prelude.{◌≡◌, [], is_ok, if◌then◌else◌};
ghost use Rattle.std.specs.Map.{keys_of};
ghost use Rattle.indexmap.specs.IndexMap.{insert_entry};
ghost use Rattle.up_names.specs.PathOrder.{path_eq};
ghost use Rattle.up_policy.specs.Files.{facts_of, group_listed};

use crate::directories::Directories;
use crate::facts::Facts;
use indexmap::IndexMap;
use std::alloc::{AllocError, Global};
use std::hash::RandomState;
use std::marker::Model;
use up_access::AccessText;
use up_group::GroupText;
use up_names::{Path, User};

/// The files of a tree that say who may do what: the Access texts by their directories, and the Group texts by their
/// paths. It keeps the allocator and the hash keys that it was made with. A text is found without a walk over all.
#[derive(Drop)]
pub struct MapFacts {
    owner: User,
    access: Directories,
    groups: IndexMap<Path, GroupText, RandomState>,
}

impl Model for MapFacts {
    ghost use Rattle.up_policy.specs.Files.{Files};

    ghost Value = { Files };

    ghost view = { λ facts. record { owner = facts.owner; access = facts.access; groups = facts.groups.entries } };
}

impl MapFacts {
    /// A tree without a file. It takes no memory.
    pub fn new(alloc: Global, random: RandomState, owner: User) -> MapFacts
        ensures { result ≡ record { owner = owner; access = []; groups = [] } }
    {
        MapFacts {
            owner,
            access: Directories::new(alloc, random),
            groups: IndexMap::with_hasher(alloc, random),
        }
    }

    /// Sets the text of the Access file in a directory. It takes the place of the one that is there. An `Err` changes
    /// nothing.
    pub fn set_access(&mut self, dir: Path, text: AccessText) -> Result<(), AllocError>
        ensures { self.new ≡ (if is_ok result
            then record self.old { access = insert_entry path_eq self.old.access dir text }
            else self.old) }
    {
        self.access.set(dir, text)
    }

    /// Sets the text of the Group file at a path. It takes the place of the one that is there. An `Err` changes nothing.
    pub fn set_group(&mut self, path: Path, text: GroupText) -> Result<(), AllocError>
        ensures { self.new ≡ (if is_ok result
            then record self.old { groups = insert_entry path_eq self.old.groups path text }
            else self.old) }
    {
        self.groups.insert(path, text)?;
        Ok(())
    }
}

impl Facts for MapFacts {
    ghost tree = { facts_of };

    ghost group_paths = { λ files. keys_of files.groups };

    fn owner(&self) -> &User {
        &self.owner
    }

    fn access(&self, dir: &Path) -> Option<&AccessText> {
        self.access.get(dir)
    }

    fn nearest(&self, path: &Path) -> Option<&AccessText> {
        self.access.nearest(path)
    }

    fn group(&self, path: &Path) -> Option<&GroupText> {
        self.groups.get(path)
    }

    ghost groups_listed = { group_listed };
}
