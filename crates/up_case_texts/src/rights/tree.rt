//! The tree that is asked about, what was loaded for it, and which groups it needs.
ghost use Rattle.std.specs.Prelude.{◌≡◌, IfOk};
ghost use Rattle.up_policy.specs.Files.{facts_of};

use std::alloc::{AllocError, Global};
use std::hash::RandomState;
use up_case_lines::{Fault, path_of};
use up_names::{Path, User};
use up_policy::{Facts, LoadAnswer, Loaded, MapFacts, Names, can, needs, rights_of};
use up_rights::{Right, RightSet};

/// All that the lines have named since the one that names the tree.
#[derive(Drop)]
pub struct Tree {
    pub facts: MapFacts,
    pub loaded: Loaded,
    pub needed: Names,
    /// The keys that names are hashed with.
    random: RandomState,
}

impl Tree {
    /// A tree of this owner without a file, with nothing loaded and nothing needed. It takes no memory.
    pub fn new(alloc: Global, random: RandomState, owner: User) -> Tree {
        Tree {
            facts: MapFacts::new(alloc, random, owner),
            loaded: Loaded::new(alloc, random),
            needed: Names::new(alloc, random),
            random,
        }
    }

    /// Forgets which names are needed.
    pub fn forget(&mut self, alloc: Global) {
        self.needed = Names::new(alloc, self.random);
    }

    /// The path that a word names in the tree. A path of another owner does not fit.
    pub fn path(&self, alloc: Global, word: &str) -> Result<Path, Fault>
        ensures { IfOk result (λ path. path.owner ≡ (facts_of self.now.facts).owner) }
    {
        let path = path_of(alloc, word)?;
        if path.owner() != self.facts.owner() {
            return Err(Fault::BadLine);
        }
        Ok(path)
    }

    /// Keeps what a load gave: a new name is added, and one that has an answer gets this one in its place.
    pub fn load(&mut self, name: Path, answer: LoadAnswer) -> Result<(), AllocError> {
        if self.loaded.answer(&name).is_none() {
            self.loaded.add(name, answer)
        } else {
            self.loaded.set(name, answer)
        }
    }

    /// Whether a user has a right on a path of the tree.
    pub fn allows(
        &self,
        alloc: Global,
        user: &User,
        right: Right,
        path: &Path,
    ) -> Result<bool, AllocError>
        requires { path.now.owner ≡ (facts_of self.now.facts).owner }
    {
        can(alloc, &self.facts, &self.loaded, user, right, path)
    }

    /// All rights that a user has on a path of the tree.
    pub fn rights(&self, alloc: Global, user: &User, path: &Path) -> Result<RightSet, AllocError>
        requires { path.now.owner ≡ (facts_of self.now.facts).owner }
    {
        rights_of(alloc, &self.facts, &self.loaded, user, path)
    }

    /// Adds the groups that have to be loaded for a path of the tree, behind what the list has.
    pub fn add_needed(&mut self, alloc: Global, path: &Path) -> Result<(), AllocError>
        requires { path.now.owner ≡ (facts_of self.old.facts).owner }
    {
        let user = self.facts.owner();
        needs(
            alloc,
            &self.facts,
            &self.loaded,
            user,
            path,
            &mut self.needed,
        )
    }
}
