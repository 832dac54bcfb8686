//! Who watches a tree.
ghost use Rattle.std.specs.Prelude.{◌≡◌, ◌≤◌, IfOk, length};
ghost use Rattle.up_list.specs.Looks.{rights};
ghost use Rattle.up_watch.specs.Decided.{Remembers};
ghost use Rattle.up_watch.specs.Watching.{Watching, after, now};

use crate::decided::Decided;
use std::alloc::{AllocError, Global};
use std::marker::Model;
use up_list::MemView;
use up_mem_tree::MemTree;
use up_names::{Path, User};
use up_policy::{Loaded, rights_of};
use up_rights::RightSet;

/// A user before a tree, with what was loaded of the groups of others.
#[derive(Drop)]
pub(crate) struct Reader<'a> {
    tree: &'a MemTree,
    loaded: &'a Loaded,
    user: &'a User,
}

impl<'a> Model for Reader<'a> {
    ghost use Rattle.up_watch.specs.Watching.{Watching};

    ghost Value = { Watching };

    ghost view = { λ reader. record {
      owner = reader.tree.now.owner;
      log = reader.tree.now.log;
      loaded = reader.loaded.now;
      user = reader.user.now;
    } };
}

impl<'a> Reader<'a> {
    /// A user before a tree.
    pub(crate) fn new(tree: &'a MemTree, loaded: &'a Loaded, user: &'a User) -> Reader<'a>
        ensures { result ≡ record {
          owner = tree.now.owner;
          log = tree.now.log;
          loaded = loaded.now;
          user = user.now;
        } }
    {
        Reader { tree, loaded, user }
    }

    /// The tree.
    pub(crate) fn tree(&self) -> &'a MemTree
        ensures owner { result.now.owner ≡ self.now.owner }
        ensures log { result.now.log ≡ self.now.log }
    {
        self.tree
    }

    /// The user's rights on a path in the tree as it was directly after record `n`.
    #[tactic(auto, unfolding(up_list::specs::Looks::rights, up_log_tree::specs::Rights::facts_of))]
    pub(crate) fn rights_after(
        &self,
        alloc: Global,
        path: &Path,
        n: u64,
    ) -> Result<RightSet, AllocError>
        requires owned { path.now.owner ≡ self.now.owner }
        requires within { n ≤ length self.now.log }
        ensures { IfOk result (λ held. held ≡ rights (after self.now n) path.now) }
    {
        rights_of(
            alloc,
            &MemView::at(self.tree, n),
            self.loaded,
            self.user,
            path,
        )
    }
}

/// What was decided so far of a user's rights, in the tree as it is and in the tree as it was.
#[derive(Drop)]
pub(crate) struct Known {
    pub(crate) current: Decided,
    pub(crate) past: Decided,
}

impl Known {
    /// Nothing was decided yet. It takes no memory.
    #[tactic(auto, using(crate::proofs::DecidedLemmas::remembers_none))]
    pub(crate) fn new(alloc: Global) -> Known
        ensures { (watching : Watching) → Remembers watching result }
    {
        Known {
            current: Decided::new(alloc),
            past: Decided::new(alloc),
        }
    }

    /// The user's rights on a path in the tree as it is.
    pub(crate) fn rights_now(
        &mut self,
        alloc: Global,
        reader: &Reader,
        path: &Path,
    ) -> Result<RightSet, AllocError>
        requires owned { path.now.owner ≡ reader.now.owner }
        requires known { Remembers reader.now self.old }
        ensures held { IfOk result (λ held. held ≡ rights (now reader.now) path.now) }
        ensures known { Remembers reader.now self.new }
    {
        let records = reader.tree().position();
        self.current.rights_after(alloc, reader, path, records)
    }

    /// The user's rights on a path in the tree as it was directly after record `n`.
    pub(crate) fn rights_after(
        &mut self,
        alloc: Global,
        reader: &Reader,
        path: &Path,
        n: u64,
    ) -> Result<RightSet, AllocError>
        requires owned { path.now.owner ≡ reader.now.owner }
        requires within { n ≤ length reader.now.log }
        requires known { Remembers reader.now self.old }
        ensures held { IfOk result (λ held. held ≡ rights (after reader.now n) path.now) }
        ensures known { Remembers reader.now self.new }
    {
        self.past.rights_after(alloc, reader, path, n)
    }
}
