//! The tree over a log, as it is or as it was: what rights are read by.
ghost use Rattle.std.specs.Prelude.{◌≡◌, ◌≤◌, length, take};
ghost use Rattle.up_list.specs.Seen.{group_listed};
ghost use Rattle.up_log_tree.specs.Rights.{facts_of, group_paths};
ghost use Rattle.up_log_tree.specs.Trees.{tree_of};

use std::marker::Model;
use up_access::AccessText;
use up_disk::Disk;
use up_group::GroupText;
use up_names::{Path, User};
use up_policy::Facts;
use up_tree::TreeState;

/// A tree over its log as it was after the first records: what rights are read by. It takes no memory and parses nothing.
#[derive(Drop)]
pub struct TreeView<'a, D: Disk> {
    state: &'a TreeState<D>,
    at: u64,
}

impl<'a, D: Disk> Model for TreeView<'a, D> {
    ghost use Rattle.std.specs.Prelude.{◌≤◌, length, take};
    ghost use Rattle.up_list.specs.Seen.{Seen};

    ghost Value = { Seen };

    ghost view = { λ view. record {
      owner = view.state.now.owner;
      records = take view.at view.state.now.log;
    } };

    ghost invariant = { λ view. view.at ≤ length view.state.now.log };
}

impl<'a, D: Disk> TreeView<'a, D> {
    /// The tree as it is.
    #[tactic(auto, using(crate::proofs::ViewLemmas::seen_whole))]
    pub fn new(state: &'a TreeState<D>) -> TreeView<'a, D>
        ensures { result ≡ record { owner = state.now.owner; records = state.now.log } }
    {
        let at = state.position();
        TreeView { state, at }
    }

    /// The tree as it was after the first `n` records.
    pub fn at(state: &'a TreeState<D>, n: u64) -> TreeView<'a, D>
        requires { n ≤ length state.now.log }
        ensures { result ≡ record { owner = state.now.owner; records = take n state.now.log } }
    {
        TreeView { state, at: n }
    }
}

impl<D: Disk> Facts for TreeView<'_, D> {
    ghost tree = { λ seen. facts_of seen.owner (tree_of seen.records) };

    ghost group_paths = { λ seen. group_paths (tree_of seen.records) };

    #[tactic(auto, unfolding(up_log_tree::specs::Rights::facts_of))]
    fn owner(&self) -> &User {
        self.state.owner()
    }

    fn access(&self, dir: &Path) -> Option<&AccessText> {
        self.state.access_at(dir, self.at)
    }

    fn nearest(&self, path: &Path) -> Option<&AccessText> {
        match self.state.nearest_at(path, self.at) {
            Some((_, text)) => Some(text),
            None => None,
        }
    }

    fn group(&self, path: &Path) -> Option<&GroupText> {
        self.state.group_at(path, self.at)
    }

    ghost groups_listed = { group_listed };
}
