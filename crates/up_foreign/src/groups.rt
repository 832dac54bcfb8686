//! The groups that a search has met.
ghost use Rattle.std.specs.Prelude.{◌≡◌, ◌<◌, ◌^◌, [], OnOk, OnSome, length, slice_get, take};
ghost use Rattle.std.specs.Option.{option_copied};
ghost use Rattle.up_policy.specs.Members.{groups_in};
ghost use Rattle.up_policy.specs.Reached.{groups_named, with_path, with_paths};

use indexmap::IndexSet;
use std::alloc::{AllocError, Global};
use std::hash::RandomState;
use std::marker::Model;
use up_access::Rule;
use up_names::{Item, Path};

/// The groups that a search has met, in order of first mention, without repeats. They are copies, since the text that named one may be
/// gone when the search goes on; and one that was met is found without a walk over all.
#[derive(Drop)]
pub(crate) struct Groups {
    groups: IndexSet<Path, RandomState>,
}

impl Model for Groups {
    ghost use Rattle.std.specs.Prelude.{List};
    ghost use Rattle.up_names.specs.PathNames.{PathName};

    ghost Value = { List PathName };

    ghost view = { λ groups. groups.groups.keys };
}

impl Groups {
    /// No group. It takes no memory.
    pub(crate) fn new(alloc: Global, random: RandomState) -> Groups
        ensures { result ≡ [] }
    {
        Groups {
            groups: IndexSet::with_hasher(alloc, random),
        }
    }

    /// The number of groups.
    pub(crate) fn len(&self) -> usize
        ensures { result ≡ length self.now }
    {
        self.groups.len()
    }

    /// The group that was met as number `i`, from 0.
    pub(crate) fn get(&self, i: usize) -> Option<&Path>
        ensures group { option_copied result ≡ slice_get self.now i }
        ensures few { OnSome result (i < 2 ^ 63) }
    {
        if i >= self.groups.len() {
            return None;
        }
        self.groups.get_index(i)
    }

    /// Lets all but the first `len` go.
    pub(crate) fn truncate(&mut self, len: usize)
        ensures { self.new ≡ take len self.old }
    {
        self.groups.truncate(len);
    }

    /// Adds a group, where it was not met yet.
    fn add(&mut self, group: &Path) -> Result<(), AllocError>
        ensures { OnOk result (self.new ≡ with_path self.old group.now) }
    {
        self.groups.insert(group.clone()?)?;
        Ok(())
    }

    /// Adds the groups among these items, in order.
    pub(crate) fn add_groups(&mut self, items: &[Item]) -> Result<(), AllocError>
        ensures { OnOk result (self.new ≡ with_paths self.old (groups_in items.now)) }
    {
        for item in items {
            if let Item::Group(group) = item {
                self.add(group)?;
            }
        }
        Ok(())
    }

    /// Adds the groups among the items of all rules, in order.
    pub(crate) fn add_named(&mut self, rules: &[Rule]) -> Result<(), AllocError>
        ensures { OnOk result (self.new ≡ with_paths self.old (groups_named rules.now)) }
    {
        for rule in rules {
            self.add_groups(rule.items.as_slice())?;
        }
        Ok(())
    }
}
