//! The groups that a search has met.
ghost use Rattle.std.specs.Prelude.{◌≡◌, ◌<◌, ◌^◌, [], IfOk, OnOk, OnSome, false, slice_get};
ghost use Rattle.std.specs.List.{list_any};
ghost use Rattle.std.specs.Option.{option_copied};
ghost use Rattle.up_names.specs.UserNames.{domain_part};
ghost use Rattle.up_policy.specs.Members.{groups_in, is_user};
ghost use Rattle.up_policy.specs.Reached.{groups_named, with_path, with_paths};
ghost use Rattle.up_policy.specs.Verdicts.{items_by, items_for};

use crate::members::is_user;
use indexmap::IndexSet;
use std::alloc::{AllocError, Global};
use std::hash::RandomState;
use std::marker::Model;
use up_access::Rule;
use up_names::{Item, Path, User};
use up_rights::Right;

/// The groups that a search has met, in order of first mention, without repeats. They stay where they are named, and
/// one that was met is found without a walk over all.
#[derive(Drop)]
pub(crate) struct Met<'a> {
    groups: IndexSet<&'a Path, RandomState>,
}

impl<'a> Model for Met<'a> {
    ghost use Rattle.std.specs.Prelude.{List, map};
    ghost use Rattle.up_names.specs.PathNames.{PathName};

    ghost Value = { List PathName };

    ghost view = { λ met. map (λ group. group.now) met.groups.keys };
}

impl<'a> Met<'a> {
    /// No group. It takes no memory.
    pub(crate) fn new(alloc: Global, random: RandomState) -> Met<'a>
        ensures { result ≡ [] }
    {
        Met {
            groups: IndexSet::with_hasher(alloc, random),
        }
    }

    /// The group that was met as number `i`, from 0.
    pub(crate) fn get(&self, i: usize) -> Option<&'a Path>
        ensures group { option_copied result ≡ slice_get self.now i }
        ensures few { OnSome result (i < 2 ^ 63) }
    {
        if i >= self.groups.len() {
            return None;
        }
        self.groups.get_index(i).copied()
    }

    /// Adds a group, where it was not met yet.
    fn add(&mut self, group: &'a Path) -> Result<(), AllocError>
        ensures { OnOk result (self.new ≡ with_path self.old group.now) }
    {
        self.groups.insert(group)?;
        Ok(())
    }

    /// Adds the groups among these items, in order.
    pub(crate) fn add_groups(&mut self, items: &'a [Item]) -> Result<(), AllocError>
        ensures { OnOk result (self.new ≡ with_paths self.old (groups_in items.now)) }
    {
        for item in items {
            if let Item::Group(group) = item {
                self.add(group)?;
            }
        }
        Ok(())
    }

    /// Looks through the items of a group once: whether one is the user, the user's domain or everyone; and where none is,
    /// adds the groups among them, in order.
    pub(crate) fn look(
        &mut self,
        items: &'a [Item],
        user: &User,
        domain: &str,
    ) -> Result<bool, AllocError>
        requires { domain.now ≡ domain_part user.now }
        ensures found { IfOk result (λ found. found ≡ list_any (is_user user.now) items.now) }
        ensures added { IfOk result
            (λ found. found ≡ false → self.new ≡ with_paths self.old (groups_in items.now)) }
    {
        for item in items {
            if is_user(item, user, domain) {
                return Ok(true);
            }
            if let Item::Group(named) = item {
                self.add(named)?;
            }
        }
        Ok(false)
    }

    /// Adds the groups among the items of the rules that hold a right, in order.
    pub(crate) fn add_granted(&mut self, rules: &'a [Rule], right: Right) -> Result<(), AllocError>
        ensures { OnOk result (self.new
            ≡ with_paths self.old (groups_in (items_for right rules.now))) }
    {
        for rule in rules {
            self.add_granted_by(rule, right)?;
        }
        Ok(())
    }

    /// Adds the groups among the items of a rule, in order, where it holds the right.
    fn add_granted_by(&mut self, rule: &'a Rule, right: Right) -> Result<(), AllocError>
        ensures { OnOk result (self.new
            ≡ with_paths self.old (groups_in (items_by right rule.now))) }
    {
        if rule.rights.has(right) {
            self.add_groups(rule.items.as_slice())?;
        }
        Ok(())
    }

    /// Adds the groups among the items of all rules, in order.
    pub(crate) fn add_named(&mut self, rules: &'a [Rule]) -> Result<(), AllocError>
        ensures { OnOk result (self.new ≡ with_paths self.old (groups_named rules.now)) }
    {
        for rule in rules {
            self.add_groups(rule.items.as_slice())?;
        }
        Ok(())
    }
}
