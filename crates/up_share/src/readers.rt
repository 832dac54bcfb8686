//! Who reads at a path.
ghost use Rattle.std.specs.Prelude.{◌≡◌, ◌↔◌, [], true, false, IfOk, IsTrue, OnOk, unwrap_or};
ghost use Rattle.std.specs.FinMap.Entries.{is_sorted};
ghost use Rattle.std.specs.List.{list_any};
ghost use Rattle.std.specs.Map.{keys_of};
ghost use Rattle.std.specs.Option.{option_copied};
ghost use Rattle.up_names.specs.PathOrder.{path_cmp};
ghost use Rattle.up_names.specs.Texts.{UserName};
ghost use Rattle.up_rights.specs.declared.Right.TheVariants as rights;
ghost use Rattle.up_policy.specs.Governors.{first_text, prefixes};
ghost use Rattle.up_policy.specs.Members.{is_user};
ghost use Rattle.up_policy.specs.Reached.{with_path};
ghost use Rattle.up_policy.specs.Trees.{owns_snapshots};
ghost use Rattle.up_policy.specs.Verdicts.{HasRight, right_test};
ghost use Rattle.up_share.specs.Readers.{AreReaders, AreUnread, governing_rules, readers, unread};

use crate::search::{PathSet, all_readers};
use std::alloc::{AllocError, Global};
use up_access::{AccessText, Rule};
use up_lists::Items;
use up_maps::OrderedMap;
use up_names::{Item, Path};
use up_policy::{Facts, Loaded, Names};

/// Who may read at a path, and what of it is not known.
#[derive(Drop)]
pub struct Readers {
    /// Users, domains and everyone: everyone first, then domains, then users, each by their bytes, and none twice.
    pub items: Items<Item>,
    /// The groups of other owners that are met on the way and have no text, in order of paths and none twice.
    pub unread: Names,
}

/// Who may read at a path of a tree that is no snapshot tree, under the texts that were loaded.
///
/// These are the owner; and where a text governs the path, each user, each domain and everyone that stands in a rule of it that
/// holds read, or in the text of a group to which a list of groups leads from there. What a group of another owner would add that
/// has no text is not known; these groups are told beside. It costs the walk to the text, and each group that is met once.
#[tactic(auto, unfolding(up_policy::specs::Governors::governor), using(crate::proofs::LoopLemmas::put_sorted, crate::proofs::ReaderLemmas::are_readers, crate::proofs::ReaderLemmas::are_unread, crate::proofs::ReaderLemmas::reads_where, crate::proofs::ReaderLemmas::holds_where))]
pub fn readers_of<F: Facts>(
    alloc: Global,
    facts: &F,
    loaded: &Loaded,
    path: &Path,
) -> Result<Readers, AllocError>
    requires owner { path.now.owner ≡ (F.tree facts.now).owner }
    requires plain { owns_snapshots (F.tree facts.now).owner ≡ false }

    // All who read there, in their order, and nobody else.
    ensures items { IfOk result (λ readers.
        AreReaders (F.tree facts.now) loaded.now path.now readers.items) }

    // A user has the right to read exactly where the user, the user's domain or everyone is told.
    ensures test { IfOk result (λ readers. (user : UserName)
        → right_test (F.tree facts.now) (F.group_paths facts.now) loaded.now user rights.Read path.now
        ≡ list_any (is_user user) readers.items) }
    ensures meaning { IfOk result (λ readers. (user : UserName)
        → IsTrue (list_any (is_user user) readers.items)
        ↔ HasRight (F.tree facts.now) loaded.now user rights.Read path.now) }

    // All groups of other owners that are met and have no text, in order of paths, and no other.
    ensures unread { IfOk result (λ readers.
        AreUnread (F.tree facts.now) loaded.now path.now readers.unread) }

    // The same as values.
    ensures values { IfOk result (λ told.
        (told.items ≡ readers (F.tree facts.now) (F.group_paths facts.now) loaded.now path.now)
        × (told.unread ≡ unread (F.tree facts.now) (F.group_paths facts.now) loaded.now path.now)) }
{
    let mut unread = OrderedMap::new(alloc);
    let rules = rules_of(facts.nearest(path));
    let items = all_readers(alloc, facts, loaded, rules, &mut unread)?;
    told(alloc, loaded, items, &unread)
}

/// The rules of a text, and none where there is no text.
pub(crate) fn rules_of(text: Option<&AccessText>) -> &[Rule]
    ensures { result.now ≡ unwrap_or (option_copied text.entry) [] }
{
    match text {
        Some(text) => text.rules(),
        None => &[],
    }
}

/// Readers, and the groups that are unread, as they are told.
fn told(
    alloc: Global,
    loaded: &Loaded,
    items: Items<Item>,
    unread: &PathSet,
) -> Result<Readers, AllocError>
    requires { is_sorted path_cmp unread.now.entries ≡ true }
    ensures items { IfOk result (λ told. told.items ≡ items) }
    ensures unread { IfOk result (λ told. told.unread ≡ keys_of unread.now.entries) }
{
    match names_told(alloc, loaded, unread) {
        Ok(unread) => Ok(Readers { items, unread }),
        Err(fault) => {
            drop(items);
            Err(fault)
        }
    }
}

/// Paths in their order.
#[tactic(auto, using(crate::proofs::LoopLemmas::names_step, crate::proofs::LoopLemmas::names_end, crate::proofs::LoopLemmas::names_are))]
fn names_told(alloc: Global, loaded: &Loaded, paths: &PathSet) -> Result<Names, AllocError>
    requires { is_sorted path_cmp paths.now.entries ≡ true }
    ensures { IfOk result (λ names. names ≡ keys_of paths.now.entries) }
{
    let mut names = Names::new(alloc, loaded.random());
    for i in 0..paths.len() {
        let Some(path) = paths.key_at(i) else {
            unreachable!()
        };
        add_copy(&mut names, path)?;
    }
    Ok(names)
}

/// Adds a copy of a path.
fn add_copy(names: &mut Names, path: &Path) -> Result<(), AllocError>
    ensures { OnOk result (names.new ≡ with_path names.old path.now) }
{
    names.add(path.clone()?)
}
