//! The search from the rules of a text to all who read by them.
ghost use Rattle.std.specs.Prelude.{◌≡◌, ◌++◌, ◌∷◌, [], IfOk, OnOk, filter, if◌then◌else◌};
ghost use Rattle.std.specs.List.{flat_map};
ghost use Rattle.std.specs.Map.{keys_of};
ghost use Rattle.std.specs.Option.{option_copied};
ghost use Rattle.up_names.specs.PathOrder.{path_cmp};
ghost use Rattle.up_rights.specs.declared.Right.TheVariants as rights;
ghost use Rattle.up_policy.specs.Members.{groups_in, items_in, text_of};
ghost use Rattle.up_policy.specs.Reached.{after_look, with_path, with_paths};
ghost use Rattle.up_policy.specs.Verdicts.{items_by, items_for};
ghost use Rattle.up_share.specs.Orders.{item_cmp, with_key, with_keys};
ghost use Rattle.up_share.specs.Readers.{is_plain, lacking, lacks_text, met_groups, readers_by};

use crate::ranked::Ranked;
use std::alloc::{AllocError, Global};
use up_access::Rule;
use up_group::GroupText;
use up_lists::Items;
use up_maps::OrderedMap;
use up_names::{Item, Path};
use up_policy::{Facts, Loaded, Names};
use up_rights::Right;

/// Readers, in their order and each once.
pub(crate) type ReaderSet = OrderedMap<Ranked, ()>;

/// Paths, in order and each once.
pub(crate) type PathSet = OrderedMap<Path, ()>;

/// Adds to no readers all who read by the rules of a text, and to paths the groups that are unread on the way. Each group is
/// met once, however many rules and groups name it.
#[tactic(auto, using(crate::proofs::LoopLemmas::gathered, crate::proofs::LoopLemmas::gathered_unread))]
pub(crate) fn gather<F: Facts>(
    alloc: Global,
    facts: &F,
    loaded: &Loaded,
    rules: &[Rule],
    readers: &mut ReaderSet,
    unread: &mut PathSet,
) -> Result<(), AllocError>
    requires { readers.old.entries ≡ [] }
    ensures readers { OnOk result (keys_of readers.new.entries
        ≡ readers_by (F.tree facts.now) (F.group_paths facts.now) loaded.now rules.now) }
    ensures unread { OnOk result (unread.new.entries
        ≡ with_keys path_cmp unread.old.entries
        (lacking (F.tree facts.now) (F.group_paths facts.now) loaded.now rules.now)) }
{
    let met = meet(alloc, facts, loaded, rules)?;
    add_reader(readers, Item::User(facts.owner().clone()?))?;
    add_granted(readers, rules)?;
    add_members(facts, loaded, &met, readers)?;
    add_unread(facts, loaded, &met, unread)
}

/// All who read by the rules of a text, in their order. The groups that are unread on the way are added to paths.
pub(crate) fn all_readers<F: Facts>(
    alloc: Global,
    facts: &F,
    loaded: &Loaded,
    rules: &[Rule],
    unread: &mut PathSet,
) -> Result<Items<Item>, AllocError>
    ensures items { IfOk result (λ items. items
        ≡ readers_by (F.tree facts.now) (F.group_paths facts.now) loaded.now rules.now) }
    ensures unread { OnOk result (unread.new.entries
        ≡ with_keys path_cmp unread.old.entries
        (lacking (F.tree facts.now) (F.group_paths facts.now) loaded.now rules.now)) }
{
    let mut readers = OrderedMap::new(alloc);
    gather(alloc, facts, loaded, rules, &mut readers, unread)?;
    items_told(alloc, &readers)
}

/// The groups that are met from the rules of a text.
fn meet<F: Facts>(
    alloc: Global,
    facts: &F,
    loaded: &Loaded,
    rules: &[Rule],
) -> Result<Names, AllocError>
    ensures { IfOk result (λ met. met
        ≡ met_groups (F.tree facts.now) (F.group_paths facts.now) loaded.now rules.now) }
{
    let mut met = Names::new(alloc, loaded.random());
    meet_granted(&mut met, rules)?;
    let mut next = 0;
    while next < met.len() {
        meet_named(facts, loaded, &mut met, next)?;
        next += 1;
    }
    Ok(met)
}

/// Adds the groups that the text of the group at a place names.
fn meet_named<F: Facts>(
    facts: &F,
    loaded: &Loaded,
    met: &mut Names,
    place: u64,
) -> Result<(), AllocError>
    ensures { OnOk result
        (met.new ≡ after_look (text_of (F.tree facts.now) loaded.now) place met.old) }
{
    let Some(group) = met.get(place) else {
        return Ok(());
    };
    let items = items_in(facts, loaded, group);
    meet_groups(met, items)
}

/// Adds the groups among the items of the rules that hold read.
#[tactic(auto, using(crate::proofs::LoopLemmas::starts_step, crate::proofs::LoopLemmas::starts_end))]
fn meet_granted(met: &mut Names, rules: &[Rule]) -> Result<(), AllocError>
    ensures { OnOk result (met.new ≡ with_paths met.old (groups_in (items_for rights.Read rules.now))) }
{
    for rule in rules {
        meet_granted_by(met, rule)?;
    }
    Ok(())
}

/// Adds the groups among the items of a rule, where it holds read.
fn meet_granted_by(met: &mut Names, rule: &Rule) -> Result<(), AllocError>
    ensures { OnOk result (met.new ≡ with_paths met.old (groups_in (items_by rights.Read rule.now))) }
{
    if rule.rights.has(Right::Read) {
        meet_groups(met, rule.items.as_slice())?;
    }
    Ok(())
}

/// Adds the groups among these items, each where it was not met yet.
fn meet_groups(met: &mut Names, items: &[Item]) -> Result<(), AllocError>
    ensures { OnOk result (met.new ≡ with_paths met.old (groups_in items.now)) }
{
    for item in items {
        if let Item::Group(group) = item {
            meet_group(met, group)?;
        }
    }
    Ok(())
}

/// Adds a group, where it was not met yet.
fn meet_group(met: &mut Names, group: &Path) -> Result<(), AllocError>
    ensures { OnOk result (met.new ≡ with_path met.old group.now) }
{
    met.add(group.clone()?)
}

/// Adds the users, the domains and everyone among the items of the rules that hold read.
#[tactic(auto, using(crate::proofs::LoopLemmas::granted_step, crate::proofs::LoopLemmas::granted_end))]
fn add_granted(readers: &mut ReaderSet, rules: &[Rule]) -> Result<(), AllocError>
    ensures { OnOk result (readers.new.entries
        ≡ with_keys item_cmp readers.old.entries (filter is_plain (items_for rights.Read rules.now))) }
{
    for rule in rules {
        add_granted_by(readers, rule)?;
    }
    Ok(())
}

/// Adds those among the items of a rule, where it holds read.
fn add_granted_by(readers: &mut ReaderSet, rule: &Rule) -> Result<(), AllocError>
    ensures { OnOk result (readers.new.entries
        ≡ with_keys item_cmp readers.old.entries (filter is_plain (items_by rights.Read rule.now))) }
{
    if !rule.rights.has(Right::Read) {
        return Ok(());
    }
    add_plain(readers, rule.items.as_slice())
}

/// Adds those among the items of the texts of groups.
#[tactic(auto, using(crate::proofs::LoopLemmas::members_step, crate::proofs::LoopLemmas::members_end))]
fn add_members<F: Facts>(
    facts: &F,
    loaded: &Loaded,
    met: &Names,
    readers: &mut ReaderSet,
) -> Result<(), AllocError>
    ensures { OnOk result (readers.new.entries ≡ with_keys item_cmp readers.old.entries
        (filter is_plain (flat_map (items_in (text_of (F.tree facts.now) loaded.now)) met.now))) }
{
    for i in 0..met.len() {
        let Some(group) = met.get(i) else {
            unreachable!()
        };
        add_plain(readers, items_in(facts, loaded, group))?;
    }
    Ok(())
}

/// Adds those among these items.
#[tactic(auto, using(crate::proofs::LoopLemmas::plain_step, crate::proofs::LoopLemmas::plain_end))]
fn add_plain(readers: &mut ReaderSet, items: &[Item]) -> Result<(), AllocError>
    ensures { OnOk result (readers.new.entries
        ≡ with_keys item_cmp readers.old.entries (filter is_plain items.now)) }
{
    for item in items {
        add_item(readers, item)?;
    }
    Ok(())
}

/// Adds an item that is no group.
fn add_item(readers: &mut ReaderSet, item: &Item) -> Result<(), AllocError>
    ensures { OnOk result (readers.new.entries
        ≡ (if is_plain item.now then with_key item_cmp readers.old.entries item.now
        else readers.old.entries)) }
{
    match item {
        Item::Everyone => add_reader(readers, Item::Everyone),
        Item::Domain(domain) => add_reader(readers, Item::Domain(domain.clone()?)),
        Item::User(user) => add_reader(readers, Item::User(user.clone()?)),
        Item::Group(_) => Ok(()),
    }
}

/// Adds a reader, where it is not there yet.
fn add_reader(readers: &mut ReaderSet, item: Item) -> Result<(), AllocError>
    ensures { OnOk result (readers.new.entries ≡ with_key item_cmp readers.old.entries item) }
{
    readers.reserve_one()?;
    readers.put_reserved(Ranked { item }, ());
    Ok(())
}

/// Adds to paths those groups that are unread.
#[tactic(auto, using(crate::proofs::LoopLemmas::those_step, crate::proofs::LoopLemmas::those_end))]
fn add_unread<F: Facts>(
    facts: &F,
    loaded: &Loaded,
    met: &Names,
    unread: &mut PathSet,
) -> Result<(), AllocError>
    ensures { OnOk result (unread.new.entries ≡ with_keys path_cmp unread.old.entries
        (filter (lacks_text (F.tree facts.now) loaded.now) met.now)) }
{
    for i in 0..met.len() {
        let Some(group) = met.get(i) else {
            unreachable!()
        };
        add_lacking(facts, loaded, group, unread)?;
    }
    Ok(())
}

/// Adds to paths a group, where it is unread.
fn add_lacking<F: Facts>(
    facts: &F,
    loaded: &Loaded,
    group: &Path,
    unread: &mut PathSet,
) -> Result<(), AllocError>
    ensures { OnOk result (unread.new.entries
        ≡ (if lacks_text (F.tree facts.now) loaded.now group.now
        then with_key path_cmp unread.old.entries group.now
        else unread.old.entries)) }
{
    if lacks_text(facts, loaded, group) {
        add_path(unread, group)?;
    }
    Ok(())
}

/// Adds a path, where it is not there yet.
pub(crate) fn add_path(paths: &mut PathSet, path: &Path) -> Result<(), AllocError>
    ensures { OnOk result (paths.new.entries ≡ with_key path_cmp paths.old.entries path.now) }
{
    paths.reserve_one()?;
    paths.put_reserved(path.clone()?, ());
    Ok(())
}

/// Whether a group is another owner's and has no text.
fn lacks_text<F: Facts>(facts: &F, loaded: &Loaded, group: &Path) -> bool
    ensures { result ≡ lacks_text (F.tree facts.now) loaded.now group.now }
{
    group.owner() != facts.owner() && text_of(facts, loaded, group).is_none()
}

/// The items of the text of a group; none where it has no text.
fn items_in<'a, F: Facts>(facts: &'a F, loaded: &'a Loaded, group: &Path) -> &'a [Item]
    ensures { result.now ≡ items_in (text_of (F.tree facts.now) loaded.now) group.now }
{
    match text_of(facts, loaded, group) {
        Some(text) => text.items(),
        None => &[],
    }
}

/// The text of a group: the tree's own for a group of the tree's owner, and for any other the text that was loaded.
fn text_of<'a, F: Facts>(facts: &'a F, loaded: &'a Loaded, group: &Path) -> Option<&'a GroupText>
    ensures { option_copied result ≡ text_of (F.tree facts.now) loaded.now group.now }
{
    if group.owner() == facts.owner() {
        facts.group(group)
    } else {
        loaded.text(group)
    }
}

/// Readers in their order.
#[tactic(auto, using(crate::proofs::LoopLemmas::copies_step, crate::proofs::LoopLemmas::copies_end))]
fn items_told(alloc: Global, readers: &ReaderSet) -> Result<Items<Item>, AllocError>
    ensures { IfOk result (λ items. items ≡ keys_of readers.now.entries) }
{
    let mut items = Items::new(alloc);
    for i in 0..readers.len() {
        let Some(reader) = readers.key_at(i) else {
            unreachable!()
        };
        push_copy(&mut items, &reader.item)?;
    }
    Ok(items)
}

/// Adds a copy of a reader at the end.
fn push_copy(items: &mut Items<Item>, item: &Item) -> Result<(), AllocError>
    ensures { OnOk result (items.new ≡ items.old ++ item.now ∷ []) }
{
    items.push(copy_of_item(item)?)?;
    Ok(())
}

/// A copy of an item.
fn copy_of_item(item: &Item) -> Result<Item, AllocError>
    ensures { IfOk result (λ copy. copy ≡ item.now) }
{
    Ok(match item {
        Item::Everyone => Item::Everyone,
        Item::Domain(domain) => Item::Domain(domain.clone()?),
        Item::User(user) => Item::User(user.clone()?),
        Item::Group(group) => Item::Group(group.clone()?),
    })
}
