//! The groups of other owners that texts name, or have named, each with the records that have made these texts.
ghost use Rattle.std.specs.Prelude.{◌≡◌, ◌≢◌, ◌≤◌, ◌∷◌, ◌<◌, ◌+◌, ◌||◌, ℕ, [], Some, true, not, length, nat_lt, IfOk, MatchOption, OnOk};
ghost use Rattle.std.specs.List.{list_any};
ghost use Rattle.std.specs.FinMap.Entries.{find};
ghost use Rattle.std.specs.Option.{option_and_then, option_copied};
ghost use Rattle.up_names.specs.PathNames.{PathName};
ghost use Rattle.up_names.specs.PathOrder.{path_cmp};
ghost use Rattle.up_policy.specs.Members.{groups_in};
ghost use Rattle.up_policy.specs.Reached.{groups_named};
ghost use Rattle.up_log_tree.specs.Changes.{last_change, path_of_change};
ghost use Rattle.up_mem_tree.specs.Kept.{Stands};
ghost use Rattle.up_mem_tree.specs.Others.{Grows, HasAccessOthers, HasGroupOthers, HasOthers, HasParentOthers, HasStepOthers, HasTextsOthers, Releases, is_foreign, kept_of, named_by, named_then, names_now, was_then};

use crate::changes_below::path_of_change;
use crate::gone::Gone;
use crate::history::Change;
use crate::kept::Kept;
use crate::slots::{Slot, slot_at};
use crate::steps::{Own, ParentStep, Step};
use std::alloc::{AllocError, Global};
use up_access::{AccessText, Rule};
use up_entry::Rec;
use up_group::GroupText;
use up_maps::OrderedMap;
use up_names::{Item, Path, User};

/// The texts that name a group of another owner, or have named it.
#[derive(Drop)]
pub(crate) struct Named {
    /// The positions of the records whose texts name it now; perhaps also that of one that was made ready and never entered, where another
    /// record may stand then.
    pub(crate) by: OrderedMap<u64, ()>,
    /// The texts that were replaced.
    pub(crate) gone: Gone,
    /// The position of the last record that replaced a text which there was no memory to keep, or 0.
    pub(crate) until: u64,
}

/// The groups of other owners that texts name, or have named. A group that is here once stays.
#[derive(Drop)]
pub(crate) struct Others {
    /// Their numbers.
    pub(crate) numbers: OrderedMap<Path, usize>,
    /// What is kept of each, at its number.
    pub(crate) named: Vec<Named>,
}

impl Named {
    /// None. It takes no memory.
    fn new(alloc: Global) -> Named {
        Named {
            by: OrderedMap::new(alloc),
            gone: Gone::new(alloc),
            until: 0,
        }
    }

    /// The text of the record at a position names it. It makes room for the time when each of these texts is replaced.
    fn note(&mut self, position: u64) -> Result<(), AllocError>
        ensures kept { (p : ℕ) → names_now p (Some self.old) ≡ true → names_now p (Some self.new) ≡ true }
        ensures was { (n p : ℕ) → named_then n p (Some self.old) ≡ true → named_then n p (Some self.new) ≡ true }
        ensures noted { OnOk result (names_now position (Some self.new) ≡ true) }
    {
        let texts = self.by.len() as usize;
        self.gone.reserve(texts.saturating_add(1))?;
        self.by.reserve_one()?;
        self.by.put_reserved(position, ());
        Ok(())
    }

    /// Keeps that the text of the record at `gone` was replaced by the record at `position`; where there is no memory for it, that some
    /// text was.
    fn remember(&mut self, gone: u64, position: u64)
        ensures by { self.new.by ≡ self.old.by }
        ensures kept { (n : ℕ) → n < position
            → (nat_lt n self.new.until || list_any (was_then n gone) self.new.gone) ≡ true }
        ensures later { (n : ℕ) → n < position → nat_lt n self.old.until ≡ true
            → nat_lt n self.new.until ≡ true }
        ensures texts { (n p : ℕ) → list_any (was_then n p) self.old.gone ≡ true
            → list_any (was_then n p) self.new.gone ≡ true }
    {
        if !self.gone.push(gone, position) {
            self.until = position;
        }
    }

    /// The text of the record at `gone` is replaced by the record at `position`. It takes no memory.
    fn release(&mut self, gone: u64, position: u64)
        ensures kept { (p : ℕ) → p ≢ gone → names_now p (Some self.old) ≡ true → names_now p (Some self.new) ≡ true }
        ensures was { (n p : ℕ) → n < position → named_then n p (Some self.old) ≡ true → named_then n p (Some self.new) ≡ true }
    {
        if self.by.remove(&gone) {
            self.remember(gone, position);
        }
    }
}

impl Others {
    /// None. It takes no memory.
    pub(crate) fn new(alloc: Global) -> Others {
        Others {
            numbers: OrderedMap::new(alloc),
            named: Vec::new(alloc),
        }
    }

    /// The number of a group, where one is kept.
    fn number(&self, group: &Path) -> Option<usize>
        ensures { MatchOption result ((id : ℕ)
            → find path_cmp group.now self.now.numbers.entries ≡ Some id
            → length self.now.named.items ≤ id)
            (λ id. (find path_cmp group.now self.now.numbers.entries ≡ Some id)
            × (id < length self.now.named.items)) }
    {
        let id = *self.numbers.get(group)?;
        if id < self.named.len() {
            Some(id)
        } else {
            None
        }
    }

    /// What is kept of a group.
    pub(crate) fn kept_of(&self, group: &Path) -> Option<&Named>
        ensures { option_copied result ≡ kept_of self.now group.now }
    {
        let id = *self.numbers.get(group)?;
        self.named.get(id)
    }

    /// The record at a position names the group with that number.
    fn note_at(&mut self, id: usize, position: u64) -> Result<(), AllocError>
        requires { id < length self.old.named.items }
        ensures kept { Grows self.old self.new }
        ensures noted { OnOk result ((group : PathName)
            → find path_cmp group self.old.numbers.entries ≡ Some id
            → names_now position (kept_of self.new group) ≡ true) }
    {
        self.named[id].note(position)
    }

    /// A group gets the next number. An `Err` changes nothing of what is known.
    fn add(&mut self, group: Path) -> Result<usize, AllocError>
        requires { (id : ℕ) → find path_cmp group self.old.numbers.entries ≡ Some id
            → length self.old.named.items ≤ id }
        ensures kept { Grows self.old self.new }
        ensures number { IfOk result (λ id. find path_cmp group self.new.numbers.entries ≡ Some id) }
        ensures within { IfOk result (λ id. id < length self.new.named.items) }
    {
        let id = self.named.len();
        let alloc = *self.named.allocator();
        self.numbers.reserve_one()?;
        self.named.reserve(1)?;
        self.numbers.put_reserved(group, id);
        self.named.push_reserved(Named::new(alloc));
        Ok(id)
    }

    /// The number of a group; the next one, where it has none yet.
    #[tactic(auto, using(crate::proofs::Held::grows_all))]
    fn number_of(&mut self, group: &Path) -> Result<usize, AllocError>
        ensures kept { Grows self.old self.new }
        ensures number { IfOk result (λ id. find path_cmp group.now self.new.numbers.entries ≡ Some id) }
        ensures within { IfOk result (λ id. id < length self.new.named.items) }
    {
        match self.number(group) {
            Some(id) => Ok(id),
            None => {
                let copy = group.clone()?;
                self.add(copy)
            }
        }
    }

    /// The text of the record at `gone`, which names a group, is replaced.
    fn release_group(&mut self, group: &Path, gone: u64, position: u64)
        ensures { Releases (Some gone) position self.old self.new }
    {
        if let Some(id) = self.number(group) {
            self.named[id].release(gone, position);
        }
    }

    /// The same for the group that an item is, where it is one.
    #[tactic(auto, using(crate::proofs::Held::releases_all))]
    fn release_item(&mut self, item: &Item, gone: u64, position: u64)
        ensures { Releases (Some gone) position self.old self.new }
    {
        if let Item::Group(group) = item {
            self.release_group(group, gone, position);
        }
    }

    /// The same for the groups among these items.
    fn release_items(&mut self, items: &[Item], gone: u64, position: u64)
        ensures { Releases (Some gone) position self.old self.new }
    {
        for item in items {
            self.release_item(item, gone, position);
        }
    }

    /// The same for the groups that these rules name.
    fn release_rules(&mut self, rules: &[Rule], gone: u64, position: u64)
        ensures { Releases (Some gone) position self.old self.new }
    {
        for rule in rules {
            self.release_items(rule.items.as_slice(), gone, position);
        }
    }

    /// The same for the texts that a step replaces.
    #[tactic(auto, using(crate::proofs::Held::releases_all, crate::proofs::Held::releases_then))]
    fn release_texts(&mut self, slots: &[Slot], step: &Step, gone: u64, position: u64)
        ensures { Releases (Some gone) position self.old self.new }
    {
        if let Some(text) = replaced_access(slots, step) {
            self.release_rules(text.rules(), gone, position);
        }
        if let Some(text) = replaced_group(slots, step) {
            self.release_items(text.items(), gone, position);
        }
    }

    /// The texts that the step of a record replaces no longer name what they have named. It takes no memory.
    pub(crate) fn release(&mut self, kept: &Kept, rec: &Rec, step: &Option<Step>)
        requires { Stands kept.now }
        ensures { Releases (option_and_then (last_change kept.now.log.items) (path_of_change rec.now))
            (length kept.now.log.items + 1) self.old self.new }
    {
        let Some(step) = step else {
            return;
        };
        if !replaces_text(step) {
            return;
        }
        let position = kept.log.len() as u64 + 1;
        if let Some(gone) = last_of(kept, rec) {
            self.release_texts(kept.slots.as_slice(), step, gone, position);
        }
    }
}

/// Whether a step replaces a text, or makes one.
fn replaces_text(step: &Step) -> bool {
    if step.group.is_some() {
        return true;
    }
    match &step.parent {
        Some(parent) => parent.access.is_some(),
        None => false,
    }
}

/// The position of the last change of the path that a record changes.
fn last_of(kept: &Kept, rec: &Rec) -> Option<u64>
    requires { Stands kept.now }
    ensures { result ≡ option_and_then (last_change kept.now.log.items) (path_of_change rec.now) }
{
    kept.last_change(path_of_change(rec)?)
}

/// The text of an Access file that a step replaces.
fn replaced_access<'a>(slots: &'a [Slot], step: &Step) -> Option<&'a AccessText> {
    let parent = step.parent.as_ref()?;
    parent.access.as_ref()?;
    slot_at(slots, parent.id)?.access.last()?.text.as_ref()
}

/// The text of a Group file that a step replaces.
fn replaced_group<'a>(slots: &'a [Slot], step: &Step) -> Option<&'a GroupText> {
    step.group.as_ref()?;
    match &step.own {
        Own::There(id) => slot_at(slots, *id)?.group.last()?.text.as_ref(),
        Own::New(_) => None,
    }
}

/// Whether a group is another owner's.
fn is_foreign(owner: &User, group: &Path) -> bool
    ensures { result ≡ is_foreign owner.now group.now }
{
    group.owner() != owner
}

/// Adds a group, where it is another owner's, with the position of the record that names it.
#[tactic(auto, using(crate::proofs::Held::grows_all, crate::proofs::Held::grows_then, crate::proofs::Othered::group_own))]
fn add_group(
    owner: &User,
    others: &mut Others,
    position: u64,
    group: &Path,
) -> Result<(), AllocError>
    ensures kept { Grows others.old others.new }
    ensures added { OnOk result
        (HasOthers owner.now (named_by others.new position) (group.now ∷ [])) }
{
    if !is_foreign(owner, group) {
        return Ok(());
    }
    let id = others.number_of(group)?;
    others.note_at(id, position)
}

/// Adds the group that an item is, where it is one.
#[tactic(auto, using(crate::proofs::Held::grows_all, crate::proofs::Othered::none_tested))]
fn add_item(owner: &User, others: &mut Others, position: u64, item: &Item) -> Result<(), AllocError>
    ensures kept { Grows others.old others.new }
    ensures added { OnOk result
        (HasOthers owner.now (named_by others.new position) (groups_in (item.now ∷ []))) }
{
    match item {
        Item::Group(group) => add_group(owner, others, position, group),
        Item::Everyone | Item::Domain(_) | Item::User(_) => Ok(()),
    }
}

/// Adds the groups among these items.
fn add_items(
    owner: &User,
    others: &mut Others,
    position: u64,
    items: &[Item],
) -> Result<(), AllocError>
    ensures kept { Grows others.old others.new }
    ensures added { OnOk result
        (HasOthers owner.now (named_by others.new position) (groups_in items.now)) }
{
    for item in items {
        add_item(owner, others, position, item)?;
    }
    Ok(())
}

/// Adds the groups that these rules name.
fn add_rules(
    owner: &User,
    others: &mut Others,
    position: u64,
    rules: &[Rule],
) -> Result<(), AllocError>
    ensures kept { Grows others.old others.new }
    ensures added { OnOk result
        (HasOthers owner.now (named_by others.new position) (groups_named rules.now)) }
{
    for rule in rules {
        add_items(owner, others, position, rule.items.as_slice())?;
    }
    Ok(())
}

/// Adds those that the new text of an Access file names.
#[tactic(auto, using(crate::proofs::Held::grows_all))]
fn add_access(
    owner: &User,
    others: &mut Others,
    position: u64,
    access: &Option<Change<AccessText>>,
) -> Result<(), AllocError>
    ensures kept { Grows others.old others.new }
    ensures added { OnOk result
        (HasAccessOthers owner.now (named_by others.new position) access.now) }
{
    match access {
        Some(change) => match &change.text {
            Some(text) => add_rules(owner, others, position, text.rules()),
            None => Ok(()),
        },
        None => Ok(()),
    }
}

/// Adds those that the new text of a Group file names.
#[tactic(auto, using(crate::proofs::Held::grows_all))]
fn add_group_text(
    owner: &User,
    others: &mut Others,
    position: u64,
    group: &Option<Change<GroupText>>,
) -> Result<(), AllocError>
    ensures kept { Grows others.old others.new }
    ensures added { OnOk result
        (HasGroupOthers owner.now (named_by others.new position) group.now) }
{
    match group {
        Some(change) => match &change.text {
            Some(text) => add_items(owner, others, position, text.items()),
            None => Ok(()),
        },
        None => Ok(()),
    }
}

/// Adds those of the directory above, where it gets a text.
#[tactic(auto, using(crate::proofs::Held::grows_all))]
fn add_parent(
    owner: &User,
    others: &mut Others,
    position: u64,
    parent: &Option<ParentStep>,
) -> Result<(), AllocError>
    ensures kept { Grows others.old others.new }
    ensures added { OnOk result
        (HasParentOthers owner.now (named_by others.new position) parent.now) }
{
    match parent {
        Some(parent) => add_access(owner, others, position, &parent.access),
        None => Ok(()),
    }
}

/// Adds those that the texts of a step name.
#[tactic(auto, using(crate::proofs::Held::grows_then))]
fn add_texts(
    owner: &User,
    others: &mut Others,
    position: u64,
    step: &Step,
) -> Result<(), AllocError>
    ensures kept { Grows others.old others.new }
    ensures added { OnOk result (HasTextsOthers owner.now (named_by others.new position) step.now) }
{
    add_parent(owner, others, position, &step.parent)?;
    add_group_text(owner, others, position, &step.group)
}

/// Adds the groups of other owners that the texts of a record's step name.
#[tactic(auto, using(crate::proofs::Held::grows_all))]
pub(crate) fn add_step(
    owner: &User,
    others: &mut Others,
    position: u64,
    step: &Option<Step>,
) -> Result<(), AllocError>
    ensures kept { Grows others.old others.new }
    ensures added { OnOk result (HasStepOthers owner.now (named_by others.new position) step.now) }
{
    match step {
        Some(step) => add_texts(owner, others, position, step),
        None => Ok(()),
    }
}
