//! What was found by the texts of a tree, and is not searched again.
ghost use Rattle.std.specs.Prelude.{◌≡◌, ◌++◌, [], codes, IfOk, OnOk, IsSome};
ghost use Rattle.std.specs.FinMap.Entries.{find, put};
ghost use Rattle.std.specs.List.{flat_map};
ghost use Rattle.std.specs.Map.{keys_of};
ghost use Rattle.up_access.specs.Printing.{item_text};
ghost use Rattle.up_names.specs.PathOrder.{path_cmp};
ghost use Rattle.up_log_tree.specs.Trees.{tree_of};
ghost use Rattle.up_share.specs.Known.{AreKnown, HasSearched, rules_in, word_by};
ghost use Rattle.up_share.specs.Report.{items_text, unread_line};
ghost use Rattle.up_text.specs.Words.{coded};

use crate::readers::rules_of;
use crate::search::{PathSet, all_readers};
use std::alloc::{AllocError, Global};
use std::hash::RandomState;
use up_access::Rule;
use up_bytes::Bytes;
use up_disk::Disk;
use up_list::TreeView;
use up_maps::OrderedMap;
use up_names::{Item, Path};
use up_policy::Loaded;
use up_text::{push_word, write_word};
use up_tree::TreeState;

/// Who reads by each text that was searched, and the groups that are unread so far. No text is searched twice.
#[derive(Drop)]
pub(crate) struct Known {
    /// Nothing.
    pub(crate) loaded: Loaded,
    /// The words of those who read, by the directories of the texts.
    pub(crate) words: OrderedMap<Path, Bytes>,
    pub(crate) unread: PathSet,
}

impl Known {
    /// Nothing was searched. It takes no memory.
    pub(crate) fn new(alloc: Global, random: RandomState) -> Known
        ensures loaded { result.loaded ≡ [] }
        ensures words { result.words.entries ≡ [] }
        ensures unread { result.unread.entries ≡ [] }
    {
        Known {
            loaded: Loaded::new(alloc, random),
            words: OrderedMap::new(alloc),
            unread: OrderedMap::new(alloc),
        }
    }

    /// The word of those who read by these rules. The groups that are unread by them are added.
    #[tactic(auto, using(crate::proofs::KnownLemmas::after_search, crate::proofs::KnownLemmas::word_is))]
    pub(crate) fn search<D: Disk>(
        &mut self,
        alloc: Global,
        state: &TreeState<D>,
        rules: &[Rule],
    ) -> Result<Bytes, AllocError>
        requires { AreKnown state.now.owner (tree_of state.now.log) self.old }
        ensures word { IfOk result (λ word. word
            ≡ word_by state.now.owner (tree_of state.now.log) rules.now) }
        ensures searched { OnOk result (HasSearched state.now.owner (tree_of state.now.log) rules.now
            self.old self.new) }
        ensures words { self.new.words.entries ≡ self.old.words.entries }
        ensures loaded { self.new.loaded ≡ self.old.loaded }
    {
        let view = TreeView::new(state);
        let items = all_readers(alloc, &view, &self.loaded, rules, &mut self.unread)?;
        items_word(alloc, items.as_slice())
    }

    /// Searches the text in a directory, where it was not searched yet.
    #[tactic(auto, using(crate::proofs::KnownLemmas::known_already, crate::proofs::KnownLemmas::known_now, crate::proofs::KnownLemmas::there_now))]
    pub(crate) fn learn<D: Disk>(
        &mut self,
        alloc: Global,
        state: &TreeState<D>,
        dir: &Path,
    ) -> Result<(), AllocError>
        requires { AreKnown state.now.owner (tree_of state.now.log) self.old }
        ensures there { OnOk result (IsSome (find path_cmp dir.now self.new.words.entries)) }
        ensures searched { OnOk result (HasSearched state.now.owner (tree_of state.now.log)
            (rules_in state.now.owner (tree_of state.now.log) dir.now) self.old self.new) }
    {
        if self.words.get(dir).is_some() {
            return Ok(());
        }
        let rules = rules_of(state.access(dir));
        let word = self.search(alloc, state, rules)?;
        self.keep(dir, word)
    }

    /// Keeps the word of those who read by the text in a directory.
    fn keep(&mut self, dir: &Path, word: Bytes) -> Result<(), AllocError>
        ensures words { OnOk result
            (self.new.words.entries ≡ put path_cmp dir.now word self.old.words.entries) }
        ensures loaded { self.new.loaded ≡ self.old.loaded }
        ensures unread { self.new.unread.entries ≡ self.old.unread.entries }
    {
        self.words.reserve_one()?;
        let dir = dir.clone()?;
        self.words.put_reserved(dir, word);
        Ok(())
    }

    /// Adds the lines of the groups that are unread.
    #[tactic(auto, using(crate::proofs::KnownLemmas::lines_step, crate::proofs::KnownLemmas::lines_end))]
    pub(crate) fn add_unread(&self, text: &mut Vec<u8>) -> Result<(), AllocError>
        ensures { OnOk result (text.new.items
            ≡ text.old.items ++ flat_map unread_line (keys_of self.now.unread.entries)) }
    {
        for i in 0..self.unread.len() {
            let Some(group) = self.unread.key_at(i) else {
                unreachable!()
            };
            add_unread_line(text, group)?;
        }
        Ok(())
    }
}

/// Adds the line of a group that is unread.
#[tactic(auto, unfolding(crate::specs::Report::unread_line))]
fn add_unread_line(text: &mut Vec<u8>, group: &Path) -> Result<(), AllocError>
    ensures { OnOk result (text.new.items ≡ text.old.items ++ unread_line group.now) }
{
    text.extend_from_slice(b"unread ")?;
    push_word(text, group.as_str().as_bytes())?;
    text.push(b'\n')?;
    Ok(())
}

/// Readers as a word.
fn items_word(alloc: Global, items: &[Item]) -> Result<Bytes, AllocError>
    ensures { IfOk result (λ word. word ≡ coded (items_text items.now)) }
{
    let mut text = Vec::new(alloc);
    push_items(&mut text, items)?;
    write_word(alloc, &text)
}

/// Adds readers, joined by commas.
#[tactic(auto, unfolding(crate::specs::Report::items_text))]
fn push_items(out: &mut Vec<u8>, items: &[Item]) -> Result<(), AllocError>
    ensures { OnOk result (out.new.items ≡ out.old.items ++ items_text items.now) }
{
    let Some((first, rest)) = items.split_first() else {
        return Ok(());
    };
    push_item(out, first)?;
    push_further_items(out, rest)
}

fn push_further_items(out: &mut Vec<u8>, items: &[Item]) -> Result<(), AllocError>
    ensures { OnOk result (out.new.items ≡ out.old.items
        ++ flat_map (λ item. codes "," ++ item_text item) items.now) }
{
    for item in items {
        out.push(b',')?;
        push_item(out, item)?;
    }
    Ok(())
}

fn push_item(out: &mut Vec<u8>, item: &Item) -> Result<(), AllocError>
    ensures { OnOk result (out.new.items ≡ out.old.items ++ item_text item.now) }
{
    match item {
        Item::Everyone => out.extend_from_slice(b"all"),
        Item::Domain(domain) => {
            out.extend_from_slice(b"*@")?;
            out.extend_from_slice(domain.text().as_bytes())
        }
        Item::User(user) => out.extend_from_slice(user.text().as_bytes()),
        Item::Group(path) => out.extend_from_slice(path.as_str().as_bytes()),
    }
}
