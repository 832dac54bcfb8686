//! What was loaded of the groups of other owners.
ghost use Rattle.std.specs.Prelude.{◌≡◌, [], ◌∷◌, ◌++◌, is_ok, if◌then◌else◌, None, length, slice_get};
ghost use Rattle.std.specs.List.{IsDistinct};
ghost use Rattle.std.specs.Map.{keys_of};
ghost use Rattle.std.specs.Option.{option_copied};
ghost use Rattle.indexmap.specs.IndexMap.{insert_entry};
ghost use Rattle.up_names.specs.PathOrder.{path_eq};
ghost use Rattle.up_policy.specs.Loadings.{answer_for, loaded_text};

use crate::load_answer::LoadAnswer;
use indexmap::IndexMap;
use std::alloc::{AllocError, Global};
use std::hash::RandomState;
use std::marker::Model;
use up_group::GroupText;
use up_names::Path;

/// What was loaded in one call: names of groups, all different, each with the answer of its load, in the order in which
/// they were added. It keeps the allocator and the hash keys that it was made with. An answer is found without a walk over
/// the names.
#[derive(Drop)]
pub struct Loaded {
    answers: IndexMap<Path, LoadAnswer, RandomState>,
}

impl Model for Loaded {
    ghost use Rattle.up_policy.specs.Loadings.{Loading};

    ghost Value = { Loading };

    ghost view = { λ loaded. loaded.answers.entries };
}

impl Loaded {
    /// Nothing loaded. It takes no memory.
    pub fn new(alloc: Global, random: RandomState) -> Loaded
        ensures { result ≡ [] }
    {
        Loaded {
            answers: IndexMap::with_hasher(alloc, random),
        }
    }

    /// The hash keys that it was made with: what is made for the same call takes them too.
    pub fn random(&self) -> RandomState {
        *self.answers.hasher()
    }

    /// The number of names.
    pub fn len(&self) -> u64
        ensures len { result ≡ length self.now }
        // The names differ.
        ensures names { IsDistinct path_eq (keys_of self.now) }
    {
        self.answers.len() as u64
    }

    /// Adds a name that is new, with its answer, at the end. An `Err` changes nothing.
    #[tactic(auto, using(crate::proofs::LoadingLemmas::new_at_end))]
    pub fn add(&mut self, name: Path, answer: LoadAnswer) -> Result<(), AllocError>
        requires { answer_for self.old name ≡ None }
        ensures { self.new ≡ (if is_ok result then self.old ++ (name, answer) ∷ [] else self.old) }
    {
        self.answers.insert(name, answer)?;
        Ok(())
    }

    /// Sets the answer of a name: it takes the place of the one that the name has, or the name is added at the end. An
    /// `Err` changes nothing.
    pub fn set(&mut self, name: Path, answer: LoadAnswer) -> Result<(), AllocError>
        ensures { self.new ≡ (if is_ok result then insert_entry path_eq self.old name answer
            else self.old) }
    {
        self.answers.insert(name, answer)?;
        Ok(())
    }

    /// The answer of a name, or `None` exactly where the name was not added.
    pub fn answer(&self, name: &Path) -> Option<&LoadAnswer>
        ensures { option_copied result ≡ answer_for self.now name.now }
    {
        self.answers.get(name)
    }

    /// The name at place `i`, from 0, or `None` exactly where `i` is at least the length.
    pub fn name(&self, i: u64) -> Option<&Path>
        ensures { option_copied result ≡ slice_get (keys_of self.now) i }
    {
        let (name, _) = self.answers.get_index(i as usize)?;
        Some(name)
    }

    /// The text of a group, where its answer is one.
    pub fn text(&self, group: &Path) -> Option<&GroupText>
        ensures { option_copied result ≡ loaded_text self.now group.now }
    {
        match self.answer(group)? {
            LoadAnswer::Text(text) => Some(text),
            LoadAnswer::Missing | LoadAnswer::BadText(_) | LoadAnswer::Failed => None,
        }
    }
}
