//! What was fetched, kept so that the answer of a block is found without a walk over all of it.
ghost use Rattle.std.specs.Prelude.{◌≡◌, [], IfOk, OnOk, refl};
ghost use Rattle.std.specs.Cmp.Lexicographic.{slice_cmp};
ghost use Rattle.std.specs.Option.{option_copied};
ghost use Rattle.std.specs.Ordering.{as_partial_cmp, eq_by_cmp, nat_cmp};
ghost use Rattle.up_answers.specs.Fetching.{fetch_for};
ghost use Rattle.up_edits.specs.PlaceLaws.{location_equivalence, location_partial, location_partial_order, location_total};
ghost use Rattle.up_edits.specs.Places.{AreFirst, NotesOne, location_cmp, rank};

use std::alloc::{AllocError, Global};
use std::cmp::Ordering;
use std::collections::BTreeMap;
use std::marker::Model;
use up_entry::{Block, Endpoint, Fetch, Location};

/// A location that is looked up.
#[derive(Drop)]
pub(crate) struct Key<'a>(pub(crate) &'a Location);

impl<'a> Model for Key<'a> {
    ghost use Rattle.up_entry.specs.declared.entries.Location.{Location};

    ghost Value = { Location };

    ghost view = { λ key. key.0.now };
}

impl<'a> PartialEq for Key<'a> {
    ghost eq = { eq_by_cmp location_cmp };

    ghost laws = { location_partial };

    fn eq(&self, other: &Key<'a>) -> bool {
        self.cmp(other) == Ordering::Equal
    }
}

impl<'a> Eq for Key<'a> {
    ghost laws = { location_equivalence };
}

impl<'a> PartialOrd for Key<'a> {
    ghost partial_cmp = { as_partial_cmp location_cmp };

    ghost laws = { location_partial_order };

    fn partial_cmp(&self, other: &Key<'a>) -> Option<Ordering> {
        Some(self.cmp(other))
    }
}

/// By the reference, and then by the endpoint.
impl<'a> Ord for Key<'a> {
    ghost cmp = { location_cmp };

    ghost total = { location_total };

    ghost matches_partial_cmp = { λ _ _. refl };

    ghost matches_eq = { λ _ _. refl };

    fn cmp(&self, other: &Key<'a>) -> Ordering {
        let endpoints = compared(&self.0.endpoint, &other.0.endpoint);
        self.0.reference.cmp(&other.0.reference).then(endpoints)
    }
}

/// The order of two endpoints: the host's own store comes before every address.
fn compared(one: &Endpoint, two: &Endpoint) -> Ordering
    ensures { result ≡ slice_cmp nat_cmp (rank one.now) (rank two.now) }
{
    match (one, two) {
        (Endpoint::Local, Endpoint::Local) => Ordering::Equal,
        (Endpoint::Local, Endpoint::Address(_)) => Ordering::Less,
        (Endpoint::Address(_), Endpoint::Local) => Ordering::Greater,
        (Endpoint::Address(here), Endpoint::Address(there)) => {
            here.as_slice().cmp(there.as_slice())
        }
    }
}

/// What was fetched, seen as the list of it.
#[derive(Drop)]
pub(crate) struct Index<'a> {
    /// What contracts see; it is not read.
    fetched: &'a [(Location, Fetch)],
    /// The first answer of each location.
    answers: BTreeMap<Key<'a>, &'a Fetch>,
}

impl<'a> Model for Index<'a> {
    ghost use Rattle.std.specs.Prelude.{[]};
    ghost use Rattle.up_answers.specs.Fetching.{Fetched};
    ghost use Rattle.up_edits.specs.Places.{AreFirst};

    ghost Value = { Fetched };

    ghost view = { λ index. index.fetched.now };

    ghost invariant = { λ index. AreFirst index.answers.entries [] index.fetched.now };
}

impl<'a> Index<'a> {
    /// An index of what was fetched.
    pub(crate) fn new(
        alloc: Global,
        fetched: &'a [(Location, Fetch)],
    ) -> Result<Index<'a>, AllocError>
        ensures { IfOk result (λ index. index ≡ fetched.now) }
    {
        let answers = first_answers(alloc, fetched)?;
        Ok(Index { fetched, answers })
    }

    /// The answer for a block: that of its location.
    #[tactic(auto, using(crate::proofs::PlaceLemmas::first_found))]
    pub(crate) fn fetch_for(&self, block: &'a Block) -> Option<&'a Fetch>
        ensures { option_copied result ≡ fetch_for self.now block.now }
    {
        match self.answers.get(&Key(&block.location)) {
            Some(fetch) => Some(*fetch),
            None => None,
        }
    }
}

/// The first answer of each location.
fn first_answers<'a>(
    alloc: Global,
    fetched: &'a [(Location, Fetch)],
) -> Result<BTreeMap<Key<'a>, &'a Fetch>, AllocError>
    ensures { IfOk result (λ answers. AreFirst answers.entries [] fetched.now) }
{
    let mut answers = BTreeMap::new(alloc);
    for pair in fetched {
        note_answer(&mut answers, &pair.0, &pair.1)?;
    }
    Ok(answers)
}

/// Notes an answer for a location, unless there is one.
fn note_answer<'a>(
    answers: &mut BTreeMap<Key<'a>, &'a Fetch>,
    location: &'a Location,
    fetch: &'a Fetch,
) -> Result<(), AllocError>
    ensures { OnOk result
        (NotesOne answers.old.entries answers.new.entries location.now fetch.now) }
{
    let key = Key(location);
    if !answers.contains_key(&key) {
        answers.insert(key, fetch)?;
    }
    Ok(())
}
