//! Two lists of turns, each for one of two trees.
ghost use Rattle.std.specs.Prelude.{◌≡◌, true};
ghost use Rattle.up_answers.specs.Laws.{AreInCalendar};
ghost use Rattle.up_laws.specs.Turns.{turns_of};

use crate::worlds::add_replies;
use std::alloc::Global;
use std::hash::RandomState;
use std::mem;
use up_case_asks::{Given, is_in_calendar, moment};
use up_case_lines::{Answer, Fault, Words, user_of};
use up_disk::MemDisk;
use up_laws::{Pairs, Turn, two_histories};
use up_names::User;
use up_tree::TreeState;

/// The turns that are not made yet, of each list.
#[derive(Drop)]
pub struct Lists {
    first: Vec<Turn>,
    second: Vec<Turn>,
}

impl Lists {
    /// No turn yet.
    pub fn new(alloc: Global) -> Lists {
        Lists {
            first: Vec::new(alloc),
            second: Vec::new(alloc),
        }
    }

    /// A turn more of the first list, or else of the second.
    pub fn add(&mut self, is_first: bool, turn: Turn) -> Result<(), Fault> {
        if is_first {
            self.first.push(turn)?;
        } else {
            self.second.push(turn)?;
        }
        Ok(())
    }

    /// `turns USER`: makes both lists, each on its tree. Of each pair of replies to the user the lines, then the number of the turn after
    /// which the run stopped, from 0, or that none did. No turn is left.
    pub fn play(
        &mut self,
        alloc: Global,
        one: &mut TreeState<MemDisk>,
        two: &mut TreeState<MemDisk>,
        mut words: Words<'_>,
        answer: &mut Answer,
    ) -> Result<(), Fault> {
        let user = user_of(alloc, words.one()?)?;
        let pairs = made(alloc, one, two, &user, &self.first, &self.second)?;
        self.first.clear();
        self.second.clear();
        let told = add_pairs(alloc, &pairs, answer);
        drop(pairs);
        told
    }
}

fn made(
    alloc: Global,
    one: &mut TreeState<MemDisk>,
    two: &mut TreeState<MemDisk>,
    user: &User,
    first: &[Turn],
    second: &[Turn],
) -> Result<Pairs, Fault> {
    if first.len() != second.len() || !are_in_calendar(first) || !are_in_calendar(second) {
        return Err(Fault::BadLine);
    }
    Ok(two_histories(alloc, one, two, user, first, second)?)
}

/// Whether all moments are of the calendar.
fn are_in_calendar(turns: &[Turn]) -> bool
    ensures { result ≡ true → AreInCalendar (turns_of turns.now) }
{
    for turn in turns {
        if !is_in_calendar(turn.now) {
            return false;
        }
    }
    true
}

/// A turn: what the words ask for the user in front of them, with all that it comes with, which is taken.
pub fn turn_of(
    alloc: Global,
    random: RandomState,
    given: &mut Given,
    mut words: Words<'_>,
) -> Result<Turn, Fault> {
    let user = user_of(alloc, words.word()?)?;
    let now = moment(given.now)?;
    let request = given.request(alloc, &user, words)?;
    let taken = mem::replace(given, Given::new(alloc, random));
    given.now = now;
    Ok(Turn {
        user,
        request,
        loaded: taken.loaded,
        fetched: taken.fetched,
        now,
    })
}

fn add_pairs(alloc: Global, pairs: &Pairs, answer: &mut Answer) -> Result<(), Fault> {
    for pair in pairs.replies.as_slice() {
        add_replies(alloc, &pair.0, &pair.1, answer)?;
    }
    answer.part();
    answer.word("stopped");
    match pairs.stopped {
        Some(number) => answer.number(number),
        None => answer.word("none"),
    }
    Ok(())
}
