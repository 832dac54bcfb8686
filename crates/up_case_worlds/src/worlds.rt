//! Two trees of one owner that are asked the same, or each for itself. What is loaded, fetched or the moment is told as for one tree, and
//! stands until the next line `trees`, which begins with two empty ones.
ghost use Rattle.std.specs.Prelude.{◌≡◌};

use crate::lists::{Lists, turn_of};
use std::alloc::{AllocError, Global};
use std::hash::RandomState;
use up_case_asks::{Given, add_reply, ask, moment, path_in, tree_of};
use up_case_lines::{Answer, Fault, Topic, Words, user_of};
use up_disk::MemDisk;
use up_laws::{more_texts, two_worlds};
use up_list::TreeView;
use up_names::{Path, User};
use up_policy::Loaded;
use up_rights::Right;
use up_tree::TreeState;
use up_wire::Reply;

/// The two trees that are asked. There are none before the first line `trees`.
#[derive(Drop)]
pub struct Worlds {
    random: RandomState,
    pair: Option<Pair>,
}

impl Worlds {
    /// No trees yet. Names are hashed with these keys.
    pub fn new(random: RandomState) -> Worlds {
        Worlds { random, pair: None }
    }
}

/// Two trees, what the next request comes with, and two lists of turns.
#[derive(Drop)]
struct Pair {
    one: TreeState<MemDisk>,
    two: TreeState<MemDisk>,
    given: Given,
    lists: Lists,
}

impl Topic for Worlds {
    fn turn(&mut self, alloc: Global, line: &str, answer: &mut Answer) -> Result<(), Fault> {
        let mut words = Words::new(line);
        let keyword = words.word()?;
        if keyword == "trees" {
            let pair = trees_line(alloc, self.random, words)?;
            drop(self.pair.replace(pair));
            return Ok(());
        }
        match &mut self.pair {
            Some(pair) => pair.turn(alloc, self.random, keyword, words, answer),
            None => Err(Fault::BadLine),
        }
    }
}

// `trees OWNER`, `trees OWNER R D L`, `trees OWNER R D L CALL ..`: two empty trees, with nothing loaded or fetched, at the moment 86400.
fn trees_line(alloc: Global, random: RandomState, words: Words<'_>) -> Result<Pair, Fault> {
    let one = tree_of(alloc, words)?;
    match tree_of(alloc, words) {
        Ok(two) => Ok(Pair {
            one,
            two,
            given: Given::new(alloc, random),
            lists: Lists::new(alloc),
        }),
        Err(fault) => {
            drop(one);
            Err(fault)
        }
    }
}

impl Pair {
    fn turn(
        &mut self,
        alloc: Global,
        random: RandomState,
        keyword: &str,
        words: Words<'_>,
        answer: &mut Answer,
    ) -> Result<(), Fault> {
        match keyword {
            "one" | "two" => self.alone_line(alloc, keyword, words, answer),
            "agree" | "apart" => self.both_line(alloc, keyword, words, answer),
            "first" | "second" => self.turn_line(alloc, random, keyword, words),
            "turns" => self
                .lists
                .play(alloc, &mut self.one, &mut self.two, words, answer),
            "more" => self.more_line(alloc, random, words, answer),
            _ => self.given.turn(alloc, keyword, words),
        }
    }

    // `one USER WORDS`, `two USER WORDS`: the lines of the reply to what the words ask of the first tree, or of the second.
    fn alone_line(
        &mut self,
        alloc: Global,
        keyword: &str,
        mut words: Words<'_>,
        answer: &mut Answer,
    ) -> Result<(), Fault> {
        let user = user_of(alloc, words.word()?)?;
        if keyword == "one" {
            ask(alloc, &mut self.one, &mut self.given, &user, words, answer)
        } else {
            ask(alloc, &mut self.two, &mut self.given, &user, words, answer)
        }
    }

    // `agree USER WORDS`, `apart USER WORDS`: what both trees reply to what the words ask.
    fn both_line(
        &mut self,
        alloc: Global,
        keyword: &str,
        words: Words<'_>,
        answer: &mut Answer,
    ) -> Result<(), Fault> {
        let (one, two) = self.both(alloc, words)?;
        let told = add_both(alloc, keyword, &one, &two, answer);
        drop(one);
        drop(two);
        told
    }

    fn both(&mut self, alloc: Global, mut words: Words<'_>) -> Result<(Reply, Reply), Fault> {
        let now = moment(self.given.now)?;
        let user = user_of(alloc, words.word()?)?;
        let request = self.given.request(alloc, &user, words)?;
        let replies = two_worlds(
            alloc,
            &mut self.one,
            &mut self.two,
            &user,
            &request,
            &self.given.loaded,
            &self.given.fetched,
            now,
        );
        drop(request);
        Ok(replies)
    }

    // `first USER WORDS`, `second USER WORDS`: a turn more of the first list, or of the second. It takes what was loaded and fetched
    // with it, so that nothing is for the next one.
    fn turn_line(
        &mut self,
        alloc: Global,
        random: RandomState,
        keyword: &str,
        words: Words<'_>,
    ) -> Result<(), Fault> {
        let turn = turn_of(alloc, random, &mut self.given, words)?;
        self.lists.add(keyword == "first", turn)
    }

    // `more USER RIGHT PATH`: whether the user has the right on the path of the first tree with nothing loaded, and with what is.
    fn more_line(
        &self,
        alloc: Global,
        random: RandomState,
        mut words: Words<'_>,
        answer: &mut Answer,
    ) -> Result<(), Fault> {
        let (user, right, path) = words.three()?;
        let right = Right::from_word(right.as_bytes()).ok_or(Fault::BadLine)?;
        let user = user_of(alloc, user)?;
        let path = path_in(alloc, self.one.owner(), path)?;
        let (less, more) = held(
            alloc,
            random,
            &self.one,
            &self.given.loaded,
            &user,
            right,
            &path,
        )?;
        answer.yes(less);
        answer.yes(more);
        Ok(())
    }
}

// Whether a user has a right on a path of a tree with nothing loaded, and with this.
#[tactic(auto, unfolding(up_log_tree::specs::Rights::facts_of))]
fn held(
    alloc: Global,
    random: RandomState,
    tree: &TreeState<MemDisk>,
    loaded: &Loaded,
    user: &User,
    right: Right,
    path: &Path,
) -> Result<(bool, bool), AllocError>
    requires { path.now.owner ≡ tree.now.owner }
{
    let view = TreeView::new(tree);
    let nothing = Loaded::new(alloc, random);
    more_texts(alloc, &view, &nothing, loaded, user, right, path)
}

// Adds what two trees replied. Of trees that agree for the user replies that differ are no answer.
fn add_both(
    alloc: Global,
    keyword: &str,
    one: &Reply,
    two: &Reply,
    answer: &mut Answer,
) -> Result<(), Fault> {
    if keyword == "agree" && one != two {
        answer.word("differ");
    }
    add_replies(alloc, one, two, answer)
}

/// Adds the lines of two replies, parted by ` | `, or of the one that both are.
pub fn add_replies(
    alloc: Global,
    one: &Reply,
    two: &Reply,
    answer: &mut Answer,
) -> Result<(), Fault> {
    add_reply(alloc, one, answer)?;
    if one != two {
        answer.push(" | ");
        answer.push(told(alloc, two)?.as_str());
    }
    Ok(())
}

// The lines of a reply.
fn told(alloc: Global, reply: &Reply) -> Result<String, Fault> {
    let mut answer = Answer::new(alloc);
    add_reply(alloc, reply, &mut answer)?;
    Ok(answer.finish()?)
}
