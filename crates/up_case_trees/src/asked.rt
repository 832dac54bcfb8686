//! What users who ask a tree are answered: whole requests, one after the other, each as one step, and looks and watches alone. A line
//! tells the tree's next record, or what a request comes with, or asks; what is told stands until the next line `tree`, which begins
//! with an empty one.
use crate::looked::{could_line, look_line, met_line};
use crate::tree::{put_files, record_turn};
use std::alloc::Global;
use std::hash::RandomState;
use up_case_asks::{Given, add_lines, ask, ask_snapshots, moment, path_in, tree_of};
use up_case_lines::{Answer, Fault, Topic, Words, int_of, user_of};
use up_disk::MemDisk;
use up_mem_tree::has_snapshots;
use up_names::User;
use up_snap::snap_path;
use up_tree::TreeState;
use up_watch::watch;

/// The tree that is asked. There is none before the first line `tree`.
#[derive(Drop)]
pub struct Asked {
    random: RandomState,
    stage: Option<Stage>,
}

impl Asked {
    /// No tree yet. Names are hashed with these keys.
    pub fn new(random: RandomState) -> Asked {
        Asked {
            random,
            stage: None,
        }
    }
}

/// A tree, and what the next request comes with.
#[derive(Drop)]
struct Stage {
    tree: TreeState<MemDisk>,
    given: Given,
}

impl Topic for Asked {
    fn turn(&mut self, alloc: Global, line: &str, answer: &mut Answer) -> Result<(), Fault> {
        let mut words = Words::new(line);
        let keyword = words.word()?;
        if keyword == "tree" {
            let begun = tree_line(alloc, self.random, words)?;
            drop(self.stage.replace(begun));
            return Ok(());
        }
        match &mut self.stage {
            Some(stage) => stage.turn(alloc, keyword, words, answer),
            None => Err(Fault::BadLine),
        }
    }
}

// `tree OWNER`, `tree OWNER R D L`, `tree OWNER R D L CALL ..`: an empty tree, with nothing loaded or fetched, at the moment 86400.
fn tree_line(alloc: Global, random: RandomState, words: Words<'_>) -> Result<Stage, Fault> {
    Ok(Stage {
        tree: tree_of(alloc, words)?,
        given: Given::new(alloc, random),
    })
}

impl Stage {
    fn turn(
        &mut self,
        alloc: Global,
        keyword: &str,
        words: Words<'_>,
        answer: &mut Answer,
    ) -> Result<(), Fault> {
        match keyword {
            "ask" | "snapshots" | "watch" | "count" | "glob" | "lookup" | "which" | "could" => {
                self.user_line(alloc, keyword, words, answer)
            }
            "met" | "above" => met_line(alloc, &self.tree, keyword, words, answer),
            "load" | "block" | "now" => self.given.turn(alloc, keyword, words),
            "files" => files_line(alloc, &mut self.tree, words, answer),
            "root" => root_line(alloc, self.tree.owner(), words, answer),
            _ => record_turn(alloc, &mut self.tree, keyword, words, answer),
        }
    }

    // A line whose next word is the user who asks.
    fn user_line(
        &mut self,
        alloc: Global,
        keyword: &str,
        mut words: Words<'_>,
        answer: &mut Answer,
    ) -> Result<(), Fault> {
        let user = user_of(alloc, words.word()?)?;
        self.answer_to(alloc, &user, keyword, words, answer)
    }

    // `ask USER WORDS`: the lines of the reply to what the words ask. `snapshots` in its place: of the snapshots alone.
    fn answer_to(
        &mut self,
        alloc: Global,
        user: &User,
        keyword: &str,
        words: Words<'_>,
        answer: &mut Answer,
    ) -> Result<(), Fault> {
        match keyword {
            "ask" => ask(alloc, &mut self.tree, &mut self.given, user, words, answer),
            "snapshots" => {
                ask_snapshots(alloc, &mut self.tree, &mut self.given, user, words, answer)
            }
            "watch" => self.watch_line(alloc, user, words, true, answer),
            "count" => self.watch_line(alloc, user, words, false, answer),
            "could" => could_line(alloc, &self.tree, &self.given.loaded, user, words, answer),
            _ => look_line(
                alloc,
                &self.tree,
                &self.given.loaded,
                user,
                keyword,
                words,
                answer,
            ),
        }
    }

    // `watch USER PATH SEQUENCE`: the lines of the reply; `count` in its place: the first of them.
    fn watch_line(
        &self,
        alloc: Global,
        user: &User,
        mut words: Words<'_>,
        whole: bool,
        answer: &mut Answer,
    ) -> Result<(), Fault> {
        let (path, sequence) = words.two()?;
        let sequence = int_of(sequence)?;
        let path = path_in(alloc, self.tree.owner(), path)?;
        let reply = watch(alloc, &self.tree, &self.given.loaded, user, &path, sequence);
        let told = add_lines(alloc, &reply, whole, answer);
        drop(reply);
        told
    }
}

// `files N PATH`: N Puts of one file.
fn files_line(
    alloc: Global,
    tree: &mut TreeState<MemDisk>,
    mut words: Words<'_>,
    answer: &mut Answer,
) -> Result<(), Fault> {
    let count = words.number()?;
    put_files(alloc, tree, words.one()?, count, answer)
}

// `root MOMENT`: where the snapshot of a moment shows the root of the tree, which has to be one that may have snapshots.
fn root_line(
    alloc: Global,
    owner: &User,
    mut words: Words<'_>,
    answer: &mut Answer,
) -> Result<(), Fault> {
    let time = moment(words.last_number()?)?;
    if !has_snapshots(owner) {
        return Err(Fault::BadLine);
    }
    let path = snap_path(alloc, owner, time)?;
    answer.coded(path.as_str().as_bytes());
    drop(path);
    Ok(())
}
