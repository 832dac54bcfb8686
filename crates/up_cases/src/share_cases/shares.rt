//! A tree, who reads it, and reports on it. A line tells what is asked of the tree before, or asks; what is told stands until the next
//! line `tree` or `image`.
use crate::share_cases::reports::{Report, filled};
use std::alloc::Global;
use std::hash::RandomState;
use up_case_asks::{Given, ask, path_in, tree_of};
use up_case_lines::{Answer, Fault, Topic, Words, add_item, bytes_of, user_of};
use up_disk::MemDisk;
use up_list::TreeView;
use up_lists::Items;
use up_share::{Readers, readers_of};
use up_tree::TreeState;

/// The tree that is reported on. There is none before the first line `tree`.
#[derive(Drop)]
pub struct Shares {
    random: RandomState,
    stage: Option<Stage>,
    report: Report,
}

/// A tree, and what the next request comes with.
#[derive(Drop)]
struct Stage {
    tree: TreeState<MemDisk>,
    given: Given,
}

impl Shares {
    /// No tree yet. Names are hashed with these keys.
    pub fn new(alloc: Global, random: RandomState) -> Shares {
        Shares {
            random,
            stage: None,
            report: Report::new(alloc),
        }
    }

    // `share WORDS` reports on the tree's log, or on the image that was named since.
    fn share(&mut self, alloc: Global, words: Words<'_>, answer: &mut Answer) -> Result<(), Fault> {
        if let Some(stage) = self.stage.take() {
            self.report.disk = Some(disk_of(stage));
        }
        self.report.run(alloc, self.random, words.rest(), answer)
    }
}

// The disk of a tree.
fn disk_of(stage: Stage) -> MemDisk {
    let Stage { tree, given } = stage;
    drop(given);
    tree.into_disk()
}

impl Topic for Shares {
    fn turn(&mut self, alloc: Global, line: &str, answer: &mut Answer) -> Result<(), Fault> {
        let mut words = Words::new(line);
        match words.word()? {
            "tree" => {
                let tree = tree_of(alloc, words)?;
                let given = Given::new(alloc, self.random);
                drop(self.stage.replace(Stage { tree, given }));
                self.report = Report::new(alloc);
                Ok(())
            }
            "image" => {
                let bytes = bytes_of(alloc, words.one()?)?;
                drop(self.stage.take());
                self.report = Report::new(alloc);
                self.report.disk = Some(filled(alloc, bytes.as_slice(), Items::new(alloc)));
                Ok(())
            }
            "fail" | "sink" | "disks" => self.report.turn(line),
            "share" => self.share(alloc, words, answer),
            keyword => match &mut self.stage {
                Some(stage) => stage.turn(alloc, keyword, words, answer),
                None => Err(Fault::BadLine),
            },
        }
    }
}

impl Stage {
    // `ask USER WORDS` asks the tree, `readers PATH` who reads there; the others tell what the next of these comes with.
    fn turn(
        &mut self,
        alloc: Global,
        keyword: &str,
        mut words: Words<'_>,
        answer: &mut Answer,
    ) -> Result<(), Fault> {
        match keyword {
            "ask" => {
                let user = user_of(alloc, words.word()?)?;
                ask(alloc, &mut self.tree, &mut self.given, &user, words, answer)
            }
            "readers" => self.readers(alloc, words.one()?, answer),
            _ => self.given.turn(alloc, keyword, words),
        }
    }

    #[tactic(auto, unfolding(up_log_tree::specs::Rights::facts_of))]
    fn readers(&self, alloc: Global, path: &str, answer: &mut Answer) -> Result<(), Fault> {
        // That the owner is no snapshot user is told here.
        self.tree.recall();
        let path = path_in(alloc, self.tree.owner(), path)?;
        let view = TreeView::new(&self.tree);
        let readers = readers_of(alloc, &view, &self.given.loaded, &path)?;
        add_readers(&readers, answer);
        Ok(())
    }
}

// The readers, and behind `unread` the groups that are.
fn add_readers(readers: &Readers, answer: &mut Answer) {
    for item in readers.items.as_slice() {
        add_item(item, answer);
    }
    if readers.unread.len() > 0 {
        answer.word("unread");
    }
    for i in 0..readers.unread.len() {
        if let Some(group) = readers.unread.get(i) {
            answer.coded(group.as_str().as_bytes());
        }
    }
}
