//! A leader's tree, what a feed gives of it, and the disk of a follower. A line has commands, parted by `; `, and so are their answers;
//! what they tell stands until the next `leader`.
use crate::follow_cases::feeds::{add, give, make_many};
use crate::follow_cases::runs::{images, run};
use crate::share_cases::reports::filled;
use std::alloc::Global;
use std::hash::RandomState;
use std::mem;
use up_bytes::Bytes;
use up_case_asks::{Given, ask, tree_of};
use up_case_lines::{Answer, Fault, Topic, Words, bytes_of, bytes_of_digits, number_of, user_of};
use up_case_logs::limits_of;
use up_disk::MemDisk;
use up_journal::Limits;
use up_lists::Items;
use up_tree::TreeState;

/// A leader, and who follows it. There is none before the first `leader`.
#[derive(Drop)]
pub struct Follows {
    random: RandomState,
    stage: Option<Stage>,
}

/// The tree of a leader, and what its next request comes with; the records that the feed gives; the disk of the follower between two runs;
/// and of the next runs, which call of the feed, the source or the sink fails, and the limits in place of the program's.
#[derive(Drop)]
pub struct Stage {
    pub random: RandomState,
    leader: TreeState<MemDisk>,
    given: Given,
    pub records: Items<Bytes>,
    pub disk: MemDisk,
    pub pull: Option<u64>,
    pub source: Option<u64>,
    pub sink: Option<u64>,
    pub limits: Option<Limits>,
}

impl Follows {
    /// No leader yet. Names are hashed with these keys.
    pub fn new(random: RandomState) -> Follows {
        Follows {
            random,
            stage: None,
        }
    }

    // Does one command.
    fn command(
        &mut self,
        alloc: Global,
        mut words: Words<'_>,
        answer: &mut Answer,
    ) -> Result<(), Fault> {
        let keyword = words.word()?;
        if keyword == "leader" {
            drop(self.stage.replace(Stage::new(alloc, self.random, words)?));
            return Ok(());
        }
        match &mut self.stage {
            Some(stage) => stage.turn(alloc, keyword, words, answer),
            None => Err(Fault::BadLine),
        }
    }
}

impl Topic for Follows {
    fn turn(&mut self, alloc: Global, line: &str, answer: &mut Answer) -> Result<(), Fault> {
        for command in line.split("; ") {
            self.command(alloc, Words::new(command), answer)?;
        }
        Ok(())
    }
}

impl Stage {
    fn new(alloc: Global, random: RandomState, words: Words<'_>) -> Result<Stage, Fault> {
        Ok(Stage {
            random,
            leader: tree_of(alloc, words)?,
            given: Given::new(alloc, random),
            records: Items::new(alloc),
            disk: MemDisk::new(alloc, Items::new(alloc)),
            pull: None,
            source: None,
            sink: None,
            limits: None,
        })
    }

    // A command that asks nothing tells of the feed or the follower, or what the leader's next request comes with.
    fn turn(
        &mut self,
        alloc: Global,
        keyword: &str,
        mut words: Words<'_>,
        answer: &mut Answer,
    ) -> Result<(), Fault> {
        match keyword {
            "many" => make_many(alloc, &mut self.leader, &mut self.given, words),
            "give" => give(alloc, &self.leader, &mut self.records, words.two_numbers()?),
            "bytes" => add(&mut self.records, bytes_of_digits(alloc, words.one()?)?),
            "fails" | "source" | "sink" => self.fail(keyword, words.last_number()?),
            "limits" => {
                self.limits = Some(limits_of(words)?);
                Ok(())
            }
            "disk" => self.make_disk(alloc, words.rest()),
            "write" => self.write(alloc, words.one()?),
            "ask" | "run" | "images" => self.ask(alloc, keyword, words, answer),
            _ => self.given.turn(alloc, keyword, words),
        }
    }

    // `ask USER WORDS` asks the leader; `run WORDS |LINES` runs the command, and `images WORDS |LINES` over each image of the disk.
    fn ask(
        &mut self,
        alloc: Global,
        keyword: &str,
        mut words: Words<'_>,
        answer: &mut Answer,
    ) -> Result<(), Fault> {
        match keyword {
            "run" => run(alloc, self, words.some()?, answer),
            "images" => images(alloc, self, words.some()?, answer),
            _ => {
                let user = user_of(alloc, words.word()?)?;
                ask(
                    alloc,
                    &mut self.leader,
                    &mut self.given,
                    &user,
                    words,
                    answer,
                )
            }
        }
    }

    fn fail(&mut self, keyword: &str, call: u64) -> Result<(), Fault> {
        match keyword {
            "source" => self.source = Some(call),
            "sink" => self.sink = Some(call),
            _ => self.pull = Some(call),
        }
        Ok(())
    }

    // An empty disk, of which these calls fail.
    fn make_disk(&mut self, alloc: Global, calls: Option<&str>) -> Result<(), Fault> {
        let mut fails = Items::new(alloc);
        if let Some(calls) = calls {
            for call in calls.split(' ') {
                fails.push(number_of(call)?)?;
            }
        }
        drop(mem::replace(&mut self.disk, MemDisk::new(alloc, fails)));
        Ok(())
    }

    // A disk of these bytes.
    fn write(&mut self, alloc: Global, word: &str) -> Result<(), Fault> {
        let bytes = bytes_of(alloc, word)?;
        let disk = filled(alloc, bytes.as_slice(), Items::new(alloc));
        drop(mem::replace(&mut self.disk, disk));
        Ok(())
    }
}
