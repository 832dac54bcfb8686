//! From an entry that a user hands in, by the record that puts it, to a journal that crashes and is opened again. The lines
//! are those of records and of crashes, and two more: `keep` appends a record, and `kept` reads it from the journal.
use crate::crashes::{Running, Stage, Watched, stage_turn};
use crate::records::{Records, add_record_of};
use std::alloc::Global;
use up_case_lines::{Answer, Fault, Topic, Words};
use up_journal::ReadWhy;

/// A user's session, and a disk or what stands on it: an empty disk at first, and again behind a line that does not fit.
#[derive(Drop)]
pub struct Logs {
    records: Records,
    stage: Option<Stage>,
}

impl Logs {
    pub fn new() -> Logs {
        Logs {
            records: Records::new(),
            stage: None,
        }
    }

    // The journal that is open. A line that speaks of it does not fit where there is none.
    fn running(&mut self) -> Result<&mut Running, Fault> {
        match &mut self.stage {
            Some(Stage::Journal(running)) => Ok(running),
            _ => Err(Fault::BadLine),
        }
    }

    // `keep put TEXT`, `keep delete PATH` and `keep snap N`: appends the record of these words.
    fn keep(&mut self, alloc: Global, words: Words<'_>, answer: &mut Answer) -> Result<(), Fault> {
        let record = self.records.record(alloc, words)?;
        self.running()?.fill(1, record.as_slice(), answer);
        Ok(())
    }

    // `kept N`: the words of record N.
    fn kept(&mut self, alloc: Global, n: u64, answer: &mut Answer) -> Result<(), Fault> {
        match self.running()?.payload(n).ok_or(Fault::BadLine)? {
            Ok(bytes) => add_record_of(alloc, bytes.as_slice(), answer),
            Err(ReadWhy::Fault) => {
                answer.word("fault");
                Ok(())
            }
            Err(ReadWhy::OutOfMemory) => Err(Fault::OutOfMemory),
        }
    }

    // Does a command of crashes.
    fn go_on(&mut self, alloc: Global, line: &str, answer: &mut Answer) -> Result<(), Fault> {
        let stage = match self.stage.take() {
            Some(stage) => stage,
            None => Stage::Disk(Watched::empty(alloc)),
        };
        let stage = stage_turn(alloc, stage, Words::new(line), answer)?;
        drop(self.stage.replace(stage));
        Ok(())
    }
}

impl Topic for Logs {
    fn turn(&mut self, alloc: Global, line: &str, answer: &mut Answer) -> Result<(), Fault> {
        let mut words = Words::new(line);
        match words.word()? {
            "user" | "put" | "position" | "show" => self.records.turn(alloc, line, answer),
            "keep" => self.keep(alloc, words, answer),
            "kept" => self.kept(alloc, words.last_number()?, answer),
            _ => self.go_on(alloc, line, answer),
        }
    }
}
