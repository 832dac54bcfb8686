//! Runs of `upspin copy`, over a table of requests with their replies. The words of a run and the rows of its table come first, and then it
//! is run, as often as lines say so.
use crate::client::add_row_line;
use crate::terminal::{add_text, calls_of};
use std::alloc::Global;
use up_cache::copy_run;
use up_case_lines::{Answer, Fault, Topic, Words};
use up_client::TableAsk;
use up_ends::MemSink;
use up_lists::Items;
use up_refs::Reference;
use up_wire::{Reply, Request};

/// How many calls of a kind fail in turn at the most.
const MOST_CALLS: u64 = 10_000;

/// How many bytes are shown as they are.
const SHOWN: usize = 4096;

/// What a run stands among: the words of the command, and the rows of the table as lines.
#[derive(Drop)]
pub struct CopyLines {
    words: Vec<String>,
    rows: Vec<String>,
}

impl CopyLines {
    pub fn new(alloc: Global) -> CopyLines {
        CopyLines {
            words: Vec::new(alloc),
            rows: Vec::new(alloc),
        }
    }

    // `command WORDS`: other words, over the same table. `table` empties the table.
    fn begin(&mut self, alloc: Global, words: &str) -> Result<(), Fault> {
        self.words.clear();
        for word in words.split(' ') {
            add_text(alloc, &mut self.words, word)?;
        }
        Ok(())
    }

    // `again N WORD`: the word N times more.
    fn add_again(&mut self, alloc: Global, mut words: Words<'_>) -> Result<(), Fault> {
        let count = words.number()?;
        let word = words.one()?;
        for _ in 0..count {
            add_text(alloc, &mut self.words, word)?;
        }
        Ok(())
    }

    // `run ASKS WRITES`: the status, and what was printed. The calls with these numbers fail.
    fn run_line(
        &self,
        alloc: Global,
        mut words: Words<'_>,
        answer: &mut Answer,
    ) -> Result<(), Fault> {
        let (asks, writes) = words.two()?;
        let asks = calls_of(alloc, asks)?;
        let writes = calls_of(alloc, writes)?;
        let (status, printed) = self.outcome(alloc, asks, writes)?;
        answer.number(u64::from(status));
        add_printed(printed.as_slice(), answer);
        Ok(())
    }

    // `asks` and `writes`: one run after the other, in each of which one further call of that kind fails, the first one at first, up to a
    // run that ends with 0. Of each the status, and how many bytes were printed.
    fn each_line(&self, alloc: Global, kind: &str, answer: &mut Answer) -> Result<(), Fault> {
        for call in 0..MOST_CALLS {
            let (asks, writes) = one_call(alloc, kind, call)?;
            let (status, printed) = self.outcome(alloc, asks, writes)?;
            answer.number(u64::from(status));
            answer.number(printed.len() as u64);
            if status == 0 {
                return Ok(());
            }
        }
        Err(Fault::BadLine)
    }

    // The status of a run, and what was printed.
    fn outcome(
        &self,
        alloc: Global,
        asks: Items<u64>,
        writes: Items<u64>,
    ) -> Result<(u8, Vec<u8>), Fault> {
        let mut table = TableAsk::new(self.table_rows(alloc)?, asks);
        let mut sink = MemSink::new(alloc, writes);
        let status = copy_run(alloc, &self.words, &mut table, &mut sink);
        Ok((status, sink.bytes().to_vec(alloc)?))
    }

    // The rows of the table.
    fn table_rows(&self, alloc: Global) -> Result<Items<(Request, Reply)>, Fault> {
        let mut rows = Items::new(alloc);
        for line in &self.rows {
            add_row_line(alloc, &mut rows, line.as_str())?;
        }
        Ok(rows)
    }

    fn other_turn(&mut self, alloc: Global, line: &str, answer: &mut Answer) -> Result<(), Fault> {
        let (keyword, rest) = line.split_once(' ').ok_or(Fault::BadLine)?;
        match keyword {
            "command" => self.begin(alloc, rest),
            "again" => self.add_again(alloc, Words::new(rest)),
            "row" | "kept" => Ok(add_text(alloc, &mut self.rows, line)?),
            "run" => self.run_line(alloc, Words::new(rest), answer),
            _ => Err(Fault::BadLine),
        }
    }
}

impl Topic for CopyLines {
    fn turn(&mut self, alloc: Global, line: &str, answer: &mut Answer) -> Result<(), Fault> {
        match line {
            "table" => {
                self.rows.clear();
                Ok(())
            }
            "asks" | "writes" => self.each_line(alloc, line, answer),
            _ => self.other_turn(alloc, line, answer),
        }
    }
}

// What was printed, or of many bytes their number and their digest.
fn add_printed(printed: &[u8], answer: &mut Answer) {
    if printed.len() <= SHOWN {
        answer.coded(printed);
        return;
    }
    answer.number(printed.len() as u64);
    answer.digits(Reference::of(printed).bytes());
}

// The numbers of the asks and of the writes that fail: one of this kind.
fn one_call(alloc: Global, kind: &str, call: u64) -> Result<(Items<u64>, Items<u64>), Fault> {
    let mut asks = Items::new(alloc);
    let mut writes = Items::new(alloc);
    let failing = match kind {
        "asks" => &mut asks,
        _ => &mut writes,
    };
    failing.push(call)?;
    Ok((asks, writes))
}
