//! Sessions at the terminal, over a table of requests with their replies. What a session stands among comes first, and then it is run, as
//! often as lines say so.
use crate::client::add_row_line;
use std::alloc::{AllocError, Global};
use up_case_lines::{Answer, Fault, Topic, Words, bytes_of, number_of};
use up_client::TableAsk;
use up_ends::{MemSink, MemSource};
use up_lists::Items;
use up_terminal::client_run;
use up_wire::{Reply, Request};

/// How many calls of a kind fail in turn at the most.
const MOST_CALLS: u64 = 10_000;

/// The numbers of the calls that fail, from 0.
#[derive(Drop)]
struct Calls {
    reads: Items<u64>,
    asks: Items<u64>,
    writes: Items<u64>,
}

impl Calls {
    // One call of this kind.
    fn one(alloc: Global, kind: &str, call: u64) -> Result<Calls, AllocError> {
        let mut calls = Calls {
            reads: Items::new(alloc),
            asks: Items::new(alloc),
            writes: Items::new(alloc),
        };
        let kept = match kind {
            "reads" => &mut calls.reads,
            "asks" => &mut calls.asks,
            _ => &mut calls.writes,
        };
        kept.push(call)?;
        Ok(calls)
    }
}

/// What a session stands among: the words of the command, the rows of the table as lines, and the input.
#[derive(Drop)]
pub struct TerminalLines {
    words: Vec<String>,
    rows: Vec<String>,
    input: Vec<u8>,
}

impl TerminalLines {
    pub fn new(alloc: Global) -> TerminalLines {
        TerminalLines {
            words: Vec::new(alloc),
            rows: Vec::new(alloc),
            input: Vec::new(alloc),
        }
    }

    // `command WORDS`: begins a session anew, with these words.
    fn begin(&mut self, alloc: Global, words: &str) -> Result<(), Fault> {
        self.rows.clear();
        self.input.clear();
        self.words.clear();
        for word in words.split(' ') {
            add_text(alloc, &mut self.words, word)?;
        }
        Ok(())
    }

    // `line WORD` and `tail WORD`: bytes of the input, with an LF behind them or without one.
    fn add_input(&mut self, alloc: Global, word: &str, end: &[u8]) -> Result<(), Fault> {
        let bytes = bytes_of(alloc, word)?;
        self.input.extend_from_slice(bytes.as_slice())?;
        self.input.extend_from_slice(end)?;
        Ok(())
    }

    // `run PIECE READS ASKS WRITES`: the status, and what was printed. Each read gives at most PIECE bytes, and the calls with these
    // numbers fail.
    fn run_line(
        &self,
        alloc: Global,
        mut words: Words<'_>,
        answer: &mut Answer,
    ) -> Result<(), Fault> {
        let (piece, reads, asks) = words.next_three()?;
        let writes = words.one()?;
        let calls = Calls {
            reads: calls_of(alloc, reads)?,
            asks: calls_of(alloc, asks)?,
            writes: calls_of(alloc, writes)?,
        };
        let (status, printed) = self.outcome(alloc, number_of(piece)?, calls)?;
        answer.number(u64::from(status));
        answer.coded(printed.as_slice());
        Ok(())
    }

    // `reads PIECE`, `asks PIECE` and `writes PIECE`: one run after the other, in each of which one further call of that kind fails, the
    // first one at first, up to a run that ends with 0. Of each the status, and how many bytes were printed.
    fn each_line(
        &self,
        alloc: Global,
        kind: &str,
        piece: u64,
        answer: &mut Answer,
    ) -> Result<(), Fault> {
        for call in 0..MOST_CALLS {
            let calls = Calls::one(alloc, kind, call)?;
            let (status, printed) = self.outcome(alloc, piece, calls)?;
            answer.number(u64::from(status));
            answer.number(printed.len() as u64);
            if status == 0 {
                return Ok(());
            }
        }
        Err(Fault::BadLine)
    }

    // The status of a run, and what was printed.
    fn outcome(&self, alloc: Global, piece: u64, calls: Calls) -> Result<(u8, Vec<u8>), Fault> {
        let Calls {
            reads,
            asks,
            writes,
        } = calls;
        let mut source = self.source(alloc, piece, reads)?;
        let mut table = TableAsk::new(self.table_rows(alloc)?, asks);
        let mut sink = MemSink::new(alloc, writes);
        let status = client_run(alloc, &self.words, &mut source, &mut sink, &mut table);
        Ok((status, sink.bytes().to_vec(alloc)?))
    }

    // The source of the input.
    fn source(&self, alloc: Global, piece: u64, fails: Items<u64>) -> Result<MemSource, Fault> {
        let mut pieces = Items::new(alloc);
        for _ in 0..self.input.len() {
            pieces.push(piece)?;
        }
        Ok(MemSource::new(self.input.to_vec(alloc)?, pieces, fails))
    }

    // The rows of the table.
    fn table_rows(&self, alloc: Global) -> Result<Items<(Request, Reply)>, Fault> {
        let mut rows = Items::new(alloc);
        for line in &self.rows {
            add_row_line(alloc, &mut rows, line.as_str())?;
        }
        Ok(rows)
    }
}

impl Topic for TerminalLines {
    fn turn(&mut self, alloc: Global, line: &str, answer: &mut Answer) -> Result<(), Fault> {
        let (keyword, rest) = line.split_once(' ').ok_or(Fault::BadLine)?;
        match keyword {
            "command" => self.begin(alloc, rest),
            "row" | "kept" => Ok(add_text(alloc, &mut self.rows, line)?),
            "line" => self.add_input(alloc, rest, b"\n"),
            "tail" => self.add_input(alloc, rest, b""),
            "run" => self.run_line(alloc, Words::new(rest), answer),
            "reads" | "asks" | "writes" => {
                self.each_line(alloc, keyword, number_of(rest)?, answer)
            }
            _ => Err(Fault::BadLine),
        }
    }
}

pub(crate) fn add_text(
    alloc: Global,
    texts: &mut Vec<String>,
    text: &str,
) -> Result<(), AllocError> {
    texts.push(text.to_string(alloc)?)?;
    Ok(())
}

/// The numbers of calls, joined by commas; `-` for none.
pub(crate) fn calls_of(alloc: Global, word: &str) -> Result<Items<u64>, Fault> {
    let mut calls = Items::new(alloc);
    if word == "-" {
        return Ok(calls);
    }
    for number in word.split(',') {
        calls.push(number_of(number)?)?;
    }
    Ok(calls)
}
