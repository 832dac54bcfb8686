//! The lines about a host, asked once more of a host that is shared.
ghost use Rattle.up_shared.specs.Sharing.{AreSeats};

use crate::host_cases::asking::ask;
use crate::host_cases::lines::enrol_line;
use crate::host_cases::opening::new_host;
use crate::host_cases::peers::{ask_with, told_in_memory};
use crate::host_cases::served::{Caller, Served};
use crate::host_cases::words::cut_asks;
use std::alloc::Global;
use std::hash::RandomState;
use std::sync::Wait;
use up_case_lines::{Answer, Fault, Words};
use up_disk::MemDisk;
use up_host::Host;
use up_peer::Peers;
use up_shared::{Seats, Shared};

/// A line about the host of a name: its keyword, the name, and the words behind it.
#[derive(Clone, Copy)]
pub struct Line<'a> {
    pub keyword: &'a str,
    pub name: &'a str,
    pub words: Words<'a>,
}

/// The lines about a host since it was opened, as long as each of them can be asked of a host that is shared.
#[derive(Drop)]
pub struct Lines {
    lines: Vec<String>,
    goes_on: bool,
    asks: bool,
}

impl Lines {
    /// No lines, of a host that was opened otherwise than by a line.
    pub fn none(alloc: Global) -> Lines {
        Lines {
            lines: Vec::new(alloc),
            goes_on: false,
            asks: false,
        }
    }

    /// The line that opens the host has these words behind the name.
    pub fn begin(&mut self, alloc: Global, words: Words<'_>) -> Result<(), Fault> {
        self.goes_on = true;
        self.add(alloc, "host", words)
    }

    /// What a host that is shared answers to this line, if it asks, and all lines before it can be asked of that host.
    pub fn answer<R: Wait>(
        &mut self,
        rt: &R,
        alloc: Global,
        random: RandomState,
        line: Line<'_>,
    ) -> Result<Option<String>, Fault> {
        if !self.takes(line) {
            return Ok(None);
        }
        self.add(alloc, line.keyword, line.words)?;
        if !self.asks {
            return Ok(None);
        }
        Ok(Some(last_answer(rt, alloc, random, self.lines.as_slice())?))
    }

    // Whether a line is one of those that are asked once more. A key or a text is looked for in a host that is not shared alone, and changes
    // nothing; no record is enrolled in a host once it is shared, and none of its peers is a whole host.
    fn takes(&mut self, line: Line<'_>) -> bool {
        match line.keyword {
            "key" | "text" => false,
            "enrol" => self.goes_on_where(!self.asks),
            "ask" => self.asks_where(true),
            "with" => self.asks_where(!line.words.rest().unwrap_or("").contains("/host:")),
            _ => self.goes_on_where(false),
        }
    }

    fn asks_where(&mut self, fits: bool) -> bool {
        self.asks = true;
        self.goes_on_where(fits)
    }

    fn goes_on_where(&mut self, fits: bool) -> bool {
        self.goes_on = self.goes_on && fits;
        self.goes_on
    }

    fn add(&mut self, alloc: Global, keyword: &str, words: Words<'_>) -> Result<(), Fault> {
        let rest = words.some()?;
        self.lines.push(format!(in alloc; "{keyword} {rest}")?)?;
        Ok(())
    }
}

// What the last line is answered by a host that is shared.
fn last_answer<R: Wait>(
    rt: &R,
    alloc: Global,
    random: RandomState,
    lines: &[String],
) -> Result<String, Fault> {
    let host = host_of(alloc, random, lines)?;
    let (shared, mut seats) = host.into_shared(alloc)?;
    let answered = shared_answer(rt, alloc, &shared, &mut seats, lines);
    drop(seats);
    drop(shared);
    answered
}

// The host that the first line opens, with those that enrol.
fn host_of(alloc: Global, random: RandomState, lines: &[String]) -> Result<Host<MemDisk>, Fault> {
    let Some(first) = lines.first() else {
        return Err(Fault::BadLine);
    };
    let mut host = opened(alloc, random, first.as_str())?;
    match enrol_all(alloc, &mut host, lines) {
        Ok(()) => Ok(host),
        Err(fault) => {
            drop(host);
            Err(fault)
        }
    }
}

fn opened(alloc: Global, random: RandomState, line: &str) -> Result<Host<MemDisk>, Fault> {
    let mut words = Words::new(line);
    words.word()?;
    let mut answer = Answer::new(alloc);
    let host = new_host(alloc, random, words, &mut answer);
    drop(answer);
    host?.ok_or(Fault::BadLine)
}

fn enrol_all(alloc: Global, host: &mut Host<MemDisk>, lines: &[String]) -> Result<(), Fault> {
    for line in lines {
        enrol_one(alloc, host, line.as_str())?;
    }
    Ok(())
}

fn enrol_one(alloc: Global, host: &mut Host<MemDisk>, line: &str) -> Result<(), Fault> {
    let mut words = Words::new(line);
    if words.word()? != "enrol" {
        return Ok(());
    }
    let mut answer = Answer::new(alloc);
    let enrolled = enrol_line(alloc, host, words, &mut answer);
    drop(answer);
    enrolled
}

// Asks all lines that ask, and gives the last answer.
fn shared_answer<R: Wait>(
    rt: &R,
    alloc: Global,
    shared: &Shared<MemDisk>,
    seats: &mut Seats<MemDisk>,
    lines: &[String],
) -> Result<String, Fault>
    requires { AreSeats shared.now seats.old }
{
    let mut caller = Caller { rt, shared, seats };
    ask_all(alloc, &mut caller, lines)
}

fn ask_all<S: Served>(alloc: Global, host: &mut S, lines: &[String]) -> Result<String, Fault> {
    let mut last = String::new(alloc);
    for line in lines {
        last = answer_of(alloc, host, line.as_str())?;
    }
    Ok(last)
}

fn answer_of<S: Served>(alloc: Global, host: &mut S, line: &str) -> Result<String, Fault> {
    let mut answer = Answer::new(alloc);
    match ask_line(alloc, host, line, &mut answer) {
        Ok(()) => Ok(answer.finish()?),
        Err(fault) => {
            drop(answer);
            Err(fault)
        }
    }
}

fn ask_line<S: Served>(
    alloc: Global,
    host: &mut S,
    line: &str,
    answer: &mut Answer,
) -> Result<(), Fault> {
    let mut words = Words::new(line);
    match words.word()? {
        "ask" => {
            let mut nobody = Peers::new(alloc);
            let asked = ask(alloc, host, &mut nobody, words, answer);
            drop(nobody);
            asked
        }
        "with" => {
            let (peers, asks) = cut_asks(words.some()?)?;
            ask_with(alloc, host, told_in_memory(alloc, peers)?, asks, answer)
        }
        _ => Ok(()),
    }
}
