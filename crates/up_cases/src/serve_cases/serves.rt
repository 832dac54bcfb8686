//! A server that is opened over disks in memory, and logs that are moved. A line is a case of its own: commands, parted by `; `, and so are
//! their answers.
ghost use Rattle.up_serve.specs.Serving.{AreServeLimits};

use crate::serve_cases::plans::{add_plan, words_of};
use std::alloc::{AllocError, Global};
use std::hash::RandomState;
use std::mem;
use up_case_lines::{Answer, Fault, Topic, Words, bytes_of, user_of};
use up_disk::{Disk, DiskFault, Disks, MemDisk};
use up_ends::{MemSink, MemSource};
use up_host::Host;
use up_journal::{Limits, Moved};
use up_lists::Items;
use up_serve::{ServeFault, ServePlan, serve_move, serve_open, serve_within, serve_words};

/// How many bytes a line may write to a disk.
const MOST_BYTES: u64 = 1_048_576;

/// Lines about servers. Names are hashed with these keys.
#[derive(Clone, Copy)]
pub struct Serves {
    random: RandomState,
}

impl Serves {
    pub fn new(random: RandomState) -> Serves {
        Serves { random }
    }
}

impl Topic for Serves {
    fn turn(&mut self, alloc: Global, line: &str, answer: &mut Answer) -> Result<(), Fault> {
        let mut server = Server::new(alloc, self.random);
        for command in line.split("; ") {
            server.turn(alloc, Words::new(command), answer)?;
        }
        Ok(())
    }
}

// A server: its words, its disks, the text of users to be enrolled, and which calls fail.
#[derive(Drop)]
struct Server {
    random: RandomState,
    words: Vec<String>,
    limits: Option<Limits>,
    disk_fails: Vec<DiskFault>,
    disks: Vec<MemDisk>,
    text: Vec<u8>,
    source_fails: Vec<u64>,
    sink_fails: Vec<u64>,
}

impl Server {
    fn new(alloc: Global, random: RandomState) -> Server {
        Server {
            random,
            words: Vec::new(alloc),
            limits: None,
            disk_fails: Vec::new(alloc),
            disks: Vec::new(alloc),
            text: Vec::new(alloc),
            source_fails: Vec::new(alloc),
            sink_fails: Vec::new(alloc),
        }
    }

    // Does one command. `words WORDS` are the words, and answers what they say; `limits R D L` are the limits of trees and keys, in place
    // of the program's; `fail I CALL` has a call of the disk at a place fail, both from 0; `disks N` makes so many; `write I BYTES` fills
    // one and syncs it; `text BYTES` adds to the text of users; `source N` and `sink N` have such a call of an end fail.
    fn turn(
        &mut self,
        alloc: Global,
        mut words: Words<'_>,
        answer: &mut Answer,
    ) -> Result<(), Fault> {
        match words.word()? {
            "words" => {
                answer.part();
                self.words = words_of(alloc, words.rest())?;
                add_plan(alloc, &self.words, answer)
            }
            "limits" => self.set_limits(words),
            "fail" => self.add_fail(words.two_numbers()?),
            "disks" => self.make_disks(alloc, words.last_number()?),
            "write" => self.fill(alloc, words),
            "text" => self.add_text(alloc, words.one()?),
            "source" => push(&mut self.source_fails, words.last_number()?),
            "sink" => push(&mut self.sink_fails, words.last_number()?),
            keyword => self.ask(alloc, keyword, words, answer),
        }
    }

    // `serve USERS` opens the server, and answers the keys of these users; `move I` moves the log of disk 0 to disk 1, at a place among the
    // logs. A server that does not open answers its status, and what was printed; its disks stand in their places for the next one.
    fn ask(
        &mut self,
        alloc: Global,
        keyword: &str,
        mut words: Words<'_>,
        answer: &mut Answer,
    ) -> Result<(), Fault> {
        answer.part();
        match keyword {
            "serve" => self.serve(alloc, words.rest(), answer),
            "move" => self.move_log(alloc, words.last_number()?, answer),
            _ => Err(Fault::BadLine),
        }
    }

    fn set_limits(&mut self, mut words: Words<'_>) -> Result<(), Fault> {
        let records = words.number()?;
        let (device, largest) = words.two_numbers()?;
        self.limits = Some(Limits {
            records,
            device,
            largest,
        });
        Ok(())
    }

    fn add_fail(&mut self, place: (u64, u64)) -> Result<(), Fault> {
        let (disk, call) = place;
        self.disk_fails.push(DiskFault { disk, call })?;
        Ok(())
    }

    fn make_disks(&mut self, alloc: Global, count: u64) -> Result<(), Fault> {
        for place in 0..count {
            let fails = fails_of(alloc, &self.disk_fails, place)?;
            self.disks.push(MemDisk::new(alloc, fails))?;
        }
        Ok(())
    }

    fn fill(&mut self, alloc: Global, mut words: Words<'_>) -> Result<(), Fault> {
        let place = words.number()?;
        let bytes = bytes_of(alloc, words.one()?)?;
        if bytes.len() > MOST_BYTES {
            return Err(Fault::BadLine);
        }
        let Some(disk) = self.disks.get_mut(place as usize) else {
            return Err(Fault::BadLine);
        };
        let _ = disk.write_at(0, bytes.as_slice());
        let _ = disk.sync();
        Ok(())
    }

    fn add_text(&mut self, alloc: Global, word: &str) -> Result<(), Fault> {
        self.text
            .extend_from_slice(bytes_of(alloc, word)?.as_slice())?;
        Ok(())
    }

    fn serve(
        &mut self,
        alloc: Global,
        users: Option<&str>,
        answer: &mut Answer,
    ) -> Result<(), Fault> {
        let text = mem::replace(&mut self.text, Vec::new(alloc));
        let mut source = MemSource::new(
            text,
            Items::new(alloc),
            copied(alloc, &self.source_fails)?,
        );
        let mut sink = MemSink::new(alloc, copied(alloc, &self.sink_fails)?);
        let disks = self.take_disks(alloc)?;
        match self.open(alloc, disks, &mut source, &mut sink)? {
            Ok(host) => {
                add_keys(alloc, &host, users, answer)?;
                self.keep(host.into_disks())?;
            }
            Err(fault) => {
                let ServeFault { status, disks } = fault;
                add_status(status, &sink, answer);
                self.keep(disks)?;
            }
        }
        Ok(())
    }

    fn open(
        &self,
        alloc: Global,
        disks: Disks<MemDisk>,
        source: &mut MemSource,
        sink: &mut MemSink,
    ) -> Result<Result<Host<MemDisk>, ServeFault<MemDisk>>, Fault> {
        let Some(plan) = serve_words(alloc, &self.words)? else {
            return Ok(serve_open(alloc, self.random, &self.words, disks, source, sink));
        };
        if disks.len() != plan.trees.len().saturating_add(2) {
            return Err(Fault::BadLine);
        }
        match self.limits {
            None => Ok(serve_open(alloc, self.random, &self.words, disks, source, sink)),
            Some(limits) => {
                let limits = fit(limits);
                Ok(serve_within(alloc, self.random, limits, plan, disks, source, sink))
            }
        }
    }

    fn take_disks(&mut self, alloc: Global) -> Result<Disks<MemDisk>, Fault> {
        let mut disks = Disks::new(alloc);
        for disk in mem::replace(&mut self.disks, Vec::new(alloc)) {
            disks.push(disk)?;
        }
        Ok(disks)
    }

    fn keep(&mut self, disks: Disks<MemDisk>) -> Result<(), Fault> {
        let mut disks = disks;
        for _ in 0..disks.len() {
            if let Some(disk) = disks.take() {
                self.disks.push(disk)?;
            }
        }
        Ok(())
    }

    // The limits that were set, or the program's.
    fn limits(&self) -> Limits
        ensures { AreServeLimits result }
    {
        match self.limits {
            Some(limits) => fit(limits),
            None => Limits {
                records: 1_048_576,
                device: 1_073_741_824,
                largest: 131_072,
            },
        }
    }

    fn move_log(&mut self, alloc: Global, which: u64, answer: &mut Answer) -> Result<(), Fault> {
        let limits = self.limits();
        let mut sink = MemSink::new(alloc, copied(alloc, &self.sink_fails)?);
        let Some((old, others)) = self.disks.split_first_mut() else {
            return Err(Fault::BadLine);
        };
        let Some(new) = others.first_mut() else {
            return Err(Fault::BadLine);
        };
        match serve_move(alloc, old, new, which, limits, &mut sink) {
            Ok(Moved::Already) => answer.word("already"),
            Ok(Moved::Copied(records)) => {
                answer.word("copied");
                answer.number(records);
            }
            Err(status) => add_status(status, &sink, answer),
        }
        Ok(())
    }
}

// Limits that a server may have.
fn fit(limits: Limits) -> Limits
    ensures { AreServeLimits result }
{
    Limits {
        records: limits.records,
        device: limits.device.min(4_611_686_018_427_387_904),
        largest: limits.largest.clamp(8_192, 1_048_000),
    }
}

fn fails_of(alloc: Global, fails: &[DiskFault], place: u64) -> Result<Items<u64>, AllocError> {
    let mut calls = Items::new(alloc);
    for fail in fails {
        if fail.disk == place {
            calls.push(fail.call)?;
        }
    }
    Ok(calls)
}

fn copied(alloc: Global, numbers: &[u64]) -> Result<Items<u64>, AllocError> {
    Ok(Items::from_vec(numbers.to_vec(alloc)?))
}

fn push(numbers: &mut Vec<u64>, number: u64) -> Result<(), Fault> {
    numbers.push(number)?;
    Ok(())
}

fn add_status(status: u8, sink: &MemSink, answer: &mut Answer) {
    answer.word("status");
    answer.number(u64::from(status));
    if !sink.bytes().is_empty() {
        answer.word("prints");
        answer.coded(sink.bytes());
    }
}

// That there is a host, and the keys of these users.
fn add_keys(
    alloc: Global,
    host: &Host<MemDisk>,
    users: Option<&str>,
    answer: &mut Answer,
) -> Result<(), Fault> {
    answer.word("host");
    let Some(users) = users else {
        return Ok(());
    };
    for user in users.split(' ') {
        let user = user_of(alloc, user)?;
        match host.key_record(&user) {
            Some(card) => answer.coded(card.key.as_slice()),
            None => answer.word("none"),
        }
    }
    Ok(())
}
