//! Audits over disks in memory. A line is a case of its own: commands, parted by `; `, and so are their answers.
use std::alloc::{AllocError, Global};
use std::mem;
use up_audit::audit_run;
use up_case_lines::{Answer, Fault, Topic, Words, bytes_of};
use up_disk::{Disk, DiskFault, Disks, MemDisk};
use up_ends::MemSink;
use up_lists::Items;

/// How many bytes a line may write to a disk.
const MOST_BYTES: u64 = 1_048_576;

/// Lines about audits. They keep nothing.
#[derive(Clone, Copy)]
pub struct Audits;

impl Topic for Audits {
    fn turn(&mut self, alloc: Global, line: &str, answer: &mut Answer) -> Result<(), Fault> {
        let mut logs = Logs::new(alloc);
        for command in line.split("; ") {
            logs.turn(alloc, Words::new(command), answer)?;
        }
        Ok(())
    }
}

// The disks of a stopped server, and which calls fail.
#[derive(Drop)]
struct Logs {
    disk_fails: Vec<DiskFault>,
    disks: Vec<MemDisk>,
    sink_fails: Vec<u64>,
}

impl Logs {
    fn new(alloc: Global) -> Logs {
        Logs {
            disk_fails: Vec::new(alloc),
            disks: Vec::new(alloc),
            sink_fails: Vec::new(alloc),
        }
    }

    // Does one command. `fail I CALL` has a call of the disk at a place fail, both from 0 (all but `size` count); `disks N` makes so many
    // empty ones; `write I BYTES` fills one and syncs it: two calls; `sink N` has such a call of the sink fail; `audit WORDS` audits, and
    // answers the status and what was printed; `sizes` answers how many bytes each disk has, in their places.
    fn turn(
        &mut self,
        alloc: Global,
        mut words: Words<'_>,
        answer: &mut Answer,
    ) -> Result<(), Fault> {
        match words.word()? {
            "fail" => self.add_fail(words.two_numbers()?),
            "disks" => self.make_disks(alloc, words.last_number()?),
            "write" => self.fill(alloc, words),
            "sink" => {
                self.sink_fails.push(words.last_number()?)?;
                Ok(())
            }
            "audit" => {
                answer.part();
                self.audit(alloc, words.rest(), answer)
            }
            "sizes" => {
                answer.part();
                self.add_sizes(answer);
                Ok(())
            }
            _ => Err(Fault::BadLine),
        }
    }

    fn add_fail(&mut self, place: (u64, u64)) -> Result<(), Fault> {
        let (disk, call) = place;
        self.disk_fails.push(DiskFault { disk, call })?;
        Ok(())
    }

    fn make_disks(&mut self, alloc: Global, count: u64) -> Result<(), Fault> {
        for place in 0..count {
            let fails = fails_of(alloc, &self.disk_fails, place)?;
            self.disks.push(MemDisk::new(alloc, fails))?;
        }
        Ok(())
    }

    fn fill(&mut self, alloc: Global, mut words: Words<'_>) -> Result<(), Fault> {
        let place = words.number()?;
        let bytes = bytes_of(alloc, words.one()?)?;
        self.write(place, bytes.as_slice())
    }

    fn write(&mut self, place: u64, bytes: &[u8]) -> Result<(), Fault> {
        if bytes.len() as u64 > MOST_BYTES {
            return Err(Fault::BadLine);
        }
        let Some(disk) = self.disks.get_mut(place as usize) else {
            return Err(Fault::BadLine);
        };
        let _ = disk.write_at(0, bytes);
        let _ = disk.sync();
        Ok(())
    }

    fn audit(
        &mut self,
        alloc: Global,
        words: Option<&str>,
        answer: &mut Answer,
    ) -> Result<(), Fault> {
        let words = words_of(alloc, words)?;
        let mut sink = MemSink::new(alloc, copied(alloc, &self.sink_fails)?);
        let mut disks = self.take_disks(alloc)?;
        let status = audit_run(alloc, &words, &mut sink, &mut disks);
        answer.word("status");
        answer.number(u64::from(status));
        if !sink.bytes().is_empty() {
            answer.word("prints");
            answer.coded(sink.bytes());
        }
        self.keep(disks)
    }

    fn take_disks(&mut self, alloc: Global) -> Result<Disks<MemDisk>, Fault> {
        let mut disks = Disks::new(alloc);
        for disk in mem::replace(&mut self.disks, Vec::new(alloc)) {
            disks.push(disk)?;
        }
        Ok(disks)
    }

    fn keep(&mut self, disks: Disks<MemDisk>) -> Result<(), Fault> {
        let mut disks = disks;
        for _ in 0..disks.len() {
            if let Some(disk) = disks.take() {
                self.disks.push(disk)?;
            }
        }
        Ok(())
    }

    fn add_sizes(&self, answer: &mut Answer) {
        answer.word("sizes");
        for disk in &self.disks {
            answer.number(disk.size());
        }
    }
}

fn fails_of(alloc: Global, fails: &[DiskFault], place: u64) -> Result<Items<u64>, AllocError> {
    let mut calls = Items::new(alloc);
    for fail in fails {
        if fail.disk == place {
            calls.push(fail.call)?;
        }
    }
    Ok(calls)
}

fn copied(alloc: Global, numbers: &[u64]) -> Result<Items<u64>, AllocError> {
    Ok(Items::from_vec(numbers.to_vec(alloc)?))
}

// Words, each as a text of its own; none of no text.
fn words_of(alloc: Global, text: Option<&str>) -> Result<Vec<String>, AllocError> {
    let mut words = Vec::new(alloc);
    if let Some(text) = text {
        for word in text.split(' ') {
            add_word(alloc, &mut words, word)?;
        }
    }
    Ok(words)
}

fn add_word(alloc: Global, words: &mut Vec<String>, word: &str) -> Result<(), AllocError> {
    words.push(word.to_string(alloc)?)?;
    Ok(())
}
