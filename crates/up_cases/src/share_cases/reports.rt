//! A report over disks in memory.
use std::alloc::{AllocError, Global};
use std::hash::RandomState;
use up_case_lines::{Answer, Fault, Words};
use up_disk::{Disk, Disks, MemDisk};
use up_ends::MemSink;
use up_lists::Items;
use up_share::share_run;

/// The disk that is reported on, and what is amiss with it: one call of it that fails, one call of the sink, and how many disks there
/// are.
#[derive(Drop)]
pub struct Report {
    alloc: Global,
    pub disk: Option<MemDisk>,
    fail: Option<u64>,
    sink: Option<u64>,
    disks: u64,
}

impl Report {
    pub fn new(alloc: Global) -> Report {
        Report {
            alloc,
            disk: None,
            fail: None,
            sink: None,
            disks: 1,
        }
    }

    /// `fail N`: call N of the disk fails, from 0; `sink N`: call N of the sink; `disks N`: there are so many disks, the others empty.
    pub fn turn(&mut self, line: &str) -> Result<(), Fault> {
        let mut words = Words::new(line);
        let keyword = words.word()?;
        let number = words.last_number()?;
        match keyword {
            "fail" => self.fail = Some(number),
            "sink" => self.sink = Some(number),
            _ => self.disks = number,
        }
        Ok(())
    }

    /// Reports on the disk by these words, and answers the status, what was printed, and how many disks there are then.
    pub fn run(
        &mut self,
        alloc: Global,
        random: RandomState,
        words: Option<&str>,
        answer: &mut Answer,
    ) -> Result<(), Fault> {
        let words = words_of(alloc, words)?;
        let mut disks = self.all_disks()?;
        let mut sink = MemSink::new(alloc, one(alloc, self.sink)?);
        let status = share_run(alloc, random, &words, &mut sink, &mut disks);
        answer.word("status");
        answer.number(u64::from(status));
        answer.word("disks");
        answer.number(disks.len());
        if !sink.bytes().is_empty() {
            answer.word("prints");
            answer.coded(sink.bytes());
        }
        self.disk = disks.take();
        Ok(())
    }

    // The disk, with the call that fails, and empty ones behind it.
    fn all_disks(&mut self) -> Result<Disks<MemDisk>, Fault> {
        let mut disks = Disks::new(self.alloc);
        if self.disks == 0 {
            return Ok(disks);
        }
        let Some(disk) = self.disk.take() else {
            return Err(Fault::BadLine);
        };
        disks.push(failing(self.alloc, disk, self.fail)?)?;
        for _other in 1..self.disks {
            disks.push(MemDisk::new(self.alloc, Items::new(self.alloc)))?;
        }
        Ok(disks)
    }
}

// A disk of the same bytes, of which a call fails.
fn failing(alloc: Global, disk: MemDisk, fail: Option<u64>) -> Result<MemDisk, Fault> {
    let Some(call) = fail else {
        return Ok(disk);
    };
    let mut disk = disk;
    let mut bytes = Vec::new(alloc);
    bytes.resize(disk.size() as usize, 0)?;
    let _ = disk.read(0, &mut bytes);
    drop(disk);
    // Filling a disk takes two calls.
    let fails = one(alloc, Some(call.saturating_add(2)))?;
    Ok(filled(alloc, &bytes, fails))
}

/// A disk of these bytes, synced.
pub fn filled(alloc: Global, bytes: &[u8], fails: Items<u64>) -> MemDisk {
    let mut disk = MemDisk::new(alloc, fails);
    if bytes.len() <= 1_048_576 {
        let _ = disk.write_at(0, bytes);
        let _ = disk.sync();
    }
    disk
}

/// A list of a number, where there is one.
pub fn one(alloc: Global, number: Option<u64>) -> Result<Items<u64>, AllocError> {
    let mut numbers = Items::new(alloc);
    if let Some(number) = number {
        numbers.push(number)?;
    }
    Ok(numbers)
}

// Words, each as a text of its own; none of no text.
fn words_of(alloc: Global, text: Option<&str>) -> Result<Vec<String>, AllocError> {
    let mut words = Vec::new(alloc);
    if let Some(text) = text {
        for word in text.split(' ') {
            add_word(alloc, &mut words, word)?;
        }
    }
    Ok(words)
}

fn add_word(alloc: Global, words: &mut Vec<String>, word: &str) -> Result<(), AllocError> {
    words.push(word.to_string(alloc)?)?;
    Ok(())
}
