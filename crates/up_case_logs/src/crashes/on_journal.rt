//! Commands of a journal.
ghost use Rattle.std.specs.Prelude.{◌≡◌};

use super::add_counted;
use super::on_disk::add_outcome;
use super::watched::Watched;
use std::alloc::Global;
use up_bytes::Bytes;
use up_case_lines::{Answer, Fault, Words, bytes_of};
use up_journal::{AppendWhy, Journal, Limits, OpenWhy, ReadWhy};

/// The limits with which images are opened.
const IMAGE_LIMITS: Limits = Limits {
    records: 1_000,
    device: 1 << 20,
    largest: 255,
};

/// A journal, and the limits that it was opened with.
#[derive(Drop)]
pub struct Running {
    pub journal: Journal<Watched>,
    pub limits: Limits,
    ghost same: { journal.limits ≡ limits },
}

/// Does one command of a journal, or answers `false` where it is none.
pub fn turn(
    alloc: Global,
    running: &mut Running,
    mut words: Words<'_>,
    answer: &mut Answer,
) -> Result<bool, Fault> {
    match words.word()? {
        "append" => append_line(alloc, running, 1, words, answer)?,
        "fill" => append_line(alloc, running, words.number()?, words, answer)?,
        "payload" => payload_line(running, words.last_number()?, answer),
        "resolve" => add_outcome(running.journal.resolve(), answer),
        "log" => running.add_log(answer),
        "head" => answer.digits(running.journal.head().bytes()),
        _ => return Ok(false),
    }
    Ok(true)
}

// `append BYTES`, and `fill N BYTES`, which appends these bytes so many times and answers for the last time.
fn append_line(
    alloc: Global,
    running: &mut Running,
    count: u64,
    mut words: Words<'_>,
    answer: &mut Answer,
) -> Result<(), Fault> {
    let payload = bytes_of(alloc, words.one()?)?;
    running.fill(count, payload.as_slice(), answer);
    Ok(())
}

// `payload N`: the payload of record N.
fn payload_line(running: &mut Running, n: u64, answer: &mut Answer) {
    answer.begin();
    running.add_payload(n, answer);
}

impl Running {
    /// Appends a payload so many times, and says what came of the last time.
    pub fn fill(&mut self, count: u64, payload: &[u8], answer: &mut Answer) {
        let mut last = None;
        for _ in 0..count {
            last = self.append(payload);
        }
        match last {
            Some(outcome) => add_appended(outcome, answer),
            None => answer.word("too large"),
        }
    }

    // Appends a payload, or `None` where it is larger than a payload may be.
    fn append(&mut self, payload: &[u8]) -> Option<Result<u64, AppendWhy>> {
        if payload.len() as u64 > self.limits.largest {
            return None;
        }
        Some(self.journal.append(payload))
    }

    /// The payload of record `n`, or `None` where there is none.
    pub fn payload(&mut self, n: u64) -> Option<Result<Bytes, ReadWhy>> {
        if n == 0 || n > self.journal.len() {
            return None;
        }
        Some(self.journal.payload(n))
    }

    // The number of records, the bytes of the log, and the payloads.
    fn add_log(&mut self, answer: &mut Answer) {
        add_counted("records", self.journal.len(), answer);
        answer.push(",");
        add_counted("bytes", self.journal.bytes(), answer);
        answer.push(":");
        self.add_payloads(answer);
    }

    // A word of all payloads, in order.
    fn add_payloads(&mut self, answer: &mut Answer) {
        answer.begin();
        if self.journal.is_empty() {
            answer.push("empty");
        }
        for n in 0..self.journal.len() {
            answer.push(if n == 0 { "" } else { "," });
            self.add_payload(n.saturating_add(1), answer);
        }
    }

    // The payload of record `n`.
    fn add_payload(&mut self, n: u64, answer: &mut Answer) {
        match self.payload(n) {
            Some(Ok(bytes)) => answer.field(bytes.as_slice()),
            Some(Err(ReadWhy::Fault)) => answer.push("fault"),
            Some(Err(ReadWhy::OutOfMemory)) => answer.push("out of memory"),
            None => answer.push("none"),
        }
    }
}

/// Adds what came of an append.
pub fn add_appended(outcome: Result<u64, AppendWhy>, answer: &mut Answer) {
    match outcome {
        Ok(position) => add_counted("ok", position, answer),
        Err(AppendWhy::Full(records)) => add_counted("full", records, answer),
        Err(AppendWhy::Fault) => answer.word("fault"),
        Err(AppendWhy::OutOfMemory) => answer.word("out of memory"),
    }
}

/// Adds why a device was not opened.
pub fn add_open_fault(why: OpenWhy, answer: &mut Answer) {
    match why {
        OpenWhy::Damaged(gate) => add_counted("damaged", gate, answer),
        OpenWhy::Chain(gate, wanted, got) => {
            add_counted("chain", gate, answer);
            answer.digits(wanted.bytes());
            answer.digits(got.bytes());
        }
        OpenWhy::OldFormat => answer.word("oldformat"),
        OpenWhy::Fault => answer.word("fault"),
        OpenWhy::OutOfMemory => answer.word("out of memory"),
    }
}

/// Adds the payloads on a disk, or why it is refused.
pub fn add_log_of(alloc: Global, disk: Watched, answer: &mut Answer) {
    let limits = IMAGE_LIMITS;
    match Journal::open(alloc, disk, limits) {
        Ok(journal) => Running { journal, limits }.add_payloads(answer),
        Err(fault) => add_open_fault(fault.why, answer),
    }
}
