//! A client that waits for what it is answered before it says more, and a connection to it.
ghost use Rattle.std.specs.Prelude.{◌≡◌, ◌<◌, length, IsErr, IfOk, None, Some};
ghost use Rattle.std.specs.Io.{ReadsAtMost, WritesAtMost};
ghost use Rattle.std.specs.Io.KnownBytes.{ReadConsumes, WriteAppends};
ghost use Rattle.up_ends.specs.Sources.{CountsGiven};
ghost use Rattle.up_lists.specs.Counts.{HasCause, StaysUnless};

use crate::host_cases::talking::{add_end, yes_connection};
use crate::host_cases::words::cut;
use std::alloc::{AllocError, Global};
use std::cell::Cell;
use up_case_lines::{Answer, Fault, Words, bytes_of_digits, number_of};
use up_disk::MemDisk;
use up_ends::{Failed, MemSink, MemSource, Sink, Source};
use up_host::Host;
use up_lists::Items;

/// The source of a client that waits: each read gives its next piece, but only once as many bytes were written to it as that piece
/// waits for. Before that it gives nothing, as a client does that has gone. It tells nothing of its bytes.
#[derive(Drop)]
struct Waiting<'a> {
    source: MemSource,
    // of each piece, how many bytes are to be written before it, in order
    needs: Vec<u64>,
    next: usize,
    written: &'a Cell<u64>,
}

impl<'a> Waiting<'a> {
    // Whether the next piece waits for more than was written.
    fn waits(&self) -> bool {
        match self.needs.get(self.next) {
            Some(need) => *need > self.written.get(),
            None => false,
        }
    }
}

impl<'a> Source for Waiting<'a> {
    ghost left = { λ s. None };

    ghost given = { λ s. s.source.given };

    ghost faults = { λ s. s.source.plan.faults };

    fn read(&mut self, buf: &mut [u8]) -> Result<usize, Failed>
        ensures bound { ReadsAtMost result buf.new }
        ensures bytes { ReadConsumes None None result buf.new }
        ensures counted { CountsGiven self.old.source.given self.new.source.given result }
        ensures cause { HasCause self.old.source.plan.faults self.new.source.plan.faults
            (IsErr result) }
        ensures quiet { StaysUnless self.old.source.plan.faults self.new.source.plan.faults
            (IsErr result) }
    {
        if self.waits() {
            return Ok(0);
        }
        self.next = self.next.saturating_add(1);
        self.source.read(buf)
    }
}

/// The sink of a client that waits: it counts what was written.
#[derive(Drop)]
struct Counting<'a> {
    sink: MemSink,
    written: &'a Cell<u64>,
}

impl<'a> Sink for Counting<'a> {
    ghost held = { λ s. Some s.sink.held };

    ghost faults = { λ s. s.sink.plan.faults };

    fn write(&mut self, piece: &[u8]) -> Result<usize, Failed>
        ensures bound { WritesAtMost result piece.now }
        ensures some { IfOk result (λ n. 0 < length piece.now → 0 < n) }
        ensures bytes { WriteAppends (Some self.old.sink.held) (Some self.new.sink.held)
            result piece.now }
        ensures cause { HasCause self.old.sink.plan.faults self.new.sink.plan.faults
            (IsErr result) }
        ensures quiet { StaysUnless self.old.sink.plan.faults self.new.sink.plan.faults
            (IsErr result) }
    {
        match self.sink.write(piece) {
            Ok(count) => {
                self.written
                    .set(self.written.get().saturating_add(count as u64));
                Ok(count)
            }
            Err(failed) => Err(failed),
        }
    }
}

/// What a client says that waits: its bytes, how many of them each piece has, and how many are to be written before it.
#[derive(Drop)]
struct Said {
    bytes: Vec<u8>,
    sizes: Vec<u64>,
    needs: Vec<u64>,
}

/// `waits NAME NEED:BYTES ..`: how the connection ends on which a client says each of these only once so many bytes were written to it,
/// and what is written.
pub fn waits_line(
    alloc: Global,
    host: &mut Host<MemDisk>,
    words: Words<'_>,
    answer: &mut Answer,
) -> Result<(), Fault> {
    let mut said = Said {
        bytes: Vec::new(alloc),
        sizes: Vec::new(alloc),
        needs: Vec::new(alloc),
    };
    match add_all(alloc, words, &mut said) {
        Ok(()) => wait(alloc, host, said, answer),
        Err(fault) => {
            drop(said);
            Err(fault)
        }
    }
}

fn add_all(alloc: Global, words: Words<'_>, said: &mut Said) -> Result<(), Fault> {
    for word in words.some()?.split(' ') {
        add_piece(alloc, word, said)?;
    }
    Ok(())
}

fn add_piece(alloc: Global, word: &str, said: &mut Said) -> Result<(), Fault> {
    let (need, digits) = cut(word, ':')?;
    said.needs.push(number_of(need)?)?;
    let bytes = bytes_of_digits(alloc, digits)?;
    let added = add_bytes(bytes.as_slice(), said);
    drop(bytes);
    Ok(added?)
}

fn add_bytes(bytes: &[u8], said: &mut Said) -> Result<(), AllocError> {
    said.bytes.extend_from_slice(bytes)?;
    said.sizes.push(bytes.len() as u64)?;
    Ok(())
}

fn wait(
    alloc: Global,
    host: &mut Host<MemDisk>,
    said: Said,
    answer: &mut Answer,
) -> Result<(), Fault> {
    let Said {
        bytes,
        sizes,
        needs,
    } = said;
    let written = Cell::new(0);
    let mut source = Waiting {
        source: MemSource::new(bytes, Items::from_vec(sizes), Items::new(alloc)),
        needs,
        next: 0,
        written: &written,
    };
    let mut sink = Counting {
        sink: MemSink::new(alloc, Items::new(alloc)),
        written: &written,
    };
    let end = yes_connection(alloc, host, &mut source, &mut sink);
    drop(source);
    add_end(end, answer);
    answer.digits(sink.sink.bytes());
    drop(sink);
    Ok(())
}
