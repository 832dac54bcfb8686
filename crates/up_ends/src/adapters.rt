//! Sources and sinks over the readers and writers of std.
ghost use Rattle.std.specs.Prelude.{◌≡◌, ◌<◌, length, is_err, if◌then◌else◌, IfOk, IsErr};
ghost use Rattle.std.specs.Io.{ReadsAtMost, WritesAtMost};
ghost use Rattle.std.specs.Io.KnownBytes.{ReadConsumes, WriteAppends};
ghost use Rattle.up_lists.specs.Counts.{count_after, HasCause, StaysUnless};
ghost use Rattle.up_ends.specs.Sources.{CountsGiven};

use crate::ends::{Sink, Source};
use crate::fault::Failed;
use std::io::{Read, Write};
use std::marker::Model;

/// A source over a reader of std. It tells what the reader tells. Each error of the reader is a fault.
#[derive(Drop)]
pub struct StdSource<R: Read> {
    reader: R,
    given: u64,
    faults: u64,
}

impl<R: Read> Model for StdSource<R> {
    ghost use Rattle.up_ends.specs.Sources.{CountedReader};

    ghost Value = { CountedReader R };

    ghost view = { λ s. record { reader = s.reader; given = s.given; faults = s.faults } };
}

impl<R: Read> StdSource<R> {
    /// A source that has given nothing yet.
    pub fn new(reader: R) -> Self
        ensures { result ≡ record { reader = reader; given = 0; faults = 0 } }
    {
        StdSource {
            reader,
            given: 0,
            faults: 0,
        }
    }

    /// How many reads failed so far. A count that stands at 2^64 - 1 stays there.
    pub fn faults(&self) -> u64
        ensures { result ≡ self.now.faults }
    {
        self.faults
    }
}

impl<R: Read> Source for StdSource<R> {
    ghost left = { λ s. R.remaining s.reader };

    ghost given = { λ s. s.given };

    ghost faults = { λ s. s.faults };

    fn read(&mut self, buf: &mut [u8]) -> Result<usize, Failed>
        ensures bound { ReadsAtMost result buf.new }
        ensures bytes { ReadConsumes (R.remaining self.old.reader) (R.remaining self.new.reader)
            result buf.new }
        ensures counted { CountsGiven self.old.given self.new.given result }
        // A fault is one error of the reader.
        ensures faults { self.new.faults ≡
            (if is_err result then count_after self.old.faults 1 else self.old.faults) }
        ensures cause { HasCause self.old.faults self.new.faults (IsErr result) }
        ensures quiet { StaysUnless self.old.faults self.new.faults (IsErr result) }
    {
        match self.reader.read(buf) {
            Ok(n) => {
                self.given = self.given.saturating_add(n as u64);
                Ok(n)
            }
            Err(_) => {
                self.faults = self.faults.saturating_add(1);
                Err(Failed)
            }
        }
    }
}

/// A sink over a writer of std. It tells what the writer tells. Each error of the writer is a fault, and
/// so is a write of nothing where the piece is not empty.
#[derive(Drop)]
pub struct StdSink<W: Write> {
    writer: W,
    faults: u64,
}

impl<W: Write> Model for StdSink<W> {
    ghost use Rattle.up_ends.specs.Sinks.{CountedWriter};

    ghost Value = { CountedWriter W };

    ghost view = { λ s. record { writer = s.writer; faults = s.faults } };
}

impl<W: Write> StdSink<W> {
    /// A sink to which nothing was written yet.
    pub fn new(writer: W) -> Self
        ensures { result ≡ record { writer = writer; faults = 0 } }
    {
        StdSink { writer, faults: 0 }
    }

    /// How many writes failed so far. A count that stands at 2^64 - 1 stays there.
    pub fn faults(&self) -> u64
        ensures { result ≡ self.now.faults }
    {
        self.faults
    }
}

impl<W: Write> Sink for StdSink<W> {
    ghost held = { λ s. W.contents s.writer };

    ghost faults = { λ s. s.faults };

    fn write(&mut self, piece: &[u8]) -> Result<usize, Failed>
        ensures bound { WritesAtMost result piece.now }
        ensures some { IfOk result (λ n. 0 < length piece.now → 0 < n) }
        ensures bytes { WriteAppends (W.contents self.old.writer) (W.contents self.new.writer)
            result piece.now }
        // A fault is one error of the writer, or one write of nothing.
        ensures faults { self.new.faults ≡
            (if is_err result then count_after self.old.faults 1 else self.old.faults) }
        ensures cause { HasCause self.old.faults self.new.faults (IsErr result) }
        ensures quiet { StaysUnless self.old.faults self.new.faults (IsErr result) }
    {
        match self.writer.write(piece) {
            Ok(n) if n > 0 || piece.is_empty() => return Ok(n),
            _ => self.faults = self.faults.saturating_add(1),
        }
        Err(Failed)
    }
}
