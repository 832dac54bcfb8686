//! The input: read piece by piece and cut into lines, each of which is run as soon as it is whole.
ghost use Rattle.std.specs.Prelude.{◌≡◌, ◌+◌, ◌-◌, ◌^◌, ◌<◌, ◌≤◌, ◌⊎◌, ◌++◌, [], length, vec_len, IfErr, IfOk, IsErrOf, OnOk};
ghost use Rattle.up_lists.specs.Counts.{HasCause, StaysUnless};
ghost use Rattle.up_command.specs.Statuses.{input_limit};
ghost use Rattle.up_terminal.specs.Lines.{IsLine};
ghost use Rattle.up_terminal.specs.Runs.{Means};
ghost use Rattle.up_terminal.specs.Sessions.{Closes, Goes, LineRan, code_by};

use crate::cutting::cut_line;
use crate::line_run::run_line;
use crate::stop::Stop;
use std::alloc::{AllocError, Global};
use std::marker::Model;
use up_client::Ask;
use up_ends::{Sink, Source};
use up_names::User;

/// How many bytes one read asks for.
const PIECE_SIZE: usize = 65_536;

/// The most bytes that a line may have.
const LINE_LIMIT: usize = 67_108_864;

/// How often the source is read at the most.
const MOST_READS: u64 = 1_099_511_627_776;

/// The line that is read, as far as it was, and its number, from 1.
///
/// It is fed the pieces of an input, and runs each line as soon as it is whole: once [`LineReader::take`] has returned, all that the lines
/// so far print is written, and no line waits. So nothing is left to be written when the next piece is read.
#[derive(Drop)]
pub struct LineReader {
    line: Vec<u8>,
    number: u64,
    // What a line prints; its memory is used again for the next one.
    out: Vec<u8>,
}

impl Model for LineReader {
    ghost use Rattle.up_terminal.specs.Sessions.{Reading};

    ghost Value = { Reading };

    ghost view = { λ reader. record {
      line = reader.line.items;
      number = reader.number;
    } };
}

impl LineReader {
    /// Nothing was read yet.
    pub fn new(alloc: Global) -> LineReader
        ensures { result ≡ record { line = []; number = 1 } }
    {
        LineReader {
            line: Vec::new(alloc),
            number: 1,
            out: Vec::new(alloc),
        }
    }

    // Adds bytes to the line, unless it grows too long.
    fn add(&mut self, bytes: &[u8]) -> Result<(), Stop>
        requires short { length self.old.line ≤ input_limit }
        ensures added { OnOk result (self.new
            ≡ record { line = self.old.line ++ bytes.now; number = self.old.number }) }
        ensures kinds { IfErr result (λ why. (why ≡ Stop.TooLong) ⊎ (why ≡ Stop.OutOfMemory)) }
        ensures long { IsErrOf result Stop.TooLong
            → input_limit < length self.old.line + length bytes.now }
        ensures short { (IsErrOf result Stop.TooLong → ⊥)
            → length self.old.line + length bytes.now ≤ input_limit }
    {
        if bytes.len() > LINE_LIMIT - self.line.len() {
            return Err(Stop::TooLong);
        }
        self.line.extend_from_slice(bytes)?;
        Ok(())
    }

    // Runs the line, and begins the next one.
    fn run<A: Ask, K: Sink>(
        &mut self,
        alloc: Global,
        user: &User,
        ask: &mut A,
        sink: &mut K,
    ) -> Result<(), Stop>
        requires number { self.old.number < 2 ^ 64 - 1 }
        ensures ran { LineRan A.answers user.now self.old.number (K.held sink.old) (K.held sink.new)
            ask.old self.old.line result ask.new }
        ensures formed { IsErrOf result Stop.TooLong → ⊥ }
        ensures next { OnOk result (self.new ≡ record { line = []; number = self.old.number + 1 }) }
        ensures ask_cause { HasCause (A.faults ask.old) (A.faults ask.new)
            (IsErrOf result Stop.AskFault) }
        ensures ask_quiet { StaysUnless (A.faults ask.old) (A.faults ask.new)
            (IsErrOf result Stop.AskFault) }
        ensures tie { A.tied ask.old ask.new }
        ensures sink_cause { HasCause (K.faults sink.old) (K.faults sink.new)
            (IsErrOf result Stop.WriteFault) }
        ensures sink_quiet { StaysUnless (K.faults sink.old) (K.faults sink.new)
            (IsErrOf result Stop.WriteFault) }
    {
        match run_line(
            alloc,
            user,
            &self.line,
            self.number,
            ask,
            sink,
            &mut self.out,
        ) {
            Ok(()) => {
                self.line.clear();
                self.number += 1;
                Ok(())
            }
            Err(why) => Err(why),
        }
    }

    // Adds the bytes that end the line, runs it, and begins the next one.
    fn finish<A: Ask, K: Sink>(
        &mut self,
        alloc: Global,
        user: &User,
        bytes: &[u8],
        ask: &mut A,
        sink: &mut K,
    ) -> Result<(), Stop>
        requires number { self.old.number < 2 ^ 64 - 1 }
        requires short { length self.old.line ≤ input_limit }
        ensures ran { LineRan A.answers user.now self.old.number (K.held sink.old) (K.held sink.new)
            ask.old (self.old.line ++ bytes.now) result ask.new }
        ensures short { (IsErrOf result Stop.TooLong → ⊥)
            → length self.old.line + length bytes.now ≤ input_limit }
        ensures next { OnOk result (self.new ≡ record { line = []; number = self.old.number + 1 }) }
        ensures ask_cause { HasCause (A.faults ask.old) (A.faults ask.new)
            (IsErrOf result Stop.AskFault) }
        ensures ask_quiet { StaysUnless (A.faults ask.old) (A.faults ask.new)
            (IsErrOf result Stop.AskFault) }
        ensures tie { A.tied ask.old ask.new }
        ensures sink_cause { HasCause (K.faults sink.old) (K.faults sink.new)
            (IsErrOf result Stop.WriteFault) }
        ensures sink_quiet { StaysUnless (K.faults sink.old) (K.faults sink.new)
            (IsErrOf result Stop.WriteFault) }
    {
        match self.add(bytes) {
            Ok(()) => self.run(alloc, user, ask, sink),
            Err(why) => Err(why),
        }
    }

    /// Runs all lines that the bytes end, writes what each prints before the next one is begun, and begins the next one with the rest.
    ///
    /// After an `Err` the session has ended, and what was written is as its status says.
    pub fn take<A: Ask, K: Sink>(
        &mut self,
        alloc: Global,
        user: &User,
        piece: &[u8],
        ask: &mut A,
        sink: &mut K,
    ) -> Result<(), Stop>
        requires number { self.old.number + length piece.now < 2 ^ 64 - 1 }
        requires line { IsLine self.old.line }
        ensures goes { Goes A.answers user.now (K.held sink.old) (K.held sink.new) ask.old
            (self.old.line ++ piece.now) self.old.number result ask.new self.new.line self.new.number }
        ensures line { OnOk result (IsLine self.new.line) }
        ensures number { OnOk result (self.new.number ≤ self.old.number + length piece.now) }
        ensures formed { IsErrOf result Stop.ReadFault → ⊥ }
        ensures ask_cause { HasCause (A.faults ask.old) (A.faults ask.new)
            (IsErrOf result Stop.AskFault) }
        ensures ask_quiet { StaysUnless (A.faults ask.old) (A.faults ask.new)
            (IsErrOf result Stop.AskFault) }
        ensures tie { A.tied ask.old ask.new }
        ensures sink_cause { HasCause (K.faults sink.old) (K.faults sink.new)
            (IsErrOf result Stop.WriteFault) }
        ensures sink_quiet { StaysUnless (K.faults sink.old) (K.faults sink.new)
            (IsErrOf result Stop.WriteFault) }
    {
        let mut rest = piece;
        while let Some((end, behind)) = cut_line(rest) {
            match self.finish(alloc, user, end, ask, sink) {
                Ok(()) => rest = behind,
                Err(why) => return Err(why),
            }
        }
        self.add(rest)
    }

    /// The input has ended: bytes that no LF ends are a line, which is run.
    pub fn close<A: Ask, K: Sink>(
        &mut self,
        alloc: Global,
        user: &User,
        ask: &mut A,
        sink: &mut K,
    ) -> Result<(), Stop>
        requires number { self.old.number < 2 ^ 64 - 1 }
        requires line { IsLine self.old.line }
        ensures closes { Closes A.answers user.now (K.held sink.old) (K.held sink.new) ask.old
            self.old.line self.old.number result ask.new }
        ensures formed { IsErrOf result Stop.ReadFault → ⊥ }
        ensures ask_cause { HasCause (A.faults ask.old) (A.faults ask.new)
            (IsErrOf result Stop.AskFault) }
        ensures ask_quiet { StaysUnless (A.faults ask.old) (A.faults ask.new)
            (IsErrOf result Stop.AskFault) }
        ensures tie { A.tied ask.old ask.new }
        ensures sink_cause { HasCause (K.faults sink.old) (K.faults sink.new)
            (IsErrOf result Stop.WriteFault) }
        ensures sink_quiet { StaysUnless (K.faults sink.old) (K.faults sink.new)
            (IsErrOf result Stop.WriteFault) }
    {
        if self.line.is_empty() {
            return Ok(());
        }
        self.run(alloc, user, ask, sink)
    }
}

// Room for one read.
fn room_for(alloc: Global, size: usize) -> Result<Vec<u8>, AllocError>
    ensures { IfOk result (λ room. vec_len room ≡ size) }
{
    vec![in alloc; 0; size]
}

/// Reads to the end of the input, and runs its lines; before each read all that the lines before it print is written.
pub(crate) fn run_input<S: Source, A: Ask, K: Sink>(
    alloc: Global,
    user: &User,
    source: &mut S,
    ask: &mut A,
    sink: &mut K,
) -> Result<(), Stop>
    ensures means { Means A.answers user.now (S.left source.old) (S.left source.new)
        (S.given source.old) (S.given source.new) (K.held sink.old) (K.held sink.new)
        ask.old (code_by result) ask.new }
    ensures source_cause { HasCause (S.faults source.old) (S.faults source.new)
        (IsErrOf result Stop.ReadFault) }
    ensures source_quiet { StaysUnless (S.faults source.old) (S.faults source.new)
        (IsErrOf result Stop.ReadFault) }
    ensures ask_cause { HasCause (A.faults ask.old) (A.faults ask.new)
        (IsErrOf result Stop.AskFault) }
    ensures ask_quiet { StaysUnless (A.faults ask.old) (A.faults ask.new)
        (IsErrOf result Stop.AskFault) }
    ensures tie { A.tied ask.old ask.new }
    ensures sink_cause { HasCause (K.faults sink.old) (K.faults sink.new)
        (IsErrOf result Stop.WriteFault) }
    ensures sink_quiet { StaysUnless (K.faults sink.old) (K.faults sink.new)
        (IsErrOf result Stop.WriteFault) }
{
    let mut buffer = room_for(alloc, PIECE_SIZE)?;
    let room = buffer.as_mut_slice();
    let mut reader = LineReader::new(alloc);
    let mut reads: u64 = 0;
    while reads < MOST_READS {
        let Ok(count) = source.read(room) else {
            return Err(Stop::ReadFault);
        };
        if count == 0 {
            return reader.close(alloc, user, ask, sink);
        }
        match reader.take(alloc, user, &room[..count], ask, sink) {
            Ok(()) => reads += 1,
            Err(why) => return Err(why),
        }
    }
    Err(Stop::TooLong)
}
