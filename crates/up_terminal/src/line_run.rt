//! One line: what it does, and what it prints, which is written at once.
ghost use Rattle.std.specs.Prelude.{◌≡◌, IsErrOf};
ghost use Rattle.up_lists.specs.Counts.{HasCause, StaysUnless};
ghost use Rattle.up_terminal.specs.Sessions.{DoneAndPrinted, LineRan, Named};

use crate::answering::do_line;
use crate::stop::{LineStop, Stop};
use crate::terminal_line::{TerminalLine, terminal_line};
use std::alloc::{AllocError, Global};
use up_client::Ask;
use up_command::bad_line;
use up_ends::{Sink, write_all};
use up_names::User;

/// Runs a line, whose number this is, and writes what it prints; a malformed one is named. What stands in the buffer is not used.
pub(crate) fn run_line<A: Ask, K: Sink>(
    alloc: Global,
    user: &User,
    line: &[u8],
    number: u64,
    ask: &mut A,
    sink: &mut K,
    out: &mut Vec<u8>,
) -> Result<(), Stop>
    ensures ran { LineRan A.answers user.now number (K.held sink.old) (K.held sink.new)
        ask.old line.now result ask.new }
    ensures formed { IsErrOf result Stop.TooLong → ⊥ }
    ensures ask_cause { HasCause (A.faults ask.old) (A.faults ask.new)
        (IsErrOf result Stop.AskFault) }
    ensures ask_quiet { StaysUnless (A.faults ask.old) (A.faults ask.new)
        (IsErrOf result Stop.AskFault) }
    ensures tie { A.tied ask.old ask.new }
    ensures sink_cause { HasCause (K.faults sink.old) (K.faults sink.new)
        (IsErrOf result Stop.WriteFault) }
    ensures sink_quiet { StaysUnless (K.faults sink.old) (K.faults sink.new)
        (IsErrOf result Stop.WriteFault) }
{
    match terminal_line(alloc, user, line) {
        Ok(Some(says)) => do_and_print(alloc, user, says, ask, sink, out),
        Ok(None) => name_bad_line(alloc, number, sink),
        Err(AllocError) => Err(Stop::OutOfMemory),
    }
}

// Does what a line says, and writes what it prints.
fn do_and_print<A: Ask, K: Sink>(
    alloc: Global,
    user: &User,
    says: TerminalLine,
    ask: &mut A,
    sink: &mut K,
    out: &mut Vec<u8>,
) -> Result<(), Stop>
    ensures done { DoneAndPrinted A.answers user.now (K.held sink.old) (K.held sink.new)
        ask.old says result ask.new }
    ensures ask_cause { HasCause (A.faults ask.old) (A.faults ask.new)
        (IsErrOf result Stop.AskFault) }
    ensures ask_quiet { StaysUnless (A.faults ask.old) (A.faults ask.new)
        (IsErrOf result Stop.AskFault) }
    ensures tie { A.tied ask.old ask.new }
    ensures sink_cause { HasCause (K.faults sink.old) (K.faults sink.new)
        (IsErrOf result Stop.WriteFault) }
    ensures sink_quiet { StaysUnless (K.faults sink.old) (K.faults sink.new)
        (IsErrOf result Stop.WriteFault) }
{
    out.clear();
    match do_line(alloc, user, says, ask, out) {
        Ok(()) => match write_all(sink, out) {
            Ok(()) => Ok(()),
            Err(_) => Err(Stop::WriteFault),
        },
        Err(LineStop::AskFault) => Err(Stop::AskFault),
        Err(LineStop::OutOfMemory) => Err(Stop::OutOfMemory),
    }
}

// Names a malformed line.
fn name_bad_line<K: Sink>(alloc: Global, number: u64, sink: &mut K) -> Result<(), Stop>
    ensures named { Named number (K.held sink.old) (K.held sink.new) result }
    ensures sink_cause { HasCause (K.faults sink.old) (K.faults sink.new)
        (IsErrOf result Stop.WriteFault) }
    ensures sink_quiet { StaysUnless (K.faults sink.old) (K.faults sink.new)
        (IsErrOf result Stop.WriteFault) }
{
    let line = bad_line(alloc, number)?;
    match write_all(sink, &line) {
        Ok(()) => Err(Stop::BadLine),
        Err(_) => Err(Stop::WriteFault),
    }
}
