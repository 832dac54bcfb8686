//! Output that is gathered and written in large pieces.
ghost use Rattle.std.specs.Prelude.{◌≤◌, ◌++◌, OnOk, IsErrOf};
ghost use Rattle.std.specs.Io.KnownBytes.{Appends};
ghost use Rattle.up_lists.specs.Counts.{Rose, StaysUnless};
ghost use Rattle.up_ends.specs.Writing.{Going, WritesPart};

use std::alloc::AllocError;
use up_ends::{Failed, Sink, write_all};

/// How many bytes are gathered before they are written.
const PIECE_SIZE: usize = 65_536;

/// Why a run stopped short.
#[derive(Clone, Copy)]
pub enum Stop {
    /// The sink failed, and its count of faults rose.
    WriteFault,
    OutOfMemory,
}

impl From<Failed> for Stop {
    ghost use Rattle.std.specs.Prelude.{◌≡◌};
    ghost use Rattle.up_command.specs.declared.output.Stop.TheVariants.{WriteFault};

    ghost from_gives = { λ _ e. e ≡ WriteFault };

    fn from(_failed: Failed) -> Stop {
        Stop::WriteFault
    }
}

impl From<AllocError> for Stop {
    ghost use Rattle.std.specs.Prelude.{◌≡◌};
    ghost use Rattle.up_command.specs.declared.output.Stop.TheVariants.{OutOfMemory};

    ghost from_gives = { λ _ e. e ≡ OutOfMemory };

    fn from(_error: AllocError) -> Stop {
        Stop::OutOfMemory
    }
}

/// Adds a text to what is gathered, which goes to the sink once it is long.
pub fn print<K: Sink>(sink: &mut K, gathered: &mut Vec<u8>, text: &[u8]) -> Result<(), Stop>
    ensures ok { OnOk result (Going (K.held sink.old) (K.held sink.new) gathered.new.items
        (gathered.old.items ++ text.now)) }
    ensures part { WritesPart (K.held sink.old) (K.held sink.new) (gathered.old.items ++ text.now) }
    ensures cause { IsErrOf result Stop.WriteFault → Rose (K.faults sink.old) (K.faults sink.new) }
    ensures later { K.faults sink.old ≤ K.faults sink.new }
    ensures quiet { StaysUnless (K.faults sink.old) (K.faults sink.new)
        (IsErrOf result Stop.WriteFault) }
{
    gathered.extend_from_slice(text)?;
    flush(sink, gathered)
}

/// Writes what is gathered once it is long.
pub fn flush<K: Sink>(sink: &mut K, gathered: &mut Vec<u8>) -> Result<(), Stop>
    ensures ok { OnOk result (Going (K.held sink.old) (K.held sink.new) gathered.new.items
        gathered.old.items) }
    ensures part { WritesPart (K.held sink.old) (K.held sink.new) gathered.old.items }
    ensures cause { IsErrOf result Stop.WriteFault → Rose (K.faults sink.old) (K.faults sink.new) }
    ensures later { K.faults sink.old ≤ K.faults sink.new }
    ensures quiet { StaysUnless (K.faults sink.old) (K.faults sink.new)
        (IsErrOf result Stop.WriteFault) }
{
    if gathered.len() >= PIECE_SIZE {
        write_all(sink, gathered)?;
        gathered.clear();
    }
    Ok(())
}

/// Writes what is gathered, and a last text behind it.
pub fn finish<K: Sink>(sink: &mut K, gathered: &mut Vec<u8>, last: &[u8]) -> Result<(), Stop>
    ensures ok { OnOk result (Appends (K.held sink.old) (K.held sink.new)
        (gathered.old.items ++ last.now)) }
    ensures part { WritesPart (K.held sink.old) (K.held sink.new) (gathered.old.items ++ last.now) }
    ensures cause { IsErrOf result Stop.WriteFault → Rose (K.faults sink.old) (K.faults sink.new) }
    ensures later { K.faults sink.old ≤ K.faults sink.new }
    ensures quiet { StaysUnless (K.faults sink.old) (K.faults sink.new)
        (IsErrOf result Stop.WriteFault) }
{
    gathered.extend_from_slice(last)?;
    write_all(sink, gathered)?;
    Ok(())
}
