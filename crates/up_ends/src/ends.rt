//! What a source of bytes and a sink for bytes promise.
ghost use Rattle.std.specs.Prelude.{ℕ, ◌<◌, List, length, IfOk, IsErr};
ghost use Rattle.std.specs.declared.option.Option.{Option};
ghost use Rattle.std.specs.Io.{ReadsAtMost, WritesAtMost};
ghost use Rattle.std.specs.Io.KnownBytes.{ReadConsumes, WriteAppends};
ghost use Rattle.up_lists.specs.Counts.{HasCause, StaysUnless};
ghost use Rattle.up_ends.specs.Sources.{CountsGiven};

use crate::fault::Failed;

/// Where bytes come from.
pub trait Source {
    /// The bytes left, where the source tells them.
    ghost left: { Self → Option (List ℕ) };

    /// A count of bytes, to which each read adds as many as it gave. At 2^64 - 1 it stays.
    ghost given: { Self → ℕ };

    /// A count of faults, which never falls and rises in each call that fails. At 2^64 - 1 it stays.
    ghost faults: { Self → ℕ };

    /// Reads the next bytes into the front of `buf`, and answers how many. A buffer that is not empty gets
    /// none exactly at the end. An `Err` takes no byte; what it leaves in the buffer is not said.
    fn read(&mut self, buf: &mut [u8]) -> Result<usize, Failed>
        ensures bound { ReadsAtMost result buf.new }
        ensures bytes { ReadConsumes (left self.old) (left self.new) result buf.new }
        ensures counted { CountsGiven (given self.old) (given self.new) result }
        ensures cause { HasCause (faults self.old) (faults self.new) (IsErr result) }
        ensures quiet { StaysUnless (faults self.old) (faults self.new) (IsErr result) };
}

/// Where bytes go.
pub trait Sink {
    /// The bytes held, where the sink tells them.
    ghost held: { Self → Option (List ℕ) };

    /// A count of faults, which never falls and rises in each call that fails. At 2^64 - 1 it stays.
    ghost faults: { Self → ℕ };

    /// Writes a front of the piece, and answers how many bytes: at least one of a piece that is not empty.
    /// An `Err` writes nothing.
    fn write(&mut self, piece: &[u8]) -> Result<usize, Failed>
        ensures bound { WritesAtMost result piece.now }
        ensures some { IfOk result (λ n. 0 < length piece.now → 0 < n) }
        ensures bytes { WriteAppends (held self.old) (held self.new) result piece.now }
        ensures cause { HasCause (faults self.old) (faults self.new) (IsErr result) }
        ensures quiet { StaysUnless (faults self.old) (faults self.new) (IsErr result) };
}
