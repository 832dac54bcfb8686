//! Where random bytes come from.
ghost use Rattle.std.specs.Prelude.{ℕ, List, Option};
ghost use Rattle.up_net.specs.Seeds.{given};

use std::io;

/// A source of random bytes.
pub trait RandomBytes {
    /// Whether one call that gives these bytes, or none where it fails, leads from one state to the other. Of a machine's source
    /// nothing is told: any bytes may come.
    ghost gives: { Self → Option (List ℕ) → Self → Type 0 };

    /// Fills the buffer. An `Err` may leave anything in it.
    fn fill(&mut self, bytes: &mut [u8]) -> io::Result<()>
        ensures { gives self.old (given result bytes.new) self.new };
}
