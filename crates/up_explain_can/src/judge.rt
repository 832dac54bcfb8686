//! Who judges the lines of a script.
ghost use Rattle.std.specs.Prelude.{◌≡◌, ◌≢◌, ℕ, List, Option, None, Some, IfErr, OnOk};
ghost use Rattle.up_explain_can.specs.declared.why.Why.{Why};

use crate::why::Why;
use std::alloc::Global;

/// Whoever judges the lines of a script, one after the other.
pub trait Judge {
    /// What stands behind a line, where it is not malformed.
    ghost step: { Self → List ℕ → Option Self };

    /// Judges the next line. A malformed one changes nothing.
    fn judge(&mut self, alloc: Global, line: &[u8]) -> Result<(), Why>
        ensures good { OnOk result (step self.old line.now ≡ Some self.new) }
        ensures bad { IfErr result (λ why. why ≢ Why.OutOfMemory
            → step self.old line.now ≡ None) }
        ensures unchanged { IfErr result (λ why. why ≢ Why.OutOfMemory → self.new ≡ self.old) };
}
