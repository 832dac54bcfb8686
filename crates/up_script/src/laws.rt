//! Laws of the numbers that are printed. Each function does nothing; its contract is the law.
ghost use Rattle.up_script.specs.ScriptEnds.{ScriptEndsAtTheFirst};
ghost use Rattle.up_script.specs.Standing.{parties};

use up_disk::Disk;
use up_ends::{Clock, Nonces, Verifier};
use up_peer::Loader;

/// A run of `upspin script` over an input that ends with 1 has written `bad line N` last, N being the first number that is printed for
/// that input; and where none is printed no run over it ends with 1. A run is here what `meaning` of `script_run` says of one, over any disks,
/// peers, verifier, clock and nonces.
pub fn script_ends_at_the_first<D: Disk, P: Loader, V: Verifier, C: Clock, N: Nonces>()
    ensures { ScriptEndsAtTheFirst (parties D.Disk P.Loader V.Verifier C.Clock N.Nonces) }
{}
