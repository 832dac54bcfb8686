//! The usage line.
ghost use Rattle.std.specs.Prelude.{◌≡◌, ◌≤◌, ◌∷◌, []};
ghost use Rattle.std.specs.Io.KnownBytes.{Appends};
ghost use Rattle.up_lists.specs.Counts.{HasCause, Rose, StaysUnless};
ghost use Rattle.up_ends.specs.Writing.{WritesPart};
ghost use Rattle.up_command.specs.Statuses.{IsOneOf, code_of, usage_line};

use crate::status::Status;
use up_ends::{Sink, write_all};

// What is printed where the words are not those of a command.
const USAGE: &str =
    "usage: upspin can | script HELPER | storm SEED SESSIONS REQUESTS [--full] | serve OPTIONS\n";

/// Prints the usage line, and answers the status with which a run ends whose words are not those of a command: 64, or 3 where the sink
/// failed.
pub fn usage<K: Sink>(sink: &mut K) -> Status
    ensures status { IsOneOf (3 ∷ 64 ∷ []) (code_of result) }
    ensures whole { code_of result ≡ 64 → Appends (K.held sink.old) (K.held sink.new) usage_line }
    ensures part { WritesPart (K.held sink.old) (K.held sink.new) usage_line }
    ensures cause { code_of result ≡ 3 → Rose (K.faults sink.old) (K.faults sink.new) }
    ensures later { K.faults sink.old ≤ K.faults sink.new }
    ensures counts { HasCause (K.faults sink.old) (K.faults sink.new) (code_of result ≡ 3) }
    ensures quiet { StaysUnless (K.faults sink.old) (K.faults sink.new) (code_of result ≡ 3) }
{
    match write_all(sink, USAGE.as_bytes()) {
        Ok(()) => Status::Usage,
        Err(_) => Status::WriteFault,
    }
}
