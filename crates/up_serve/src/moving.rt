//! A log of a server is moved from a file of the first format.
ghost use Rattle.std.specs.Prelude.{◌≡◌, ◌≤◌, ◌⊎◌, [], ◌∷◌, Err, IfErr};
ghost use Rattle.up_command.specs.Statuses.{IsOneOf};
ghost use Rattle.up_journal.specs.Journal.{AreLimits};
ghost use Rattle.up_journal.specs.declared.fault.MoveWhy.TheVariants as move_why;
ghost use Rattle.up_lists.specs.Counts.{Rose, StaysUnless};
ghost use Rattle.up_reports.specs.Telling.{AnswersOne};
ghost use Rattle.up_serve.specs.Moves.{Moves};
ghost use Rattle.up_serve.specs.Telling.{moved_by};

use crate::telling::unmoved_line;
use std::alloc::Global;
use up_disk::Disk;
use up_ends::Sink;
use up_journal::{Limits, MoveWhy, Moved, migrate};
use up_reports::tell;

/// Moves the log of a disk of the first format to a new disk, which is to be opened from then on, and is left alone where it begins with
/// the name of the second format. The log is that at place `which` of a server's logs, from 0.
///
/// A refusal is a status: 8 exactly where the old log is damaged, with `damaged I P` printed, 12 exactly where it has more records than
/// the limits let through, with `full I N` printed, 6 where a disk failed, 3 where the sink failed, and 4 for want of memory.
#[tactic(auto, using(crate::proofs::MoveLemmas::moves))]
pub fn serve_move<D: Disk, K: Sink>(
    alloc: Global,
    old: &mut D,
    new: &mut D,
    which: u64,
    limits: Limits,
    sink: &mut K,
) -> Result<Moved, u8>
    requires { AreLimits limits }
    ensures moves { Moves D.Disk limits which old.old old.new new.old new.new
        (K.held sink.old) (K.held sink.new) result }
    ensures statuses { IfErr result (λ status. IsOneOf (3 ∷ 4 ∷ 6 ∷ 8 ∷ 12 ∷ []) status) }
    ensures disk_fault { result ≡ Err 6
        → Rose (D.faults old.old) (D.faults old.new) ⊎ Rose (D.faults new.old) (D.faults new.new) }
    ensures write_fault { result ≡ Err 3 → Rose (K.faults sink.old) (K.faults sink.new) }
    ensures old_counts { D.faults old.old ≤ D.faults old.new }
    ensures new_counts { D.faults new.old ≤ D.faults new.new }
    ensures sink_counts { K.faults sink.old ≤ K.faults sink.new }
    ensures sink_quiet { StaysUnless (K.faults sink.old) (K.faults sink.new) (result ≡ Err 3) }
{
    match migrate(alloc, old, new, limits) {
        Ok(moved) => Ok(moved),
        Err(why) => Err(refuse(alloc, sink, which, why)),
    }
}

// Prints why a log was not moved, and answers the status.
#[tactic(auto, using(crate::proofs::TellLemmas::tellings, crate::proofs::MoveLemmas::codes_of_moves))]
fn refuse<K: Sink>(alloc: Global, sink: &mut K, which: u64, why: MoveWhy) -> u8
    ensures answers { AnswersOne (K.held sink.old) (K.held sink.new) (moved_by which why) result }
    ensures statuses { IsOneOf (3 ∷ 4 ∷ 6 ∷ 8 ∷ 12 ∷ []) result }
    ensures disk_fault { result ≡ 6 → why ≡ move_why.Fault }
    ensures cause { result ≡ 3 → Rose (K.faults sink.old) (K.faults sink.new) }
    ensures later { K.faults sink.old ≤ K.faults sink.new }
    ensures quiet { StaysUnless (K.faults sink.old) (K.faults sink.new) (result ≡ 3) }
{
    let last = unmoved_line(alloc, which, why);
    tell(sink, last)
}
