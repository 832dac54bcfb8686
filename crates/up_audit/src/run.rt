//! The report.
ghost use Rattle.std.specs.Prelude.{◌≡◌, ◌≤◌, ◌+◌, ◌∷◌, [], None, false, length, map, string_bytes, IfSome};
ghost use Rattle.std.specs.Io.KnownBytes.{Appends};
ghost use Rattle.std.specs.List.{AllByRecursion, sum_by};
ghost use Rattle.up_audit.specs.Runs.{Audits};
ghost use Rattle.up_audit.specs.Texts.{audit_answer};
ghost use Rattle.up_audit.specs.Words.{owners_for};
ghost use Rattle.up_command.specs.Statuses.{IsOneOf, usage_line};
ghost use Rattle.up_ends.specs.Writing.{WritesPart};
ghost use Rattle.up_journal.specs.Journal.{AreLimits};
ghost use Rattle.up_lists.specs.Counts.{Rose, StaysUnless};
ghost use Rattle.up_policy.specs.Trees.{owns_snapshots};
ghost use Rattle.up_reports.specs.Opens.{AreLogs, logs_of, report_limits};
ghost use Rattle.up_reports.specs.Telling.{AnswersOne, Stays};

use crate::audit::audit_of;
use crate::text::print_audit;
use crate::words::owners_for;
use std::alloc::Global;
use up_command::{Status, Stop, usage};
use up_disk::{Disk, Disks};
use up_ends::Sink;
use up_journal::Limits;
use up_lists::Items;
use up_names::User;
use up_reports::{LIMITS, Logs, open_logs, put_logs, tell_refused};

/// Does all of `upspin audit`, by its words, over the disks of the trees and of the store, in this order: opens all logs, and prints how
/// many blocks the store holds, how many of them nobody names any more, and which. The disks are put back in their places, whatever the
/// status; where the words do not fit, or not to so many disks, no disk is touched.
///
/// The status is 0 where all was printed, 3 where the sink failed, 4 for want of memory, 6 where a disk failed as it was opened, 8 where a
/// log does not open for its content, of which a line was printed, and 64 where the words do not fit and the usage line was printed.
#[tactic(auto, using(crate::proofs::RunLemmas::runs))]
pub fn audit_run<D: Disk + Drop, K: Sink>(
    alloc: Global,
    words: &[String],
    sink: &mut K,
    disks: &mut Disks<D>,
) -> u8
    // What came of it, by the words.
    ensures audits { IfSome (owners_for (map string_bytes words.now) (length disks.old.disks))
        (λ owners. Audits D.Disk report_limits owners disks.old.disks disks.new.disks
        (K.held sink.old) (K.held sink.new) result) }
    ensures usage { owners_for (map string_bytes words.now) (length disks.old.disks) ≡ None
        → IsOneOf (3 ∷ 4 ∷ 64 ∷ []) result × (disks.new.disks ≡ disks.old.disks)
        × WritesPart (K.held sink.old) (K.held sink.new) usage_line }

    // The statuses that come, and the cause of each.
    ensures statuses { IsOneOf (0 ∷ 3 ∷ 4 ∷ 6 ∷ 8 ∷ 64 ∷ []) result }
    ensures usage_only { result ≡ 64
        → (owners_for (map string_bytes words.now) (length disks.old.disks) ≡ None)
        × Appends (K.held sink.old) (K.held sink.new) usage_line }
    ensures write_fault { result ≡ 3 → Rose (K.faults sink.old) (K.faults sink.new) }
    ensures disk_fault { result ≡ 6
        → Rose (sum_by D.faults disks.old.disks) (sum_by D.faults disks.new.disks) }
    ensures disk_counts { sum_by D.faults disks.old.disks ≤ sum_by D.faults disks.new.disks }
    ensures sink_counts { K.faults sink.old ≤ K.faults sink.new }
    ensures sink_quiet { StaysUnless (K.faults sink.old) (K.faults sink.new) (result ≡ 3) }
    ensures spare { disks.new.spare ≡ disks.old.spare }

    // Where nothing is amiss all is printed, or memory was wanting.
    ensures complete { IfSome (owners_for (map string_bytes words.now) (length disks.old.disks))
        (λ owners. AreLogs D.Disk report_limits (logs_of owners) disks.old.disks
        → Stays (K.faults sink.old) (K.faults sink.new)
        → Stays (sum_by D.faults disks.old.disks) (sum_by D.faults disks.new.disks)
        → IsOneOf (0 ∷ 4 ∷ []) result) }
{
    match owners_for(alloc, words, disks.len()) {
        Ok(Some(owners)) => audit_within(alloc, sink, disks, owners, LIMITS),
        Ok(None) => usage(sink).code(),
        Err(_) => Status::OutOfMemory.code(),
    }
}

/// Does what [`audit_run`] does once the words were read, with any limits of the trees. The statuses are the same but for 64.
pub fn audit_within<D: Disk + Drop, K: Sink>(
    alloc: Global,
    sink: &mut K,
    disks: &mut Disks<D>,
    owners: Items<User>,
    limits: Limits,
) -> u8
    requires limits { AreLimits limits }
    requires plain { AllByRecursion (λ owner. owns_snapshots owner ≡ false) owners }
    requires disks { length disks.old.disks ≡ length owners + 1 }
    ensures audits { Audits D.Disk limits owners disks.old.disks disks.new.disks
        (K.held sink.old) (K.held sink.new) result }
    ensures statuses { IsOneOf (0 ∷ 3 ∷ 4 ∷ 6 ∷ 8 ∷ []) result }
    ensures write_fault { result ≡ 3 → Rose (K.faults sink.old) (K.faults sink.new) }
    ensures disk_fault { result ≡ 6
        → Rose (sum_by D.faults disks.old.disks) (sum_by D.faults disks.new.disks) }
    ensures disk_counts { sum_by D.faults disks.old.disks ≤ sum_by D.faults disks.new.disks }
    ensures sink_counts { K.faults sink.old ≤ K.faults sink.new }
    ensures sink_quiet { StaysUnless (K.faults sink.old) (K.faults sink.new) (result ≡ 3) }
    ensures spare { disks.new.spare ≡ disks.old.spare }
    ensures complete { AreLogs D.Disk limits (logs_of owners) disks.old.disks
        → Stays (K.faults sink.old) (K.faults sink.new)
        → Stays (sum_by D.faults disks.old.disks) (sum_by D.faults disks.new.disks)
        → IsOneOf (0 ∷ 4 ∷ []) result }
{
    audit_logs(alloc, sink, disks, owners, limits)
}

// The same, with what its status says of the sink alone.
#[tactic(auto, using(crate::proofs::RunLemmas::cases))]
fn audit_logs<D: Disk + Drop, K: Sink>(
    alloc: Global,
    sink: &mut K,
    disks: &mut Disks<D>,
    owners: Items<User>,
    limits: Limits,
) -> u8
    requires limits { AreLimits limits }
    requires plain { AllByRecursion (λ owner. owns_snapshots owner ≡ false) owners }
    requires disks { length disks.old.disks ≡ length owners + 1 }
    ensures audits { Audits D.Disk limits owners disks.old.disks disks.new.disks
        (K.held sink.old) (K.held sink.new) result }
    ensures write_fault { result ≡ 3 → Rose (K.faults sink.old) (K.faults sink.new) }
    ensures sink_counts { K.faults sink.old ≤ K.faults sink.new }
    ensures sink_quiet { StaysUnless (K.faults sink.old) (K.faults sink.new) (result ≡ 3) }
    ensures spare { disks.new.spare ≡ disks.old.spare }
{
    match open_logs(alloc, disks, owners, limits) {
        Ok(logs) => {
            let status = report(alloc, sink, &logs);
            put_logs(disks, logs);
            status
        }
        Err(refused) => tell_refused(alloc, sink, refused),
    }
}

// Prints the audit of opened logs.
#[tactic(auto, using(crate::proofs::TextLemmas::reports))]
fn report<D: Disk, K: Sink>(alloc: Global, sink: &mut K, logs: &Logs<D>) -> u8
    ensures answers { AnswersOne (K.held sink.old) (K.held sink.new)
        (audit_answer logs.now.trees.items logs.now.store) result }
    ensures cause { result ≡ 3 → Rose (K.faults sink.old) (K.faults sink.new) }
    ensures later { K.faults sink.old ≤ K.faults sink.new }
    ensures quiet { StaysUnless (K.faults sink.old) (K.faults sink.new) (result ≡ 3) }
{
    let Ok(audit) = audit_of(alloc, &logs.trees, &logs.store) else {
        return Status::OutOfMemory.code();
    };
    match print_audit(alloc, sink, &audit) {
        Ok(()) => Status::Done.code(),
        Err(Stop::WriteFault) => Status::WriteFault.code(),
        Err(Stop::OutOfMemory) => Status::OutOfMemory.code(),
    }
}
