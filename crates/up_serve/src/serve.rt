//! What a server does before it listens.
ghost use Rattle.std.specs.Prelude.{◌≡◌, ◌≤◌, ◌<◌, ◌+◌, ◌-◌, ◌^◌, ◌↔◌, [], ◌∷◌, length, map, string_bytes, IfErr, IfOk, IfSome, None};
ghost use Rattle.std.specs.List.{sum_by};
ghost use Rattle.std.specs.Io.KnownBytes.{Appends};
ghost use Rattle.up_command.specs.Statuses.{IsOneOf, input_limit, usage_line};
ghost use Rattle.up_ends.specs.Writing.{WritesPart};
ghost use Rattle.up_host.specs.Opens.{OpensHost, RefusesHost, disks_of, logs_of};
ghost use Rattle.up_lists.specs.Counts.{Rose, StaysUnless};
ghost use Rattle.up_reports.specs.Telling.{AnswersOne, Stays, refused_by};
ghost use Rattle.up_serve.specs.Plans.{IsPlan, plan_of};
ghost use Rattle.up_serve.specs.Serving.{AreServeLimits, AreServed, HasCauses, Serves, disks_after, result_code, serve_limits};
ghost use Rattle.up_serve.specs.Telling.{stopped_by};

use crate::enrolling::{EnrolStop, enrol_users};
use crate::plan::{ServePlan, serve_words};
use crate::telling::stopped_line;
use std::alloc::Global;
use std::hash::RandomState;
use up_command::{Status, read_script, usage};
use up_disk::{Disk, Disks};
use up_ends::{Sink, Source};
use up_host::{Host, HostFault};
use up_journal::{Limits, OpenWhy};
use up_reports::{Refused, tell, tell_refused};
use up_sign::HostName;

/// The limits of a server's trees and keys.
const LIMITS: Limits = Limits {
    records: 1_048_576,
    device: 1_073_741_824,
    largest: 131_072,
};

/// A server that does not listen: the status with which the program ends, and all disks, in their places.
#[derive(Drop)]
pub struct ServeFault<D> {
    pub status: u8,
    pub disks: Disks<D>,
}

/// Does all that `upspin serve` does before it listens, by its words, over the disks of its trees, its store and its keys, in this order:
/// reads the words, opens the logs, reads the text of users to be enrolled whole, and then puts the record of each line's user where none
/// is held. The names that strangers choose are hashed with these keys.
///
/// The status of a refusal is 2 or 3 where the source or the sink failed, 4 for want of memory, 6 where a disk failed, 7 for a text of
/// over 67,108,864 bytes, 8 where a log does not open for its content, 10 at the first bad line, 12 where the log of keys is full at a
/// line, and 64 where the words do not fit. With 8, 10, 12 and 64 a line was printed. All disks come back in their places; on that of the
/// keys the records of earlier lines may stand.
#[tactic(auto, using(crate::proofs::ServeLemmas::unread))]
pub fn serve_open<D: Disk + Drop, S: Source, K: Sink>(
    alloc: Global,
    random: RandomState,
    words: &[String],
    disks: Disks<D>,
    enrol: &mut S,
    sink: &mut K,
) -> Result<Host<D>, ServeFault<D>>
    requires disks { IfSome (plan_of (map string_bytes words.now))
        (λ plan. length disks.disks ≡ length plan.trees + 2) }

    // What came of it, by the words.
    ensures serves { IfSome (plan_of (map string_bytes words.now)) (λ plan.
        Serves D.Disk serve_limits plan disks.disks (enrol.new ≡ enrol.old)
        (S.left enrol.old) (K.held sink.old) (K.held sink.new) result) }
    ensures usage { plan_of (map string_bytes words.now) ≡ None
        → IsOneOf (3 ∷ 4 ∷ 64 ∷ []) (result_code result) × (disks_after result ≡ disks.disks)
        × (enrol.new ≡ enrol.old) × WritesPart (K.held sink.old) (K.held sink.new) usage_line }

    // The statuses that come, and the cause of each.
    ensures statuses { IfErr result
        (λ fault. IsOneOf (2 ∷ 3 ∷ 4 ∷ 6 ∷ 7 ∷ 8 ∷ 10 ∷ 12 ∷ 64 ∷ []) fault.status) }
    ensures usage_only { result_code result ≡ 64
        → (plan_of (map string_bytes words.now) ≡ None)
        × Appends (K.held sink.old) (K.held sink.new) usage_line }
    ensures read_fault { result_code result ≡ 2 → Rose (S.faults enrol.old) (S.faults enrol.new) }
    ensures write_fault { result_code result ≡ 3 → Rose (K.faults sink.old) (K.faults sink.new) }
    ensures disk_fault { result_code result ≡ 6
        → Rose (sum_by D.faults disks.disks) (sum_by D.faults (disks_after result)) }
    ensures too_long { S.given enrol.old + input_limit < 2 ^ 64 - 1
        → (result_code result ≡ 7 ↔ (S.given enrol.old + input_limit < S.given enrol.new)) }
    ensures told_long { result_code result ≡ 7
        → IfSome (S.left enrol.old) (λ bytes. input_limit < length bytes) }
    ensures disk_counts { sum_by D.faults disks.disks ≤ sum_by D.faults (disks_after result) }
    ensures disk_quiet { StaysUnless (sum_by D.faults disks.disks)
        (sum_by D.faults (disks_after result)) (IsOneOf (3 ∷ 4 ∷ 6 ∷ []) (result_code result)) }
    ensures source_counts { S.faults enrol.old ≤ S.faults enrol.new }
    ensures source_quiet { StaysUnless (S.faults enrol.old) (S.faults enrol.new)
        (result_code result ≡ 2) }
    ensures sink_counts { K.faults sink.old ≤ K.faults sink.new }
    ensures sink_quiet { StaysUnless (K.faults sink.old) (K.faults sink.new)
        (result_code result ≡ 3) }

    // Where nothing is amiss it is a host, or memory was wanting.
    ensures complete { IfSome (plan_of (map string_bytes words.now)) (λ plan.
        IfSome (S.left enrol.old) (λ text. length text ≤ input_limit
        → AreServed D.Disk serve_limits text (logs_of plan.trees) disks.disks
        → Stays (S.faults enrol.old) (S.faults enrol.new)
        → Stays (K.faults sink.old) (K.faults sink.new)
        → Stays (sum_by D.faults disks.disks) (sum_by D.faults (disks_after result))
        → IsOneOf (0 ∷ 4 ∷ []) (result_code result))) }
{
    match serve_words(alloc, words) {
        Ok(Some(plan)) => serve_within(alloc, random, LIMITS, plan, disks, enrol, sink),
        Ok(None) => {
            let status = usage(sink).code();
            Err(ServeFault { status, disks })
        }
        Err(_) => Err(ServeFault {
            status: Status::OutOfMemory.code(),
            disks,
        }),
    }
}

/// Does what [`serve_open`] does once the words were read, with any limits of the trees and keys. The statuses are the same but for 64.
#[tactic(auto, using(crate::proofs::ServeLemmas::served))]
pub fn serve_within<D: Disk + Drop, S: Source, K: Sink>(
    alloc: Global,
    random: RandomState,
    limits: Limits,
    plan: ServePlan,
    disks: Disks<D>,
    enrol: &mut S,
    sink: &mut K,
) -> Result<Host<D>, ServeFault<D>>
    requires limits { AreServeLimits limits }
    requires plan { IsPlan plan }
    requires disks { length disks.disks ≡ length plan.trees + 2 }
    ensures serves { Serves D.Disk limits plan disks.disks (enrol.new ≡ enrol.old)
        (S.left enrol.old) (K.held sink.old) (K.held sink.new) result }
    ensures statuses { IfErr result
        (λ fault. IsOneOf (2 ∷ 3 ∷ 4 ∷ 6 ∷ 7 ∷ 8 ∷ 10 ∷ 12 ∷ []) fault.status) }
    ensures read_fault { result_code result ≡ 2 → Rose (S.faults enrol.old) (S.faults enrol.new) }
    ensures write_fault { result_code result ≡ 3 → Rose (K.faults sink.old) (K.faults sink.new) }
    ensures disk_fault { result_code result ≡ 6
        → Rose (sum_by D.faults disks.disks) (sum_by D.faults (disks_after result)) }
    ensures too_long { S.given enrol.old + input_limit < 2 ^ 64 - 1
        → (result_code result ≡ 7 ↔ (S.given enrol.old + input_limit < S.given enrol.new)) }
    ensures told_long { result_code result ≡ 7
        → IfSome (S.left enrol.old) (λ bytes. input_limit < length bytes) }
    ensures disk_counts { sum_by D.faults disks.disks ≤ sum_by D.faults (disks_after result) }
    ensures disk_quiet { StaysUnless (sum_by D.faults disks.disks)
        (sum_by D.faults (disks_after result)) (IsOneOf (3 ∷ 4 ∷ 6 ∷ []) (result_code result)) }
    ensures source_counts { S.faults enrol.old ≤ S.faults enrol.new }
    ensures source_quiet { StaysUnless (S.faults enrol.old) (S.faults enrol.new)
        (result_code result ≡ 2) }
    ensures sink_counts { K.faults sink.old ≤ K.faults sink.new }
    ensures sink_quiet { StaysUnless (K.faults sink.old) (K.faults sink.new)
        (result_code result ≡ 3) }
    ensures complete { IfSome (S.left enrol.old) (λ text. length text ≤ input_limit
        → AreServed D.Disk limits text (logs_of plan.trees) disks.disks
        → Stays (S.faults enrol.old) (S.faults enrol.new)
        → Stays (K.faults sink.old) (K.faults sink.new)
        → Stays (sum_by D.faults disks.disks) (sum_by D.faults (disks_after result))
        → IsOneOf (0 ∷ 4 ∷ []) (result_code result)) }
{
    serve_plan(alloc, random, limits, plan, disks, enrol, sink)
}

// The same, with what its status says of the source and the sink in one place.
#[tactic(auto, using(crate::proofs::ServeLemmas::came, crate::proofs::ServeLemmas::causes))]
fn serve_plan<D: Disk + Drop, S: Source, K: Sink>(
    alloc: Global,
    random: RandomState,
    limits: Limits,
    plan: ServePlan,
    disks: Disks<D>,
    enrol: &mut S,
    sink: &mut K,
) -> Result<Host<D>, ServeFault<D>>
    requires limits { AreServeLimits limits }
    requires plan { IsPlan plan }
    requires disks { length disks.disks ≡ length plan.trees + 2 }
    ensures serves { Serves D.Disk limits plan disks.disks (enrol.new ≡ enrol.old)
        (S.left enrol.old) (K.held sink.old) (K.held sink.new) result }
    ensures causes { HasCauses (result_code result) (S.given enrol.old) (S.given enrol.new)
        (S.faults enrol.old) (S.faults enrol.new) (K.faults sink.old) (K.faults sink.new)
        (S.left enrol.old) }
    ensures source_quiet { StaysUnless (S.faults enrol.old) (S.faults enrol.new)
        (result_code result ≡ 2) }
    ensures sink_quiet { StaysUnless (K.faults sink.old) (K.faults sink.new)
        (result_code result ≡ 3) }
{
    let mut host = match open_host(alloc, random, limits, plan, disks) {
        Ok(host) => host,
        Err(fault) => return Err(refuse(alloc, sink, fault)),
    };
    let text = match read_script(alloc, enrol) {
        Ok(text) => text,
        Err(status) => return Err(give_back(host, status)),
    };
    match enrol_users(alloc, &mut host, &text) {
        Ok(()) => Ok(host),
        Err(why) => Err(stop(alloc, sink, host, why)),
    }
}

// Opens the host of a plan.
#[tactic(auto, using(crate::proofs::OpenLemmas::opens))]
fn open_host<D: Disk + Drop>(
    alloc: Global,
    random: RandomState,
    limits: Limits,
    plan: ServePlan,
    disks: Disks<D>,
) -> Result<Host<D>, HostFault<D>>
    requires limits { AreServeLimits limits }
    requires plan { IsPlan plan }
    requires disks { length disks.disks ≡ length plan.trees + 2 }
    ensures opens { IfOk result
        (OpensHost D.Disk limits plan.host plan.operator plan.trees disks.disks) }
    ensures refuses { IfErr result (RefusesHost D.Disk limits plan.trees disks.disks) }
{
    match HostName::read(alloc, plan.host.as_slice()) {
        Ok(Some(name)) => {
            let ServePlan {
                listen: _,
                host: _,
                operator,
                trees,
                folder: _,
                helper: _,
                enrol: _,
                peers: _,
                connections: _,
                feed: _,
                feeds: _,
            } = plan;
            Host::open(alloc, random, name.as_str(), operator, trees, disks, limits)
        }
        Ok(None) => unreachable!(),
        Err(_) => Err(HostFault {
            disks,
            which: 0,
            why: OpenWhy::OutOfMemory,
        }),
    }
}

// Prints what is wrong with the log that was refused, and hands all disks back.
fn refuse<D: Disk + Drop, K: Sink>(
    alloc: Global,
    sink: &mut K,
    fault: HostFault<D>,
) -> ServeFault<D>
    ensures disks { result.disks.disks ≡ fault.disks.disks }
    ensures answers { AnswersOne (K.held sink.old) (K.held sink.new)
        (refused_by fault.which fault.why) result.status }
    ensures cause { result.status ≡ 3 → Rose (K.faults sink.old) (K.faults sink.new) }
    ensures later { K.faults sink.old ≤ K.faults sink.new }
    ensures quiet { StaysUnless (K.faults sink.old) (K.faults sink.new) (result.status ≡ 3) }
{
    let HostFault { disks, which, why } = fault;
    let status = tell_refused(alloc, sink, Refused { which, why });
    ServeFault { status, disks }
}

// Prints why enrolling stopped, and hands the disks of the host back.
#[tactic(auto, using(crate::proofs::TellLemmas::tellings))]
fn stop<D: Disk + Drop, K: Sink>(
    alloc: Global,
    sink: &mut K,
    host: Host<D>,
    why: EnrolStop,
) -> ServeFault<D>
    ensures disks { result.disks.disks ≡ disks_of host }
    ensures answers { AnswersOne (K.held sink.old) (K.held sink.new)
        (stopped_by why) result.status }
    ensures cause { result.status ≡ 3 → Rose (K.faults sink.old) (K.faults sink.new) }
    ensures later { K.faults sink.old ≤ K.faults sink.new }
    ensures quiet { StaysUnless (K.faults sink.old) (K.faults sink.new) (result.status ≡ 3) }
{
    let last = stopped_line(alloc, why);
    let status = tell(sink, last);
    give_back(host, status)
}

// Hands the disks of a host back.
fn give_back<D: Disk + Drop>(host: Host<D>, status: u8) -> ServeFault<D>
    ensures status { result.status ≡ status }
    ensures disks { result.disks.disks ≡ disks_of host }
{
    ServeFault {
        status,
        disks: host.into_disks(),
    }
}
