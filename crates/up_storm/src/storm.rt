//! `upspin storm`: sessions at once over one shared host, and what came of them.
ghost use Rattle.std.specs.Prelude.{◌≡◌, ◌≢◌, ◌<◌, ◌≤◌, ℕ, [], ◌∷◌, None, codes, length, map, slice_get, true, IfOk, IfSome, string_bytes};
ghost use Rattle.std.specs.Io.KnownBytes.{Appends};
ghost use Rattle.std.specs.List.{AllByRecursion};
ghost use Rattle.up_command.specs.Statuses.{AnswersWith, IsOneOf, code_of, usage_line};
ghost use Rattle.up_ends.specs.Writing.{WritesPart};
ghost use Rattle.up_cell.specs.Known.{Onward};
ghost use Rattle.up_lists.specs.Counts.{HasCause, Rose, StaysUnless};
ghost use Rattle.up_shared.specs.Sharing.{AreSeats};
ghost use Rattle.up_storm.specs.Logs.{IsReadBy};
ghost use Rattle.up_storm.specs.Plans.{is_within, plan_of};
ghost use Rattle.up_storm.specs.Seating.{HasEnded, HasRead};
ghost use Rattle.up_storm.specs.Storms.{HasTold, IsStorm, Means};
ghost use Rattle.up_storm.specs.Summary.{TellsSummary};
ghost use Rattle.up_storm.specs.Telling.{IsFew};

use crate::logs::{LogRead, ReadLog};
use crate::plan::{Plan, plan_of};
use crate::preparing::prepared;
use crate::session::Said;
use crate::sessions::{any_failed, begun, join_all, run_all};
use crate::telling::storm_text;
use std::alloc::{AllocError, Global};
use std::hash::RandomState;
use std::sync::Wait;
use std::thread::Threads;
use up_cell::{Cell, Seat};
use up_command::{Status, usage};
use up_disk::{Disk, MemDisk};
use up_ends::{Gate, Sink, write_all};
use up_peer::{Loader, PeerList, RefusingPeer};
use up_shared::{Seats, Shared};
use up_tree::TreeState;

/// Runs `upspin storm`, whose words are `storm SEED SESSIONS REQUESTS` and perhaps `--full`: makes a host with two trees over disks in
/// memory, runs so many sessions on it at once, each with its own seats and its own requests, which are drawn from the seed, and prints
/// how many records and items the trees have then, and how many requests were answered Ok, NotExist and Private. With `--full` it also
/// prints both logs, and for each session its requests with the replies and the positions at which they were answered. Before and
/// after each request the gate is called with the session's number and the request's.
///
/// It answers a status: 0, 3 where the sink failed, after a front of the text, 4 for want of memory, also where a disk in memory could not
/// grow, with nothing written, and 64 where the words are others, with the usage line printed. It waits for the turns of the logs.
pub fn storm_run<R: Threads + Wait + Sync, K: Sink, G: Gate + Sync>(
    rt: &R,
    alloc: Global,
    random: RandomState,
    words: &[String],
    sink: &mut K,
    gate: &G,
) -> u8
    // What is printed is the text of a storm.
    ensures meaning { IfSome (plan_of (map string_bytes words.now)) (λ plan. result ≢ 4
        → Means ⟦<MemDisk as Disk>⟧ ⟦<PeerList<RefusingPeer> as Loader>⟧ [] plan
        (K.held sink.old) (K.held sink.new) result) }
    // It begins with the summary that the words give, and ends with it where not all is printed.
    ensures summary { IfSome (plan_of (map string_bytes words.now)) (λ plan. result ≡ 0
        → TellsSummary plan (K.held sink.old) (K.held sink.new)) }

    // The statuses that come, and the cause of each.
    ensures statuses { IsOneOf (0 ∷ 3 ∷ 4 ∷ 64 ∷ []) result }
    ensures sink_cause { HasCause (K.faults sink.old) (K.faults sink.new) (result ≡ 3) }
    ensures sink_quiet { StaysUnless (K.faults sink.old) (K.faults sink.new) (result ≡ 3) }
    ensures unwritten { result ≡ 4 → sink.new ≡ sink.old }

    // Words that are none of this command.
    ensures usage { plan_of (map string_bytes words.now) ≡ None → IsOneOf (3 ∷ 64 ∷ []) result }
    ensures usage_part { plan_of (map string_bytes words.now) ≡ None
        → WritesPart (K.held sink.old) (K.held sink.new) usage_line }
    ensures usage_only { result ≡ 64 → plan_of (map string_bytes words.now) ≡ None }
    ensures usage_written { result ≡ 64 → Appends (K.held sink.old) (K.held sink.new) usage_line }

    // Where the words fit and the sink does not fail, all is done, or memory is wanting.
    ensures complete { IfSome (plan_of (map string_bytes words.now)) (λ _.
        (Rose (K.faults sink.old) (K.faults sink.new) → ⊥) → IsOneOf (0 ∷ 4 ∷ []) result) }
{
    match plan_of(words) {
        Some(plan) => run_plan(rt, alloc, random, plan, sink, gate).code(),
        None => usage(sink).code(),
    }
}

// Runs a storm, with a thread for each session, and prints what came of it.
#[tactic(auto, using(crate::proofs::StormLemmas::means, crate::proofs::Summed::told_summary))]
fn run_plan<R: Threads + Wait + Sync, K: Sink, G: Gate + Sync>(
    rt: &R,
    alloc: Global,
    random: RandomState,
    plan: Plan,
    sink: &mut K,
    gate: &G,
) -> Status
    requires { is_within plan ≡ true }
    ensures meaning { code_of result ≢ 4
        → Means ⟦<MemDisk as Disk>⟧ ⟦<PeerList<RefusingPeer> as Loader>⟧ [] plan
        (K.held sink.old) (K.held sink.new) (code_of result) }
    ensures summary { code_of result ≡ 0
        → TellsSummary plan (K.held sink.old) (K.held sink.new) }
    ensures status { IsOneOf (0 ∷ 3 ∷ 4 ∷ []) (code_of result) }
    ensures cause { HasCause (K.faults sink.old) (K.faults sink.new) (code_of result ≡ 3) }
    ensures quiet { StaysUnless (K.faults sink.old) (K.faults sink.new) (code_of result ≡ 3) }
    ensures unwritten { code_of result ≡ 4 → sink.new ≡ sink.old }
{
    match storm_within(rt, alloc, random, plan, plan.sessions as usize, gate) {
        Ok(text) => print(sink, &text),
        Err(_) => Status::OutOfMemory,
    }
}

// Writes the text of a storm.
fn print<K: Sink>(sink: &mut K, text: &[u8]) -> Status
    ensures answers { AnswersWith (K.held sink.old) (K.held sink.new)
        (record { text = text.now; status = 0 }) (code_of result) }
    ensures status { IsOneOf (0 ∷ 3 ∷ []) (code_of result) }
    ensures cause { HasCause (K.faults sink.old) (K.faults sink.new) (code_of result ≡ 3) }
    ensures quiet { StaysUnless (K.faults sink.old) (K.faults sink.new) (code_of result ≡ 3) }
{
    match write_all(sink, text) {
        Ok(()) => Status::Done,
        Err(_) => Status::WriteFault,
    }
}

/// The text of a storm, whose sessions run in at most so many threads. An `Err` is want of memory, also of a disk in memory.
#[tactic(auto, using(crate::proofs::StormLemmas::both_trees, crate::proofs::StormLemmas::is_storm))]
pub fn storm_within<R: Threads + Wait + Sync, G: Gate + Sync>(
    rt: &R,
    alloc: Global,
    random: RandomState,
    plan: Plan,
    threads: usize,
    gate: &G,
) -> Result<Vec<u8>, AllocError>
    requires threads { 0 < threads }
    requires plan { is_within plan ≡ true }
    ensures { IfOk result (λ text.
        IsStorm ⟦<MemDisk as Disk>⟧ ⟦<PeerList<RefusingPeer> as Loader>⟧ [] plan text.items) }
{
    let host = prepared(alloc, random, plan.sessions)?;
    let (shared, mut seats) = host.into_shared(alloc)?;
    let ended = end_all(rt, alloc, &shared, &mut seats, plan, threads, gate);
    let told = match ended {
        Ok(said) => tell(rt, alloc, &shared, &mut seats, plan, &said),
        Err(error) => Err(error),
    };
    drop(seats);
    drop(shared);
    told
}

// Runs all sessions to their end, and gives what they say. The seats take in theirs.
#[tactic(auto, using(crate::proofs::StormLemmas::has_ended, crate::proofs::StormLemmas::few_said))]
fn end_all<R: Threads + Wait + Sync, D: Disk + Drop + Send, G: Gate + Sync>(
    rt: &R,
    alloc: Global,
    shared: &Shared<D>,
    seats: &mut Seats<D>,
    plan: Plan,
    threads: usize,
    gate: &G,
) -> Result<Vec<Said>, AllocError>
    requires threads { 0 < threads }
    requires plan { is_within plan ≡ true }
    requires sits { AreSeats shared.now seats.old }
    ensures sits { AreSeats shared.now seats.new }
    ensures ended { IfOk result (λ said. HasEnded ⟦<PeerList<RefusingPeer> as Loader>⟧ [] shared.now
        plan seats.old seats.new said.items) }
    ensures number { IfOk result (λ said. length said.items ≤ 32) }
    ensures few { IfOk result (λ said.
        AllByRecursion (λ one. IsFew 4096 one.tally) said.items) }
{
    let mut workers = begun(alloc, shared, seats, plan)?;
    run_all(rt, shared, gate, plan, threads, workers.as_mut_slice());
    if any_failed(&workers) {
        drop(workers);
        return Err(AllocError);
    }
    join_all(alloc, shared, seats, workers)
}

// Reads both logs, and makes the text.
#[tactic(auto, using(crate::proofs::StormLemmas::told_by, crate::proofs::StormLemmas::two_trees, crate::proofs::ReadingLemmas::read_as_before))]
fn tell<R: Wait, D: Disk + Drop>(
    rt: &R,
    alloc: Global,
    shared: &Shared<D>,
    seats: &mut Seats<D>,
    plan: Plan,
    said: &[Said],
) -> Result<Vec<u8>, AllocError>
    requires plan { is_within plan ≡ true }
    requires sits { AreSeats shared.now seats.old }
    requires owners { map (λ tree. tree.owner) shared.now.trees.items
        ≡ codes "a@storm.example" ∷ codes "b@storm.example" ∷ [] }
    requires number { length said.now ≤ 32 }
    requires few { AllByRecursion (λ one. IsFew 4096 one.tally) said.now }
    ensures { IfOk result (λ text. HasTold plan seats.old said.now text.items) }
{
    let first = read_tree(rt, alloc, shared, seats, 0, plan.full)?;
    let Ok(second) = read_tree(rt, alloc, shared, seats, 1, plan.full) else {
        drop(first);
        return Err(AllocError);
    };
    storm_text(alloc, plan, &first, &second, said)
}

// Reads the log of the tree at a place, in a turn of its own. The seats at other trees stay.
fn read_tree<R: Wait, D: Disk + Drop>(
    rt: &R,
    alloc: Global,
    shared: &Shared<D>,
    seats: &mut Seats<D>,
    place: usize,
    full: bool,
) -> Result<LogRead, AllocError>
    requires sits { AreSeats shared.now seats.old }
    requires place { place < length shared.now.trees.items }
    ensures sits { AreSeats shared.now seats.new }
    ensures others { (i : ℕ) → i ≢ place
        → slice_get seats.new.trees.items i ≡ slice_get seats.old.trees.items i }
    ensures read { IfOk result (HasRead full seats.old place) }
{
    let cell = &shared.trees[place].cell;
    read_log(rt, alloc, cell, &mut seats.trees[place].seat, full)
}

// Reads the log of a tree by a seat, which then has seen all of it.
#[tactic(auto, using(crate::proofs::ReadingLemmas::read_by, up_cell::proofs::Turns::turn_onward))]
fn read_log<R: Wait, D: Disk + Drop>(
    rt: &R,
    alloc: Global,
    cell: &Cell<TreeState<D>>,
    seat: &mut Seat<TreeState<D>>,
    full: bool,
) -> Result<LogRead, AllocError>
    requires { seat.old.cell ≡ cell.now }
    ensures later { Onward seat.old seat.new }
    ensures read { IfOk result (IsReadBy full seat.old) }
{
    let mut job = ReadLog {
        alloc,
        full,
        read: Err(AllocError),
    };
    cell.lend(rt, seat, &mut job);
    job.read
}
