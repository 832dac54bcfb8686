//! The sessions of a storm begin, run at once, and are taken in again.
ghost use Rattle.std.specs.Prelude.{◌≡◌, ◌<◌, ◌≤◌, ℕ, [], All, false, length, map, slice_index_or, IfOk, OnOk};
ghost use Rattle.std.specs.List.{list_any};
ghost use Rattle.up_shared.specs.Sharing.{AreSeats};
ghost use Rattle.up_storm.specs.Sessions.{HasRun, Session as OneSession, said_of};
ghost use Rattle.up_storm.specs.Seating.{AreBegun, AreJoined, HasBegun};
ghost use Rattle.up_storm.specs.Telling.{IsFew, none_counted};

use crate::generator::first_number;
use crate::plan::Plan;
use crate::session::{Said, Worker};
use crate::sign_on::sign_on;
use crate::texts::user_text;
use std::alloc::{AllocError, Global};
use std::collections::VecDeque;
use std::sync::Wait;
use std::thread;
use std::thread::Threads;
use up_disk::Disk;
use up_ends::Gate;
use up_peer::{Loader, PeerList, RefusingPeer};
use up_shared::{Seats, Shared};

/// Whom the sessions ask for groups of other owners: nobody.
pub(crate) type Nobody = PeerList<RefusingPeer>;

/// The sessions of a plan, each with seats that were split off from these.
#[tactic(auto, using(crate::proofs::Beginning::beginning_none, crate::proofs::Beginning::beginning_next, crate::proofs::Beginning::beginning_all, crate::proofs::Beginning::none_each, crate::proofs::Beginning::number_next, crate::proofs::Beginning::each_next, crate::proofs::Beginning::fresh_next))]
pub(crate) fn begun<D: Disk + Drop>(
    alloc: Global,
    shared: &Shared<D>,
    seats: &mut Seats<D>,
    plan: Plan,
) -> Result<Vec<Worker<D, Nobody>>, AllocError>
    requires sits { AreSeats shared.now seats.old }
    ensures begun { IfOk result (λ workers. AreBegun [] plan.seed 0 seats.old workers.items
        seats.new) }
    ensures number { IfOk result (λ workers. length workers.items ≡ plan.sessions) }
    ensures sits { AreSeats shared.now seats.new }
    ensures each { IfOk result (λ workers.
        All (λ worker. AreSeats shared.now worker.seats) workers.items) }
    ensures fresh { IfOk result (λ workers.
        All (λ worker. worker.tally ≡ none_counted) workers.items) }
{
    let mut workers = Vec::new(alloc);
    for k in 0..plan.sessions {
        begin(alloc, shared, seats, plan.seed, k, &mut workers)?;
    }
    Ok(workers)
}

// Session `k` begins.
#[tactic(auto, using(crate::proofs::Beginning::begun_one))]
fn begin<D: Disk + Drop>(
    alloc: Global,
    shared: &Shared<D>,
    seats: &mut Seats<D>,
    seed: u64,
    k: u64,
    workers: &mut Vec<Worker<D, Nobody>>,
) -> Result<(), AllocError>
    requires sits { AreSeats shared.now seats.old }
    ensures sits { AreSeats shared.now seats.new }
    ensures begun { OnOk result (HasBegun [] shared.now seed k seats.old workers.old.items
        seats.new workers.new.items) }
{
    let user = user_text(alloc, k)?;
    let signed = sign_on(alloc, user.as_slice());
    drop(user);
    let session = signed?;
    let Ok(other) = shared.split(alloc, seats) else {
        drop(session);
        return Err(AllocError);
    };
    let peers = Nobody::new(alloc);
    workers.push(Worker::new(alloc, other, peers, session, first_number(seed, k)))?;
    Ok(())
}

/// Runs all sessions at once, in at most so many threads; each has one of its own where there are as many.
pub(crate) fn run_all<
    R: Threads + Wait + Sync,
    D: Disk + Drop + Send,
    L: Loader + Drop + Send,
    G: Gate + Sync,
>(rt: &R, shared: &Shared<D>, gate: &G, plan: Plan, threads: usize, workers: &mut [Worker<D, L>])
    requires threads { 0 < threads }
    requires few { length workers.old ≤ 32 }
    requires requests { plan.requests ≤ 4096 }
    requires sits { All (λ (worker : OneSession D L). AreSeats shared.now worker.seats) workers.old }
    requires fresh { All (λ (worker : OneSession D L). worker.tally ≡ none_counted) workers.old }
    ensures ran { (k : ℕ) (d : OneSession D L) → k < length workers.old
        → (slice_index_or workers.new k d).failed ≡ false
        → HasRun L.Loader shared.now plan.full k plan.requests
        (slice_index_or workers.old k d) (slice_index_or workers.new k d) }
    ensures sits { (k : ℕ) (d : OneSession D L) → k < length workers.old
        → AreSeats shared.now (slice_index_or workers.new k d).seats }
    ensures few { (k : ℕ) (d : OneSession D L) → k < length workers.old
        → IsFew plan.requests (slice_index_or workers.new k d).tally }
    ensures number { length workers.new ≡ length workers.old }
{
    thread::for_each_mut(
        rt,
        workers,
        threads,
        &|k, worker: &mut Worker<D, L>| {
            worker.run(rt, shared, gate, plan.full, k as u64, plan.requests)
        },
    );
}

/// Whether a disk failed any of the sessions, or memory was wanting.
pub(crate) fn any_failed<D: Disk + Drop, L: Loader + Drop>(workers: &[Worker<D, L>]) -> bool
    ensures { result ≡ list_any (λ worker. worker.failed) workers.now }
{
    workers.iter().any(|worker| worker.failed())
}

/// The seats take in those of all sessions. What the sessions say is left.
#[tactic(auto, using(crate::proofs::Beginning::joining_none, crate::proofs::Beginning::joining_next, crate::proofs::Beginning::joining_all, crate::proofs::Beginning::said_next, crate::proofs::Beginning::said_all, crate::proofs::Beginning::next_sits, crate::proofs::Beginning::more_sit))]
pub(crate) fn join_all<D: Disk + Drop, L: Loader + Drop>(
    alloc: Global,
    shared: &Shared<D>,
    seats: &mut Seats<D>,
    workers: Vec<Worker<D, L>>,
) -> Result<Vec<Said>, AllocError>
    requires sits { AreSeats shared.now seats.old }
    requires each { All (λ (worker : OneSession D L). AreSeats shared.now worker.seats) workers.items }
    ensures sits { AreSeats shared.now seats.new }
    ensures joined { IfOk result (λ _. AreJoined seats.old workers.items seats.new) }
    ensures said { IfOk result (λ said. said.items ≡ map (λ worker. said_of worker) workers.items) }
{
    let mut said = Vec::with_capacity(alloc, workers.len())?;
    let mut left = VecDeque::from(workers);
    loop {
        let Some(worker) = left.pop_front() else {
            return Ok(said);
        };
        let (other, one) = worker.end();
        shared.join(seats, other);
        said.push_reserved(one);
    }
}
