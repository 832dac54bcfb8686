//! `upspin serve`.
ghost use Rattle.std.specs.Prelude.{◌≡◌, ◌≤◌, ◌+◌, [], ◌∷◌, length, map, string_bytes, None, Some, true, is_some, IfErr, IfSome};
ghost use Rattle.std.specs.Io.KnownBytes.{Appends};
ghost use Rattle.up_command.specs.Statuses.{IsOneOf, code_of, usage_line};
ghost use Rattle.up_lists.specs.Counts.{Rose, StaysUnless};
ghost use Rattle.up_ends.specs.Writing.{WritesPart};
ghost use Rattle.up_serve.specs.Plans.{plan_of};
ghost use Rattle.up_server.specs.Endings.{ended_with, stopped_with};
ghost use Rattle.up_shared.specs.Sharing.{AreSeats};

use crate::door::{Door, Visit};
use crate::hatch::Hatch;
use crate::logs::{Place, ServedDisk, served_disks};
use crate::saying::say_listening;
use std::alloc::Global;
use std::fmt::Display;
use std::hash::RandomState;
use std::net::{SocketAddr, TcpListener};
use std::sync::Wait;
use std::thread::{Threads, join};
use std::time::Clock;
use std::{io, str};
use up_accept::{Bounds, serve_each};
use up_bytes::Bytes;
use up_command::{Status, usage};
use up_disk::Disks;
use up_ends::{Sink, Source, StdSource};
use up_host::Host;
use up_net::{Machine, SeedNonces, open_enrol};
use up_serve::{ServeFault, ServePlan, serve_open, serve_words};

/// How many connections are answered at once, those of followers among them.
const AT_ONCE: u64 = 256;

/// How many of these are kept for followers where they are listened for.
const FOLLOWERS_AT_ONCE: u64 = 64;

/// Runs `upspin serve`: reads the words, opens the logs of a folder, enrols users, listens, prints where, and answers so many
/// connections, each in a thread of its own; where the words say so, so many of followers besides, at an address of their own. It ends with
/// 0 when all of them have ended.
///
/// Words that do not fit get the usage line and 64, and touch no file. Any other status than 0 is that of what failed: 2 where the file of
/// users, or the system's random bytes, cannot be read; 3 where the sink failed; 4 for lack of memory; 6 where a disk failed; 7 for a file
/// of users of over 67,108,864 bytes; 8 where a log is damaged; 9 where it cannot listen or accept, at either address; 10 at a bad line of
/// the file of users; 12 where a log is full. A connection's end never ends the server.
#[tactic(auto, using(crate::proofs::EndLemmas::ends))]
pub fn serve<R: Threads + Wait + Clock + Sync, K: Sink>(
    threads: &R,
    rt: HostRuntime,
    words: &[String],
    sink: &mut K,
) -> u8
    ensures usage { plan_of (map string_bytes words.now) ≡ None
        → IsOneOf (3 ∷ 4 ∷ 64 ∷ []) result
        × WritesPart (K.held sink.old) (K.held sink.new) usage_line }
    ensures usage_only { result ≡ 64 → (plan_of (map string_bytes words.now) ≡ None)
        × Appends (K.held sink.old) (K.held sink.new) usage_line }

    // The statuses that come, and the cause of the one whose object is seen here.
    ensures statuses { IsOneOf (0 ∷ 2 ∷ 3 ∷ 4 ∷ 6 ∷ 7 ∷ 8 ∷ 9 ∷ 10 ∷ 12 ∷ 64 ∷ []) result }
    ensures write_fault { result ≡ 3 → Rose (K.faults sink.old) (K.faults sink.new) }
    ensures sink_counts { K.faults sink.old ≤ K.faults sink.new }
    ensures sink_quiet { StaysUnless (K.faults sink.old) (K.faults sink.new) (result ≡ 3) }
{
    match serve_words(rt.alloc(), words) {
        Ok(Some(plan)) => serve_plan(threads, rt, words, plan, sink),
        Ok(None) => usage(sink).code(),
        Err(_) => Status::OutOfMemory.code(),
    }
}

// The server of a plan.
#[tactic(auto, using(crate::proofs::EndLemmas::ends))]
fn serve_plan<R: Threads + Wait + Clock + Sync, K: Sink>(
    threads: &R,
    rt: HostRuntime,
    words: &[String],
    plan: ServePlan,
    sink: &mut K,
) -> u8
    requires { plan_of (map string_bytes words.now) ≡ Some plan }
    ensures statuses { IsOneOf (0 ∷ 2 ∷ 3 ∷ 4 ∷ 6 ∷ 7 ∷ 8 ∷ 9 ∷ 10 ∷ 12 ∷ []) result }
    ensures write_fault { result ≡ 3 → Rose (K.faults sink.old) (K.faults sink.new) }
    ensures sink_counts { K.faults sink.old ≤ K.faults sink.new }
    ensures sink_quiet { StaysUnless (K.faults sink.old) (K.faults sink.new) (result ≡ 3) }
{
    let alloc = rt.alloc();
    let Ok(random) = RandomState::new(&rt) else {
        return Status::ReadFault.code();
    };
    let Ok(nonces) = SeedNonces::from_random(&mut Machine::new(alloc, &rt)) else {
        return Status::ReadFault.code();
    };
    match opened(rt, random, words, &plan, sink) {
        Ok(host) => listen(threads, rt, &plan, host, nonces, sink).code(),
        Err(status) => status,
    }
}

// The host of a plan, with its users enrolled.
#[tactic(auto, using(crate::proofs::EndLemmas::ends))]
fn opened<K: Sink>(
    rt: HostRuntime,
    random: RandomState,
    words: &[String],
    plan: &ServePlan,
    sink: &mut K,
) -> Result<Host<ServedDisk>, u8>
    requires { plan_of (map string_bytes words.now) ≡ Some plan.now }
    ensures statuses { IsOneOf (0 ∷ 2 ∷ 3 ∷ 4 ∷ 6 ∷ 7 ∷ 8 ∷ 10 ∷ 12 ∷ []) (ended_with result) }
    ensures write_fault { ended_with result ≡ 3 → Rose (K.faults sink.old) (K.faults sink.new) }
    ensures sink_counts { K.faults sink.old ≤ K.faults sink.new }
    ensures sink_quiet { StaysUnless (K.faults sink.old) (K.faults sink.new) (ended_with result ≡ 3) }
{
    let alloc = rt.alloc();
    let (Some(folder), Some(enrol)) = (text(&plan.folder), text(&plan.enrol)) else {
        return Err(Status::DiskFault.code());
    };
    let place = Place {
        rt,
        folder,
        trees: plan.trees.len(),
    };
    let disks = served_disks(alloc, place, sink)?;
    if enrol.is_empty() {
        let mut nobody = StdSource::new(io::empty());
        return enrolled(alloc, random, words, disks, &mut nobody, sink);
    }
    let mut users = open_enrol(&rt, enrol);
    enrolled(alloc, random, words, disks, &mut users, sink)
}

// The host over these disks, with the users of a source enrolled.
#[tactic(auto, using(crate::proofs::EndLemmas::ends))]
fn enrolled<S: Source, K: Sink>(
    alloc: Global,
    random: RandomState,
    words: &[String],
    disks: Disks<ServedDisk>,
    users: &mut S,
    sink: &mut K,
) -> Result<Host<ServedDisk>, u8>
    requires fits { is_some (plan_of (map string_bytes words.now)) ≡ true }
    requires disks { IfSome (plan_of (map string_bytes words.now))
        (λ plan. length disks.disks ≡ length plan.trees + 2) }
    ensures statuses { IsOneOf (0 ∷ 2 ∷ 3 ∷ 4 ∷ 6 ∷ 7 ∷ 8 ∷ 10 ∷ 12 ∷ []) (ended_with result) }
    ensures write_fault { ended_with result ≡ 3 → Rose (K.faults sink.old) (K.faults sink.new) }
    ensures sink_counts { K.faults sink.old ≤ K.faults sink.new }
    ensures sink_quiet { StaysUnless (K.faults sink.old) (K.faults sink.new) (ended_with result ≡ 3) }
{
    match serve_open(alloc, random, words, disks, users, sink) {
        Ok(host) => Ok(host),
        Err(ServeFault { status, disks: _ }) => Err(status),
    }
}

// Listens, and answers connections.
#[tactic(auto, using(crate::proofs::EndLemmas::ends))]
fn listen<R: Threads + Wait + Clock + Sync, K: Sink>(
    threads: &R,
    rt: HostRuntime,
    plan: &ServePlan,
    host: Host<ServedDisk>,
    nonces: SeedNonces,
    sink: &mut K,
) -> Status
    ensures statuses { IsOneOf (0 ∷ 3 ∷ 4 ∷ 9 ∷ []) (code_of result) }
    ensures write_fault { code_of result ≡ 3 → Rose (K.faults sink.old) (K.faults sink.new) }
    ensures sink_counts { K.faults sink.old ≤ K.faults sink.new }
    ensures sink_quiet { StaysUnless (K.faults sink.old) (K.faults sink.new) (code_of result ≡ 3) }
{
    let Ok((shared, seats)) = host.into_shared(rt.alloc()) else {
        return Status::OutOfMemory;
    };
    let (Some(address), Some(helper)) = (text(&plan.listen), text(&plan.helper)) else {
        return Status::ListenFault;
    };
    let feed = match feed_listener(rt, plan) {
        Ok(feed) => feed,
        Err(status) => return status,
    };
    let door = Door {
        rt,
        alloc: rt.alloc(),
        shared: &shared,
        helper,
        peers: plan.peers.as_slice(),
    };
    let mut visit = Visit { seats, nonces };
    match listening(rt, address, sink) {
        Ok(listener) => match feed {
            Some(feed) => answer_both(threads, rt, plan, &door, &mut visit, listener, feed),
            None => answer(threads, rt, plan, &door, &mut visit, &listener, AT_ONCE),
        },
        Err(status) => status,
    }
}

// Answers the connections of a listener, at most so many at once.
fn answer<R: Threads + Wait + Clock + Sync>(
    threads: &R,
    rt: HostRuntime,
    plan: &ServePlan,
    door: &Door<'_, ServedDisk>,
    visit: &mut Visit<ServedDisk>,
    listener: &TcpListener,
    at_once: u64,
) -> Status
    requires { AreSeats door.now.shared.now visit.old.seats }
    ensures { IsOneOf (0 ∷ 9 ∷ []) (code_of result) }
{
    let bounds = Bounds {
        connections: plan.connections,
        at_once,
    };
    match serve_each(threads, listener, door, visit, bounds) {
        Ok(()) => Status::Done,
        Err(why) => refused(rt, plan.listen.as_slice(), why),
    }
}

// Answers the connections of followers, at most so many at once.
fn answer_followers<R: Threads + Wait + Clock + Sync>(
    threads: &R,
    rt: HostRuntime,
    plan: &ServePlan,
    hatch: &Hatch<'_, ServedDisk>,
    visit: &mut Visit<ServedDisk>,
    listener: &TcpListener,
    at_once: u64,
) -> Status
    requires { AreSeats hatch.now.shared.now visit.old.seats }
    ensures { IsOneOf (0 ∷ 9 ∷ []) (code_of result) }
{
    let bounds = Bounds {
        connections: plan.feeds,
        at_once,
    };
    match serve_each(threads, listener, hatch, visit, bounds) {
        Ok(()) => Status::Done,
        Err(why) => refused(rt, plan.feed.as_slice(), why),
    }
}

// Answers connections, and those of followers beside them, until both have ended.
#[tactic(auto, using(crate::proofs::EndLemmas::ends))]
fn answer_both<R: Threads + Wait + Clock + Sync>(
    threads: &R,
    rt: HostRuntime,
    plan: &ServePlan,
    door: &Door<'_, ServedDisk>,
    visit: &mut Visit<ServedDisk>,
    listener: TcpListener,
    feed: TcpListener,
) -> Status
    requires { AreSeats door.now.shared.now visit.old.seats }
    ensures { IsOneOf (0 ∷ 4 ∷ 9 ∷ []) (code_of result) }
{
    let Ok(mut other) = visit.split_off(door.alloc, door.shared) else {
        return Status::OutOfMemory;
    };
    let hatch = Hatch {
        rt,
        alloc: door.alloc,
        shared: door.shared,
        helper: door.helper,
    };
    let (followed, answered) = join(
        threads,
        || -> Status
            requires { AreSeats hatch.shared.now other.seats }
            ensures { IsOneOf (0 ∷ 9 ∷ []) (code_of result) }
        {
            answer_followers(
                threads,
                rt,
                plan,
                &hatch,
                &mut other,
                &feed,
                FOLLOWERS_AT_ONCE,
            )
        },
        || -> Status
            requires { AreSeats door.now.shared.now visit.now.seats }
            ensures { IsOneOf (0 ∷ 9 ∷ []) (code_of result) }
        {
            answer(
                threads,
                rt,
                plan,
                door,
                visit,
                &listener,
                AT_ONCE - FOLLOWERS_AT_ONCE,
            )
        },
    );
    match answered {
        Status::Done => followed,
        status => status,
    }
}

// The listener for followers, where the plan has one. The port of one whose address ends in `:0` is told on standard error.
fn feed_listener(rt: HostRuntime, plan: &ServePlan) -> Result<Option<TcpListener>, Status>
    ensures { IfErr result (λ status. status ≡ Status.ListenFault) }
{
    if plan.feed.is_empty() {
        return Ok(None);
    }
    let Some(address) = text(&plan.feed) else {
        return Err(Status::ListenFault);
    };
    match bound(rt, address) {
        Ok((listener, here)) => {
            if address.ends_with(":0") {
                let _ = eprintln!(rt; "upspin: followers are listened for at {here}");
            }
            Ok(Some(listener))
        }
        Err(status) => Err(status),
    }
}

// The listener of an address, once it is printed.
#[tactic(auto, using(crate::proofs::EndLemmas::ends))]
fn listening<K: Sink>(rt: HostRuntime, address: &str, sink: &mut K) -> Result<TcpListener, Status>
    ensures statuses { IsOneOf (0 ∷ 3 ∷ 4 ∷ 9 ∷ []) (stopped_with result) }
    ensures write_fault { stopped_with result ≡ 3 → Rose (K.faults sink.old) (K.faults sink.new) }
    ensures sink_counts { K.faults sink.old ≤ K.faults sink.new }
    ensures sink_quiet { StaysUnless (K.faults sink.old) (K.faults sink.new) (stopped_with result ≡ 3) }
{
    let (listener, here) = bound(rt, address)?;
    match say_listening(rt.alloc(), sink, here) {
        Status::Done => Ok(listener),
        status => Err(status),
    }
}

// The listener of an address, and where it is.
fn bound(rt: HostRuntime, address: &str) -> Result<(TcpListener, SocketAddr), Status>
    ensures { IfErr result (λ status. status ≡ Status.ListenFault) }
{
    let listener = match TcpListener::bind(&rt, address) {
        Ok(listener) => listener,
        Err(why) => return Err(refused(rt, address.as_bytes(), why)),
    };
    match listener.local_addr() {
        Ok(here) => Ok((listener, here)),
        Err(why) => Err(refused(rt, address.as_bytes(), why)),
    }
}

// Says why nobody is served at an address any more.
fn refused(rt: HostRuntime, address: &[u8], why: impl Display + Drop) -> Status
    ensures { result ≡ Status.ListenFault }
{
    let address = str::from_utf8(address).unwrap_or("");
    let _ = eprintln!(rt; "upspin: {address}: {why}");
    Status::ListenFault
}

// The text that the value of an option is. Each word of a command is one.
fn text(value: &Bytes) -> Option<&str> {
    str::from_utf8(value.as_slice()).ok()
}
