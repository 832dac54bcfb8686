//! What each kind of line of a script does.
ghost use Rattle.std.specs.Prelude.{◌≡◌, ◌≢◌, ◌≤◌, ◌++◌, true, IfErr, IsSome, OnOk, Some, not};
ghost use Rattle.std.specs.List.{list_all, list_any};
ghost use Rattle.up_command.specs.Printed.{all_numbered};
ghost use Rattle.up_command.specs.Words.{call_path, is_key};
ghost use Rattle.up_sessions.specs.Fitting.{IsFit};
ghost use Rattle.up_sessions.specs.Others.{has_tree};
ghost use Rattle.up_sessions.specs.Worlds.{session_at};
ghost use Rattle.up_script_lines.specs.ScriptLines.{are_owners};
ghost use Rattle.up_script.specs.ScriptRuns.{LineGathered};
ghost use Rattle.up_script.specs.Scripts.{AskCame, CallCame, EnrolCame, HostCame, LineCame, OpenCame, SaysCame, result_of_get, is_new, place_of, result_of_put, result_of_reply};
ghost use Rattle.up_script.specs.Standing.{AreHostLimits, parties, world};
ghost use Rattle.up_script_lines.specs.Askable.{AskSomething};
ghost use Rattle.up_script.specs.Turns.{IsGood, result_of_enrol, result_of_host, result_of_open};
ghost use Rattle.up_text.specs.ClientFaults.{fault_lines};
ghost use Rattle.up_text.specs.Replies.{reply_lines};

use crate::stop::LineStop;
use std::alloc::{AllocError, Global};
use up_bytes::Bytes;
use up_client::ClientFault;
use up_command::{call_path, say, say_count, say_fault, say_numbered, say_reply};
use up_disk::Disk;
use up_ends::{Clock, Nonces, Verifier};
use up_journal::{AppendWhy, Limits};
use up_names::{Path, User};
use up_peer::Loader;
use up_script_lines::{NewHost, NewSession, NewUser, ScriptLine, script_line};
use up_sessions::{LineFault, Sessions};
use up_sign::HostName;
use up_text::{ClientLine, LineWords};
use up_wire::{Done, Reply};

/// How many hosts a script may have.
const MOST_HOSTS: u64 = 8;

/// Does what a line says, and gathers what it prints.
pub fn run_line<D: Disk + Drop, P: Loader, V: Verifier, C: Clock, N: Nonces>(
    alloc: Global,
    limits: Limits,
    sessions: &mut Sessions<D>,
    peers: &mut P,
    verifier: &mut V,
    clock: &mut C,
    nonces: &mut N,
    line: &[u8],
    out: &mut Vec<u8>,
) -> Result<(), LineStop>
    requires limits { AreHostLimits limits }
    requires fit { IsFit D.Disk sessions.old }
    ensures { LineGathered (λ came. LineCame (parties D.Disk P.Loader V.Verifier C.Clock N.Nonces) limits
        (world sessions.old peers.old verifier.old clock.old nonces.old) line.now came
        (world sessions.new peers.new verifier.new clock.new nonces.new))
        out.old.items result out.new.items }
{
    let Some(says) = script_line(alloc, line)? else {
        return Err(LineStop::Malformed);
    };
    do_line(
        alloc, limits, sessions, peers, verifier, clock, nonces, says, out,
    )
}

// Does what was said.
fn do_line<D: Disk + Drop, P: Loader, V: Verifier, C: Clock, N: Nonces>(
    alloc: Global,
    limits: Limits,
    sessions: &mut Sessions<D>,
    peers: &mut P,
    verifier: &mut V,
    clock: &mut C,
    nonces: &mut N,
    says: ScriptLine,
    out: &mut Vec<u8>,
) -> Result<(), LineStop>
    requires limits { AreHostLimits limits }
    requires fit { IsFit D.Disk sessions.old }
    requires good { IsGood says }
    ensures { LineGathered (λ came. SaysCame (parties D.Disk P.Loader V.Verifier C.Clock N.Nonces) limits
        (world sessions.old peers.old verifier.old clock.old nonces.old) says came
        (world sessions.new peers.new verifier.new clock.new nonces.new))
        out.old.items result out.new.items }
{
    match says {
        ScriptLine::Silent => Ok(()),
        ScriptLine::Host(host) => open_host(alloc, limits, sessions, host, out),
        ScriptLine::Enrol(user) => enrol(alloc, sessions, user, out),
        ScriptLine::Open(session) => sign_on(alloc, sessions, verifier, nonces, &session, out),
        ScriptLine::Request(number, words) => {
            ask(alloc, sessions, peers, clock, number, &words, out)
        }
        ScriptLine::Client(number, call) => {
            call_client(alloc, sessions, peers, clock, number, &call, out)
        }
    }
}

// `host NAME OPERATOR TREES`
fn open_host<D: Disk + Drop>(
    alloc: Global,
    limits: Limits,
    sessions: &mut Sessions<D>,
    host: NewHost,
    out: &mut Vec<u8>,
) -> Result<(), LineStop>
    requires limits { AreHostLimits limits }
    requires fit { IsFit D.Disk sessions.old }
    requires owners { are_owners host.owners ≡ true }
    ensures { LineGathered (λ came. HostCame D.Disk limits host sessions.old came sessions.new)
        out.old.items result out.new.items }
{
    if !is_new(sessions, &host) {
        return Err(LineStop::Malformed);
    }
    let NewHost {
        name,
        operator,
        owners,
    } = host;
    let opened = sessions.open_host(alloc, name.as_str(), operator, owners, limits);
    say_host_result(out, &name, opened)
}

// What came of a host.
fn say_host_result(
    out: &mut Vec<u8>,
    name: &HostName,
    opened: Result<(), LineFault>,
) -> Result<(), LineStop>
    ensures { LineGathered (λ came. came ≡ result_of_host name.now opened) out.old.items result out.new.items }
{
    match opened {
        Ok(()) => Ok(say(out, b"host ", name.as_str().as_bytes())?),
        Err(LineFault::Fault) => Err(LineStop::DiskFault),
        Err(LineFault::OutOfMemory) => Err(LineStop::OutOfMemory),
    }
}

// Whether there is room for a host, whose name and whose trees no other has.
fn is_new<D: Disk>(sessions: &Sessions<D>, host: &NewHost) -> bool
    ensures { result ≡ is_new sessions.now host.now }
{
    sessions.len() < MOST_HOSTS
        && sessions.named(host.name.as_str()).is_none()
        && are_free(sessions, host.owners.as_slice())
}

// Whether no host has the tree of one of these owners.
fn are_free<D: Disk>(sessions: &Sessions<D>, owners: &[User]) -> bool
    ensures { result ≡ list_all (λ owner. not (list_any (has_tree owner) sessions.now.hosts))
        owners.now }
{
    owners.iter().all(|owner| !sessions.has(owner))
}

// `enrol NAME USER KEY`
fn enrol<D: Disk>(
    alloc: Global,
    sessions: &mut Sessions<D>,
    user: NewUser,
    out: &mut Vec<u8>,
) -> Result<(), LineStop>
    requires key { is_key user.key ≡ true }
    ensures { LineGathered (λ came. EnrolCame D.Disk user sessions.old came sessions.new)
        out.old.items result out.new.items }
{
    let Some(place) = sessions.named(user.host.as_str()) else {
        return Err(LineStop::Malformed);
    };
    enrol_at(alloc, sessions, place, user, out)
}

// A user is enrolled at the host at a place.
fn enrol_at<D: Disk>(
    alloc: Global,
    sessions: &mut Sessions<D>,
    place: usize,
    user: NewUser,
    out: &mut Vec<u8>,
) -> Result<(), LineStop>
    requires key { is_key user.key ≡ true }
    requires place { place_of sessions.old user.host ≡ Some place }
    ensures { LineGathered (λ came. EnrolCame D.Disk user sessions.old came sessions.new)
        out.old.items result out.new.items }
{
    let name = user.user.clone()?;
    let NewUser { host: _, user, key } = user;
    let enrolled = sessions.enrol(alloc, place, user, key);
    say_enrol_result(out, &name, enrolled)
}

// What came of an enrolment.
fn say_enrol_result(
    out: &mut Vec<u8>,
    name: &User,
    enrolled: Result<u64, AppendWhy>,
) -> Result<(), LineStop>
    ensures { LineGathered (λ came. came ≡ result_of_enrol name.now enrolled)
        out.old.items result out.new.items }
{
    match enrolled {
        Ok(_) => Ok(say(out, b"enrolled ", name.text().as_bytes())?),
        Err(AppendWhy::Full(records)) => Ok(say_count(out, b"enrol full ", records)?),
        Err(AppendWhy::Fault) => Err(LineStop::DiskFault),
        Err(AppendWhy::OutOfMemory) => Err(LineStop::OutOfMemory),
    }
}

// `open N NAME USER PROOF`
fn sign_on<D: Disk, V: Verifier, N: Nonces>(
    alloc: Global,
    sessions: &mut Sessions<D>,
    verifier: &mut V,
    nonces: &mut N,
    session: &NewSession,
    out: &mut Vec<u8>,
) -> Result<(), LineStop>
    requires number { session.now.number ≤ 99 }
    ensures { LineGathered (λ came. OpenCame V.Verifier N.Nonces session.now
        sessions.old verifier.old nonces.old came sessions.new verifier.new nonces.new)
        out.old.items result out.new.items }
{
    let Some(place) = sessions.named(session.host.as_str()) else {
        return Err(LineStop::Malformed);
    };
    let number = session.number;
    let proof = session.proof.as_slice();
    let signed = sessions.sign_on(alloc, verifier, nonces, number, place, &session.user, proof);
    say_open_result(out, number, signed)
}

// What came of a sign-on.
fn say_open_result(
    out: &mut Vec<u8>,
    number: u64,
    signed: Result<bool, LineFault>,
) -> Result<(), LineStop>
    ensures { LineGathered (λ came. came ≡ result_of_open number signed) out.old.items result out.new.items }
{
    match signed {
        Ok(true) => Ok(say_numbered(out, number, b"open")?),
        Ok(false) => Ok(say_numbered(out, number, b"notsigned")?),
        Err(LineFault::Fault) => Err(LineStop::HelperFault),
        Err(LineFault::OutOfMemory) => Err(LineStop::OutOfMemory),
    }
}

// A request of a session.
fn ask<D: Disk, P: Loader, C: Clock>(
    alloc: Global,
    sessions: &mut Sessions<D>,
    peers: &mut P,
    clock: &mut C,
    number: u64,
    words: &LineWords,
    out: &mut Vec<u8>,
) -> Result<(), LineStop>
    requires words { AskSomething words.now }
    ensures { LineGathered (λ came. AskCame D.Disk P.Loader C.Clock number words.now
        sessions.old peers.old clock.old came sessions.new peers.new clock.new)
        out.old.items result out.new.items }
{
    let Some(user) = sessions.user(number) else {
        return Ok(say_numbered(out, number, b"nosession")?);
    };
    let Some(request) = words.request(alloc, user)? else {
        unreachable!()
    };
    let now = clock.now();
    let event = sessions.ask(alloc, peers, number, &request, now);
    drop(request);
    let said = say_reply_result(alloc, out, number, &event.reply);
    drop(event);
    said
}

// What came of a request.
fn say_reply_result(
    alloc: Global,
    out: &mut Vec<u8>,
    number: u64,
    reply: &Reply,
) -> Result<(), LineStop>
    ensures { LineGathered (λ came. came ≡ result_of_reply number reply.now) out.old.items result out.new.items }
{
    if let Reply::OutOfMemory = reply {
        return Err(LineStop::OutOfMemory);
    }
    Ok(say_reply(alloc, out, number, reply)?)
}

// What the client does in a session.
fn call_client<D: Disk, P: Loader, C: Clock>(
    alloc: Global,
    sessions: &mut Sessions<D>,
    peers: &mut P,
    clock: &mut C,
    number: u64,
    call: &ClientLine,
    out: &mut Vec<u8>,
) -> Result<(), LineStop>
    ensures { LineGathered (λ came. CallCame D.Disk P.Loader C.Clock number call.now
        sessions.old peers.old clock.old came sessions.new peers.new clock.new)
        out.old.items result out.new.items }
{
    let Some(_) = sessions.user(number) else {
        return Ok(say_numbered(out, number, b"nosession")?);
    };
    match call_path(alloc, call)? {
        Some(path) => call_at(alloc, sessions, peers, clock, number, call, &path, out),
        None => {
            let _now = clock.now();
            Ok(say_numbered(out, number, b"invalid name")?)
        }
    }
}

// What the client does at a path.
fn call_at<D: Disk, P: Loader, C: Clock>(
    alloc: Global,
    sessions: &mut Sessions<D>,
    peers: &mut P,
    clock: &mut C,
    number: u64,
    call: &ClientLine,
    path: &Path,
    out: &mut Vec<u8>,
) -> Result<(), LineStop>
    requires session { IsSome (session_at sessions.old number) }
    requires path { call_path call.now ≡ Some path.now }
    ensures { LineGathered (λ came. CallCame D.Disk P.Loader C.Clock number call.now
        sessions.old peers.old clock.old came sessions.new peers.new clock.new)
        out.old.items result out.new.items }
{
    let now = clock.now();
    match call {
        ClientLine::Put(_, time, sequence, bytes) => {
            let bytes = bytes.as_slice();
            let outcome = sessions.put(alloc, peers, number, path, *time, *sequence, bytes, now);
            say_put_result(alloc, out, number, outcome)
        }
        ClientLine::Get(_) => {
            let outcome = sessions.get(alloc, peers, number, path, now);
            say_get_result(alloc, out, number, outcome)
        }
    }
}

// What came of a put.
fn say_put_result(
    alloc: Global,
    out: &mut Vec<u8>,
    number: u64,
    outcome: Result<u64, ClientFault>,
) -> Result<(), LineStop>
    ensures { LineGathered (λ came. came ≡ result_of_put number outcome) out.old.items result out.new.items }
{
    match outcome {
        Ok(position) => Ok(say_call_done(alloc, out, number, Done::Changed(position))?),
        Err(fault) => {
            let said = say_call_failed(alloc, out, number, &fault);
            drop(fault);
            said
        }
    }
}

// What came of a get.
fn say_get_result(
    alloc: Global,
    out: &mut Vec<u8>,
    number: u64,
    outcome: Result<Bytes, ClientFault>,
) -> Result<(), LineStop>
    ensures { LineGathered (λ came. came ≡ result_of_get number outcome) out.old.items result out.new.items }
{
    match outcome {
        Ok(bytes) => Ok(say_call_done(alloc, out, number, Done::Bytes(bytes))?),
        Err(fault) => {
            let said = say_call_failed(alloc, out, number, &fault);
            drop(fault);
            said
        }
    }
}

// The reply to what was done.
fn say_call_done(
    alloc: Global,
    out: &mut Vec<u8>,
    number: u64,
    done: Done,
) -> Result<(), AllocError>
    ensures { OnOk result (out.new.items ≡ out.old.items
        ++ all_numbered number (reply_lines (Reply.Ok done))) }
{
    let reply = Reply::Ok(done);
    let said = say_reply(alloc, out, number, &reply);
    drop(reply);
    said
}

// Why a put or get failed.
fn say_call_failed(
    alloc: Global,
    out: &mut Vec<u8>,
    number: u64,
    fault: &ClientFault,
) -> Result<(), LineStop>
    ensures said { OnOk result ((fault.now ≢ ClientFault.OutOfMemory)
        × (out.new.items ≡ out.old.items ++ all_numbered number (fault_lines fault.now))) }
    ensures wanting { IfErr result (λ why. why ≡ LineStop.OutOfMemory) }
{
    if let ClientFault::OutOfMemory = fault {
        return Err(LineStop::OutOfMemory);
    }
    Ok(say_fault(alloc, out, number, fault)?)
}
