//! What comes of a line, over whoever is asked.
ghost use Rattle.std.specs.Prelude.{◌≡◌, ◌≢◌, ◌↔◌, ◌++◌, IsErr, IsErrOf, OnOk, Some, codes};
ghost use Rattle.std.specs.Result.{result_ok};
ghost use Rattle.up_client.specs.Talks.{Held};
ghost use Rattle.up_command.specs.Printed.{ended};
ghost use Rattle.up_command.specs.Words.{call_path};
ghost use Rattle.up_lists.specs.Counts.{HasCause, StaysUnless};
ghost use Rattle.up_terminal.specs.Answers.{AskCame, CallCame, SaysCame, LineGathered, result_of_get, result_of_put, result_of_answer};
ghost use Rattle.up_terminal.specs.Lines.{lines_text};
ghost use Rattle.up_text.specs.ClientFaults.{fault_lines};
ghost use Rattle.up_text.specs.Replies.{reply_lines};
ghost use Rattle.up_wire.specs.declared.replies.Reply.TheVariants as replies;

use crate::stop::LineStop;
use crate::terminal_line::TerminalLine;
use std::alloc::{AllocError, Global};
use up_bytes::Bytes;
use up_client::{Ask, ClientFault, Failed, get, put};
use up_command::call_path;
use up_names::{Path, User};
use up_text::{ClientLine, fault_lines, push_reply};
use up_wire::{Done, Reply, Request};

/// Does what a line says, and gathers what it prints.
pub(crate) fn do_line<A: Ask>(
    alloc: Global,
    user: &User,
    says: TerminalLine,
    ask: &mut A,
    out: &mut Vec<u8>,
) -> Result<(), LineStop>
    ensures came { LineGathered (λ came. SaysCame A.answers user.now ask.old says came ask.new)
        out.old.items result out.new.items }
    ensures cause { HasCause (A.faults ask.old) (A.faults ask.new)
        (IsErrOf result LineStop.AskFault) }
    ensures quiet { StaysUnless (A.faults ask.old) (A.faults ask.new)
        (IsErrOf result LineStop.AskFault) }
    ensures tie { A.tied ask.old ask.new }
{
    match says {
        TerminalLine::Silent => Ok(()),
        TerminalLine::Request(request) => request_made(alloc, &request, ask, out),
        TerminalLine::Client(call) => call_made(alloc, user, &call, ask, out),
    }
}

// A request.
fn request_made<A: Ask>(
    alloc: Global,
    request: &Request,
    ask: &mut A,
    out: &mut Vec<u8>,
) -> Result<(), LineStop>
    ensures came { LineGathered (λ came. AskCame A.answers request.now ask.old came ask.new)
        out.old.items result out.new.items }
    ensures cause { HasCause (A.faults ask.old) (A.faults ask.new)
        (IsErrOf result LineStop.AskFault) }
    ensures quiet { StaysUnless (A.faults ask.old) (A.faults ask.new)
        (IsErrOf result LineStop.AskFault) }
    ensures tie { A.tied ask.old ask.new }
{
    let given = ask.ask(alloc, request);
    say_request_result(out, given)
}

// What came of a request.
fn say_request_result(out: &mut Vec<u8>, given: Result<Reply, Failed>) -> Result<(), LineStop>
    ensures said { LineGathered (λ came. came ≡ result_of_answer (result_ok given))
        out.old.items result out.new.items }
    ensures failed { IsErrOf result LineStop.AskFault ↔ IsErr given }
{
    match given {
        Ok(reply) => {
            let said = say_reply_result(out, &reply);
            drop(reply);
            said
        }
        Err(Failed) => Err(LineStop::AskFault),
    }
}

// What is said of a reply.
fn say_reply_result(out: &mut Vec<u8>, reply: &Reply) -> Result<(), LineStop>
    ensures said { LineGathered (λ came. came ≡ result_of_answer (Some reply.now))
        out.old.items result out.new.items }
    ensures answered { IsErrOf result LineStop.AskFault → ⊥ }
{
    if let Reply::OutOfMemory = reply {
        return Err(LineStop::OutOfMemory);
    }
    Ok(say_reply(out, reply)?)
}

// What the client does.
fn call_made<A: Ask>(
    alloc: Global,
    user: &User,
    call: &ClientLine,
    ask: &mut A,
    out: &mut Vec<u8>,
) -> Result<(), LineStop>
    ensures came { LineGathered (λ came. CallCame A.answers user.now ask.old call.now came ask.new)
        out.old.items result out.new.items }
    ensures cause { HasCause (A.faults ask.old) (A.faults ask.new)
        (IsErrOf result LineStop.AskFault) }
    ensures quiet { StaysUnless (A.faults ask.old) (A.faults ask.new)
        (IsErrOf result LineStop.AskFault) }
    ensures tie { A.tied ask.old ask.new }
{
    match call_path(alloc, call)? {
        Some(path) => call_at(alloc, user, call, &path, ask, out),
        None => Ok(say_line(out, b"invalid name")?),
    }
}

// What the client does at a path.
fn call_at<A: Ask>(
    alloc: Global,
    user: &User,
    call: &ClientLine,
    path: &Path,
    ask: &mut A,
    out: &mut Vec<u8>,
) -> Result<(), LineStop>
    requires path { call_path call.now ≡ Some path.now }
    ensures came { LineGathered (λ came. CallCame A.answers user.now ask.old call.now came ask.new)
        out.old.items result out.new.items }
    ensures cause { HasCause (A.faults ask.old) (A.faults ask.new)
        (IsErrOf result LineStop.AskFault) }
    ensures quiet { StaysUnless (A.faults ask.old) (A.faults ask.new)
        (IsErrOf result LineStop.AskFault) }
    ensures tie { A.tied ask.old ask.new }
{
    match call {
        ClientLine::Put(_, time, sequence, bytes) => {
            let bytes = bytes.as_slice();
            let outcome = put(alloc, ask, user, path, *time, *sequence, bytes);
            say_put_result(alloc, out, outcome)
        }
        ClientLine::Get(_) => {
            let outcome = get(alloc, ask, path);
            say_get_result(alloc, out, outcome)
        }
    }
}

// What came of a put.
fn say_put_result(
    alloc: Global,
    out: &mut Vec<u8>,
    outcome: Result<u64, ClientFault>,
) -> Result<(), LineStop>
    ensures said { LineGathered (λ came. came ≡ result_of_put outcome) out.old.items result out.new.items }
    ensures failed { IsErrOf result LineStop.AskFault ↔ IsErrOf outcome ClientFault.Failed }
{
    match outcome {
        Ok(position) => Ok(say_call_done(out, Done::Changed(position))?),
        Err(fault) => {
            let said = say_call_failed(alloc, out, &fault);
            drop(fault);
            said
        }
    }
}

// What came of a get.
fn say_get_result(
    alloc: Global,
    out: &mut Vec<u8>,
    outcome: Result<Bytes, ClientFault>,
) -> Result<(), LineStop>
    ensures said { LineGathered (λ came. came ≡ result_of_get outcome) out.old.items result out.new.items }
    ensures failed { IsErrOf result LineStop.AskFault ↔ IsErrOf outcome ClientFault.Failed }
{
    match outcome {
        Ok(bytes) => Ok(say_call_done(out, Done::Bytes(bytes))?),
        Err(fault) => {
            let said = say_call_failed(alloc, out, &fault);
            drop(fault);
            said
        }
    }
}

// What was done.
fn say_call_done(out: &mut Vec<u8>, done: Done) -> Result<(), AllocError>
    ensures { OnOk result (out.new.items
        ≡ out.old.items ++ lines_text (reply_lines (replies.Ok done))) }
{
    let reply = Reply::Ok(done);
    let said = say_reply(out, &reply);
    drop(reply);
    said
}

// Why a put or get failed.
fn say_call_failed(alloc: Global, out: &mut Vec<u8>, fault: &ClientFault) -> Result<(), LineStop>
    ensures said { OnOk result ((fault.now ≢ ClientFault.OutOfMemory)
        × (fault.now ≢ ClientFault.Failed)
        × (out.new.items ≡ out.old.items ++ lines_text (fault_lines fault.now))) }
    ensures failed { IsErrOf result LineStop.AskFault ↔ (fault.now ≡ ClientFault.Failed) }
    ensures unsaid { IsErrOf result LineStop.AskFault → out.new.items ≡ out.old.items }
{
    match fault {
        ClientFault::Failed => Err(LineStop::AskFault),
        ClientFault::OutOfMemory => Err(LineStop::OutOfMemory),
        _ => {
            let lines = fault_lines(alloc, fault)?;
            Ok(say_lines(out, lines.as_slice())?)
        }
    }
}

// The lines of a reply, each with its LF.
fn say_reply(out: &mut Vec<u8>, reply: &Reply) -> Result<(), AllocError>
    ensures { OnOk result (out.new.items
        ≡ out.old.items ++ lines_text (reply_lines reply.now)) }
{
    push_reply(out, b"", reply)
}

// Lines, each with its LF.
fn say_lines(out: &mut Vec<u8>, lines: &[Bytes]) -> Result<(), AllocError>
    ensures { OnOk result (out.new.items ≡ out.old.items ++ lines_text lines.now) }
{
    for line in lines {
        say_line(out, line.as_slice())?;
    }
    Ok(())
}

// A line, with its LF.
fn say_line(out: &mut Vec<u8>, line: &[u8]) -> Result<(), AllocError>
    ensures { OnOk result (out.new.items ≡ out.old.items ++ ended line.now) }
{
    out.extend_from_slice(line)?;
    out.push(b'\n')?;
    Ok(())
}
