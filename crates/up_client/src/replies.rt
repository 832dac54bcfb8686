//! What is made of one reply.
ghost use Rattle.std.specs.Prelude.{◌≡◌, ℕ, Err, Result};
ghost use Rattle.up_client.specs.declared.fault.ClientFault.{ClientFault};
ghost use Rattle.up_client.specs.declared.fault.ClientFault.TheVariants as client_fault;
ghost use Rattle.up_client.specs.Replies.{◌>>=◌ as ◌then◌, bytes_in, outcome, position_in, reference_in};
ghost use Rattle.up_client.specs.Talks.{Talks, reply_to};

use crate::ask::{Ask, Failed};
use crate::fault::ClientFault;
use std::alloc::Global;
use up_bytes::Bytes;
use up_refs::Reference;
use up_wire::{Done, Reply, Request};

/// Asks one request, and lets it go.
pub(crate) fn reply_to<A: Ask>(
    alloc: Global,
    ask: &mut A,
    request: Request,
) -> Result<Reply, ClientFault>
    ensures { Talks A.Ask (reply_to request) ask.old result ask.new }
{
    let replied = asked(alloc, ask, &request);
    drop(request);
    replied
}

fn asked<A: Ask>(alloc: Global, ask: &mut A, request: &Request) -> Result<Reply, ClientFault>
    ensures { Talks A.Ask (reply_to request.now) ask.old result ask.new }
{
    match ask.ask(alloc, request) {
        Ok(reply) => Ok(reply),
        Err(Failed) => Err(ClientFault::Failed),
    }
}

/// What was done, or why nothing was.
pub(crate) fn outcome(reply: Reply) -> Result<Done, ClientFault>
    ensures { result ≡ outcome reply }
{
    match reply {
        Reply::Ok(done) => Ok(done),
        other => Err(refusal(other)),
    }
}

// Why a reply is not what was asked for.
fn refusal(reply: Reply) -> ClientFault
    ensures { let odd : Result ℕ ClientFault = Err client_fault.Odd in
        (outcome reply then (λ _. odd)) ≡ Err result }
{
    match reply {
        Reply::Ok(done) => {
            drop(done);
            ClientFault::Odd
        }
        Reply::OutOfMemory => ClientFault::OutOfMemory,
        other => ClientFault::Refused(other),
    }
}

/// The bytes of a block.
pub(crate) fn bytes_in(reply: Reply) -> Result<Bytes, ClientFault>
    ensures { result ≡ (outcome reply then bytes_in) }
{
    match reply {
        Reply::Ok(Done::Bytes(bytes)) => Ok(bytes),
        other => Err(refusal(other)),
    }
}

/// The reference of a block that was kept.
pub(crate) fn reference_in(reply: Reply) -> Result<Reference, ClientFault>
    ensures { result ≡ (outcome reply then reference_in) }
{
    match reply {
        Reply::Ok(done) => reference_of(done),
        other => Err(refusal(other)),
    }
}

// The reference of a block, of what was done.
fn reference_of(done: Done) -> Result<Reference, ClientFault>
    ensures { result ≡ reference_in done }
{
    match done {
        Done::Reference(reference) => Ok(reference),
        other => {
            drop(other);
            Err(ClientFault::Odd)
        }
    }
}

/// The position of a change.
pub(crate) fn position_in(done: Done) -> Result<u64, ClientFault>
    ensures { result ≡ position_in done }
{
    match done {
        Done::Changed(position) => Ok(position),
        other => {
            drop(other);
            Err(ClientFault::Odd)
        }
    }
}
