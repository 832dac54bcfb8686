//! Links that are followed.
ghost use Rattle.std.specs.Prelude.{◌≡◌, ◌≤◌, ◌&&◌, IfOk, IfSome, length, option_map, true};
ghost use Rattle.up_names.specs.PathNames.{PathName, extended, is_name, is_under};
ghost use Rattle.up_wire.specs.declared.requests.Request.{Request as Requests};
ghost use Rattle.up_client.specs.Links.{behind, fault_of, following, is_link, leads_to, next_to, short, step_of, step_to};
ghost use Rattle.up_client.specs.Talks.{Meant, Talks, reply_to};

use crate::ask::Ask;
use crate::fault::ClientFault;
use crate::replies::{outcome, reply_to};
use std::alloc::{AllocError, Global};
use up_entry::{Entry, Kind};
use up_names::{NameFault, Path};
use up_wire::{Done, Reply, Request};

/// How many links are followed.
const MOST_LINKS: u64 = 20;

/// A request that is made for a path.
pub(crate) trait AtPath {
    /// The request for a path.
    ghost request: { Self → PathName → Requests };

    fn at(&self, alloc: Global, path: &Path) -> Result<Request, AllocError>
        ensures { IfOk result (λ made. made ≡ request self.now path.now) };
}

/// Asks at a path, and at those to which links lead.
pub(crate) fn follow<A: Ask, R: AtPath>(
    alloc: Global,
    ask: &mut A,
    request: &R,
    path: &Path,
) -> Result<Done, ClientFault>
    ensures { Talks A.Ask (following (R.request request.now) 20 path.now) ask.old result ask.new }
{
    follow_on(alloc, ask, request, MOST_LINKS, path)
}

// The same where so many links may still be followed.
fn follow_on<A: Ask, R: AtPath>(
    alloc: Global,
    ask: &mut A,
    request: &R,
    more: u64,
    path: &Path,
) -> Result<Done, ClientFault>
    ensures { Talks A.Ask (following (R.request request.now) more path.now) ask.old result ask.new }
{
    let reply = ask_at(alloc, ask, request, path)?;
    let step = step_in(more, path, reply)?;
    match step {
        Step::On(next) => follow_on(alloc, ask, request, more - 1, &next),
        Step::Done(done) => Ok(done),
    }
}

// Where a reply leads, or what was done.
enum Step {
    On(Path),
    Done(Done),
}

// What a reply says where so many links may still be followed.
fn step_in(more: u64, path: &Path, reply: Reply) -> Result<Step, ClientFault>
    ensures { Meant result (step_to more path.now reply) }
{
    match reply {
        Reply::Ok(done) => Ok(Step::Done(done)),
        other => step_from(more, path, other),
    }
}

// The same of a reply that may lead on.
fn step_from(more: u64, path: &Path, reply: Reply) -> Result<Step, ClientFault>
    ensures { Meant result (step_to more path.now reply) }
{
    match next_in(more, path, &reply) {
        Ok(next) => step_of(next, reply),
        Err(fault) => {
            drop(reply);
            Err(fault)
        }
    }
}

// It is asked there, or what was done is done.
fn step_of(next: Option<Path>, reply: Reply) -> Result<Step, ClientFault>
    ensures { result ≡ step_of reply next }
{
    match next {
        Some(next) => {
            drop(reply);
            Ok(Step::On(next))
        }
        None => Ok(Step::Done(outcome(reply)?)),
    }
}

// The path where it is asked next, if the reply leads anywhere.
fn next_in(more: u64, path: &Path, reply: &Reply) -> Result<Option<Path>, ClientFault>
    ensures { Meant result (next_to more (leads_to path.now reply.now)) }
{
    let Some((n, target)) = link_in(path, reply) else {
        return Ok(None);
    };
    if more == 0 {
        return Err(ClientFault::TooManyLinks);
    }
    Ok(Some(behind(n, path, target)?))
}

// Asks at a path, and there alone.
fn ask_at<A: Ask, R: AtPath>(
    alloc: Global,
    ask: &mut A,
    request: &R,
    path: &Path,
) -> Result<Reply, ClientFault>
    ensures { Talks A.Ask (reply_to (R.request request.now path.now)) ask.old result ask.new }
{
    let asked = request.at(alloc, path)?;
    reply_to(alloc, ask, asked)
}

// Where a reply leads: of a link that stands at the path or above it, the number of its elements and its target.
fn link_in<'a>(path: &Path, reply: &'a Reply) -> Option<(u64, &'a Path)>
    ensures led { option_map (λ link. behind link.0 path.now link.1.now) result
        ≡ leads_to path.now reply.now }
    ensures within { IfSome result (λ link. link.0 ≤ length path.now.elements) }
{
    match reply {
        Reply::FollowLink(entry) => target_in(path, entry),
        _ => None,
    }
}

// Where a reply leads that shows this entry.
fn target_in<'a>(path: &Path, entry: &'a Entry) -> Option<(u64, &'a Path)>
    ensures led { option_map (λ link. behind link.0 path.now link.1.now) result
        ≡ leads_to path.now (Reply.FollowLink entry.now) }
    ensures within { IfSome result (λ link. link.0 ≤ length path.now.elements) }
{
    if !is_link_above(entry, path) {
        return None;
    }
    match &entry.link {
        Some(target) => Some((entry.name.len(), target)),
        None => None,
    }
}

// Whether an entry is a link that stands at the path or above it.
fn is_link_above(entry: &Entry, path: &Path) -> bool
    ensures { result ≡ (is_link entry.now.attr.kind && is_under path.now entry.now.name) }
{
    matches!(entry.attr.kind, Kind::Link) && path.is_under(&entry.name)
}

// The target, and behind it what stands in the path behind its first n elements.
fn behind(n: u64, path: &Path, target: &Path) -> Result<Path, ClientFault>
    requires { n ≤ length path.now.elements }
    ensures { Meant result (short (behind n path.now target.now)) }
{
    // The text of a path parses to that path: so each of its elements is a name, and it is not too long.
    let _path = path.as_str();
    let _target = target.as_str();
    let mut next = target.clone()?;
    for i in n..path.len() {
        let Some(element) = path.element(i) else {
            return Ok(next);
        };
        next = joined(&next, element)?;
    }
    Ok(next)
}

// The path with an element of a path at its end.
fn joined(path: &Path, element: &str) -> Result<Path, ClientFault>
    requires { is_name element.now ≡ true }
    ensures { Meant result (short (extended path.now element.now)) }
{
    match path.join(element) {
        Ok(longer) => Ok(longer),
        Err(fault) => Err(fault_of(fault)),
    }
}

// Why a path could not take an element of another path.
fn fault_of(fault: NameFault) -> ClientFault
    ensures { result ≡ fault_of fault }
{
    match fault {
        NameFault::OutOfMemory => ClientFault::OutOfMemory,
        _ => ClientFault::TooLong,
    }
}
