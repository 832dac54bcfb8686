//! Requests to a host, one after the other.
ghost use Rattle.std.specs.Prelude.{◌≡◌, ◌≤◌, ◌+◌, [], length, vec_capacity, vec_len, IfOk, OnErr};
ghost use Rattle.std.specs.List.{AllByRecursion};
ghost use Rattle.up_ends.specs.Moments.{IsMoment};
ghost use Rattle.up_host.specs.Runs.{IsHistory};

use crate::host::Host;
use std::alloc::{AllocError, Global};
use up_calls::Event;
use up_disk::Disk;
use up_lists::Items;
use up_peer::Loader;
use up_sign::Session;
use up_wire::Request;

/// A request of whoever has signed on, at a moment in seconds since 1970.
#[derive(Drop)]
pub struct Call {
    pub session: Session,
    pub request: Request,
    pub moment: u64,
}

/// Asks requests, one after the other. Of the events that look at one log the positions never fall, and one after an own record has its
/// position not before that. Where memory is wanting for the list of events, nothing was asked.
pub fn ask_all<D: Disk, L: Loader>(
    alloc: Global,
    host: &mut Host<D>,
    loader: &mut L,
    calls: &[Call],
) -> Result<Items<Event>, AllocError>
    requires { AllByRecursion (λ call. IsMoment call.moment) calls.now }
    ensures history { IfOk result
        (IsHistory D.Disk L.Loader host.old loader.old calls.now host.new loader.new) }
    ensures host { OnErr result (host.new ≡ host.old) }
    ensures loader { OnErr result (loader.new ≡ loader.old) }
{
    let mut events = Vec::new(alloc);
    events.reserve(calls.len())?;
    ask_each(alloc, host, loader, calls, &mut events);
    Ok(Items::from_vec(events))
}

// Asks requests, for whose events there is room.
fn ask_each<D: Disk, L: Loader>(
    alloc: Global,
    host: &mut Host<D>,
    loader: &mut L,
    calls: &[Call],
    events: &mut Vec<Event>,
)
    requires moments { AllByRecursion (λ call. IsMoment call.moment) calls.now }
    requires none { events.old.items ≡ [] }
    requires room { vec_len events.old + length calls.now ≤ vec_capacity events.old }
    ensures { IsHistory D.Disk L.Loader
        host.old loader.old calls.now host.new loader.new events.new.items }
{
    for call in calls {
        let event = host.ask(alloc, loader, &call.session, &call.request, call.moment);
        events.push_reserved(event);
    }
}
