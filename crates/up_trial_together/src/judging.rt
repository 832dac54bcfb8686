//! Replies of a host that was shared, beside those of one that is not.
use crate::callers::Caller;
use crate::disks::HostDisk;
use crate::hosts::ask_alone;
use crate::plans::Plan;
use std::alloc::Global;
use up_calls::Event;
use up_host::Host;
use up_sign::Session;
use up_wire::{Done, Reply, Request};

/// How many replies are those of this host, which is asked all requests once more. They are asked in the order of their positions, and at
/// each position the one behind all others that added the next record. So where all replies are the same, the host's logs had the
/// records up to a reply's position when it was asked.
pub fn right_replies(
    alloc: Global,
    host: &mut Host<HostDisk<'_>>,
    plans: &[Plan<'_>],
    callers: &[Caller<HostDisk<'_>>],
) -> u64 {
    let mut right: u64 = 0;
    for position in 0..=last_position(callers) {
        for changes in [false, true] {
            right = right.saturating_add(right_at(alloc, host, plans, callers, position, changes));
        }
    }
    right
}

fn last_position(callers: &[Caller<HostDisk<'_>>]) -> u64 {
    let mut last = 0;
    for caller in callers.iter() {
        for event in caller.events.iter() {
            last = last.max(event.position);
        }
    }
    last
}

// Of the replies at a position that added a record, or of those that did not.
fn right_at(
    alloc: Global,
    host: &mut Host<HostDisk<'_>>,
    plans: &[Plan<'_>],
    callers: &[Caller<HostDisk<'_>>],
    position: u64,
    changes: bool,
) -> u64 {
    let mut right: u64 = 0;
    for (plan, caller) in plans.iter().zip(callers.iter()) {
        right = right.saturating_add(right_of(alloc, host, plan, caller, position, changes));
    }
    right
}

fn right_of(
    alloc: Global,
    host: &mut Host<HostDisk<'_>>,
    plan: &Plan<'_>,
    caller: &Caller<HostDisk<'_>>,
    position: u64,
    changes: bool,
) -> u64 {
    let mut right: u64 = 0;
    for (request, event) in plan.requests.iter().zip(caller.events.iter()) {
        if event.position == position
            && is_changed(&event.reply) == changes
            && is_right(alloc, host, &plan.session, request, event)
        {
            right = right.saturating_add(1);
        }
    }
    right
}

fn is_right(
    alloc: Global,
    host: &mut Host<HostDisk<'_>>,
    session: &Session,
    request: &Request,
    event: &Event,
) -> bool {
    let alone = ask_alone(alloc, host, session, request);
    let right = alone.position == event.position
        && alone.reply == event.reply
        && alone.loaded.len() == event.loaded.len();
    drop(alone);
    right
}

fn is_changed(reply: &Reply) -> bool {
    matches!(reply, Reply::Ok(Done::Changed(_)))
}
