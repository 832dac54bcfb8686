//! One request to a tree, whoever has the logs.
ghost use Rattle.std.specs.Prelude.{◌≡◌, [], None, Some, Ok, true, is_some, IfOk, OnErr};
ghost use Rattle.up_calls.specs.Answered.{Came, TreeAnswered, TreeServed};
ghost use Rattle.up_calls.specs.Asks.{Tries};
ghost use Rattle.up_calls.specs.Calls.{IsTried};
ghost use Rattle.up_calls.specs.Kept.{KeepsSeen};
ghost use Rattle.up_calls.specs.Routes.{LogName, OwnStays, log_asked, service_of};
ghost use Rattle.up_calls.specs.Shown.{AllQuiet, FailsAsShown, QuietApart, QuietBut, TreeQuiet};
ghost use Rattle.up_calls.specs.declared.service.Service.TheVariants as service;
ghost use Rattle.up_edits.specs.Routes.{route_of};
ghost use Rattle.up_edits.specs.declared.routes.Route.TheVariants as route;
ghost use Rattle.up_ends.specs.Moments.{IsMoment};
ghost use Rattle.up_list.specs.Asking.{asked_of};

use crate::event::Event;
use crate::events::bare;
use crate::fetching::gather_blocks;
use crate::gathering::gather_round;
use crate::logs::{Logs, Turn};
use std::alloc::{AllocError, Global};
use up_dir::{Fetched, tree_asked};
use up_entry::{EntryFault, Location};
use up_foreign::KeptSearch;
use up_list::{ReadRequest, asked_of};
use up_lists::Items;
use up_names::User;
use up_peer::Loader;
use up_policy::Loaded;
use up_wire::{Reply, Request};

/// A request to a tree. Its texts are read here, once.
pub(crate) fn ask_directory<B: Logs, L: Loader>(
    alloc: Global,
    logs: &mut B,
    loader: &mut L,
    user: &User,
    request: &Request,
    now: u64,
) -> Event
    requires ready { B.ready logs.old }
    requires directory { service_of request.now ≡ service.Directory }
    requires moment { IsMoment now }
    ensures came { Came L.Loader (B.operator_of logs.old)
        (λ log n. B.left log n logs.old logs.new) (λ log. B.rises log logs.old logs.new)
        (B.views logs.old) (B.views logs.new)
        (record { user = user.now; request = request.now }) loader.old loader.new result }
    ensures quiet { FailsAsShown (λ log. B.quiet log logs.old logs.new)
        (record { user = user.now; request = request.now }) result }
    ensures tie { B.tied (log_asked (record { user = user.now; request = request.now }))
        logs.old logs.new }
    ensures moment { result.moment ≡ now }
{
    match asked_of(alloc, user, request) {
        Ok(asked) => {
            let event = ask_read(alloc, logs, loader, user, request, &asked, now);
            drop(asked);
            event
        }
        Err(EntryFault::Invalid(what)) => bare(alloc, logs.random(), Reply::Invalid(what), 0, now),
        Err(EntryFault::OutOfMemory) => bare(alloc, logs.random(), Reply::OutOfMemory, 0, now),
    }
}

// The same, once its texts were read.
fn ask_read<B: Logs, L: Loader>(
    alloc: Global,
    logs: &mut B,
    loader: &mut L,
    user: &User,
    request: &Request,
    asked: &ReadRequest,
    now: u64,
) -> Event
    requires ready { B.ready logs.old }
    requires directory { service_of request.now ≡ service.Directory }
    requires read { asked_of user.now request.now ≡ Ok asked.now }
    requires moment { IsMoment now }
    ensures came { Came L.Loader (B.operator_of logs.old)
        (λ log n. B.left log n logs.old logs.new) (λ log. B.rises log logs.old logs.new)
        (B.views logs.old) (B.views logs.new)
        (record { user = user.now; request = request.now }) loader.old loader.new result }
    ensures quiet { FailsAsShown (λ log. B.quiet log logs.old logs.new)
        (record { user = user.now; request = request.now }) result }
    ensures tie { B.tied (log_asked (record { user = user.now; request = request.now }))
        logs.old logs.new }
    ensures moment { result.moment ≡ now }
{
    match tree_asked(alloc, asked) {
        Ok((owner, locations)) => {
            ask_owner(
                alloc, logs, loader, &owner, locations, user, request, asked, now,
            )
        }
        Err(_) => bare(alloc, logs.random(), Reply::OutOfMemory, 0, now),
    }
}

// A request to the tree of an owner, for which these blocks have to be fetched.
fn ask_owner<B: Logs, L: Loader>(
    alloc: Global,
    logs: &mut B,
    loader: &mut L,
    owner: &User,
    locations: Items<Location>,
    user: &User,
    request: &Request,
    asked: &ReadRequest,
    now: u64,
) -> Event
    requires ready { B.ready logs.old }
    requires directory { service_of request.now ≡ service.Directory }
    requires to { route_of user.now request.now ≡ route.Tree owner.now locations }
    requires read { asked_of user.now request.now ≡ Ok asked.now }
    requires moment { IsMoment now }
    ensures came { Came L.Loader (B.operator_of logs.old)
        (λ log n. B.left log n logs.old logs.new) (λ log. B.rises log logs.old logs.new)
        (B.views logs.old) (B.views logs.new)
        (record { user = user.now; request = request.now }) loader.old loader.new result }
    ensures quiet { FailsAsShown (λ log. B.quiet log logs.old logs.new)
        (record { user = user.now; request = request.now }) result }
    ensures tie { B.tied (Some (LogName.OfTree owner.now)) logs.old logs.new }
    ensures moment { result.moment ≡ now }
{
    if !logs.has(owner) {
        drop(locations);
        return bare(alloc, logs.random(), Reply::WrongHost, 0, now);
    }
    match ask_there(
        alloc, logs, loader, owner, locations, user, request, asked, now,
    ) {
        Ok(event) => event,
        Err(_) => bare(alloc, logs.random(), Reply::OutOfMemory, 0, now),
    }
}

// A request to the tree of an owner that the host has. An `Err` is want of memory.
fn ask_there<B: Logs, L: Loader>(
    alloc: Global,
    logs: &mut B,
    loader: &mut L,
    owner: &User,
    locations: Items<Location>,
    user: &User,
    request: &Request,
    asked: &ReadRequest,
    now: u64,
) -> Result<Event, AllocError>
    requires ready { B.ready logs.old }
    requires there { is_some ((B.views logs.old).tree owner.now) ≡ true }
    requires read { asked_of user.now request.now ≡ Ok asked.now }
    requires moment { IsMoment now }
    ensures served { IfOk result (TreeServed L.Loader (B.operator_of logs.old)
        (λ log. B.rises log logs.old logs.new) (B.views logs.old) (B.views logs.new) owner.now
        (record { user = user.now; request = request.now })
        loader.old loader.new locations now) }
    ensures quiet { IfOk result
        (TreeQuiet (λ log. B.quiet log logs.old logs.new) owner.now) }
    ensures apart { OnErr result
        (QuietApart (λ log. B.quiet log logs.old logs.new) LogName.OfStore) }
    ensures left { IfOk result (λ event.
        B.left (LogName.OfTree owner.now) event.position logs.old logs.new) }
    ensures wanting { OnErr result (OwnStays None (B.views logs.old) (B.views logs.new)) }
    ensures tie { B.tied (Some (LogName.OfTree owner.now)) logs.old logs.new }
    ensures tried { IsTried L.Loader loader.old loader.new }
{
    let fetched = gather_blocks(alloc, logs, loader, locations)?;
    let mut kept = KeptSearch::new(alloc, logs.random());
    let event = ask_loaded(
        alloc, logs, loader, owner, user, request, asked, &mut kept, fetched, now,
    );
    drop(kept);
    event
}

// The same with what was fetched: a turn of the tree, and a round of loads for what it misses, until it answers. From one turn to the next
// the search for what is missing goes on from what was kept.
fn ask_loaded<B: Logs, L: Loader>(
    alloc: Global,
    logs: &mut B,
    loader: &mut L,
    owner: &User,
    user: &User,
    request: &Request,
    asked: &ReadRequest,
    kept: &mut KeptSearch,
    fetched: Fetched,
    now: u64,
) -> Result<Event, AllocError>
    requires ready { B.ready logs.old }
    requires there { is_some ((B.views logs.old).tree owner.now) ≡ true }
    requires read { asked_of user.now request.now ≡ Ok asked.now }
    requires kept { KeepsSeen ((B.views logs.old).tree owner.now) [] kept.old }
    requires moment { IsMoment now }
    ensures answered { IfOk result (TreeAnswered L.Loader (B.operator_of logs.old)
        (B.rises (LogName.OfTree owner.now) logs.old logs.new)
        (B.views logs.old) (B.views logs.new) owner.now
        (record { user = user.now; request = request.now })
        loader.old loader.new fetched now) }
    ensures quiet { IfOk result (λ event. QuietBut (λ log. B.quiet log logs.old logs.new)
        (LogName.OfTree owner.now) (event.reply ≡ Reply.Io)) }
    ensures calm { OnErr result (AllQuiet (λ log. B.quiet log logs.old logs.new)) }
    ensures left { IfOk result (λ event.
        B.left (LogName.OfTree owner.now) event.position logs.old logs.new) }
    ensures wanting { OnErr result (OwnStays None (B.views logs.old) (B.views logs.new)) }
    ensures tie { B.tied (Some (LogName.OfTree owner.now)) logs.old logs.new }
    ensures tried { Tries L.loads L.faults L.tied loader.old loader.new }
{
    let mut loaded = Loaded::new(alloc, logs.random());
    loop {
        match logs.ask_tree(
            alloc, owner, user, request, asked, &loaded, kept, &fetched, now,
        ) {
            Turn::Said(reply, position) => {
                let _names = loaded.len();
                return Ok(Event {
                    reply,
                    position,
                    loaded,
                    fetched,
                    moment: now,
                });
            }
            Turn::Missing(missing) => gather_round(alloc, logs, loader, &missing, &mut loaded)?,
            Turn::Wanting => return Err(AllocError),
        }
    }
}
