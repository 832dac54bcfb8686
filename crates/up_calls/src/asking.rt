//! One request, whoever has the logs.
ghost use Rattle.std.specs.Prelude.{◌≡◌};
ghost use Rattle.up_calls.specs.Alike.{TellsNoMore};
ghost use Rattle.up_calls.specs.Answered.{Came, Leaves, LoadsInRounds, Risen};
ghost use Rattle.up_calls.specs.Calls.{Asked};
ghost use Rattle.up_calls.specs.Routes.{log_asked, service_of};
ghost use Rattle.up_calls.specs.Shown.{FailsAsShown};
ghost use Rattle.up_calls.specs.declared.service.Service.TheVariants as service;
ghost use Rattle.up_ends.specs.Moments.{IsMoment};

use crate::asked::ask_directory;
use crate::event::Event;
use crate::events::bare;
use crate::faults::{key_fault, store_fault};
use crate::logs::Logs;
use crate::service::{Service, service_of};
use std::alloc::Global;
use up_names::User;
use up_peer::Loader;
use up_wire::{Reply, Request};

/// Answers the request of a user, at a moment in seconds since 1970, before the year 10000. Its texts are read once, before any turn, and
/// a malformed request takes none. Blocks are fetched first, outside every turn; then the tree takes a turn, in which it answers or says
/// which groups are missing, and these are loaded outside of it, round by round.
pub fn ask<B: Logs, L: Loader>(
    alloc: Global,
    logs: &mut B,
    loader: &mut L,
    user: &User,
    request: &Request,
    now: u64,
) -> Event
    requires ready { B.ready logs.old }
    requires moment { IsMoment now }
    ensures asked { Asked L.Loader (B.operator_of logs.old) (B.views logs.old) loader.old
        (record { user = user.now; request = request.now }) result
        (B.views logs.new) loader.new }
    ensures leaves { Leaves (λ log n. B.left log n logs.old logs.new) (B.views logs.old)
        (record { user = user.now; request = request.now }) result }
    ensures risen { Risen (λ log. B.rises log logs.old logs.new)
        (L.faults loader.old) (L.faults loader.new)
        (record { user = user.now; request = request.now }) result }
    ensures quiet { FailsAsShown (λ log. B.quiet log logs.old logs.new)
        (record { user = user.now; request = request.now }) result }
    ensures rounds { LoadsInRounds (B.views logs.old) (B.views logs.new)
        (record { user = user.now; request = request.now }) result }
    ensures alike { TellsNoMore (B.views logs.new)
        (record { user = user.now; request = request.now }) result }
    ensures tie { B.tied (log_asked (record { user = user.now; request = request.now }))
        logs.old logs.new }
    ensures loader { L.tied loader.old loader.new }
    ensures moment { result.moment ≡ now }
{
    ask_by(alloc, logs, loader, user, request, now)
}

// The same, by who answers it.
fn ask_by<B: Logs, L: Loader>(
    alloc: Global,
    logs: &mut B,
    loader: &mut L,
    user: &User,
    request: &Request,
    now: u64,
) -> Event
    requires ready { B.ready logs.old }
    requires moment { IsMoment now }
    ensures came { Came L.Loader (B.operator_of logs.old)
        (λ log n. B.left log n logs.old logs.new) (λ log. B.rises log logs.old logs.new)
        (B.views logs.old) (B.views logs.new)
        (record { user = user.now; request = request.now }) loader.old loader.new result }
    ensures quiet { FailsAsShown (λ log. B.quiet log logs.old logs.new)
        (record { user = user.now; request = request.now }) result }
    ensures tie { B.tied (log_asked (record { user = user.now; request = request.now }))
        logs.old logs.new }
    ensures moment { result.moment ≡ now }
{
    match service_of(request) {
        Service::Directory => ask_directory(alloc, logs, loader, user, request, now),
        Service::Store => ask_store(alloc, logs, loader, user, request, now),
        Service::Keys => ask_keys(alloc, logs, loader, user, request, now),
    }
}

// A request to the store.
fn ask_store<B: Logs, L: Loader>(
    alloc: Global,
    logs: &mut B,
    loader: &L,
    user: &User,
    request: &Request,
    now: u64,
) -> Event
    requires ready { B.ready logs.old }
    requires store { service_of request.now ≡ service.Store }
    ensures came { Came L.Loader (B.operator_of logs.old)
        (λ log n. B.left log n logs.old logs.new) (λ log. B.rises log logs.old logs.new)
        (B.views logs.old) (B.views logs.new)
        (record { user = user.now; request = request.now }) loader.now loader.now result }
    ensures quiet { FailsAsShown (λ log. B.quiet log logs.old logs.new)
        (record { user = user.now; request = request.now }) result }
    ensures tie { B.tied (log_asked (record { user = user.now; request = request.now }))
        logs.old logs.new }
    ensures moment { result.moment ≡ now }
{
    match store_fault(request) {
        None => (),
        Some(what) => return bare(alloc, logs.random(), Reply::Invalid(what), 0, now),
    }
    let (reply, position) = logs.ask_store(user, request);
    bare(alloc, logs.random(), reply, position, now)
}

// A request to the keys.
fn ask_keys<B: Logs, L: Loader>(
    alloc: Global,
    logs: &mut B,
    loader: &L,
    user: &User,
    request: &Request,
    now: u64,
) -> Event
    requires ready { B.ready logs.old }
    requires keys { service_of request.now ≡ service.Keys }
    ensures came { Came L.Loader (B.operator_of logs.old)
        (λ log n. B.left log n logs.old logs.new) (λ log. B.rises log logs.old logs.new)
        (B.views logs.old) (B.views logs.new)
        (record { user = user.now; request = request.now }) loader.now loader.now result }
    ensures quiet { FailsAsShown (λ log. B.quiet log logs.old logs.new)
        (record { user = user.now; request = request.now }) result }
    ensures tie { B.tied (log_asked (record { user = user.now; request = request.now }))
        logs.old logs.new }
    ensures moment { result.moment ≡ now }
{
    match key_fault(alloc, request) {
        Ok(None) => (),
        Ok(Some(what)) => return bare(alloc, logs.random(), Reply::Invalid(what), 0, now),
        Err(_) => return bare(alloc, logs.random(), Reply::OutOfMemory, 0, now),
    }
    let (reply, position) = logs.ask_keys(user, request);
    bare(alloc, logs.random(), reply, position, now)
}
