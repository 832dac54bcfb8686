//! A turn of a user on a tree.
ghost use Rattle.std.specs.Prelude.{◌≡◌, IfOk};
ghost use Rattle.std.specs.Map.{lookup};
ghost use Rattle.std.specs.Option.{option_copied};
ghost use Rattle.up_answers.specs.Fetching.{endpoint_eq, is_failed, location_eq};
ghost use Rattle.up_edits.specs.Routes.{route_of};
ghost use Rattle.up_ends.specs.Moments.{IsMoment};
ghost use Rattle.up_laws.specs.Turns.{IsMade, any_failed, fetch_failed, stops, turn_by, turn_of};

use std::alloc::{AllocError, Global};
use up_dir::{Fetched, Route, route_of, step};
use up_disk::Disk;
use up_entry::{Endpoint, Fetch, Location};
use up_lists::Items;
use up_names::User;
use up_policy::Loaded;
use up_tree::TreeState;
use up_wire::{Reply, Request};

/// A user's request at a moment, in seconds since 1970, with what was loaded and fetched for it.
#[derive(Drop)]
pub struct Turn {
    pub user: User,
    pub request: Request,
    pub loaded: Loaded,
    pub fetched: Fetched,
    pub now: u64,
}

/// What came of two lists of turns on two trees.
#[derive(Drop)]
pub struct Pairs {
    /// The replies of both trees to the user, turn by turn.
    pub replies: Items<(Reply, Reply)>,
    /// The number, from 0, of the turn after which the run stopped, or `None` where all turns were made.
    pub stopped: Option<u64>,
}

/// Makes a step on a tree.
pub(crate) fn make<D: Disk>(
    alloc: Global,
    state: &mut TreeState<D>,
    user: &User,
    request: &Request,
    loaded: &Loaded,
    fetched: &Fetched,
    now: u64,
) -> Reply
    requires { IsMoment now }
    ensures { IsMade D.Disk (turn_by user.now request.now loaded.now fetched.now now)
        state.old state.new result }
{
    state.recall();
    step(alloc, state, user, request, loaded, fetched, now)
}

/// Makes a turn on a tree.
pub(crate) fn make_turn<D: Disk>(alloc: Global, state: &mut TreeState<D>, turn: &Turn) -> Reply
    requires { IsMoment turn.now.now }
    ensures { IsMade D.Disk (turn_of turn.entry.now) state.old state.new result }
{
    make(
        alloc,
        state,
        &turn.user,
        &turn.request,
        &turn.loaded,
        &turn.fetched,
        turn.now,
    )
}

/// Whether a turn with this reply stops a run: want of memory does, and `Io` unless the fetch of a block failed.
pub(crate) fn stops(alloc: Global, turn: &Turn, reply: &Reply) -> Result<bool, AllocError>
    ensures { IfOk result (λ stopped. stopped ≡ stops (turn_of turn.entry.now) reply.now) }
{
    match reply {
        Reply::OutOfMemory => Ok(true),
        Reply::Io => Ok(!fetch_failed(alloc, turn)?),
        _ => Ok(false),
    }
}

/// Whether the fetch of a block failed of the control file that a turn puts.
fn fetch_failed(alloc: Global, turn: &Turn) -> Result<bool, AllocError>
    ensures { IfOk result (λ failed. failed ≡ fetch_failed (turn_of turn.entry.now)) }
{
    let route = route_of(alloc, &turn.user, &turn.request)?;
    let failed = failed_on(turn, &route);
    drop(route);
    Ok(failed)
}

/// The same, where the request of the turn goes this way.
fn failed_on(turn: &Turn, route: &Route) -> bool
    requires { route.now ≡ route_of turn.now.user turn.now.request }
    ensures { result ≡ fetch_failed (turn_of turn.entry.now) }
{
    match route {
        Route::Refused(_) => false,
        Route::Tree(_, locations) => any_failed(turn.fetched.as_slice(), locations.as_slice()),
    }
}

/// Whether the fetch of one of these blocks failed.
fn any_failed(fetched: &[(Location, Fetch)], locations: &[Location]) -> bool
    ensures { result ≡ any_failed fetched.now locations.now }
{
    for location in locations {
        if is_failed(fetch_at(fetched, location)) {
            return true;
        }
    }
    false
}

/// The answer for the block at a location.
fn fetch_at<'a>(fetched: &'a [(Location, Fetch)], location: &Location) -> Option<&'a Fetch>
    ensures { option_copied result ≡ lookup (location_eq location.now) fetched.now }
{
    for pair in fetched {
        if same_location(location, &pair.0) {
            return Some(&pair.1);
        }
    }
    None
}

/// Whether two locations are the same.
fn same_location(one: &Location, two: &Location) -> bool
    ensures { result ≡ location_eq one.now two.now }
{
    one.reference == two.reference && same_endpoint(&one.endpoint, &two.endpoint)
}

fn same_endpoint(one: &Endpoint, two: &Endpoint) -> bool
    ensures { result ≡ endpoint_eq one.now two.now }
{
    match (one, two) {
        (Endpoint::Local, Endpoint::Local) => true,
        (Endpoint::Address(here), Endpoint::Address(there)) => here.as_slice() == there.as_slice(),
        (Endpoint::Local, Endpoint::Address(_)) | (Endpoint::Address(_), Endpoint::Local) => false,
    }
}

/// Whether the fetch of a block failed.
fn is_failed(fetch: Option<&Fetch>) -> bool
    ensures { result ≡ is_failed (option_copied fetch.entry) }
{
    match fetch {
        Some(Fetch::Failed) => true,
        Some(Fetch::Got(_)) | Some(Fetch::Missing) | None => false,
    }
}
