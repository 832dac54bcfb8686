//! The blocks that are fetched for a Put of a control file, whoever has the logs.
ghost use Rattle.std.specs.Prelude.{◌≡◌, [], ◌∷◌, ◌++◌, true, map, IfOk, OnOk};
ghost use Rattle.up_calls.specs.Asks.{Tries};
ghost use Rattle.up_calls.specs.Gathered.{BlockGathered, BlocksGathered, own_failed};
ghost use Rattle.up_calls.specs.Routes.{LogName};
ghost use Rattle.up_calls.specs.Shown.{IsUnread, QuietApart, QuietBut};

use crate::logs::Logs;
use std::alloc::{AllocError, Global};
use std::collections::VecDeque;
use up_dir::Fetched;
use up_entry::{Endpoint, Fetch, Location};
use up_lists::Items;
use up_peer::Loader;

/// Fetches each block once, in order: from the host's own store, or at its address by the loader.
pub(crate) fn gather_blocks<B: Logs, L: Loader>(
    alloc: Global,
    logs: &mut B,
    loader: &mut L,
    locations: Items<Location>,
) -> Result<Fetched, AllocError>
    requires ready { B.ready logs.old }
    ensures locations { IfOk result (λ fetched. map (λ got. got.0) fetched ≡ locations) }
    ensures gathered { IfOk result (λ fetched. BlocksGathered L.Loader
        (B.rises LogName.OfStore logs.old logs.new)
        (B.views logs.old).store (B.views logs.new).store loader.old loader.new [] fetched) }
    ensures quiet { IfOk result (λ fetched. QuietBut (λ log. B.quiet log logs.old logs.new)
        LogName.OfStore (IsUnread fetched)) }
    ensures apart { QuietApart (λ log. B.quiet log logs.old logs.new) LogName.OfStore }
    ensures tie { B.tied None logs.old logs.new }
    ensures tried { Tries L.fetches L.faults L.tied loader.old loader.new }
{
    let mut left = VecDeque::from(locations.into_vec());
    let mut fetched = Items::new(alloc);
    loop {
        let Some(location) = left.pop_front() else {
            return Ok(fetched);
        };
        gather_next(alloc, logs, loader, location, &mut fetched)?;
    }
}

// Fetches one block, and notes its answer.
fn gather_next<B: Logs, L: Loader>(
    alloc: Global,
    logs: &mut B,
    loader: &mut L,
    location: Location,
    fetched: &mut Fetched,
) -> Result<(), AllocError>
    requires ready { B.ready logs.old }
    ensures location { OnOk result (map (λ got. got.0) fetched.new
        ≡ map (λ got. got.0) fetched.old ++ location ∷ []) }
    ensures gathered { OnOk result (BlocksGathered L.Loader
        (B.rises LogName.OfStore logs.old logs.new)
        (B.views logs.old).store (B.views logs.new).store
        loader.old loader.new fetched.old fetched.new) }
    ensures quiet { OnOk result (QuietBut (λ log. B.quiet log logs.old logs.new)
        LogName.OfStore (IsUnread fetched.new)) }
    ensures apart { QuietApart (λ log. B.quiet log logs.old logs.new) LogName.OfStore }
    ensures tie { B.tied None logs.old logs.new }
    ensures tried { Tries L.fetches L.faults L.tied loader.old loader.new }
{
    let given = gather_block(alloc, logs, loader, &location)?;
    fetched.push((location, given))?;
    Ok(())
}

// Fetches one block.
fn gather_block<B: Logs, L: Loader>(
    alloc: Global,
    logs: &mut B,
    loader: &mut L,
    location: &Location,
) -> Result<Fetch, AllocError>
    requires ready { B.ready logs.old }
    ensures gathered { IfOk result (BlockGathered L.Loader
        (B.rises LogName.OfStore logs.old logs.new)
        (B.views logs.old).store (B.views logs.new).store
        loader.old loader.new location.now) }
    ensures quiet { IfOk result (λ given. QuietBut (λ log. B.quiet log logs.old logs.new)
        LogName.OfStore (own_failed location.now.endpoint given ≡ true)) }
    ensures apart { QuietApart (λ log. B.quiet log logs.old logs.new) LogName.OfStore }
    ensures tie { B.tied None logs.old logs.new }
    ensures tried { Tries L.fetches L.faults L.tied loader.old loader.new }
{
    match &location.endpoint {
        Endpoint::Local => logs.block(&location.reference),
        Endpoint::Address(address) => loader.fetch(alloc, address.as_slice(), &location.reference),
    }
}
