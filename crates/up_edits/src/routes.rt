//! Where a request goes, and which blocks have to be fetched for it.
ghost use Rattle.std.specs.Prelude.{◌≡◌, IfOk, OnOk};
ghost use Rattle.up_answers.specs.Answers.{log_owner};
ghost use Rattle.up_answers.specs.Routes.{locations_asked, locations_for, locations_of, with_location};
ghost use Rattle.up_policy.specs.Trees.{owns_snapshots};
ghost use Rattle.up_edits.specs.Places.{AreKnown};
ghost use Rattle.up_edits.specs.Routes.{route_of};
ghost use Rattle.up_list.specs.Asking.{owner_asked};

use crate::index::Key;
use std::alloc::{AllocError, Global};
use std::collections::BTreeSet;
use up_entry::{Block, Entry, EntryFault, Location, is_control_file};
use up_list::{ReadRequest, asked_of};
use up_lists::Items;
use up_names::User;
use up_policy::owns_snapshots;
use up_wire::{Reply, Request};

/// Where a request goes.
#[derive(Debug, Drop)]
pub enum Route {
    /// Something of it is malformed: this is the reply, whatever the tree.
    Refused(Reply),
    /// The owner of the log to which its path belongs, which for a path of a snapshot tree is the base user; and for a Put of a
    /// control file the different locations of its blocks, in order.
    Tree(User, Items<Location>),
}

/// Where a user's request goes. No tree is looked at, and an `Err` is want of memory alone.
#[tactic(auto, unfolding(crate::specs::Routes::route_of))]
pub fn route_of(alloc: Global, user: &User, request: &Request) -> Result<Route, AllocError>
    ensures { IfOk result (λ route. route ≡ route_of user.now request.now) }
{
    match asked_of(alloc, user, request) {
        Ok(asked) => {
            let to = tree_asked(alloc, &asked);
            drop(asked);
            let (owner, locations) = to?;
            Ok(Route::Tree(owner, locations))
        }
        Err(EntryFault::Invalid(what)) => Ok(Route::Refused(Reply::Invalid(what))),
        Err(EntryFault::OutOfMemory) => Err(AllocError),
    }
}

/// Where a request goes of which nothing is malformed: the owner of the log to which its path belongs, which for a path of a snapshot tree
/// is the base user; and for a Put of a control file the different locations of its blocks, in order. An `Err` is want of memory.
pub fn tree_asked(alloc: Global, asked: &ReadRequest) -> Result<(User, Items<Location>), AllocError>
    ensures { IfOk result (λ to. to
        ≡ (log_owner (owner_asked asked.now), locations_asked asked.now)) }
{
    let owner = log_owner(asked.owner())?;
    let locations = locations_asked(alloc, asked)?;
    Ok((owner, locations))
}

/// The owner of the log to which a path of this owner belongs.
pub fn log_owner(owner: &User) -> Result<User, AllocError>
    ensures { IfOk result (λ base. base ≡ log_owner owner.now) }
{
    if owns_snapshots(owner) {
        owner.base()
    } else {
        owner.clone()
    }
}

/// What has to be fetched for a request.
fn locations_asked(alloc: Global, asked: &ReadRequest) -> Result<Items<Location>, AllocError>
    ensures { IfOk result (λ locations. locations ≡ locations_asked asked.now) }
{
    match asked {
        ReadRequest::Put(put) => locations_for(alloc, &put.entry),
        ReadRequest::Lookup(_)
        | ReadRequest::WhichAccess(_)
        | ReadRequest::GroupText(_)
        | ReadRequest::Delete(_)
        | ReadRequest::Glob(_)
        | ReadRequest::Watch(_, _) => Ok(Items::new(alloc)),
    }
}

/// What has to be fetched for an entry that is put.
fn locations_for(alloc: Global, entry: &Entry) -> Result<Items<Location>, AllocError>
    ensures { IfOk result (λ locations. locations ≡ locations_for entry.now) }
{
    if is_control_file(entry.attr.kind, &entry.name) {
        different(alloc, entry.blocks.as_slice())
    } else {
        Ok(Items::new(alloc))
    }
}

/// The different locations of blocks, in order.
fn different(alloc: Global, blocks: &[Block]) -> Result<Items<Location>, AllocError>
    ensures { IfOk result (λ locations. locations ≡ locations_of blocks.now) }
{
    let mut known = BTreeSet::new(alloc);
    let mut locations = Items::new(alloc);
    for block in blocks {
        note(&mut known, &mut locations, &block.location)?;
    }
    Ok(locations)
}

/// Adds a location at the end, where the list does not have it yet. The set has the same locations.
fn note<'a>(
    known: &mut BTreeSet<Key<'a>>,
    locations: &mut Items<Location>,
    location: &'a Location,
) -> Result<(), AllocError>
    requires { AreKnown known.old.keys locations.old }
    ensures locations { OnOk result (locations.new ≡ with_location locations.old location.now) }
    ensures known { OnOk result (AreKnown known.new.keys locations.new) }
{
    if known.insert(Key(location))? {
        locations.push(location.clone()?)?;
    }
    Ok(())
}
