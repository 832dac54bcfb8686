//! Copies of a record, each in memory of its own.
ghost use Rattle.std.specs.Prelude.{◌≡◌, IfOk};
ghost use Rattle.up_keys.specs.Answers.{record_of};

use std::alloc::{AllocError, Global};
use up_bytes::copy_of;
use up_entry::Endpoint;
use up_lists::Items;
use up_names::User;
use up_wire::{KeyCard, KeyRecord};

/// A copy of a record, in memory of its own.
pub fn copied(alloc: Global, known: &KeyRecord) -> Result<KeyRecord, AllocError>
    ensures { IfOk result (λ copy. copy ≡ known.now) }
{
    Ok(KeyRecord {
        user: known.user.clone()?,
        dirs: copied_endpoints(alloc, known.dirs.as_slice())?,
        stores: copied_endpoints(alloc, known.stores.as_slice())?,
        key: copy_of(alloc, known.key.as_slice())?,
    })
}

/// The record of a user with what a card says.
pub fn record_of(alloc: Global, user: User, card: &KeyCard) -> Result<KeyRecord, AllocError>
    ensures { IfOk result (λ known. known ≡ record_of user card.now) }
{
    Ok(KeyRecord {
        user,
        dirs: copied_endpoints(alloc, card.dirs.as_slice())?,
        stores: copied_endpoints(alloc, card.stores.as_slice())?,
        key: copy_of(alloc, card.key.as_slice())?,
    })
}

// The same endpoints, in order.
fn copied_endpoints(alloc: Global, endpoints: &[Endpoint]) -> Result<Items<Endpoint>, AllocError>
    ensures { IfOk result (λ copies. copies ≡ endpoints.now) }
{
    let mut copies = Vec::with_capacity(alloc, endpoints.len())?;
    for endpoint in endpoints {
        copies.push(endpoint.clone()?)?;
    }
    Ok(Items::from_vec(copies))
}
