//! What is malformed of a request to the store or the keys.
ghost use Rattle.std.specs.Prelude.{◌≡◌, IfOk};
ghost use Rattle.up_calls.specs.Services.{card_fault, key_fault, lookup_fault, reference_fault, store_fault};
ghost use Rattle.up_names.specs.UserNames.{user_of};
ghost use Rattle.up_refs.specs.References.{reference_in};

use std::alloc::{AllocError, Global};
use up_blocks::MAX_BLOCK;
use up_entry::What;
use up_keys::keeps_bounds;
use up_names::{NameFault, parse_user};
use up_refs::Reference;
use up_wire::{KeyCard, Request};

/// What is malformed of a request to the store.
pub(crate) fn store_fault(request: &Request) -> Option<What>
    ensures { result ≡ store_fault request.now }
{
    match request {
        Request::Get(text) | Request::StoreDelete(text) => reference_fault(text.as_slice()),
        Request::StorePut(bytes) => {
            if bytes.len() as u64 > MAX_BLOCK {
                return Some(What::Block);
            }
            None
        }
        _ => None,
    }
}

// What is wrong with the text of a reference.
fn reference_fault(text: &[u8]) -> Option<What>
    ensures { result ≡ reference_fault (reference_in text.now) }
{
    match Reference::parse(text) {
        Some(_) => None,
        None => Some(What::Reference),
    }
}

/// What is malformed of a request to the keys.
pub(crate) fn key_fault(alloc: Global, request: &Request) -> Result<Option<What>, AllocError>
    ensures { IfOk result (λ fault. fault ≡ key_fault request.now) }
{
    match request {
        Request::KeyLookup(text) => lookup_fault(alloc, text.as_slice()),
        Request::KeyPut(card) => card_fault(alloc, card),
        _ => Ok(None),
    }
}

// What is wrong with the text of a user.
fn lookup_fault(alloc: Global, text: &[u8]) -> Result<Option<What>, AllocError>
    ensures { IfOk result (λ fault. fault ≡ lookup_fault (user_of text.now)) }
{
    match parse_user(alloc, text) {
        Ok(_) => Ok(None),
        Err(NameFault::OutOfMemory) => Err(AllocError),
        Err(_) => Ok(Some(What::Name)),
    }
}

// What is wrong with a card.
fn card_fault(alloc: Global, card: &KeyCard) -> Result<Option<What>, AllocError>
    ensures { IfOk result (λ fault. fault ≡ card_fault card.now (user_of card.now.user)) }
{
    match parse_user(alloc, card.user.as_slice()) {
        Ok(_) => (),
        Err(NameFault::OutOfMemory) => return Err(AllocError),
        Err(_) => return Ok(Some(What::Name)),
    }
    if keeps_bounds(
        card.dirs.as_slice(),
        card.stores.as_slice(),
        card.key.as_slice(),
    ) {
        return Ok(None);
    }
    Ok(Some(What::Key))
}
