//! The payloads of records: 01 and the bytes of a block, or 02 and the reference of one.
ghost use Rattle.std.specs.Prelude.{◌≡◌, ◌∷◌, IfOk, length, option_map};
ghost use Rattle.up_blocks.specs.Kept.{kept_of};
ghost use Rattle.up_blocks.specs.Records.{decoded};

use crate::record::Kept;
use std::alloc::{AllocError, Global};
use up_refs::Reference;

// The byte with which a record of each kind begins.
const PUT: u8 = 1;

const DELETE: u8 = 2;

/// The payload of a block that is put.
pub fn put_payload(alloc: Global, bytes: &[u8]) -> Result<Vec<u8>, AllocError>
    ensures { IfOk result (λ payload. payload.items ≡ 1 ∷ bytes.now) }
{
    with_tag(alloc, PUT, bytes)
}

/// The payload of a block that is deleted.
pub fn delete_payload(alloc: Global, reference: &Reference) -> Result<Vec<u8>, AllocError>
    ensures payload { IfOk result (λ payload. payload.items ≡ 2 ∷ reference.now) }
    ensures len { length reference.now ≡ 32 }
{
    with_tag(alloc, DELETE, reference.bytes().as_slice())
}

// A byte, and bytes behind it.
fn with_tag(alloc: Global, tag: u8, bytes: &[u8]) -> Result<Vec<u8>, AllocError>
    ensures { IfOk result (λ payload. payload.items ≡ tag ∷ bytes.now) }
{
    let mut payload = Vec::with_capacity(alloc, 1 + bytes.len())?;
    payload.push(tag)?;
    payload.extend_from_slice(bytes)?;
    Ok(payload)
}

/// What is kept of the record that a payload is, or `None` where it is none. The bytes of a block are hashed.
#[tactic(auto, unfolding(crate::specs::Records::decoded))]
pub fn read_payload(payload: &[u8]) -> Option<Kept>
    ensures { result ≡ option_map kept_of (decoded payload.now) }
{
    let (tag, bytes) = payload.split_first()?;
    match *tag {
        PUT => Some(Kept::Put(Reference::of(bytes), bytes.len() as u64)),
        DELETE => {
            let reference = bytes.as_array::<32>()?;
            Some(Kept::Delete(Reference::from_bytes(*reference)))
        }
        _ => None,
    }
}
