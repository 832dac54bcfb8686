//! The bytes of a journal's image: the second format, and the first, which is read to be moved.
ghost use Rattle.std.specs.Prelude.{◌≡◌, ◌<◌, ◌+◌, ◌^◌, ◌++◌, ◌∷◌, length, IfOk, OnOk};
ghost use Rattle.up_refs.specs.Sha256.{sha256};
ghost use Rattle.up_journal.specs.Format2.{head_size};
ghost use Rattle.up_journal.specs.Gates.{behind_gate, length_bytes, number_of, record_bytes};

use std::alloc::{AllocError, Global};
use up_refs::Reference;

/// `UPSLOG2` and LF, with which a device begins.
pub const NAME: [u8; 8] = *b"UPSLOG2\n";

/// `UPSLOG1` and LF, with which a device of the first format begins.
pub const OLD_NAME: [u8; 8] = *b"UPSLOG1\n";

/// A new device: the name and a closed gate.
pub const NEW: [u8; 9] = *b"UPSLOG2\n\0";

/// The place of the first gate on a device.
pub const FIRST_GATE: u64 = 8;

/// The bytes of a gate, and of the length and the link behind it.
pub const HEAD: u64 = 37;

/// The bytes of a gate and of the length behind it in the first format, in which no record carries a link.
pub const OLD_HEAD: u64 = 5;

/// The bytes of an open and of a closed gate. Any byte but the first is a closed gate.
pub const OPEN: u8 = 1;

pub const CLOSED: u8 = 0;

/// The link of a log's first record.
pub const FIRST_LINK: [u8; 32] = [0; 32];

/// What is written behind a closed gate: the length of the payload, the link, the payload and the next gate, closed.
#[tactic(auto, unfolding(crate::specs::Gates::length_bytes))]
pub fn framed(alloc: Global, link: Reference, payload: &[u8]) -> Result<Vec<u8>, AllocError>
    requires { length payload.now < 2 ^ 32 }
    ensures { IfOk result (λ bytes. bytes.items ≡ behind_gate link payload.now) }
{
    let size = payload.len() as u32;
    let mut bytes = Vec::with_capacity(alloc, payload.len() + HEAD as usize)?;
    bytes.extend_from_slice(&size.to_be_bytes())?;
    bytes.extend_from_slice(link.bytes())?;
    bytes.extend_from_slice(payload)?;
    bytes.push(CLOSED)?;
    Ok(bytes)
}

/// Puts the record of a payload behind an open gate at the end of an image, and gives the link of the next one.
#[tactic(auto, unfolding(crate::specs::Gates::length_bytes))]
pub fn add_record(
    image: &mut Vec<u8>,
    link: Reference,
    payload: &[u8],
) -> Result<Reference, AllocError>
    requires { length payload.now < 2 ^ 32 }
    ensures image { OnOk result (image.new.items
        ≡ image.old.items ++ 1 ∷ record_bytes link payload.now) }
    ensures link { IfOk result (λ next. next ≡ sha256 (record_bytes link payload.now)) }
    ensures long { OnOk result (length image.new.items
        ≡ length image.old.items + (length payload.now + head_size)) }
{
    let record = image.len() + 1;
    image.push(OPEN)?;
    image.extend_from_slice(&(payload.len() as u32).to_be_bytes())?;
    image.extend_from_slice(link.bytes())?;
    image.extend_from_slice(payload)?;
    Ok(Reference::of(&image[record..]))
}

/// The length that 4 bytes stand for, high byte first. It is written in these bytes again.
#[tactic(auto, unfolding(crate::specs::Gates::length_bytes, crate::specs::Gates::number_of))]
pub fn length_of(bytes: [u8; 4]) -> u32
    ensures number { result ≡ number_of bytes }
    ensures again { bytes ≡ length_bytes result }
{
    u32::from_be_bytes(bytes)
}
