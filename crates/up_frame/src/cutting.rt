//! Cutting whole frames off the front of bytes.

ghost use Rattle.std.specs.Prelude.{◌≡◌, ◌≤◌, ◌++◌, ℕ, List, length, drop, IfOk, OnErr};
ghost use Rattle.up_frame.specs.Stream.{told, Reads};
ghost use Rattle.up_frame.specs.Cutting.{IsFront, Cuts, IsBehind};

use std::alloc::{AllocError, Global};
use std::collections::VecDeque;
use up_bytes::Bytes;
use up_lists::Items;

/// The bytes of a frame's length.
const HEAD: usize = 4;

/// What is at the front of bytes.
#[derive(Clone, Copy, Debug, PartialEq, Eq)]
pub enum Front {
    /// A whole frame, with a payload of so many bytes behind its four bytes of length.
    Whole(usize),
    /// Less than a whole frame.
    Partial,
    /// A length that is 0 or over the limit: no frame begins here.
    Bad,
}

#[tactic(auto, unfolding(crate::specs::Stream::told))]
fn told_by(bytes: &[u8]) -> u32
    requires { HEAD ≤ length bytes.now }
    ensures { result ≡ told bytes.now }
{
    let (head, _) = bytes.split_at(HEAD);
    u32::from_be_bytes([head[0], head[1], head[2], head[3]])
}

/// What is at the front of the bytes, where a payload has at most `limit` bytes. It takes no memory.
pub fn front_of(limit: u64, bytes: &[u8]) -> Front
    ensures { IsFront limit bytes.now result }
{
    if bytes.len() < HEAD {
        return Front::Partial;
    }
    let length = told_by(bytes);
    if length == 0 || u64::from(length) > limit {
        return Front::Bad;
    }
    let length = length as usize;
    if bytes.len() - HEAD < length {
        return Front::Partial;
    }
    Front::Whole(length)
}

/// The payloads of the whole frames at the front of bytes, how many bytes those frames have, and whether
/// a bad frame is behind them.
#[derive(Drop)]
struct Found {
    payloads: VecDeque<Bytes>,
    len: usize,
    is_bad: bool,
}

fn frames_in(alloc: Global, limit: u64, bytes: &[u8]) -> Result<Found, AllocError>
    ensures cuts { IfOk result (λ found. Cuts limit bytes.now found.payloads.items found.len) }
    ensures behind { IfOk result (λ found. IsBehind limit found.is_bad (drop found.len bytes.now)) }
{
    let mut payloads = VecDeque::new(alloc);
    let mut len = 0;
    loop {
        match front_of(limit, &bytes[len..]) {
            Front::Whole(length) => {
                let start = len + HEAD;
                let payload = Vec::from_slice(alloc, &bytes[start..start + length])?;
                payloads.push_back(Items::from_vec(payload))?;
                len = start + length;
            }
            Front::Partial => return Ok(Found {
                payloads,
                len,
                is_bad: false,
            }),
            Front::Bad => return Ok(Found {
                payloads,
                len,
                is_bad: true,
            }),
        }
    }
}

/// Moves the whole frames at the front of `bytes` to the end of `waiting`, and answers at which of the
/// bytes a bad frame begins, if one does: from there on nothing is kept. An `Err` leaves both as they were.
pub(crate) fn take_frames(
    limit: u64,
    bytes: &mut Vec<u8>,
    waiting: &mut VecDeque<Bytes>,
) -> Result<Option<u64>, AllocError>
    ensures ok { IfOk result (λ bad. (payloads : List (List ℕ)) ×
        (waiting.new.items ≡ waiting.old.items ++ payloads) ×
        Reads limit bytes.old.items payloads bytes.new.items bad) }
    ensures bytes_err { OnErr result (bytes.new.items ≡ bytes.old.items) }
    ensures waiting_err { OnErr result (waiting.new.items ≡ waiting.old.items) }
{
    let alloc = *bytes.allocator();
    let mut found = frames_in(alloc, limit, bytes)?;
    if found.is_bad {
        waiting.append(&mut found.payloads)?;
        *bytes = Vec::new(alloc);
        return Ok(Some(found.len as u64));
    }
    // Without this a frame that comes byte by byte would be copied once for each of its bytes.
    if found.len == 0 {
        return Ok(None);
    }
    let rest = Vec::from_slice(alloc, &bytes[found.len..])?;
    waiting.append(&mut found.payloads)?;
    *bytes = rest;
    Ok(None)
}
