//! What a follower asks.
ghost use Rattle.std.specs.Prelude.{◌≡◌, IfOk};
ghost use Rattle.up_bytes.specs.Reading.{Answers};
ghost use Rattle.up_feed_wire.specs.FeedMessages.{ask_of, feed_ask};

use std::alloc::{AllocError, Global};
use up_bytes::{Bytes, FieldFault, Reader, Writer};

/// The byte in front of it.
const TAG: u8 = 0x40;

/// How many bytes its spelling has at most.
const MOST: u64 = 11;

/// A follower asks for the records of a tree's log behind the first so many.
#[derive(Clone, Copy, Debug, PartialEq, Eq)]
pub struct FeedAsk {
    pub from: u64,
}

/// The bytes of what is asked: the payload of its frame.
pub fn write_feed_ask(alloc: Global, ask: FeedAsk) -> Result<Bytes, AllocError>
    ensures { IfOk result (λ bytes. bytes ≡ feed_ask ask) }
{
    let mut out = Writer::with_capacity(alloc, MOST)?;
    out.byte(TAG)?;
    out.num(ask.from)?;
    Ok(out.finish())
}

/// What is asked by the whole of these bytes. It takes no memory.
///
/// The fault is `Short` where the input ends within a field, else `Spelling` with the place of the first field that is no spelling, or,
/// behind the last one, of the first byte that is left.
#[tactic(auto, unfolding(up_bytes::specs::Reading::whole_of, up_bytes::specs::Reading::tagged_at))]
pub fn read_feed_ask(bytes: &[u8]) -> Result<FeedAsk, FieldFault>
    ensures { Answers (λ ask. ask) result (ask_of bytes.now) }
{
    let mut input = Reader::new(bytes);
    let tag = input.byte()?;
    if tag != TAG {
        return Err(FieldFault::Spelling(0));
    }
    let from = input.num()?;
    if !input.at_end() {
        return Err(FieldFault::Spelling(input.place()));
    }
    Ok(FeedAsk { from })
}
