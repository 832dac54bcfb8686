//! What a follower is answered.
ghost use Rattle.std.specs.Prelude.{◌≡◌, Err, IfOk};
ghost use Rattle.up_bytes.specs.Input.{place};
ghost use Rattle.up_bytes.specs.Reading.{Gives, byte_at, row_at};
ghost use Rattle.up_feed_wire.specs.FeedMessages.{IsTypedReply, feed_reply, reply_at, reply_of, reply_table};

use crate::texts::{append_texts, take_texts, texts_size};
use std::alloc::{AllocError, Global};
use up_bytes::{Bytes, FieldFault, Fields, Reader, Writer, read_whole, write_whole};
use up_lists::Items;

/// What a follower is answered.
#[derive(Debug, Drop, PartialEq, Eq)]
pub enum FeedReply {
    /// Records of the log, one after the other, each as its bytes; none where the log has no more.
    Records(Items<Bytes>),
    /// The leader has no tree of the user.
    NoTree,
    /// The leader found no memory for an answer.
    OutOfMemory,
}

impl Fields for FeedReply {
    ghost spelling = { feed_reply };

    ghost read_at = { reply_at };

    ghost comes_first = { λ input fault. byte_at input ≡ Err fault };

    ghost IsTyped = { IsTypedReply };

    #[tactic(auto, unfolding(up_bytes::specs::Reading::tagged_at))]
    fn take(alloc: Global, input: &mut Reader) -> Result<FeedReply, FieldFault> {
        let place = input.place();
        let tag = input.byte()?;
        take_reply(alloc, tag, place, input)
    }

    fn append(&self, out: &mut Writer) -> Result<(), AllocError> {
        match self {
            FeedReply::Records(records) => {
                out.byte(0xC0)?;
                append_texts(records.as_slice(), out)
            }
            FeedReply::NoTree => out.byte(0xC1),
            FeedReply::OutOfMemory => out.byte(0xC2),
        }
    }

    fn size(&self) -> u64 {
        match self {
            FeedReply::Records(records) => texts_size(records.as_slice()).saturating_add(1),
            FeedReply::NoTree | FeedReply::OutOfMemory => 1,
        }
    }
}

/// Takes the fields of the reply that has this tag, which stands at this place. A refused call leaves the place anywhere.
fn take_reply(
    alloc: Global,
    tag: u8,
    place: u64,
    input: &mut Reader,
) -> Result<FeedReply, FieldFault>
    ensures { Gives (λ reply. (reply, input.new)) result (row_at reply_table place tag input.old) }
{
    match tag {
        0xC0 => Ok(FeedReply::Records(take_texts(alloc, input)?)),
        0xC1 => Ok(FeedReply::NoTree),
        0xC2 => Ok(FeedReply::OutOfMemory),
        _ => Err(FieldFault::Spelling(place)),
    }
}

/// The bytes of a reply: the payload of its frame.
pub fn write_feed_reply(alloc: Global, reply: &FeedReply) -> Result<Bytes, AllocError>
    ensures { IfOk result (λ bytes. bytes ≡ feed_reply reply.now) }
{
    write_whole(alloc, reply)
}

/// The reply that is the whole of these bytes.
///
/// The fault is `Short` where the input ends within a field, else `Spelling` with the place of the first field that is no spelling, or,
/// behind the last one, of the first byte that is left.
pub fn read_feed_reply(alloc: Global, bytes: &[u8]) -> Result<FeedReply, FieldFault>
    ensures { Gives (λ reply. reply) result (reply_of bytes.now) }
{
    read_whole(alloc, bytes)
}
