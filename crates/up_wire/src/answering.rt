//! Replies as the fields of a message, how long they are, and how long they may be.

ghost use Rattle.std.specs.Prelude.{◌≡◌, ◌++◌, IfOk, IfSome, IsNone, length, OnOk, take};
ghost use Rattle.up_bytes.specs.First.{IsFirst, row_fails};
ghost use Rattle.up_bytes.specs.Reading.{Gives, row_at};
ghost use Rattle.up_bytes.specs.Spelling.{byte};
ghost use Rattle.up_wire.specs.Bounds.{bounded, reply_size};
ghost use Rattle.up_wire.specs.declared.messages.ServerFrame.TheVariants.{Answer};
ghost use Rattle.up_wire.specs.First.{later_reply_firsts, reply_firsts};
ghost use Rattle.up_wire.specs.Reading.{later_reply_table, reply_table};
ghost use Rattle.up_wire.specs.Spelling.{reply_fields, reply_tag, IsReply};

use crate::replies::{Done, Reply};
use crate::words::{element_of, right_byte, take_right, take_what, what_number};
use std::alloc::{AllocError, Global};
use up_bytes::{FieldFault, Fields, Reader, Writer, num_len};
use up_entry::Entry;
use up_refs::Reference;

/// How many bytes the payload of a reply may have that tells what was done.
const LONGEST: u64 = 67_108_864;

/// How many bytes the payload of a reply has, or 2^64 - 1 where there are more. It takes no memory and makes no payload.
pub fn reply_size(reply: &Reply) -> u64
    ensures { result ≡ reply_size reply.now }
{
    let fields = match reply {
        Reply::Ok(done) => done.size(),
        Reply::Invalid(what) => match element_of(*what) {
            Some(element) => num_len(element).saturating_add(1),
            None => 1,
        },
        Reply::FollowLink(entry) => entry.size(),
        Reply::Permission(_) => 1,
        Reply::BadSequence(number)
        | Reply::BadText(number)
        | Reply::TooLarge(number)
        | Reply::Full(number) => num_len(*number),
        Reply::BadBlock(reference) => reference.bytes().len() as u64,
        Reply::WrongHost
        | Reply::Private
        | Reply::NotExist
        | Reply::NotDir
        | Reply::IsDir
        | Reply::Exist
        | Reply::NotEmpty
        | Reply::Io
        | Reply::OutOfMemory => 0,
    };
    fields.saturating_add(1)
}

/// The reply, or TooLarge in place of one that tells what was done in over 67,108,864 bytes of payload. It takes no memory.
pub fn bounded(reply: Reply) -> Reply
    ensures { result ≡ bounded reply }
{
    match oversize(&reply) {
        Some(size) => {
            drop(reply);
            Reply::TooLarge(size)
        }
        None => reply,
    }
}

/// How many bytes of payload the reply has, where it tells what was done in too many.
fn oversize(reply: &Reply) -> Option<u64>
    ensures over { IfSome result (λ size. bounded reply.now ≡ Reply.TooLarge size) }
    ensures within { IsNone result → bounded reply.now ≡ reply.now }
{
    let size = reply_size(reply);
    match reply {
        Reply::Ok(_) if size > LONGEST => Some(size),
        _ => None,
    }
}

/// Takes the fields of the reply that has this number, which stands at this place. A refused call leaves the place anywhere.
pub(crate) fn take_reply(
    alloc: Global,
    number: u8,
    place: u64,
    input: &mut Reader,
) -> Result<Reply, FieldFault>
    ensures exact { Gives (λ given. (Answer given, input.new)) result
        (row_at reply_table place number input.old) }
    ensures first { IsFirst (row_fails reply_firsts number input.old) result }
{
    match number {
        0x00 => Ok(Reply::Ok(Done::take(alloc, input)?)),
        0x01 => Ok(Reply::Invalid(take_what(input)?)),
        0x02 => Ok(Reply::WrongHost),
        0x03 => Ok(Reply::FollowLink(Entry::take(alloc, input)?)),
        0x04 => Ok(Reply::Private),
        0x05 => Ok(Reply::Permission(take_right(input)?)),
        _ => take_later_reply(number, place, input),
    }
}

/// The same of the replies from `NotExist` on.
fn take_later_reply(number: u8, place: u64, input: &mut Reader) -> Result<Reply, FieldFault>
    ensures exact { Gives (λ given. (Answer given, input.new)) result
        (row_at later_reply_table place number input.old) }
    ensures first { IsFirst (row_fails later_reply_firsts number input.old) result }
{
    match number {
        0x06 => Ok(Reply::NotExist),
        0x07 => Ok(Reply::NotDir),
        0x08 => Ok(Reply::IsDir),
        0x09 => Ok(Reply::Exist),
        0x0A => Ok(Reply::BadSequence(input.num()?)),
        0x0B => Ok(Reply::NotEmpty),
        0x0C => Ok(Reply::BadBlock(Reference::from_bytes(input.bytes_32()?))),
        0x0D => Ok(Reply::BadText(input.num()?)),
        0x0E => Ok(Reply::TooLarge(input.num()?)),
        0x0F => Ok(Reply::Full(input.num()?)),
        0x10 => Ok(Reply::Io),
        0x11 => Ok(Reply::OutOfMemory),
        _ => Err(FieldFault::Spelling(place)),
    }
}

/// Appends the number and the fields of a reply. A call that finds no memory may leave a part of them.
pub(crate) fn append_reply(reply: &Reply, out: &mut Writer) -> Result<(), AllocError>
    ensures appended { OnOk result
        (out.new ≡ out.old ++ (byte (reply_tag reply.now) ++ reply_fields reply.now)) }
    ensures kept { take (length out.old) out.new ≡ out.old }
    ensures typed { IfOk result (λ _. IsReply reply.now) }
{
    out.byte(number_of(reply))?;
    match reply {
        Reply::Ok(done) => done.write(out),
        Reply::Invalid(what) => {
            out.byte(what_number(*what))?;
            match element_of(*what) {
                Some(element) => out.num(element),
                None => Ok(()),
            }
        }
        Reply::FollowLink(entry) => entry.write(out),
        Reply::Permission(right) => out.byte(right_byte(*right)),
        Reply::BadSequence(number)
        | Reply::BadText(number)
        | Reply::TooLarge(number)
        | Reply::Full(number) => out.num(*number),
        Reply::BadBlock(reference) => out.raw(reference.bytes()),
        Reply::WrongHost
        | Reply::Private
        | Reply::NotExist
        | Reply::NotDir
        | Reply::IsDir
        | Reply::Exist
        | Reply::NotEmpty
        | Reply::Io
        | Reply::OutOfMemory => Ok(()),
    }
}

/// The number of a reply.
fn number_of(reply: &Reply) -> u8
    ensures { result ≡ reply_tag reply.now }
{
    match reply {
        Reply::Ok(_) => 0x00,
        Reply::Invalid(_) => 0x01,
        Reply::WrongHost => 0x02,
        Reply::FollowLink(_) => 0x03,
        Reply::Private => 0x04,
        Reply::Permission(_) => 0x05,
        Reply::NotExist => 0x06,
        Reply::NotDir => 0x07,
        Reply::IsDir => 0x08,
        Reply::Exist => 0x09,
        Reply::BadSequence(_) => 0x0A,
        Reply::NotEmpty => 0x0B,
        Reply::BadBlock(_) => 0x0C,
        Reply::BadText(_) => 0x0D,
        Reply::TooLarge(_) => 0x0E,
        Reply::Full(_) => 0x0F,
        Reply::Io => 0x10,
        Reply::OutOfMemory => 0x11,
    }
}
