//! Requests as the fields of a message.

ghost use Rattle.std.specs.Prelude.{◌≡◌, ◌++◌, IfOk, length, OnOk, take};
ghost use Rattle.up_bytes.specs.First.{IsFirst, row_fails};
ghost use Rattle.up_bytes.specs.Reading.{FaultFirst, Gives, row_at, text_at};
ghost use Rattle.up_bytes.specs.Sizes.{size_of};
ghost use Rattle.up_bytes.specs.Spelling.{byte};
ghost use Rattle.up_wire.specs.declared.messages.ClientFrame.TheVariants.{Ask};
ghost use Rattle.up_wire.specs.First.{request_firsts};
ghost use Rattle.up_wire.specs.Reading.{request_table, watch_at};
ghost use Rattle.up_wire.specs.Spelling.{client, request_fields, request_tag, IsRequest};

use crate::keys::KeyCard;
use crate::requests::Request;
use std::alloc::{AllocError, Global};
use up_bytes::{Bytes, FieldFault, Fields, Reader, Writer, int_len, text_len};
use up_entry::PutEntry;

/// Takes the fields of the request that has this tag, which stands at this place. A refused call leaves the place anywhere.
pub(crate) fn take_request(
    alloc: Global,
    tag: u8,
    place: u64,
    input: &mut Reader,
) -> Result<Request, FieldFault>
    ensures exact { Gives (λ asked. (Ask asked, input.new)) result
        (row_at request_table place tag input.old) }
    ensures first { IsFirst (row_fails request_firsts tag input.old) result }
{
    match tag {
        0x10 => Ok(Request::Lookup(input.text(alloc)?)),
        0x11 => Ok(Request::Put(PutEntry::take(alloc, input)?)),
        0x12 => Ok(Request::Delete(input.text(alloc)?)),
        0x13 => Ok(Request::Glob(input.text(alloc)?)),
        0x14 => Ok(Request::WhichAccess(input.text(alloc)?)),
        0x15 => take_watch(alloc, input),
        0x16 => Ok(Request::GroupText(input.text(alloc)?)),
        0x20 => Ok(Request::Get(input.text(alloc)?)),
        0x21 => Ok(Request::StorePut(input.text(alloc)?)),
        0x22 => Ok(Request::StoreDelete(input.text(alloc)?)),
        0x30 => Ok(Request::KeyLookup(input.text(alloc)?)),
        0x31 => Ok(Request::KeyPut(KeyCard::take(alloc, input)?)),
        _ => Err(FieldFault::Spelling(place)),
    }
}

/// Takes a path to watch and a sequence. A refused call leaves the place anywhere.
#[tactic(auto, unfolding(crate::specs::Reading::watch_at))]
fn take_watch(alloc: Global, input: &mut Reader) -> Result<Request, FieldFault>
    ensures exact { Gives (λ asked. (asked, input.new)) result (watch_at input.old) }
    ensures first { FaultFirst (text_at input.old) result }
{
    let path = input.text(alloc)?;
    let sequence = input.int()?;
    Ok(Request::Watch(path, sequence))
}

/// The bytes of a request as a client's message: those that [`write_client`](crate::write_client) gives of it, without a message that
/// owns it.
pub fn write_request(alloc: Global, asked: &Request) -> Result<Bytes, AllocError>
    ensures { IfOk result (λ bytes. bytes ≡ client (Ask asked.now)) }
{
    let mut out = Writer::new(alloc);
    append_request(asked, &mut out)?;
    Ok(out.finish())
}

/// Appends the tag and the fields of a request. A call that finds no memory may leave a part of them.
pub(crate) fn append_request(asked: &Request, out: &mut Writer) -> Result<(), AllocError>
    ensures appended { OnOk result
        (out.new ≡ out.old ++ (byte (request_tag asked.now) ++ request_fields asked.now)) }
    ensures kept { take (length out.old) out.new ≡ out.old }
    ensures typed { IfOk result (λ _. IsRequest asked.now) }
{
    out.byte(tag_of(asked))?;
    match asked {
        Request::Lookup(text)
        | Request::Delete(text)
        | Request::Glob(text)
        | Request::WhichAccess(text)
        | Request::GroupText(text)
        | Request::Get(text)
        | Request::StorePut(text)
        | Request::StoreDelete(text)
        | Request::KeyLookup(text) => out.text(text.as_slice()),
        Request::Put(put) => put.write(out),
        Request::Watch(path, sequence) => {
            out.text(path.as_slice())?;
            out.int(*sequence)
        }
        Request::KeyPut(card) => card.write(out),
    }
}

/// How many bytes the tag and the fields of a request have, or 2^64 - 1 where there are more.
pub(crate) fn request_size(asked: &Request) -> u64
    ensures { result ≡ size_of (byte (request_tag asked.now) ++ request_fields asked.now) }
{
    let fields = match asked {
        Request::Lookup(text)
        | Request::Delete(text)
        | Request::Glob(text)
        | Request::WhichAccess(text)
        | Request::GroupText(text)
        | Request::Get(text)
        | Request::StorePut(text)
        | Request::StoreDelete(text)
        | Request::KeyLookup(text) => text_len(text.as_slice()),
        Request::Put(put) => put.size(),
        Request::Watch(path, sequence) => {
            text_len(path.as_slice()).saturating_add(int_len(*sequence))
        }
        Request::KeyPut(card) => card.size(),
    };
    fields.saturating_add(1)
}

/// The tag of a request.
fn tag_of(asked: &Request) -> u8
    ensures { result ≡ request_tag asked.now }
{
    match asked {
        Request::Lookup(_) => 0x10,
        Request::Put(_) => 0x11,
        Request::Delete(_) => 0x12,
        Request::Glob(_) => 0x13,
        Request::WhichAccess(_) => 0x14,
        Request::Watch(_, _) => 0x15,
        Request::GroupText(_) => 0x16,
        Request::Get(_) => 0x20,
        Request::StorePut(_) => 0x21,
        Request::StoreDelete(_) => 0x22,
        Request::KeyLookup(_) => 0x30,
        Request::KeyPut(_) => 0x31,
    }
}
