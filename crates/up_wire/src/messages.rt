//! The messages that a client and a server send each other.

ghost use Rattle.std.specs.Prelude.{◌≡◌, IfOk, Ok, Err};
ghost use Rattle.up_bytes.specs.First.{IsFirst, row_fails};
ghost use Rattle.up_bytes.specs.Reading.{Gives, from_start, row_at};
ghost use Rattle.up_wire.specs.First.{client_fails, client_firsts, server_fails, server_firsts};
ghost use Rattle.up_wire.specs.Reading.{client_at, client_of, client_table, server_at, server_of, server_table};
ghost use Rattle.up_wire.specs.Spelling.{client, FitsClient, FitsServer, IsClient, IsServer, IsSpelledClient, IsSpelledServer, server};

use crate::answering::{append_reply, reply_size, take_reply};
use crate::asking::{append_request, request_size, take_request};
use crate::laws::messages_have_one_spelling;
use crate::replies::Reply;
use crate::requests::Request;
use std::alloc::{AllocError, Global};
use up_bytes::{Bytes, FieldFault, Fields, Reader, Writer, read_whole, text_len, write_whole};

/// What a client sends: who it is, the proof of that, then requests.
#[derive(Debug, Drop, PartialEq, Eq)]
pub enum ClientFrame {
    /// The name of the user who signs on.
    Hello(Bytes),
    /// The signature of what the server challenged the user to sign.
    Proof(Bytes),
    /// Nothing more comes.
    Bye,
    /// A request.
    Ask(Request),
}

/// What a server sends.
#[derive(Debug, Drop, PartialEq, Eq)]
pub enum ServerFrame {
    /// The bytes that the user has to sign.
    Challenge([u8; 32]),
    /// The signature is the user's.
    Welcome,
    /// There is no key record of the user, or the signature is not the user's.
    NotSigned,
    /// The reply to a request.
    Answer(Reply),
}

impl Fields for ClientFrame {
    ghost spelling = { client };

    ghost read_at = { client_at };

    ghost comes_first = { client_fails };

    ghost IsTyped = { IsClient };

    #[tactic(auto, unfolding(up_bytes::specs::Reading::tagged_at))]
    fn take(alloc: Global, input: &mut Reader) -> Result<ClientFrame, FieldFault> {
        let place = input.place();
        let tag = input.byte()?;
        take_client(alloc, tag, place, input)
    }

    fn append(&self, out: &mut Writer) -> Result<(), AllocError> {
        match self {
            ClientFrame::Hello(user) => {
                out.byte(0x01)?;
                out.text(user.as_slice())
            }
            ClientFrame::Proof(signature) => {
                out.byte(0x02)?;
                out.text(signature.as_slice())
            }
            ClientFrame::Bye => out.byte(0x03),
            ClientFrame::Ask(asked) => append_request(asked, out),
        }
    }

    fn size(&self) -> u64 {
        match self {
            ClientFrame::Hello(text) | ClientFrame::Proof(text) => {
                text_len(text.as_slice()).saturating_add(1)
            }
            ClientFrame::Bye => 1,
            ClientFrame::Ask(asked) => request_size(asked),
        }
    }
}

impl Fields for ServerFrame {
    ghost spelling = { server };

    ghost read_at = { server_at };

    ghost comes_first = { server_fails };

    ghost IsTyped = { IsServer };

    #[tactic(auto, unfolding(up_bytes::specs::Reading::tagged_at))]
    fn take(alloc: Global, input: &mut Reader) -> Result<ServerFrame, FieldFault> {
        let place = input.place();
        let tag = input.byte()?;
        take_server(alloc, tag, place, input)
    }

    fn append(&self, out: &mut Writer) -> Result<(), AllocError> {
        match self {
            ServerFrame::Challenge(bytes) => {
                out.byte(0x81)?;
                out.raw(bytes)
            }
            ServerFrame::Welcome => out.byte(0x82),
            ServerFrame::NotSigned => out.byte(0x83),
            ServerFrame::Answer(given) => append_reply(given, out),
        }
    }

    fn size(&self) -> u64 {
        match self {
            ServerFrame::Challenge(bytes) => {
                let len = bytes.as_slice().len() as u64;
                len.saturating_add(1)
            }
            ServerFrame::Welcome | ServerFrame::NotSigned => 1,
            ServerFrame::Answer(given) => reply_size(given),
        }
    }
}

/// Takes the fields of the client's message that has this tag, which stands at this place. A refused call leaves the place anywhere.
fn take_client(
    alloc: Global,
    tag: u8,
    place: u64,
    input: &mut Reader,
) -> Result<ClientFrame, FieldFault>
    ensures exact { Gives (λ frame. (frame, input.new)) result
        (row_at client_table place tag input.old) }
    ensures first { IsFirst (row_fails client_firsts tag input.old) result }
{
    match tag {
        0x01 => Ok(ClientFrame::Hello(input.text(alloc)?)),
        0x02 => Ok(ClientFrame::Proof(input.text(alloc)?)),
        0x03 => Ok(ClientFrame::Bye),
        tag => Ok(ClientFrame::Ask(take_request(alloc, tag, place, input)?)),
    }
}

/// The same of a server's message.
fn take_server(
    alloc: Global,
    tag: u8,
    place: u64,
    input: &mut Reader,
) -> Result<ServerFrame, FieldFault>
    ensures exact { Gives (λ frame. (frame, input.new)) result
        (row_at server_table place tag input.old) }
    ensures first { IsFirst (row_fails server_firsts tag input.old) result }
{
    match tag {
        0x81 => Ok(ServerFrame::Challenge(input.bytes_32()?)),
        0x82 => Ok(ServerFrame::Welcome),
        0x83 => Ok(ServerFrame::NotSigned),
        number => Ok(ServerFrame::Answer(take_reply(alloc, number, place, input)?)),
    }
}

/// The bytes of a client's message: the payload of its frame.
pub fn write_client(alloc: Global, frame: &ClientFrame) -> Result<Bytes, AllocError>
    ensures written { IfOk result (λ bytes. bytes ≡ client frame.now) }

    // What is written of a message that has a spelling is read again.
    ensures again { IfOk result
        (λ bytes. IsSpelledClient frame.now → client_of bytes ≡ Ok frame.now) }
{
    let bytes = write_whole(alloc, frame)?;
    is_client_again(frame, bytes.as_slice());
    Ok(bytes)
}

/// The client's message that is the whole of these bytes.
///
/// The fault is `Short` where the input ends within a field, else `Spelling` with the place of the first field that is no
/// spelling of a value that may stand there, or, behind the last field, of the first byte that is left. What the first field
/// announces reserves nothing: where that field is short, the answer is `Short`.
pub fn read_client(alloc: Global, bytes: &[u8]) -> Result<ClientFrame, FieldFault>
    ensures exact { Gives (λ frame. frame) result (client_of bytes.now) }

    // Where the tag is refused, or the first field behind it, so is the message, however much memory there is.
    ensures first { IsFirst (client_fails (from_start bytes.now)) result }

    // The bytes are the spelling of the message that is given.
    ensures spelled { IfOk result (λ frame. bytes.now ≡ client frame) }
    ensures fits { IfOk result (λ frame. FitsClient frame) }
{
    let frame = read_whole(alloc, bytes)?;
    is_client_spelled(&frame, bytes);
    Ok(frame)
}

/// The bytes of a server's message: the payload of its frame.
pub fn write_server(alloc: Global, frame: &ServerFrame) -> Result<Bytes, AllocError>
    ensures written { IfOk result (λ bytes. bytes ≡ server frame.now) }

    // What is written of a message that has a spelling is read again.
    ensures again { IfOk result
        (λ bytes. IsSpelledServer frame.now → server_of bytes ≡ Ok frame.now) }
{
    let bytes = write_whole(alloc, frame)?;
    is_server_again(frame, bytes.as_slice());
    Ok(bytes)
}

/// The server's message that is the whole of these bytes.
///
/// The fault is `Short` where the input ends within a field, else `Spelling` with the place of the first field that is no
/// spelling of a value that may stand there, or, behind the last field, of the first byte that is left. What the first field
/// announces reserves nothing: where that field is short, the answer is `Short`.
pub fn read_server(alloc: Global, bytes: &[u8]) -> Result<ServerFrame, FieldFault>
    ensures exact { Gives (λ frame. frame) result (server_of bytes.now) }

    // Where the tag is refused, or the first field behind it, so is the message, however much memory there is.
    ensures first { IsFirst (server_fails (from_start bytes.now)) result }

    // The bytes are the spelling of the message that is given.
    ensures spelled { IfOk result (λ frame. bytes.now ≡ server frame) }
    ensures fits { IfOk result (λ frame. FitsServer frame) }
{
    let frame = read_whole(alloc, bytes)?;
    is_server_spelled(&frame, bytes);
    Ok(frame)
}

/// The bytes that spell a client's message are read as this message.
fn is_client_again(frame: &ClientFrame, bytes: &[u8])
    ensures { FitsClient frame.now → bytes.now ≡ client frame.now → client_of bytes.now
        ≡ Ok frame.now }
{
    messages_have_one_spelling();
}

/// What is read as a client's message has a spelling, which is what was read.
fn is_client_spelled(frame: &ClientFrame, bytes: &[u8])
    ensures { client_of bytes.now ≡ Ok frame.now
        → FitsClient frame.now × (bytes.now ≡ client frame.now) }
{
    messages_have_one_spelling();
}

/// The bytes that spell a server's message are read as this message.
fn is_server_again(frame: &ServerFrame, bytes: &[u8])
    ensures { FitsServer frame.now → bytes.now ≡ server frame.now → server_of bytes.now
        ≡ Ok frame.now }
{
    messages_have_one_spelling();
}

/// What is read as a server's message has a spelling, which is what was read.
fn is_server_spelled(frame: &ServerFrame, bytes: &[u8])
    ensures { server_of bytes.now ≡ Ok frame.now
        → FitsServer frame.now × (bytes.now ≡ server frame.now) }
{
    messages_have_one_spelling();
}
