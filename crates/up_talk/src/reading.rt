//! What a client says by a payload.
ghost use Rattle.std.specs.Prelude.{◌≡◌, IfOk};
ghost use Rattle.std.specs.Str.{bytes_eq};
ghost use Rattle.up_talk.specs.Turns.{AsksOrBye, Greeting, Says, standing_at};
ghost use Rattle.up_wire.specs.Spelling.{client};
ghost use Rattle.up_wire.specs.declared.messages.ClientFrame.TheVariants as clients;

use crate::answers::Answers;
use crate::message::FromClient;
use crate::stage::Stage;
use std::alloc::{AllocError, Global};
use up_bytes::FieldFault;
use up_wire::{ClientFrame, read_client};

/// The payload by which a client says that nothing more comes.
const BYE: u8 = 0x03;

/// The message of a sign-on that has this payload, or none.
pub(crate) fn read_greeting<Q: Drop>(
    alloc: Global,
    payload: &[u8],
) -> Result<Option<FromClient<Q>>, AllocError>
    ensures { IfOk result (λ found. Greeting payload.now found) }
{
    match read_client(alloc, payload) {
        Ok(ClientFrame::Hello(text)) => Ok(Some(FromClient::Hello(text))),
        Ok(ClientFrame::Proof(signature)) => Ok(Some(FromClient::Proof(signature))),
        Ok(ClientFrame::Ask(_) | ClientFrame::Bye) => Ok(None),
        Err(FieldFault::OutOfMemory) => Err(AllocError),
        Err(_) => Ok(None),
    }
}

/// The question that has this payload, or Bye, or none of them.
pub(crate) fn read_question<A: Answers>(
    alloc: Global,
    payload: &[u8],
) -> Result<Option<FromClient<A::Question>>, AllocError>
    ensures { IfOk result (λ found. AsksOrBye A.asking A.fits payload.now found) }
{
    if is_bye(payload) {
        return Ok(Some(FromClient::Bye));
    }
    match A::read(alloc, payload)? {
        Some(question) => Ok(Some(FromClient::Ask(question))),
        None => Ok(None),
    }
}

/// What a client says by this payload, or none where it is the payload of nothing that may come at this stage.
pub(crate) fn read_said<A: Answers>(
    alloc: Global,
    stage: &Stage,
    payload: &[u8],
) -> Result<Option<FromClient<A::Question>>, AllocError>
    ensures { IfOk result (λ found.
        Says A.asking A.fits (standing_at stage.now) payload.now found) }
{
    match stage {
        Stage::Signed(_) => read_question::<A>(alloc, payload),
        Stage::Unsaid | Stage::Challenged(_) => read_greeting(alloc, payload),
    }
}

// Whether the payload is that of Bye.
fn is_bye(payload: &[u8]) -> bool
    ensures { result ≡ bytes_eq payload.now (client clients.Bye) }
{
    payload == [BYE].as_slice()
}
