//! Requests to a host, as the questions of a connection.
ghost use Rattle.std.specs.Prelude.{IfOk};
ghost use Rattle.up_talk.specs.Messages.{Asks};
ghost use Rattle.up_talk.specs.Requests.{FitsRequest, request_payload};

use std::alloc::{AllocError, Global};
use up_bytes::FieldFault;
use up_wire::{ClientFrame, Request, read_client};

/// The request that has this payload, or none where it is the payload of no request.
pub fn request_of(alloc: Global, payload: &[u8]) -> Result<Option<Request>, AllocError>
    ensures { IfOk result (λ found. Asks request_payload FitsRequest payload.now found) }
{
    match read_client(alloc, payload) {
        Ok(ClientFrame::Ask(request)) => Ok(Some(request)),
        Ok(ClientFrame::Hello(_) | ClientFrame::Proof(_) | ClientFrame::Bye) => Ok(None),
        Err(FieldFault::OutOfMemory) => Err(AllocError),
        Err(_) => Ok(None),
    }
}
