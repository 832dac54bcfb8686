//! A request over a connection.
use crate::call_fault::CallFault;
use crate::dialled::Dialled;
use std::alloc::Global;
use std::net::{Net, TcpStream};
use std::process::Processes;
use std::time::Clock;
use up_bytes::FieldFault;
use up_wire::{Reply, Request, ServerFrame, read_server, write_request};

/// The server's reply to a request. A message that is no reply ends the connection.
pub(crate) fn reply<R: Net<Stream = TcpStream> + Processes + Clock + Copy>(
    alloc: Global,
    server: &mut Dialled<R>,
    request: &Request,
) -> Result<Reply, CallFault> {
    let asked = write_request(alloc, request)?;
    let heard = server.exchange(asked.as_slice())?;
    match read_server(alloc, heard.as_slice()) {
        Ok(ServerFrame::Answer(reply)) => Ok(reply),
        Err(FieldFault::OutOfMemory) => Err(CallFault::OutOfMemory),
        other => {
            drop(other);
            server.hang_up();
            Err(CallFault::Failed)
        }
    }
}
