//! A server that is dialled.
use crate::call_fault::CallFault;
use crate::far::Far;
use crate::line::Line;
use crate::machine::Machine;
use crate::signer::signature;
use crate::timed::{Timed, Waits, wait_before};
use std::alloc::{AllocError, Global};
use std::io;
use std::net::{Net, TcpStream, ToSocketAddrs};
use std::process::Processes;
use std::time::{Clock, Duration};
use up_bytes::{Bytes, FieldFault, copy_of};
use up_names::User;
use up_sign::message;
use up_wire::{ClientFrame, ServerFrame, read_server, write_client};

/// The greatest payload of a frame to a server.
const MOST: usize = 2_097_152;

/// A server elsewhere, which is asked as one user over a connection. It connects and signs the user on at its first question, and again
/// at the first question behind one that failed.
///
/// The address is `NAME@HOST:PORT`: the name of the host, and what the system finds as an address. One that has no good name, or that is
/// not found, fails at each question. The helper signs, as `HELPER sign USER MESSAGE`. Looking a name up and running the helper have
/// no time limit of their own.
#[derive(Drop)]
pub struct Dialled<R: Net<Stream = TcpStream> + Processes + Clock + Copy> {
    alloc: Global,
    rt: R,
    far: Option<Far>,
    user: User,
    helper: String,
    waits: Waits,
    line: Option<Line<Timed<R>>>,
}

impl<R: Net<Stream = TcpStream> + Processes + Clock + Copy> Dialled<R> {
    /// The server at this address. Nothing is connected yet.
    pub fn new(
        alloc: Global,
        rt: R,
        address: &[u8],
        user: User,
        helper: String,
        waits: Waits,
    ) -> Result<Self, AllocError> {
        let far = Far::read(alloc, address)?;
        Ok(Dialled {
            alloc,
            rt,
            far,
            user,
            helper,
            waits,
            line: None,
        })
    }

    /// Sends a payload, and gives the payload of the server's next frame. Whoever is not signed on signs on first. A failure, and want of
    /// memory within a message, ends the connection; a payload that is too long and want of memory between two messages leave it.
    pub fn exchange(&mut self, payload: &[u8]) -> Result<Bytes, CallFault> {
        if payload.len() > MOST {
            return Err(CallFault::TooLong);
        }
        let until = self.rt.monotonic()?.saturating_add(self.waits.whole);
        let mut line = match self.line.take() {
            Some(line) => line,
            None => self.signed_on(until)?,
        };
        line.stream().until = until;
        let heard = line.exchange(payload);
        self.keep(line);
        heard
    }

    /// Ends the connection.
    pub fn hang_up(&mut self) {
        self.line = None;
    }

    // Keeps a stream that stands between two messages, and ends any other.
    fn keep(&mut self, line: Line<Timed<R>>) {
        if line.is_at_border() {
            self.line = Some(line);
        }
    }

    // A connection on which the user is signed on.
    fn signed_on(&self, until: Duration) -> Result<Line<Timed<R>>, CallFault> {
        let Some(far) = &self.far else {
            return Err(CallFault::Failed);
        };
        let stream = self.connected(far, until)?;
        let mut line = Line::new(
            self.alloc,
            Timed {
                clock: self.rt,
                stream,
                each: self.waits.each,
                until,
            },
        )?;
        self.sign_on(&mut line, far)?;
        Ok(line)
    }

    // A stream to the first address of the server that answers.
    fn connected(&self, far: &Far, until: Duration) -> io::Result<TcpStream> {
        let mut last = io::Error::from(io::ErrorKind::AddrNotAvailable);
        for address in far.address.as_str().to_socket_addrs(&self.rt)? {
            let wait = wait_before(&self.rt, self.waits.each, until)?;
            match TcpStream::connect_timeout(&self.rt, &address, wait) {
                Ok(stream) => {
                    stream.set_nodelay(true)?;
                    return Ok(stream);
                }
                Err(error) => last = error,
            }
        }
        Err(last)
    }

    // Signs the user on.
    fn sign_on(&self, line: &mut Line<Timed<R>>, far: &Far) -> Result<(), CallFault> {
        let user = copy_of(self.alloc, self.user.text().as_bytes())?;
        match self.told(line, &ClientFrame::Hello(user))? {
            ServerFrame::Challenge(challenge) => self.prove(line, far, challenge),
            other => {
                drop(other);
                Err(CallFault::Failed)
            }
        }
    }

    // Proves who the user is.
    fn prove(
        &self,
        line: &mut Line<Timed<R>>,
        far: &Far,
        challenge: [u8; 32],
    ) -> Result<(), CallFault> {
        let message = message(self.alloc, far.host.as_str(), &self.user, challenge)?;
        let mut machine = Machine::new(self.alloc, self.rt);
        let helper = self.helper.as_str();
        let Some(signature) = signature(
            self.alloc,
            &mut machine,
            helper,
            &self.user,
            message.as_slice(),
        )?
        else {
            return Err(CallFault::Failed);
        };
        match self.told(line, &ClientFrame::Proof(signature))? {
            ServerFrame::Welcome => Ok(()),
            other => {
                drop(other);
                Err(CallFault::Failed)
            }
        }
    }

    // Says a message, and hears the server's.
    fn told(
        &self,
        line: &mut Line<Timed<R>>,
        frame: &ClientFrame,
    ) -> Result<ServerFrame, CallFault> {
        let payload = write_client(self.alloc, frame)?;
        let heard = line.exchange(payload.as_slice())?;
        match read_server(self.alloc, heard.as_slice()) {
            Ok(frame) => Ok(frame),
            Err(FieldFault::OutOfMemory) => Err(CallFault::OutOfMemory),
            Err(_) => Err(CallFault::Failed),
        }
    }
}
