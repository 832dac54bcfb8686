//! A server over a connection, for a client.
ghost use Rattle.std.specs.Prelude.{◌≡◌, IfOk};

use crate::asking::reply;
use crate::call_fault::CallFault;
use crate::dialled::Dialled;
use crate::timed::Waits;
use std::alloc::{AllocError, Global};
use std::marker::Model;
use std::net::{Net, TcpStream};
use std::process::Processes;
use std::time::Clock;
use up_client::{Ask, Failed};
use up_names::User;
use up_wire::{Reply, Request};

/// A server over a connection, which a client asks as one user. It connects and signs on at its first request. It tells nothing of what
/// it was asked, and is seen as its count of failures.
///
/// Once the server could not be asked, each further request fails and is counted. One that is longer than a server takes is not sent,
/// and fails alone. After want of memory here the next request may sign on again.
#[derive(Drop)]
pub struct SocketAsk<R: Net<Stream = TcpStream> + Processes + Clock + Copy> {
    server: Dialled<R>,
    lost: bool,
    faults: u64,
}

impl<R: Net<Stream = TcpStream> + Processes + Clock + Copy> Model for SocketAsk<R> {
    ghost use Rattle.std.specs.Prelude.{ℕ};

    ghost Value = { ℕ };

    ghost view = { λ ask. ask.faults };
}

impl<R: Net<Stream = TcpStream> + Processes + Clock + Copy> SocketAsk<R> {
    /// The server at the address `NAME@HOST:PORT`, asked as this user, for whom the helper signs. Nothing is connected yet.
    pub fn new(
        alloc: Global,
        rt: R,
        address: &[u8],
        user: User,
        helper: String,
        waits: Waits,
    ) -> Result<Self, AllocError>
        ensures { IfOk result (λ ask. ask ≡ 0) }
    {
        let server = Dialled::new(alloc, rt, address, user, helper, waits)?;
        Ok(SocketAsk {
            server,
            lost: false,
            faults: 0,
        })
    }

    /// How many requests failed so far. A count that stands at 2^64 - 1 stays there.
    pub fn faults(&self) -> u64
        ensures { result ≡ self.now }
    {
        self.faults
    }

    // The reply, unless the server could not be asked before.
    fn heard(&mut self, alloc: Global, request: &Request) -> Result<Reply, CallFault>
        ensures { self.new ≡ self.old }
    {
        if self.lost {
            return Err(CallFault::Failed);
        }
        reply(alloc, &mut self.server, request)
    }
}

impl<R: Net<Stream = TcpStream> + Processes + Clock + Copy> Ask for SocketAsk<R> {
    ghost use Rattle.up_net.specs.Sockets.{AnyAnswer, AnyTie, any_same, any_joined};

    ghost answers = { AnyAnswer };

    ghost faults = { λ ask. ask };

    ghost tied = { AnyTie };

    ghost same = { any_same };

    ghost joined = { any_joined };

    fn ask(&mut self, alloc: Global, request: &Request) -> Result<Reply, Failed> {
        match self.heard(alloc, request) {
            Ok(reply) => Ok(reply),
            Err(CallFault::OutOfMemory) => Ok(Reply::OutOfMemory),
            Err(fault) => {
                self.lost = self.lost || fault == CallFault::Failed;
                self.faults = self.faults.saturating_add(1);
                Err(Failed)
            }
        }
    }
}
