//! A host elsewhere as a peer.
ghost use Rattle.std.specs.Prelude.{◌≡◌, Ok, IfOk};
ghost use Rattle.up_lists.specs.Counts.{HasCause, StaysUnless};
ghost use Rattle.up_peer.specs.declared.answers.PeerAnswer.TheVariants as answers;

use crate::asking::reply;
use crate::call_fault::CallFault;
use crate::dialled::Dialled;
use crate::timed::Waits;
use std::alloc::{AllocError, Global};
use std::marker::Model;
use std::net::{Net, TcpStream};
use std::process::Processes;
use std::time::Clock;
use up_bytes::Bytes;
use up_names::{Path, User};
use up_peer::{Peer, PeerAnswer};
use up_refs::Reference;
use up_wire::{Done, Reply, Request};

/// A host elsewhere, which is asked over a connection as one user, as [`Dialled`] does: it connects and signs on at its first call, and
/// again at the first call behind one that failed, which ended the connection. It tells nothing of what it was asked, and is seen as its
/// count of faults.
///
/// A call fails where the server cannot be asked, or replies that its disk failed or that it had no memory. Any other reply that is no
/// text, or no block, is `Nothing`.
#[derive(Drop)]
pub struct SocketPeer<R: Net<Stream = TcpStream> + Processes + Clock + Copy> {
    server: Dialled<R>,
    faults: u64,
}

impl<R: Net<Stream = TcpStream> + Processes + Clock + Copy> Model for SocketPeer<R> {
    ghost use Rattle.std.specs.Prelude.{ℕ};

    ghost Value = { ℕ };

    ghost view = { λ peer. peer.faults };
}

impl<R: Net<Stream = TcpStream> + Processes + Clock + Copy> SocketPeer<R> {
    /// The host at the address `NAME@HOST:PORT`, asked as this user, for whom the helper signs. Nothing is connected yet.
    pub fn new(
        alloc: Global,
        rt: R,
        address: &[u8],
        user: User,
        helper: String,
        waits: Waits,
    ) -> Result<Self, AllocError>
        ensures { IfOk result (λ peer. peer ≡ 0) }
    {
        let server = Dialled::new(alloc, rt, address, user, helper, waits)?;
        Ok(SocketPeer { server, faults: 0 })
    }

    // What it answers where no text or block came. A failure is counted.
    fn otherwise(&mut self, heard: Result<Reply, CallFault>) -> Result<PeerAnswer, AllocError>
        ensures counts { HasCause self.old self.new (result ≡ Ok answers.Failed) }
        ensures quiet { StaysUnless self.old self.new (result ≡ Ok answers.Failed) }
    {
        match heard {
            Err(CallFault::OutOfMemory) => Err(AllocError),
            Err(_) | Ok(Reply::Io | Reply::OutOfMemory) => {
                self.faults = self.faults.saturating_add(1);
                Ok(PeerAnswer::Failed)
            }
            Ok(other) => {
                drop(other);
                Ok(PeerAnswer::Nothing)
            }
        }
    }
}

impl<R: Net<Stream = TcpStream> + Processes + Clock + Copy> Peer for SocketPeer<R> {
    ghost use Rattle.std.specs.Prelude.{None};

    ghost asked = { λ _. None };

    ghost fault_count = { λ peer. peer };

    fn load(&mut self, alloc: Global, group: &Path) -> Result<PeerAnswer, AllocError> {
        let text = group.text()?;
        let request = Request::GroupText(Bytes::from_vec(text.into_bytes()));
        match reply(alloc, &mut self.server, &request) {
            Ok(Reply::Ok(Done::Text(text))) => Ok(PeerAnswer::Got(text)),
            other => self.otherwise(other),
        }
    }

    fn fetch(&mut self, alloc: Global, reference: &Reference) -> Result<PeerAnswer, AllocError> {
        let text = reference.text(alloc)?;
        let request = Request::Get(Bytes::from_vec(text.into_bytes()));
        match reply(alloc, &mut self.server, &request) {
            Ok(Reply::Ok(Done::Bytes(bytes))) => Ok(PeerAnswer::Got(bytes)),
            other => self.otherwise(other),
        }
    }

    fn faults(&self) -> u64 {
        self.faults
    }
}
