//! The connections of a server.
ghost use Rattle.std.specs.Prelude.{IfOk};
ghost use Rattle.up_shared.specs.Sharing.{AreSeats};

use crate::ending::{tell, tell_end};
use std::alloc::{AllocError, Global};
use std::net::{SocketAddr, TcpStream};
use std::sync::Wait;
use up_accept::Attends;
use up_bytes::{Bytes, copy_of};
use up_disk::Disk;
use up_ends::Nonces;
use up_lists::Items;
use up_names::User;
use up_net::{
    HelperVerifier, HostClock, Machine, SeedNonces, ServerWaits, SocketPeer, Waits, ends,
};
use up_peer::{Loader, Peer, Peers};
use up_shared::{Seats, Shared};
use up_talk::TalkEnd;
use up_together::talk;

/// A host that many share, as who answers connections: with the path of its helper, and the hosts elsewhere that it asks.
#[derive(Drop)]
pub(crate) struct Door<'a, D: Disk + Drop> {
    pub rt: HostRuntime,
    pub alloc: Global,
    pub shared: &'a Shared<D>,
    pub helper: &'a str,
    pub peers: &'a [(User, Bytes)],
}

/// What one connection has of it: seats, and challenges that no other one has.
#[derive(Drop)]
pub(crate) struct Visit<D: Disk> {
    pub seats: Seats<D>,
    pub nonces: SeedNonces,
}

impl<D: Disk + Drop> Visit<D> {
    /// What one connection more has of it.
    pub fn split_off(&mut self, alloc: Global, shared: &Shared<D>) -> Result<Visit<D>, AllocError>
        requires { AreSeats shared.now self.old.seats }
        ensures kept { AreSeats shared.now self.new.seats }
        ensures other { IfOk result (λ visit. AreSeats shared.now visit.seats) }
    {
        let seats = shared.split(alloc, &mut self.seats)?;
        let nonces = SeedNonces::new(self.nonces.next());
        Ok(Visit { seats, nonces })
    }
}

/// A host elsewhere, which is asked about the tree of an owner, and for blocks at its address.
#[derive(Drop)]
struct Neighbour {
    owners: Items<User>,
    address: Bytes,
    peer: Box<SocketPeer<HostRuntime>>,
}

impl<'a, D: Disk + Drop + Send> Attends for Door<'a, D> {
    ghost use Rattle.up_shared.specs.Sharing.{AreSeats};

    type Part = Visit<D>;

    ghost is_part = { λ door visit. AreSeats door.shared.now visit.seats };

    fn split(&self, part: &mut Visit<D>) -> Result<Visit<D>, AllocError> {
        part.split_off(self.alloc, self.shared)
    }

    fn attend<R: Wait>(&self, rt: &R, part: &mut Visit<D>, stream: &TcpStream, from: SocketAddr) {
        match self.neighbours() {
            Ok(neighbours) => self.answer(rt, part, stream, from, neighbours),
            Err(_) => tell_end(&self.rt, from, TalkEnd::OutOfMemory),
        }
    }
}

impl<'a, D: Disk + Drop> Door<'a, D> {
    // The hosts elsewhere, none of which is dialled yet.
    fn neighbours(&self) -> Result<Vec<Neighbour>, AllocError> {
        let mut all = Vec::new(self.alloc);
        for (owner, address) in self.peers {
            all.push(self.neighbour(owner, address)?)?;
        }
        Ok(all)
    }

    fn neighbour(&self, owner: &User, address: &Bytes) -> Result<Neighbour, AllocError> {
        let alloc = self.alloc;
        let mut owners = Items::new(alloc);
        owners.push(owner.clone()?)?;
        let peer = self.peer_at(address.as_slice())?;
        Ok(Neighbour {
            owners,
            address: copy_of(alloc, address.as_slice())?,
            peer: Box::new(alloc, peer)?,
        })
    }

    // The host at an address, asked as the operator.
    fn peer_at(&self, address: &[u8]) -> Result<SocketPeer<HostRuntime>, AllocError> {
        let user = self.shared.operator.clone()?;
        let helper = String::from_str(self.alloc, self.helper)?;
        SocketPeer::new(self.alloc, self.rt, address, user, helper, Waits::usual())
    }

    // One connection, with the hosts elsewhere. The boxes of these are made here, where the list of them ends too.
    fn answer<R: Wait>(
        &self,
        rt: &R,
        part: &mut Visit<D>,
        stream: &TcpStream,
        from: SocketAddr,
        neighbours: Vec<Neighbour>,
    )
        requires { AreSeats self.now.shared.now part.old.seats }
        ensures { AreSeats self.now.shared.now part.new.seats }
    {
        let mut peers = Peers::new(self.alloc);
        for one in neighbours {
            let Neighbour {
                owners,
                address,
                peer,
            } = one;
            let peer: Box<dyn Peer + Send> = peer;
            if peers.add(owners, address, peer).is_err() {
                tell_end(&self.rt, from, TalkEnd::OutOfMemory);
                return;
            }
        }
        self.converse(rt, part, stream, from, &mut peers);
    }

    // One connection, with whoever stands behind the host.
    fn converse<R: Wait, L: Loader>(
        &self,
        rt: &R,
        part: &mut Visit<D>,
        stream: &TcpStream,
        from: SocketAddr,
        peers: &mut L,
    )
        requires { AreSeats self.now.shared.now part.old.seats }
        ensures { AreSeats self.now.shared.now part.new.seats }
    {
        let alloc = self.alloc;
        let Ok(helper) = String::from_str(alloc, self.helper) else {
            tell_end(&self.rt, from, TalkEnd::OutOfMemory);
            return;
        };
        match ends(stream, ServerWaits::usual()) {
            Ok((mut source, mut sink)) => {
                let end = talk(
                    rt,
                    alloc,
                    self.shared,
                    &mut part.seats,
                    peers,
                    &mut source,
                    &mut sink,
                    &mut HelperVerifier::new(alloc, Machine::new(alloc, self.rt), helper),
                    &mut HostClock::new(Machine::new(alloc, self.rt)),
                    &mut part.nonces,
                );
                tell_end(&self.rt, from, end);
            }
            Err(why) => tell(&self.rt, from, why),
        }
    }
}
