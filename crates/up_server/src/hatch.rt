//! The connections of followers.
ghost use Rattle.up_shared.specs.Sharing.{AreSeats};

use crate::door::Visit;
use crate::ending::{tell, tell_end};
use std::alloc::{AllocError, Global};
use std::net::{SocketAddr, TcpStream};
use std::sync::Wait;
use up_accept::Attends;
use up_disk::Disk;
use up_feed::feed_talk;
use up_net::{HelperVerifier, Machine, ServerWaits, ends};
use up_shared::Shared;
use up_talk::TalkEnd;

/// A host that many share, as who answers followers: with the path of its helper.
#[derive(Drop)]
pub(crate) struct Hatch<'a, D: Disk + Drop> {
    pub rt: HostRuntime,
    pub alloc: Global,
    pub shared: &'a Shared<D>,
    pub helper: &'a str,
}

impl<'a, D: Disk + Drop + Send> Attends for Hatch<'a, D> {
    type Part = Visit<D>;

    ghost is_part = { λ hatch visit. AreSeats hatch.shared.now visit.seats };

    fn split(&self, part: &mut Visit<D>) -> Result<Visit<D>, AllocError> {
        part.split_off(self.alloc, self.shared)
    }

    fn attend<R: Wait>(&self, rt: &R, part: &mut Visit<D>, stream: &TcpStream, from: SocketAddr) {
        let alloc = self.alloc;
        let Ok(helper) = String::from_str(alloc, self.helper) else {
            tell_end(&self.rt, from, TalkEnd::OutOfMemory);
            return;
        };
        match ends(stream, ServerWaits::usual()) {
            Ok((mut source, mut sink)) => {
                let end = feed_talk(
                    rt,
                    alloc,
                    self.shared,
                    &mut part.seats,
                    &mut source,
                    &mut sink,
                    &mut HelperVerifier::new(alloc, Machine::new(alloc, self.rt), helper),
                    &mut part.nonces,
                );
                tell_end(&self.rt, from, end);
            }
            Err(why) => tell(&self.rt, from, why),
        }
    }
}
