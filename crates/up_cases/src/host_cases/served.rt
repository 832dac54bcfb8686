//! Who answers for a host: the host alone, or a caller of one that is shared.
ghost use Rattle.std.specs.Prelude.{◌≡◌};
ghost use Rattle.up_together.specs.Sitting.{marks_at, marks_of};

use crate::host_cases::sessions::{session_of, signed_on};
use std::alloc::{AllocError, Global};
use std::sync::Wait;
use up_case_lines::{Fault, user_of};
use up_disk::MemDisk;
use up_host::{Event, Host};
use up_names::User;
use up_peer::Loader;
use up_shared::{Seats, Shared};
use up_sign::Session;
use up_wire::{KeyRecord, Request};

/// The moment of each request.
const NOW: u64 = 86_400;

/// Who answers for a host.
pub trait Served {
    /// The session of the user of this name, where it has a key record.
    fn session(&mut self, alloc: Global, name: &str) -> Result<Option<Session>, Fault>;

    /// What comes of a request.
    fn event<L: Loader>(
        &mut self,
        alloc: Global,
        loader: &mut L,
        session: &Session,
        request: &Request,
    ) -> Event;
}

impl Served for Host<MemDisk> {
    fn session(&mut self, alloc: Global, name: &str) -> Result<Option<Session>, Fault> {
        session_of(alloc, self, name)
    }

    fn event<L: Loader>(
        &mut self,
        alloc: Global,
        loader: &mut L,
        session: &Session,
        request: &Request,
    ) -> Event {
        event_of(alloc, self, loader, session, request)
    }
}

/// What comes of a request to a host alone, of which nothing else is known.
pub fn event_of<L: Loader>(
    alloc: Global,
    host: &mut Host<MemDisk>,
    loader: &mut L,
    session: &Session,
    request: &Request,
) -> Event {
    host.ask(alloc, loader, session, request, NOW)
}

/// A caller of a host that is shared.
#[derive(Drop)]
pub struct Caller<'a, R: Wait> {
    pub rt: &'a R,
    pub shared: &'a Shared<MemDisk>,
    pub seats: &'a mut Seats<MemDisk>,
    // The seats are those of the host.
    ghost sits: { marks_of seats.now ≡ marks_at shared.now seats.now },
}

impl<'a, R: Wait> Caller<'a, R> {
    // The record of a user, of which nothing else is known.
    #[tactic(auto, using(up_together::proofs::SittingLemmas::marks_by_sits))]
    fn card_of(&mut self, alloc: Global, user: &User) -> Result<Option<KeyRecord>, AllocError> {
        self.shared.key_record(self.rt, alloc, self.seats, user)
    }
}

impl<'a, R: Wait> Served for Caller<'a, R> {
    fn session(&mut self, alloc: Global, name: &str) -> Result<Option<Session>, Fault> {
        let user = user_of(alloc, name)?;
        let card = self.card_of(alloc, &user);
        drop(user);
        let card = card?;
        let session = signed_on(alloc, card.as_ref());
        drop(card);
        Ok(session?)
    }

    #[tactic(auto, using(up_together::proofs::SittingLemmas::marks_by_sits))]
    fn event<L: Loader>(
        &mut self,
        alloc: Global,
        loader: &mut L,
        session: &Session,
        request: &Request,
    ) -> Event {
        self.shared
            .ask(self.rt, alloc, self.seats, loader, session, request, NOW)
    }
}
