//! One request of one of many callers.
ghost use Rattle.std.specs.Prelude.{◌≡◌};
ghost use Rattle.up_calls.specs.Alike.{TellsNoMore};
ghost use Rattle.up_calls.specs.Answered.{Leaves, LoadsInRounds, Risen};
ghost use Rattle.up_calls.specs.Calls.{Asked};
ghost use Rattle.up_calls.specs.Shown.{FailsAsShown};
ghost use Rattle.up_ends.specs.Moments.{IsMoment};
ghost use Rattle.up_shared.specs.Sharing.{AreSeats, HasFailed, HasLooked, IsQuiet, SeatsLater, views_of};

use crate::caller::Caller;
use crate::shared::{Seats, Shared};
use std::alloc::Global;
use std::sync::Wait;
use up_calls::{Event, ask};
use up_disk::Disk;
use up_peer::Loader;
use up_sign::Session;
use up_wire::Request;

impl<D: Disk + Drop> Shared<D> {
    /// Answers the request of whoever has signed on, at a moment in seconds since 1970, before the year 10000. The answer is at one point
    /// of its log, not before anything that the seats had seen of it. What has to be fetched and loaded is so outside of that log's
    /// turn, each log in a turn of its own, and the host's operator asks for it. A malformed request takes no turn.
    pub fn ask<R: Wait, L: Loader>(
        &self,
        rt: &R,
        alloc: Global,
        seats: &mut Seats<D>,
        loader: &mut L,
        session: &Session,
        request: &Request,
        now: u64,
    ) -> Event
        requires sits { AreSeats self.now seats.old }
        requires moment { IsMoment now }
        ensures asked { Asked L.Loader self.now.operator (views_of seats.old) loader.old
            (record { user = session.now.user; request = request.now }) result
            (views_of seats.new) loader.new }
        ensures looked { Leaves (λ log n. HasLooked log n seats.old seats.new)
            (views_of seats.old)
            (record { user = session.now.user; request = request.now }) result }
        ensures risen { Risen (λ log. HasFailed log seats.old seats.new)
            (L.faults loader.old) (L.faults loader.new)
            (record { user = session.now.user; request = request.now }) result }
        ensures quiet { FailsAsShown (λ log. IsQuiet D.Disk log seats.old seats.new)
            (record { user = session.now.user; request = request.now }) result }
        ensures rounds { LoadsInRounds (views_of seats.old) (views_of seats.new)
            (record { user = session.now.user; request = request.now }) result }
        ensures alike { TellsNoMore (views_of seats.new)
            (record { user = session.now.user; request = request.now }) result }
        ensures later { SeatsLater seats.old seats.new }
        ensures sits { AreSeats self.now seats.new }
        ensures tie { L.tied loader.old loader.new }
        ensures moment { result.moment ≡ now }
    {
        let mut caller = Caller {
            rt,
            shared: self,
            seats,
        };
        ask(alloc, &mut caller, loader, session.user(), request, now)
    }
}
