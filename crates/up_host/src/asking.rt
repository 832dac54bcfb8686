//! One request, and what comes of it.
ghost use Rattle.std.specs.Prelude.{◌≡◌};
ghost use Rattle.up_calls.specs.Alike.{TellsNoMore};
ghost use Rattle.up_calls.specs.Calls.{Asked};
ghost use Rattle.up_ends.specs.Moments.{IsMoment};
ghost use Rattle.up_host.specs.Alone.{Counts, IsAlone, RisesAsShown, disk_faults, views};
ghost use Rattle.up_host.specs.Settled.{StaysSettled};

use crate::host::Host;
use std::alloc::Global;
use up_calls::{Event, ask};
use up_disk::Disk;
use up_peer::Loader;
use up_sign::Session;
use up_wire::Request;

impl<D: Disk> Host<D> {
    /// Answers the request of whoever has signed on, at a moment in seconds since 1970, before the year 10000. The answer is at the end of
    /// its log, and the host's operator asks for what has to be loaded.
    pub fn ask<L: Loader>(
        &mut self,
        alloc: Global,
        loader: &mut L,
        session: &Session,
        request: &Request,
        now: u64,
    ) -> Event
        requires moment { IsMoment now }
        ensures asked { Asked L.Loader self.old.operator (views D.Disk self.old) loader.old
            (record { user = session.now.user; request = request.now }) result
            (views D.Disk self.new) loader.new }
        ensures alone { IsAlone (views D.Disk self.old) (views D.Disk self.new)
            (record { user = session.now.user; request = request.now }) result }
        ensures counts { Counts (disk_faults D.Disk self.old) (disk_faults D.Disk self.new)
            (L.faults loader.old) (L.faults loader.new) result }
        ensures quiet { RisesAsShown (views D.Disk self.old) (views D.Disk self.new)
            (record { user = session.now.user; request = request.now }) result }
        ensures tie { L.tied loader.old loader.new }
        ensures alike { TellsNoMore (views D.Disk self.new)
            (record { user = session.now.user; request = request.now }) result }
        ensures stays { StaysSettled D.Disk self.old self.new }
        ensures moment { result.moment ≡ now }
        ensures operator { self.new.operator ≡ self.old.operator }
        ensures name { self.new.name ≡ self.old.name }
    {
        ask(alloc, self, loader, session.user(), request, now)
    }
}
