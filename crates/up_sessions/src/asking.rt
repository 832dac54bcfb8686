//! A session asks its host.
ghost use Rattle.std.specs.Prelude.{◌≡◌, ◌<◌, IfSome, IsSome, length};
ghost use Rattle.std.specs.Option.{option_copied};
ghost use Rattle.up_ends.specs.Moments.{IsMoment};
ghost use Rattle.up_sessions.specs.Asking.{AsksHost, AsksOne};
ghost use Rattle.up_sessions.specs.Others.{others};
ghost use Rattle.up_sessions.specs.Kept.{OneOf};
ghost use Rattle.up_sessions.specs.Worlds.{session_at, session_in};

use crate::behind::Behind;
use crate::moment::Moment;
use crate::opened::Opened;
use crate::sessions::Sessions;
use std::alloc::Global;
use up_disk::Disk;
use up_host::{Event, Host};
use up_peer::Loader;
use up_sign::Session;
use up_wire::Request;

impl<D: Disk> Sessions<D> {
    /// The host of the session that is open at a number answers a request of its user, at a moment in seconds since 1970, before the year
    /// 10000. A group of an owner whom the host lacks is asked of the other hosts first, and then of the peers.
    pub fn ask<P: Loader>(
        &mut self,
        alloc: Global,
        peers: &mut P,
        number: u64,
        request: &Request,
        now: u64,
    ) -> Event
        requires session { IsSome (session_at self.old number) }
        requires moment { IsMoment now }
        ensures { IfSome (session_at self.old number) (λ opened.
            AsksHost D.Disk P.Loader opened.place
            (record { user = opened.session.user; request = request.now })
            now result self.old peers.old self.new peers.new) }
    {
        let Some(opened) = opened_in(&self.sessions, number) else {
            unreachable!()
        };
        let mut asker = Asker {
            peers,
            session: &opened.session,
            moment: Moment::of(now),
        };
        ask_at(alloc, &mut self.hosts, opened.place, &mut asker, request)
    }
}

/// The session that is open at a number.
pub(crate) fn opened_in(sessions: &[Option<Opened>], number: u64) -> Option<&Opened>
    ensures { option_copied result ≡ session_in sessions.now number }
{
    match sessions.get(number as usize) {
        Some(Some(opened)) => Some(opened),
        Some(None) | None => None,
    }
}

/// A session that asks at one moment, and the peers behind all hosts.
#[derive(Drop)]
pub(crate) struct Asker<'peers, 'session, P: Loader> {
    pub(crate) peers: &'peers mut P,
    pub(crate) session: &'session Session,
    pub(crate) moment: Moment,
}

/// Asks the host at a place. The list is cut at it for this one call.
pub(crate) fn ask_at<D: Disk, P: Loader>(
    alloc: Global,
    hosts: &mut [Host<D>],
    place: usize,
    asker: &mut Asker<'_, '_, P>,
    request: &Request,
) -> Event
    requires { place < length hosts.old }
    ensures asks { OneOf place (AsksOne D.Disk P.Loader (others place hosts.old)
        (record { user = asker.old.session.now.user; request = request.now }) asker.old.moment result)
        hosts.old asker.old.peers.now hosts.new asker.new.peers.now }
    ensures peers { asker.new.peers.ghost_name ≡ asker.old.peers.ghost_name }
    ensures session { asker.new.session.now ≡ asker.old.session.now }
    ensures moment { asker.new.moment ≡ asker.old.moment }
{
    let (before, rest) = hosts.split_at_mut(place);
    let Some((host, after)) = rest.split_first_mut() else {
        unreachable!()
    };
    let mut behind = Behind {
        before,
        after,
        peers: asker.peers,
    };
    host.ask(
        alloc,
        &mut behind,
        asker.session,
        request,
        asker.moment.seconds(),
    )
}
