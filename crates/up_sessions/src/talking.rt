//! A session puts and gets files.
ghost use Rattle.std.proofs.Common.{◌∙◌};
ghost use Rattle.std.specs.Prelude.{◌≡◌, ◌<◌, IfSome, IsSome, length, refl};
ghost use Rattle.up_ends.specs.Moments.{IsMoment};
ghost use Rattle.up_sessions.specs.Talking.{GetsAt, PutsAt, answers_at};
ghost use Rattle.up_sessions.specs.Worlds.{session_at};

use crate::asking::{Asker, ask_at, opened_in};
use crate::moment::Moment;
use crate::sessions::Sessions;
use std::alloc::Global;
use up_bytes::Bytes;
use up_client::{Ask, ClientFault, Failed, get, put};
use up_disk::Disk;
use up_host::Host;
use up_names::Path;
use up_peer::Loader;
use up_wire::{Reply, Request};

// What a client asks for a session: the host at a place among all hosts.
#[derive(Drop)]
struct SessionAsk<'hosts, 'peers, 'session, D: Disk, P: Loader> {
    hosts: &'hosts mut [Host<D>],
    place: usize,
    asker: Asker<'peers, 'session, P>,
    ghost within: { place < length hosts.now },
}

impl<'hosts, 'peers, 'session, D: Disk, P: Loader> Ask
    for SessionAsk<'hosts, 'peers, 'session, D, P> {
    ghost answers = { λ old request given new.
        answers_at D.Disk P.Loader old.place old.asker.session.now.user old.asker.moment
        (old.hosts.now, old.asker.peers.now) request given (new.hosts.now, new.asker.peers.now)
        × (new.place ≡ old.place) × (new.asker.session.now ≡ old.asker.session.now)
        × (new.asker.moment ≡ old.asker.moment) };

    ghost faults = { λ _. 0 };

    ghost tied = { λ old new. (new.hosts.ghost_name ≡ old.hosts.ghost_name)
        × (new.asker.peers.ghost_name ≡ old.asker.peers.ghost_name) };

    fn ask(&mut self, alloc: Global, request: &Request) -> Result<Reply, Failed> {
        let event = ask_at(alloc, self.hosts, self.place, &mut self.asker, request);
        Ok(event.reply)
    }

    ghost same = { λ a. (refl, refl) };

    ghost joined = { λ a b c p q. (q.0 ∙ p.0, q.1 ∙ p.1) };
}

impl<D: Disk> Sessions<D> {
    /// The user of the session that is open at a number puts a file at a path, with a time and a sequence, at a moment in seconds since
    /// 1970, before the year 10000. `Failed` never comes, since the host always answers.
    pub fn put<P: Loader>(
        &mut self,
        alloc: Global,
        peers: &mut P,
        number: u64,
        path: &Path,
        time: i64,
        sequence: i64,
        bytes: &[u8],
        now: u64,
    ) -> Result<u64, ClientFault>
        requires session { IsSome (session_at self.old number) }
        requires moment { IsMoment now }
        ensures { IfSome (session_at self.old number) (λ opened.
            PutsAt D.Disk P.Loader opened.place opened.session.user now
            path.now time sequence bytes.now result self.old peers.old self.new peers.new) }
    {
        let Some(opened) = opened_in(&self.sessions, number) else {
            unreachable!()
        };
        let hosts = self.hosts.as_mut_slice();
        let mut ask = SessionAsk {
            hosts,
            place: opened.place,
            asker: Asker {
                peers,
                session: &opened.session,
                moment: Moment::of(now),
            },
        };
        put(
            alloc,
            &mut ask,
            opened.session.user(),
            path,
            time,
            sequence,
            bytes,
        )
    }

    /// The user of the session that is open at a number gets the file at a path, at a moment in seconds since 1970, before the year
    /// 10000. `Failed` never comes, since the host always answers.
    pub fn get<P: Loader>(
        &mut self,
        alloc: Global,
        peers: &mut P,
        number: u64,
        path: &Path,
        now: u64,
    ) -> Result<Bytes, ClientFault>
        requires session { IsSome (session_at self.old number) }
        requires moment { IsMoment now }
        ensures { IfSome (session_at self.old number) (λ opened.
            GetsAt D.Disk P.Loader opened.place opened.session.user now
            path.now result self.old peers.old self.new peers.new) }
    {
        let Some(opened) = opened_in(&self.sessions, number) else {
            unreachable!()
        };
        let hosts = self.hosts.as_mut_slice();
        let mut ask = SessionAsk {
            hosts,
            place: opened.place,
            asker: Asker {
                peers,
                session: &opened.session,
                moment: Moment::of(now),
            },
        };
        get(alloc, &mut ask, path)
    }
}
