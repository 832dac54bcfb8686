//! The hosts of a script and the sessions on them.
ghost use Rattle.std.specs.Prelude.{◌≡◌, ◌==◌, [], IfErr, IfOk, length, position};
ghost use Rattle.std.specs.List.{list_any};
ghost use Rattle.std.specs.Option.{option_copied};
ghost use Rattle.up_sessions.specs.Others.{has_tree};
ghost use Rattle.up_sessions.specs.Worlds.{is_named, no_session, user_at, user_in};

use crate::opened::Opened;
use std::alloc::{AllocError, Global};
use std::hash::RandomState;
use std::marker::Model;
use up_disk::{Disk, Disks};
use up_host::Host;
use up_names::User;

/// How many sessions can be open at once.
const NUMBERS: usize = 100;

/// Hosts in the order in which they were opened; the sessions that are open on them, at numbers from 0 to 99; and the disks that no host
/// has yet.
#[derive(Drop)]
pub struct Sessions<D: Disk> {
    pub(crate) hosts: Vec<Host<D>>,
    pub(crate) sessions: Vec<Option<Opened>>,
    pub(crate) free: Disks<D>,
    pub(crate) random: RandomState,
}

impl<D: Disk> Model for Sessions<D> {
    ghost use Rattle.up_sessions.specs.Kept.{IsKept};
    ghost use Rattle.up_sessions.specs.Worlds.{Hosts};

    ghost Value = { Hosts D };

    ghost view = { λ all. record {
      hosts = all.hosts.items;
      sessions = all.sessions.items;
      free = all.free.disks;
    } };

    ghost invariant = { λ all. IsKept all.hosts.items all.sessions.items all.free.spare };
}

impl<D: Disk> Sessions<D> {
    /// No host and no session, over these disks. `Err` hands them back, for want of memory.
    pub fn new(alloc: Global, random: RandomState, disks: Disks<D>) -> Result<Sessions<D>, Disks<D>>
        ensures none { IfOk result (λ all. all ≡ record {
          hosts = [];
          sessions = no_session;
          free = disks.disks;
        }) }
        ensures refused { IfErr result (λ back. back ≡ disks) }
    {
        match closed(alloc) {
            Ok(sessions) => Ok(Sessions {
                hosts: Vec::new(alloc),
                sessions,
                free: disks,
                random,
            }),
            Err(_) => Err(disks),
        }
    }

    /// How many hosts there are.
    pub fn len(&self) -> u64
        ensures { result ≡ length self.now.hosts }
    {
        self.hosts.len() as u64
    }

    /// Whether there is no host.
    pub fn is_empty(&self) -> bool
        ensures { result ≡ (length self.now.hosts == 0) }
    {
        self.hosts.is_empty()
    }

    /// The place, from 0, of the first host with a name, or `None` exactly where none has it.
    pub fn named(&self, name: &str) -> Option<usize>
        ensures { result ≡ position (is_named name.now) self.now.hosts }
    {
        place_named(&self.hosts, name)
    }

    /// Whether a host has the tree of an owner.
    pub fn has(&self, owner: &User) -> bool
        ensures { result ≡ list_any (has_tree owner.now) self.now.hosts }
    {
        any_has(&self.hosts, owner)
    }

    /// The user of the session that is open at a number, or `None` exactly where none is.
    pub fn user(&self, number: u64) -> Option<&User>
        ensures { option_copied result ≡ user_at self.now number }
    {
        user_in(&self.sessions, number)
    }
}

// No session at any number.
#[tactic(auto, using(crate::proofs::KeptLemmas::one_more))]
fn closed(alloc: Global) -> Result<Vec<Option<Opened>>, AllocError>
    ensures { IfOk result (λ sessions. sessions.items ≡ no_session) }
{
    let mut sessions = Vec::with_capacity(alloc, NUMBERS)?;
    for _number in 0..NUMBERS {
        sessions.push(None)?;
    }
    Ok(sessions)
}

fn place_named<D: Disk>(hosts: &[Host<D>], name: &str) -> Option<usize>
    ensures { result ≡ position (is_named name.now) hosts.now }
{
    hosts.iter().position(|host| host.name() == name)
}

fn any_has<D: Disk>(hosts: &[Host<D>], owner: &User) -> bool
    ensures { result ≡ list_any (has_tree owner.now) hosts.now }
{
    hosts.iter().any(|host| host.has(owner))
}

fn user_in(sessions: &[Option<Opened>], number: u64) -> Option<&User>
    ensures { option_copied result ≡ user_in sessions.now number }
{
    match sessions.get(number as usize) {
        Some(Some(opened)) => Some(opened.session.user()),
        Some(None) | None => None,
    }
}
