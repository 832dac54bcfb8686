//! A host is opened over the next disks, and users are enrolled.
ghost use Rattle.std.specs.Prelude.{◌≡◌, ◌<◌, ◌≤◌, ◌+◌, ◌++◌, false, true, length, IfErr, IfOk};
ghost use Rattle.std.specs.List.{AllByRecursion, IsDistinct};
ghost use Rattle.std.specs.Str.{bytes_eq};
ghost use Rattle.up_journal.specs.Journal.{AreLimits};
ghost use Rattle.up_keys.specs.Records.{has_bounds, largest_room};
ghost use Rattle.up_policy.specs.Trees.{owns_snapshots};
ghost use Rattle.up_disk.specs.Leaving.{IsBlank};
ghost use Rattle.up_sessions.specs.Opening.{EnrolsAt, OpensNext, is_damage, plain_card, why_refused};
ghost use Rattle.up_sessions.specs.Taking.{HandsBack, TakesHost};

use crate::fault::LineFault;
use crate::room::{put_front, take_first};
use crate::sessions::Sessions;
use std::alloc::Global;
use std::hash::RandomState;
use up_bytes::Bytes;
use up_disk::{Disk, Disks};
use up_host::{Host, HostFault};
use up_journal::{AppendWhy, Limits, OpenWhy};
use up_lists::Items;
use up_names::User;
use up_wire::KeyRecord;

impl<D: Disk + Drop> Sessions<D> {
    /// Opens a host over the next disks: one for the tree of each owner, one for the store, one for the keys. It stands behind the other
    /// hosts. A refusal leaves all disks in their places; `Fault` comes only where one of them failed.
    ///
    /// That no other host has the name or the trees is a matter of the caller.
    pub fn open_host(
        &mut self,
        alloc: Global,
        name: &str,
        operator: User,
        owners: Items<User>,
        limits: Limits,
    ) -> Result<(), LineFault>
        requires limits { AreLimits limits }
        requires least { largest_room ≤ limits.largest }
        requires most { limits.largest ≤ 1048000 }
        requires disks { length owners + 2 ≤ length self.old.free }
        requires blank { AllByRecursion (IsBlank D.Disk) self.old.free }
        requires owners { IsDistinct bytes_eq owners }
        requires plain { AllByRecursion (λ owner. owns_snapshots owner ≡ false) owners }
        ensures { OpensNext D.Disk limits name.now operator owners self.old result self.new }
    {
        if self.hosts.reserve(1).is_err() {
            return Err(LineFault::OutOfMemory);
        }
        match next_host(
            alloc,
            self.random,
            &mut self.free,
            name,
            operator,
            owners,
            limits,
        ) {
            Ok(host) => {
                self.hosts.push_reserved(host);
                Ok(())
            }
            Err(why) => Err(why),
        }
    }
}

impl<D: Disk> Sessions<D> {
    /// Adds a user's record, without endpoints, to the keys of the host at a place, and answers its position, from 1. `Full` comes exactly
    /// at the limits of the keys; after a refusal all is as before, but that after a `Fault` one record may be doubtful.
    pub fn enrol(
        &mut self,
        alloc: Global,
        place: usize,
        user: User,
        key: Bytes,
    ) -> Result<u64, AppendWhy>
        requires place { place < length self.old.hosts }
        requires some { 1 ≤ length key }
        requires most { length key ≤ 1024 }
        ensures { EnrolsAt D.Disk place user key self.old result self.new }
    {
        let card = card_of(alloc, user, key);
        self.hosts[place].enrol(card)
    }
}

// A record without endpoints.
fn card_of(alloc: Global, user: User, key: Bytes) -> KeyRecord
    requires some { 1 ≤ length key }
    requires most { length key ≤ 1024 }
    ensures card { result ≡ plain_card user key }
    ensures bounds { has_bounds result ≡ true }
{
    KeyRecord {
        user,
        dirs: Items::new(alloc),
        stores: Items::new(alloc),
        key,
    }
}

// Opens a host over the first disks, or puts them back in their places.
fn next_host<D: Disk + Drop>(
    alloc: Global,
    random: RandomState,
    free: &mut Disks<D>,
    name: &str,
    operator: User,
    owners: Items<User>,
    limits: Limits,
) -> Result<Host<D>, LineFault>
    requires limits { AreLimits limits }
    requires least { largest_room ≤ limits.largest }
    requires most { limits.largest ≤ 1048000 }
    requires disks { length owners + 2 ≤ length free.old.disks }
    requires blank { AllByRecursion (IsBlank D.Disk) free.old.disks }
    requires owners { IsDistinct bytes_eq owners }
    requires plain { AllByRecursion (λ owner. owns_snapshots owner ≡ false) owners }
    ensures opens { IfOk result (TakesHost D.Disk limits name.now operator owners
        free.old free.new) }
    ensures refuses { IfErr result (λ why. HandsBack D.Disk limits owners why
        free.old free.new) }
{
    let count = disks_for(&owners, free);
    let Ok(given) = take_first(alloc, free, count) else {
        return Err(LineFault::OutOfMemory);
    };
    match Host::open(alloc, random, name, operator, owners, given, limits) {
        Ok(host) => Ok(host),
        Err(fault) => Err(hand_back(free, fault)),
    }
}

// How many disks a host has with the trees of these owners, where there are as many.
fn disks_for<D>(owners: &Items<User>, free: &Disks<D>) -> u64
    requires { length owners.now + 2 ≤ length free.now.disks }
    ensures { result ≡ length owners.now + 2 }
{
    let all = free.len();
    prove!(2 <= all);
    owners.len() + 2
}

// Puts the disks of a refused host back in their places, and says how the line ends.
fn hand_back<D: Disk + Drop>(free: &mut Disks<D>, fault: HostFault<D>) -> LineFault
    requires why { is_damage fault.why ≡ false }
    requires room { length fault.disks.disks ≤ free.old.spare }
    ensures why { fault.why ≡ why_refused result }
    ensures disks { free.new.disks ≡ fault.disks.disks ++ free.old.disks }
    ensures spare { free.new.spare + length fault.disks.disks ≡ free.old.spare }
{
    let HostFault {
        disks,
        which: _,
        why,
    } = fault;
    put_front(free, disks, None);
    line_fault(why)
}

// How a line ends for which a host was refused.
fn line_fault(why: OpenWhy) -> LineFault
    requires { is_damage why ≡ false }
    ensures { why ≡ why_refused result }
{
    match why {
        OpenWhy::Fault => LineFault::Fault,
        OpenWhy::OutOfMemory => LineFault::OutOfMemory,
        OpenWhy::Damaged(_) | OpenWhy::Chain(_, _, _) | OpenWhy::OldFormat => unreachable!(),
    }
}
