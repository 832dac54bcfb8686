//! All disks are handed back.
ghost use Rattle.std.specs.Prelude.{◌≡◌, ◌≤◌, ◌++◌, ◌∷◌, [], MatchOption};
ghost use Rattle.std.specs.List.{AllByRecursion, flat_map, sum_by};
ghost use Rattle.up_host.specs.Opens.{LeavesHost, disks_of};
ghost use Rattle.up_sessions.specs.Handing.{LeavesAll, all_disks};
ghost use Rattle.up_sessions.specs.Kept.{disk_count};

use crate::room::{put_all, turn};
use crate::sessions::Sessions;
use std::collections::VecDeque;
use up_disk::{Disk, Disks};
use up_host::Host;

impl<D: Disk + Drop> Sessions<D> {
    /// All disks, in their places: those of the hosts in order, and then those that no host has. It takes no memory.
    pub fn into_disks(self) -> Disks<D>
        ensures disks { result.disks ≡ all_disks self }
        ensures safe { LeavesAll D.Disk self }
    {
        let Sessions {
            hosts,
            sessions: _,
            free,
            random: _,
        } = self;
        let mut disks = free;
        let left = disks.len();
        put_hosts(&mut disks, hosts);
        turn(&mut disks, left);
        disks
    }
}

// Puts the disks of hosts behind the others, in their order.
fn put_hosts<D: Disk + Drop>(disks: &mut Disks<D>, hosts: Vec<Host<D>>)
    requires { sum_by disk_count hosts.items ≤ disks.old.spare }
    ensures disks { disks.new.disks ≡ disks.old.disks ++ flat_map disks_of hosts.items }
    ensures safe { AllByRecursion (LeavesHost D.Disk) hosts.items }
{
    let mut left = VecDeque::from(hosts);
    loop {
        let Some(host) = next_of(&mut left) else {
            return;
        };
        put_all(disks, host.into_disks());
    }
}

// Takes the first of the hosts that are left.
fn next_of<D: Disk>(left: &mut VecDeque<Host<D>>) -> Option<Host<D>>
    ensures { MatchOption result (left.old.items ≡ [])
        (λ host. left.old.items ≡ host ∷ left.new.items) }
{
    left.pop_front()
}
