//! Two trees that are asked the same.
ghost use Rattle.std.specs.Prelude.{};
ghost use Rattle.up_ends.specs.Moments.{IsMoment};
ghost use Rattle.up_tree.specs.States.{log_of};
ghost use Rattle.up_laws.specs.Turns.{IsMade, turn_by};
ghost use Rattle.up_laws.specs.Worlds.{AreAlike};

use crate::turns::make;
use std::alloc::Global;
use up_dir::Fetched;
use up_disk::Disk;
use up_names::User;
use up_policy::Loaded;
use up_tree::TreeState;
use up_wire::{Reply, Request};

/// Asks two trees the same, at a moment in seconds since 1970, and gives both replies. Trees that agree for the user reply the same and
/// still agree, unless one reply tells of want of memory or of the tree's disk.
#[tactic(auto, using(crate::proofs::WorldLemmas::made_alike))]
pub fn two_worlds<D: Disk, E: Disk>(
    alloc: Global,
    a: &mut TreeState<D>,
    b: &mut TreeState<E>,
    user: &User,
    request: &Request,
    loaded: &Loaded,
    fetched: &Fetched,
    now: u64,
) -> (Reply, Reply)
    requires { IsMoment now }
    ensures first { IsMade D.Disk (turn_by user.now request.now loaded.now fetched.now now)
        a.old a.new result.0 }
    ensures second { IsMade E.Disk (turn_by user.now request.now loaded.now fetched.now now)
        b.old b.new result.1 }
    ensures alike { AreAlike (turn_by user.now request.now loaded.now fetched.now now)
        (log_of a.old) (log_of b.old) (log_of a.new) (log_of b.new) result }
{
    let first = make(alloc, a, user, request, loaded, fetched, now);
    let second = make(alloc, b, user, request, loaded, fetched, now);
    (first, second)
}
