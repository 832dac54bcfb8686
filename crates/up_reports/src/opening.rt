//! Trees are opened over the first disks of a list, and their disks are put back.
ghost use Rattle.std.specs.Prelude.{◌≡◌, ◌<◌, ◌≤◌, ◌+◌, ◌-◌, [], ◌∷◌, ◌++◌, drop, false, length, map, take, vec_capacity, IfErr, IfOk, OnOk};
ghost use Rattle.std.specs.List.{AllByRecursion};
ghost use Rattle.up_journal.specs.Journal.{AreLimits};
ghost use Rattle.up_journal.specs.declared.fault.OpenWhy.TheVariants as why;
ghost use Rattle.up_policy.specs.Trees.{owns_snapshots};
ghost use Rattle.up_reports.specs.Opens.{IsNoLog, LeavesTree, OpensTree, RefusesLogs, StopsAtTree, TakesOne, TakesTrees, disk_of, trees_of};
ghost use Rattle.up_tree.specs.States as tree;

use crate::refused::Refused;
use std::alloc::Global;
use std::collections::VecDeque;
use up_disk::{Disk, Disks};
use up_journal::{Limits, OpenFault, OpenWhy};
use up_lists::Items;
use up_names::User;
use up_tree::TreeState;

/// Opens the first disks as the trees of these owners, none of whom is a snapshot user; the others are left in the list. After an `Err`
/// all disks are back in their places.
pub fn open_trees<D: Disk + Drop>(
    alloc: Global,
    disks: &mut Disks<D>,
    owners: Items<User>,
    limits: Limits,
) -> Result<Vec<TreeState<D>>, Refused>
    requires limits { AreLimits limits }
    requires plain { AllByRecursion (λ owner. owns_snapshots owner ≡ false) owners }
    requires disks { length owners ≤ length disks.old.disks }
    ensures opens { IfOk result (λ trees. TakesTrees D.Disk limits owners
        disks.old.disks disks.new.disks trees.items) }
    ensures refuses { IfErr result (RefusesLogs D.Disk limits (trees_of owners)
        disks.old.disks disks.new.disks) }
    ensures room { IfOk result (λ trees. disks.new.spare
        ≡ disks.old.spare + length trees.items) }
    ensures spare { IfErr result (λ refused. disks.new.spare ≡ disks.old.spare) }
{
    let mut trees = Vec::new(alloc);
    if trees.reserve(owners.len() as usize).is_err() {
        return Err(wanting());
    }
    match open_each(alloc, disks, &mut trees, owners, limits) {
        Ok(()) => Ok(trees),
        Err(fault) => Err(give_back(disks, trees, fault)),
    }
}

/// Puts the disks of trees behind the others, in their order. A crash leaves on each its log, or it with its doubtful record.
pub fn put_trees<D: Disk + Drop>(disks: &mut Disks<D>, trees: Vec<TreeState<D>>)
    requires { length trees.items ≤ disks.old.spare }
    ensures disks { disks.new.disks ≡ disks.old.disks ++ map disk_of trees.items }
    ensures safe { AllByRecursion (LeavesTree D.Disk) trees.items }
    ensures spare { disks.new.spare + length trees.items ≡ disks.old.spare }
{
    let mut left = VecDeque::from(trees);
    loop {
        let Some(state) = left.pop_front() else {
            return;
        };
        put_back(disks, state.into_disk());
    }
}

/// Puts a disk behind the others, for which there is room.
pub fn put_back<D: Drop>(disks: &mut Disks<D>, disk: D)
    requires { 0 < disks.old.spare }
    ensures disks { disks.new.disks ≡ disks.old.disks ++ disk ∷ [] }
    ensures spare { disks.new.spare ≡ disks.old.spare - 1 }
{
    let Ok(()) = disks.push(disk) else {
        unreachable!()
    };
}

/// No disk was opened, for want of memory.
pub(crate) fn wanting() -> Refused
    ensures { result ≡ record { which = 0; why = why.OutOfMemory } }
{
    Refused {
        which: 0,
        why: OpenWhy::OutOfMemory,
    }
}

// Opens the trees of these owners, each over the first disk that is left.
#[tactic(auto, using(crate::proofs::OpeningLemmas::none_opened, crate::proofs::OpeningLemmas::all_opened, crate::proofs::OpeningLemmas::one_opened, crate::proofs::OpeningLemmas::one_refused))]
fn open_each<D: Disk + Drop>(
    alloc: Global,
    disks: &mut Disks<D>,
    trees: &mut Vec<TreeState<D>>,
    owners: Items<User>,
    limits: Limits,
) -> Result<(), OpenFault<D>>
    requires limits { AreLimits limits }
    requires plain { AllByRecursion (λ owner. owns_snapshots owner ≡ false) owners }
    requires none { trees.old.items ≡ [] }
    requires room { length owners ≤ vec_capacity trees.old }
    requires disks { length owners ≤ length disks.old.disks }
    ensures opens { OnOk result (TakesTrees D.Disk limits owners
        disks.old.disks disks.new.disks trees.new.items) }
    ensures stops { IfErr result (StopsAtTree D.Disk limits owners
        disks.old.disks disks.new.disks trees.new.items) }
    ensures spare { disks.new.spare + length disks.new.disks
        ≡ disks.old.spare + length disks.old.disks }
{
    let mut left = VecDeque::from(owners.into_vec());
    loop {
        let Some(owner) = left.pop_front() else {
            return Ok(());
        };
        let state = open_tree(alloc, disks, owner, limits)?;
        trees.push_reserved(state);
    }
}

// Opens the tree of one owner.
fn open_tree<D: Disk + Drop>(
    alloc: Global,
    disks: &mut Disks<D>,
    owner: User,
    limits: Limits,
) -> Result<TreeState<D>, OpenFault<D>>
    requires limits { AreLimits limits }
    requires plain { owns_snapshots owner ≡ false }
    requires some { 0 < length disks.old.disks }
    ensures takes { TakesOne (OpensTree D.Disk limits owner)
        (IsNoLog D.Disk (tree.records_in owner) limits) disks.old.disks disks.new.disks result }
    ensures spare { disks.new.spare ≡ disks.old.spare + 1 }
{
    let Some(disk) = disks.take() else {
        unreachable!()
    };
    TreeState::open(alloc, disk, owner, limits)
}

/// The disk behind those of the opened trees was refused: all go back to their places.
pub(crate) fn give_back<D: Disk + Drop>(
    disks: &mut Disks<D>,
    trees: Vec<TreeState<D>>,
    fault: OpenFault<D>,
) -> Refused
    requires { length trees.items + 1 ≤ disks.old.spare }
    ensures disks { disks.new.disks
        ≡ map disk_of trees.items ++ fault.disk ∷ disks.old.disks }
    ensures spare { disks.new.spare + (length trees.items + 1) ≡ disks.old.spare }
    ensures refused { result ≡ record { which = length trees.items; why = fault.why } }
{
    let left = disks.len();
    let which = trees.len() as u64;
    put_trees(disks, trees);
    put_back(disks, fault.disk);
    turn(disks, left);
    Refused {
        which,
        why: fault.why,
    }
}

// Puts the first disks behind the others, one after the other, so many times.
#[tactic(auto, using(crate::proofs::OpeningLemmas::turn_none, crate::proofs::OpeningLemmas::turn_step))]
fn turn<D: Drop>(disks: &mut Disks<D>, times: u64)
    requires { times ≤ length disks.old.disks }
    ensures disks { disks.new.disks
        ≡ drop times disks.old.disks ++ take times disks.old.disks }
    ensures spare { disks.new.spare ≡ disks.old.spare }
{
    for _turn in 0..times {
        let Some(disk) = disks.take() else {
            unreachable!()
        };
        put_back(disks, disk);
    }
}
