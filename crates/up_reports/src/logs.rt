//! All logs that an audit reads: those of trees, and behind them that of the store.
ghost use Rattle.std.specs.Prelude.{◌≡◌, ◌<◌, ◌≤◌, ◌+◌, ◌++◌, [], false, length, IfErr, IfOk};
ghost use Rattle.std.specs.List.{AllByRecursion};
ghost use Rattle.up_blocks.specs.Records as blocks;
ghost use Rattle.up_journal.specs.Journal.{AreLimits};
ghost use Rattle.up_policy.specs.Trees.{owns_snapshots};
ghost use Rattle.up_reports.specs.Opens.{IsNoLog, OpensLogs, OpensStore, RefusesLogs, TakesOne, disks_of, logs_of, store_limits};

use crate::opening::{give_back, open_trees, put_back, put_trees};
use crate::refused::Refused;
use std::alloc::Global;
use up_blocks::Blocks;
use up_disk::{Disk, Disks};
use up_journal::{Limits, OpenFault};
use up_lists::Items;
use up_names::User;
use up_tree::TreeState;

// How many bytes a record of the store may have: a block of 1,048,576 bytes, the byte before it, and some to spare.
const STORE_LARGEST: u64 = 1_048_640;

/// The opened logs of a stopped server: its trees in their order, and its store.
#[derive(Drop)]
pub struct Logs<D: Disk> {
    pub trees: Vec<TreeState<D>>,
    pub store: Blocks<D>,
}

/// Opens all disks: the trees of these owners, none of whom is a snapshot user, and behind them the store. After an `Err` all disks are
/// back in their places, after an `Ok` none is in the list.
pub fn open_logs<D: Disk + Drop>(
    alloc: Global,
    disks: &mut Disks<D>,
    owners: Items<User>,
    limits: Limits,
) -> Result<Logs<D>, Refused>
    requires limits { AreLimits limits }
    requires plain { AllByRecursion (λ owner. owns_snapshots owner ≡ false) owners }
    requires disks { length disks.old.disks ≡ length owners + 1 }
    ensures opens { IfOk result (λ logs. OpensLogs D.Disk limits owners
        disks.old.disks logs.trees.items logs.store) }
    ensures none { IfOk result (λ logs. disks.new.disks ≡ []) }
    ensures refuses { IfErr result (RefusesLogs D.Disk limits (logs_of owners)
        disks.old.disks disks.new.disks) }
    ensures room { IfOk result (λ logs. disks.new.spare
        ≡ disks.old.spare + (length logs.trees.items + 1)) }
    ensures spare { IfErr result (λ refused. disks.new.spare ≡ disks.old.spare) }
{
    let trees = match open_trees(alloc, disks, owners, limits) {
        Ok(trees) => trees,
        Err(refused) => return Err(refused),
    };
    match open_store(alloc, disks, limits) {
        Ok(store) => Ok(Logs { trees, store }),
        Err(fault) => Err(give_back(disks, trees, fault)),
    }
}

// Opens the store.
fn open_store<D: Disk + Drop>(
    alloc: Global,
    disks: &mut Disks<D>,
    limits: Limits,
) -> Result<Blocks<D>, OpenFault<D>>
    requires limits { AreLimits limits }
    requires some { 0 < length disks.old.disks }
    ensures takes { TakesOne (OpensStore D.Disk limits)
        (IsNoLog D.Disk blocks.blocks_in (store_limits limits))
        disks.old.disks disks.new.disks result }
    ensures spare { disks.new.spare ≡ disks.old.spare + 1 }
{
    let Some(disk) = disks.take() else {
        unreachable!()
    };
    let limits = Limits {
        records: limits.records,
        device: limits.device,
        largest: STORE_LARGEST,
    };
    Blocks::open(alloc, disk, limits)
}

/// Puts the disks of all logs back, in their order.
pub fn put_logs<D: Disk + Drop>(disks: &mut Disks<D>, logs: Logs<D>)
    requires { length logs.trees.items + 1 ≤ disks.old.spare }
    ensures disks { disks.new.disks
        ≡ disks.old.disks ++ disks_of logs.trees.items logs.store }
    ensures spare { disks.new.spare + (length logs.trees.items + 1) ≡ disks.old.spare }
{
    let Logs { trees, store } = logs;
    put_trees(disks, trees);
    put_back(disks, store.into_disk());
}
