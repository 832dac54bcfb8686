//! A host is opened over its disks, and hands them back.
ghost use Rattle.std.specs.Prelude.{◌≡◌, ◌<◌, ◌≤◌, ◌+◌, [], ◌∷◌, ◌++◌, ◌-◌, false, length, vec_capacity, map, take, drop, IfErr, IfOk, OnOk};
ghost use Rattle.std.specs.List.{AllByRecursion, IsDistinct};
ghost use Rattle.std.specs.Str.{bytes_eq};
ghost use Rattle.up_blocks.specs.Records as blocks;
ghost use Rattle.up_host.specs.Opens.{IsNoLog, LeavesHost, LeavesTree, OpensHeld, OpensHost, OpensLogs, OpensTree, RefusesHost, StopsAtTree, TakesOne, TakesTrees, disk_of, disks_of, place_by, store_limits};
ghost use Rattle.up_journal.specs.Journal.{AreLimits};
ghost use Rattle.up_journal.specs.declared.fault.OpenWhy.TheVariants as why;
ghost use Rattle.up_keys.specs.Records as keys;
ghost use Rattle.up_keys.specs.Records.{largest_room};
ghost use Rattle.up_policy.specs.Trees.{owns_snapshots};
ghost use Rattle.up_tree.specs.States as tree;

use crate::fault::HostFault;
use crate::held::Held;
use crate::host::Host;
use crate::room::Room;
use std::alloc::Global;
use std::collections::VecDeque;
use std::hash::RandomState;
use up_blocks::Blocks;
use up_disk::{Disk, Disks};
use up_journal::{Limits, OpenFault, OpenWhy};
use up_keys::Keys;
use up_lists::Items;
use up_names::User;
use up_tree::TreeState;

// How many bytes a record of the store may have: a block of 1,048,576 bytes, the byte before it, and some to spare.
const STORE_LARGEST: u64 = 1_048_640;

// The logs of a host, and the room for their disks.
#[derive(Drop)]
struct Logs<D: Disk> {
    trees: Vec<Held<TreeState<D>>>,
    store: Held<Blocks<D>>,
    keys: Held<Keys<D>>,
    room: Room<D>,
}

impl<D: Disk + Drop> Host<D> {
    /// Opens the disks of a host in their order: those of the trees of these owners, that of the store, and that of the keys. The limits
    /// are those of the trees and the keys; a record of the store may have 1,048,640 bytes.
    ///
    /// A refusal hands all disks back, in their order, with the place of the first one that was refused, and why.
    #[tactic(auto, using(crate::proofs::HandingLemmas::bases))]
    pub fn open(
        alloc: Global,
        random: RandomState,
        name: &str,
        operator: User,
        owners: Items<User>,
        disks: Disks<D>,
        limits: Limits,
    ) -> Result<Host<D>, HostFault<D>>
        requires limits { AreLimits limits }
        requires least { largest_room ≤ limits.largest }
        requires most { limits.largest ≤ 1048000 }
        requires disks { length disks.disks ≡ length owners + 2 }
        requires owners { IsDistinct bytes_eq owners }
        requires plain { AllByRecursion (λ owner. owns_snapshots owner ≡ false) owners }
        ensures opens { IfOk result (OpensHost D.Disk limits name.now operator owners disks.disks) }
        ensures refuses { IfErr result (RefusesHost D.Disk limits owners disks.disks) }
        ensures spare { IfErr result (λ fault. fault.disks.spare ≡ disks.spare) }
    {
        let Ok(name) = String::from_str(alloc, name) else {
            return Err(wanting(disks));
        };
        match open_logs(alloc, owners, disks, limits) {
            Ok(logs) => Ok(Host {
                name,
                operator,
                trees: logs.trees,
                store: logs.store,
                keys: logs.keys,
                room: logs.room,
                random,
            }),
            Err(fault) => Err(fault),
        }
    }

    /// The disks, in the order in which they were opened. A crash leaves on each its log, or it with its doubtful record.
    pub fn into_disks(self) -> Disks<D>
        ensures disks { result.disks ≡ disks_of self }
        ensures safe { LeavesHost D.Disk self }
    {
        let Host {
            name: _,
            operator: _,
            trees,
            store,
            keys,
            room,
            random: _,
        } = self;
        let mut disks = room.into_disks();
        put_trees(&mut disks, trees);
        put_back(&mut disks, store.state.into_disk());
        put_back(&mut disks, keys.state.into_disk());
        disks
    }
}

// Opens all disks, in their order.
fn open_logs<D: Disk + Drop>(
    alloc: Global,
    owners: Items<User>,
    disks: Disks<D>,
    limits: Limits,
) -> Result<Logs<D>, HostFault<D>>
    requires limits { AreLimits limits }
    requires least { largest_room ≤ limits.largest }
    requires disks { length disks.disks ≡ length owners + 2 }
    requires plain { AllByRecursion (λ owner. owns_snapshots owner ≡ false) owners }
    ensures opens { IfOk result (λ logs. OpensLogs D.Disk limits owners disks.disks
        logs.trees.items logs.store logs.keys) }
    ensures room { IfOk result (λ logs. length logs.trees.items + 2 ≤ logs.room.spare) }
    ensures refuses { IfErr result (RefusesHost D.Disk limits owners disks.disks) }
    ensures spare { IfErr result (λ fault. fault.disks.spare ≡ disks.spare) }
{
    let mut room = disks;
    let mut trees = Vec::new(alloc);
    if trees.reserve(owners.len() as usize).is_err() {
        return Err(wanting(room));
    }
    if let Err(refused) = open_trees(alloc, &mut room, &mut trees, owners, limits) {
        return Err(refusal(room, trees, refused));
    }
    let store = match open_store(alloc, &mut room, limits) {
        Ok(store) => store,
        Err(refused) => return Err(refusal(room, trees, refused)),
    };
    match open_keys(alloc, &mut room, limits) {
        Ok(keys) => Ok(Logs {
            trees,
            store,
            keys,
            room: Room::of(room),
        }),
        Err(refused) => Err(refusal_of_keys(room, trees, store, refused)),
    }
}

// No disk was opened, for want of memory.
fn wanting<D: Drop>(room: Disks<D>) -> HostFault<D>
    ensures { result ≡ record { disks = room; which = 0; why = why.OutOfMemory } }
{
    HostFault {
        disks: room,
        which: 0,
        why: OpenWhy::OutOfMemory,
    }
}

// Opens the trees of these owners, each over the first disk that is left.
#[tactic(auto, using(crate::proofs::OpeningLemmas::none_opened, crate::proofs::OpeningLemmas::all_opened, crate::proofs::OpeningLemmas::one_opened, crate::proofs::OpeningLemmas::one_refused))]
fn open_trees<D: Disk + Drop>(
    alloc: Global,
    room: &mut Disks<D>,
    trees: &mut Vec<Held<TreeState<D>>>,
    owners: Items<User>,
    limits: Limits,
) -> Result<(), OpenFault<D>>
    requires limits { AreLimits limits }
    requires plain { AllByRecursion (λ owner. owns_snapshots owner ≡ false) owners }
    requires none { trees.old.items ≡ [] }
    requires room { length owners ≤ vec_capacity trees.old }
    requires disks { length owners ≤ length room.old.disks }
    ensures opens { OnOk result (TakesTrees D.Disk limits owners
        room.old.disks room.new.disks trees.new.items) }
    ensures stops { IfErr result (StopsAtTree D.Disk limits owners
        room.old.disks room.new.disks trees.new.items) }
    ensures spare { room.new.spare + length room.new.disks
        ≡ room.old.spare + length room.old.disks }
{
    let mut left = VecDeque::from(owners.into_vec());
    loop {
        let Some(owner) = left.pop_front() else {
            return Ok(());
        };
        let held = open_tree(alloc, room, owner, limits)?;
        trees.push_reserved(held);
    }
}

// Opens the tree of one owner.
fn open_tree<D: Disk + Drop>(
    alloc: Global,
    room: &mut Disks<D>,
    owner: User,
    limits: Limits,
) -> Result<Held<TreeState<D>>, OpenFault<D>>
    requires limits { AreLimits limits }
    requires plain { owns_snapshots owner ≡ false }
    requires some { 0 < length room.old.disks }
    ensures takes { TakesOne (OpensTree D.Disk limits owner)
        (IsNoLog D.Disk (tree.records_in owner) limits) room.old.disks room.new.disks result }
    ensures spare { room.new.spare ≡ room.old.spare + 1 }
{
    let Some(disk) = room.take() else {
        unreachable!()
    };
    let state = TreeState::open(alloc, disk, owner, limits)?;
    let base = state.position();
    Ok(Held { state, base })
}

fn open_store<D: Disk + Drop>(
    alloc: Global,
    room: &mut Disks<D>,
    limits: Limits,
) -> Result<Held<Blocks<D>>, OpenFault<D>>
    requires limits { AreLimits limits }
    requires some { 0 < length room.old.disks }
    ensures takes { TakesOne (OpensHeld D.Disk blocks.blocks_in (store_limits limits))
        (IsNoLog D.Disk blocks.blocks_in (store_limits limits))
        room.old.disks room.new.disks result }
    ensures spare { room.new.spare ≡ room.old.spare + 1 }
{
    let Some(disk) = room.take() else {
        unreachable!()
    };
    let limits = Limits {
        records: limits.records,
        device: limits.device,
        largest: STORE_LARGEST,
    };
    let state = Blocks::open(alloc, disk, limits)?;
    let base = state.position();
    Ok(Held { state, base })
}

fn open_keys<D: Disk + Drop>(
    alloc: Global,
    room: &mut Disks<D>,
    limits: Limits,
) -> Result<Held<Keys<D>>, OpenFault<D>>
    requires limits { AreLimits limits }
    requires room { largest_room ≤ limits.largest }
    requires some { 0 < length room.old.disks }
    ensures takes { TakesOne (OpensHeld D.Disk keys.records_in limits)
        (IsNoLog D.Disk keys.records_in limits) room.old.disks room.new.disks result }
    ensures spare { room.new.spare ≡ room.old.spare + 1 }
{
    let Some(disk) = room.take() else {
        unreachable!()
    };
    let state = Keys::open(alloc, disk, limits)?;
    let base = state.position();
    Ok(Held { state, base })
}

// The disk after those of the opened trees was refused.
fn refusal<D: Disk + Drop>(
    room: Disks<D>,
    trees: Vec<Held<TreeState<D>>>,
    refused: OpenFault<D>,
) -> HostFault<D>
    requires { length trees.items + 1 ≤ room.spare }
    ensures disks { result.disks.disks
        ≡ map disk_of trees.items ++ refused.disk ∷ room.disks }
    ensures spare { result.disks.spare + (length trees.items + 1) ≡ room.spare }
    ensures which { result.which ≡ place_by (length trees.items) refused.why }
    ensures why { result.why ≡ refused.why }
{
    let mut disks = room;
    let left = disks.len();
    let which = trees.len() as u64;
    put_trees(&mut disks, trees);
    put_back(&mut disks, refused.disk);
    turn(&mut disks, left);
    HostFault {
        disks,
        which: place_of_refusal(which, refused.why),
        why: refused.why,
    }
}

// The last disk was refused.
#[tactic(auto, using(crate::proofs::HandingLemmas::behind))]
fn refusal_of_keys<D: Disk + Drop>(
    room: Disks<D>,
    trees: Vec<Held<TreeState<D>>>,
    store: Held<Blocks<D>>,
    refused: OpenFault<D>,
) -> HostFault<D>
    requires spare { length trees.items + 2 ≤ room.spare }
    requires none { room.disks ≡ [] }
    ensures disks { result.disks.disks
        ≡ map disk_of trees.items ++ store.state.disk ∷ refused.disk ∷ [] }
    ensures spare { result.disks.spare + (length trees.items + 2) ≡ room.spare }
    ensures which { result.which ≡ place_by (length trees.items + 1) refused.why }
    ensures why { result.why ≡ refused.why }
{
    let mut disks = room;
    let which = trees.len() as u64 + 1;
    put_trees(&mut disks, trees);
    put_back(&mut disks, store.state.into_disk());
    put_back(&mut disks, refused.disk);
    HostFault {
        disks,
        which: place_of_refusal(which, refused.why),
        why: refused.why,
    }
}

// Want of memory has no place.
fn place_of_refusal(which: u64, why: OpenWhy) -> u64
    ensures { result ≡ place_by which why }
{
    match why {
        OpenWhy::OutOfMemory => 0,
        OpenWhy::Damaged(_) | OpenWhy::Chain(_, _, _) | OpenWhy::OldFormat | OpenWhy::Fault =>
            which,
    }
}

// Puts the disks of trees behind the others, in their order.
fn put_trees<D: Disk + Drop>(room: &mut Disks<D>, trees: Vec<Held<TreeState<D>>>)
    requires { length trees.items ≤ room.old.spare }
    ensures disks { room.new.disks ≡ room.old.disks ++ map disk_of trees.items }
    ensures safe { AllByRecursion (LeavesTree D.Disk) trees.items }
    ensures spare { room.new.spare + length trees.items ≡ room.old.spare }
{
    let mut left = VecDeque::from(trees);
    loop {
        let Some(held) = left.pop_front() else {
            return;
        };
        put_back(room, held.state.into_disk());
    }
}

// Puts a disk behind the others, for which there is room.
fn put_back<D: Drop>(room: &mut Disks<D>, disk: D)
    requires { 0 < room.old.spare }
    ensures disks { room.new.disks ≡ room.old.disks ++ disk ∷ [] }
    ensures spare { room.new.spare ≡ room.old.spare - 1 }
{
    let Ok(()) = room.push(disk) else {
        unreachable!()
    };
}

// Puts the first disks behind the others, one after the other, so many times.
#[tactic(auto, using(crate::proofs::OpeningLemmas::turn_none, crate::proofs::OpeningLemmas::turn_step))]
fn turn<D: Drop>(room: &mut Disks<D>, times: u64)
    requires { times ≤ length room.old.disks }
    ensures disks { room.new.disks
        ≡ drop times room.old.disks ++ take times room.old.disks }
    ensures spare { room.new.spare ≡ room.old.spare }
{
    for _turn in 0..times {
        let Some(disk) = room.take() else {
            unreachable!()
        };
        put_back(room, disk);
    }
}
