//! Seats are split and joined.
ghost use Rattle.std.specs.Prelude.{◌≡◌, ◌≤◌, [], if◌then◌else◌, is_ok, length, map, vec_capacity, IfOk, OnErr, OnOk};
ghost use Rattle.up_shared.specs.Sharing.{AreSeats, EachPair, IsTreeSeat};
ghost use Rattle.up_shared.specs.Splits.{AreBoth, AreFirsts, AreSeconds, SeatsAdd, SeenAlike, both_trees, first_tree, joined_trees, second_tree};

use crate::shared::{Seats, Shared, TreeCell, TreeSeat};
use std::alloc::{AllocError, Global};
use std::collections::VecDeque;
use up_disk::Disk;
use up_names::User;

impl<D: Disk + Drop> Shared<D> {
    /// Second seats, which have seen what the first have. Each seat has half of the share. All memory is taken before the first seat is
    /// split, and after an `Err`, which is want of memory, the seats are as before. It waits for nobody.
    pub fn split(&self, alloc: Global, seats: &mut Seats<D>) -> Result<Seats<D>, AllocError>
        requires { AreSeats self.now seats.old }
        ensures first { OnOk result (AreFirsts seats.old seats.new) }
        ensures second { IfOk result (AreSeconds seats.old) }
        ensures refused { OnErr result (seats.new ≡ seats.old) }
        ensures shares { IfOk result (λ other. SeatsAdd seats.new other seats.old) }
        ensures sits { AreSeats self.now seats.new }
        ensures other { IfOk result (AreSeats self.now) }
    {
        let owners = owners_of(alloc, &seats.trees)?;
        let mut trees = Vec::with_capacity(alloc, owners.len())?;
        split_trees(&self.trees, &mut seats.trees, owners, &mut trees);
        let Ok(store) = self.store.split(&mut seats.store) else {
            unreachable!()
        };
        let Ok(keys) = self.keys.split(&mut seats.keys) else {
            unreachable!()
        };
        Ok(Seats {
            trees,
            store,
            store_limits: seats.store_limits,
            keys,
            keys_limits: seats.keys_limits,
        })
    }

    /// The seats take in the others: they have then seen what either have, and have both shares. It takes no memory and waits for
    /// nobody.
    pub fn join(&self, seats: &mut Seats<D>, other: Seats<D>)
        requires these { AreSeats self.now seats.old }
        requires those { AreSeats self.now other }
        ensures joined { AreBoth seats.old other seats.new }
        ensures alike { EachPair SeenAlike seats.old.trees.items other.trees.items }
        ensures shares { SeatsAdd seats.old other seats.new }
        ensures sits { AreSeats self.now seats.new }
    {
        let Seats {
            trees,
            store,
            store_limits: _,
            keys,
            keys_limits: _,
        } = other;
        self.store.join(&mut seats.store, store);
        self.keys.join(&mut seats.keys, keys);
        join_trees(&self.trees, &mut seats.trees, trees);
    }
}

// The owners of the trees at which the seats are.
fn owners_of<D: Disk>(alloc: Global, trees: &[TreeSeat<D>]) -> Result<Vec<User>, AllocError>
    ensures { IfOk result (λ owners. owners.items ≡ map (λ place. place.owner) trees.now) }
{
    let mut owners = Vec::with_capacity(alloc, trees.len())?;
    for tree in trees {
        owners.push(tree.owner.clone()?)?;
    }
    Ok(owners)
}

// Splits the seats at the trees, of which these are the owners. There is room for those that are split off.
fn split_trees<D: Disk + Drop>(
    cells: &[TreeCell<D>],
    seats: &mut Vec<TreeSeat<D>>,
    owners: Vec<User>,
    others: &mut Vec<TreeSeat<D>>,
)
    requires sits { EachPair IsTreeSeat cells.now seats.old.items }
    requires owners { owners.items ≡ map (λ place. place.owner) seats.old.items }
    requires none { others.old.items ≡ [] }
    requires room { length owners.items ≤ vec_capacity others.old }
    ensures first { seats.new.items ≡ map first_tree seats.old.items }
    ensures second { others.new.items ≡ map second_tree seats.old.items }
{
    let mut left = VecDeque::from(owners);
    for i in 0..cells.len() {
        let Some(owner) = left.pop_front() else {
            return;
        };
        let other = split_tree(&cells[i], &mut seats[i], owner);
        others.push_reserved(other);
    }
}

// Splits the seat at one tree.
fn split_tree<D: Disk + Drop>(
    tree: &TreeCell<D>,
    place: &mut TreeSeat<D>,
    owner: User,
) -> TreeSeat<D>
    requires sits { IsTreeSeat tree.now place.old }
    requires owner { owner ≡ place.old.owner }
    ensures first { place.new ≡ first_tree place.old }
    ensures second { result ≡ second_tree place.old }
{
    let limits = place.limits;
    let Ok(seat) = tree.cell.split(&mut place.seat) else {
        unreachable!()
    };
    TreeSeat {
        owner,
        limits,
        seat,
    }
}

// Joins the seats at the trees with the others, place by place.
fn join_trees<D: Disk + Drop>(
    cells: &[TreeCell<D>],
    seats: &mut Vec<TreeSeat<D>>,
    others: Vec<TreeSeat<D>>,
)
    requires these { EachPair IsTreeSeat cells.now seats.old.items }
    requires those { EachPair IsTreeSeat cells.now others.items }
    ensures joined { seats.new.items ≡ joined_trees seats.old.items others.items }
    ensures alike { EachPair SeenAlike seats.old.items others.items }
{
    let mut left = VecDeque::from(others);
    for i in 0..cells.len() {
        let Some(other) = left.pop_front() else {
            return;
        };
        join_tree(&cells[i], &mut seats[i], other);
    }
}

// Joins the seat at one tree with another.
fn join_tree<D: Disk + Drop>(tree: &TreeCell<D>, place: &mut TreeSeat<D>, other: TreeSeat<D>)
    requires this { IsTreeSeat tree.now place.old }
    requires that { IsTreeSeat tree.now other }
    ensures joined { place.new ≡ both_trees place.old other }
    ensures alike { SeenAlike place.old other }
{
    let TreeSeat {
        owner: _,
        limits: _,
        seat,
    } = other;
    tree.cell.join(&mut place.seat, seat);
}
