//! A host that many callers ask at once, and what one caller has of it.
ghost use Rattle.std.specs.Prelude.{◌≡◌, position};
ghost use Rattle.std.specs.Option.{option_copied};
ghost use Rattle.std.specs.String.{string_bytes};
ghost use Rattle.up_shared.specs.Sharing.{cell_for, is_cell_of};

use std::hash::RandomState;
use up_blocks::Blocks;
use up_cell::{Cell, Seat};
use up_disk::Disk;
use up_journal::Limits;
use up_keys::Keys;
use up_names::User;
use up_tree::TreeState;

/// The cell of the tree of an owner.
#[derive(Drop)]
pub struct TreeCell<D: Disk + Drop> {
    pub owner: User,
    pub cell: Cell<TreeState<D>>,
}

/// A host that many callers ask at once: each tree, the store and the keys lie in a cell of their own, and no lock stands round them all.
/// What a caller has seen is in its [`Seats`].
#[derive(Drop)]
pub struct Shared<D: Disk + Drop> {
    pub name: String,
    pub operator: User,
    pub trees: Vec<TreeCell<D>>,
    pub store: Cell<Blocks<D>>,
    pub keys: Cell<Keys<D>>,
    /// The hash keys of what is made for a call.
    pub random: RandomState,
}

/// One caller's seat at the tree of an owner. The owner and the limits are the part of the tree that stays.
#[derive(Drop)]
pub struct TreeSeat<D: Disk> {
    pub owner: User,
    pub limits: Limits,
    pub seat: Seat<TreeState<D>>,
}

/// One caller's seats at a shared host, one at each cell, with the limits of the store and of the keys. Seats that are let go take
/// their shares with them for good.
#[derive(Drop)]
pub struct Seats<D: Disk> {
    pub trees: Vec<TreeSeat<D>>,
    pub store: Seat<Blocks<D>>,
    pub store_limits: Limits,
    pub keys: Seat<Keys<D>>,
    pub keys_limits: Limits,
}

impl<D: Disk + Drop> Shared<D> {
    /// The host's name, with which who signs on is challenged.
    pub fn name(&self) -> &str
        ensures { result.now ≡ string_bytes self.now.name }
    {
        self.name.as_str()
    }

    /// The cell of the tree of an owner: `None` exactly where the host has no such tree. It waits for nobody.
    pub fn cell(&self, owner: &User) -> Option<&Cell<TreeState<D>>>
        ensures { option_copied result ≡ cell_for self.now.trees.items owner.now }
    {
        match place_among(&self.trees, owner) {
            Some(place) => Some(&self.trees[place].cell),
            None => None,
        }
    }
}

/// The place of the cell of the tree of an owner.
pub(crate) fn place_among<D: Disk + Drop>(trees: &[TreeCell<D>], owner: &User) -> Option<usize>
    ensures { result ≡ position (is_cell_of owner.now) trees.now }
{
    trees.iter().position(|tree| tree.owner == *owner)
}
