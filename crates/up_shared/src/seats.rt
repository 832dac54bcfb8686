//! One caller's seats.
ghost use Rattle.std.specs.Option.{option_map};
ghost use Rattle.std.specs.Prelude.{◌≡◌, position};
ghost use Rattle.up_shared.specs.Sharing.{AreSeats, cell_for, is_seat_of, seat_for};
ghost use Rattle.up_shared.specs.declared.shared.Shared.{Shared};

use crate::shared::{Seats, TreeSeat};
use up_cell::Seat;
use up_disk::Disk;
use up_names::User;
use up_tree::TreeState;

impl<D: Disk> Seats<D> {
    /// The seat at the tree of an owner: `None` exactly where the host has no such tree. It is one of the cell that `Shared::cell` of
    /// that host gives.
    pub fn tree(&mut self, owner: &User) -> Option<&mut Seat<TreeState<D>>>
        ensures seat { option_map (λ seat. seat.now) result
            ≡ option_map (λ place. place.seat) (seat_for self.old.trees.items owner.now) }
        ensures cell { (shared : Shared D) → AreSeats shared self.old
            → option_map (λ seat. seat.now.cell) result ≡ cell_for shared.trees.items owner.now }
    {
        match seat_place(&self.trees, owner) {
            Some(place) => Some(&mut self.trees[place].seat),
            None => None,
        }
    }
}

// The place of the seat at the tree of an owner.
fn seat_place<D: Disk>(trees: &[TreeSeat<D>], owner: &User) -> Option<usize>
    ensures { result ≡ position (is_seat_of owner.now) trees.now }
{
    trees.iter().position(|tree| tree.owner == *owner)
}
