//! One turn of one log.
ghost use Rattle.std.specs.Prelude.{◌≡◌, ◌<◌, Some, length, slice_get};
ghost use Rattle.up_blocks.specs.declared.record.BlockRecord.{BlockRecord as OneBlock};
ghost use Rattle.up_journal.specs.Logs.{LogState};
ghost use Rattle.up_lists.specs.Begins.{Begins};
ghost use Rattle.up_shared.specs.Callers.{KeysTurned, StoreTurned, TreeTurned};
ghost use Rattle.up_shared.specs.Sharing.{AreSeats};
ghost use Rattle.up_shared.specs.declared.shared.TreeSeat.{TreeSeat as OneSeat};
ghost use Rattle.up_tree.specs.States.{State, fixed_of};
ghost use Rattle.up_wire.specs.declared.keys.KeyRecord.{KeyRecord as Card};

use crate::shared::{Seats, Shared};
use std::sync::Wait;
use up_blocks::Blocks;
use up_cell::Job;
use up_disk::Disk;
use up_keys::Keys;
use up_tree::TreeState;

/// Looks at the count of the tree at a place, and then waits for its turn and runs the job on it. All other seats stay.
pub(crate) fn lend_tree<D: Disk + Drop, R: Wait, J: Job<TreeState<D>>>(
    rt: &R,
    shared: &Shared<D>,
    seats: &mut Seats<D>,
    place: usize,
    job: &mut J,
)
    requires sits { AreSeats shared.now seats.old }
    requires place { place < length shared.now.trees.items }
    requires can { (seat : OneSeat D) (state : State D)
        → slice_get seats.old.trees.items place ≡ Some seat
        → (seat.owner, seat.limits) ≡ fixed_of state → Begins seat.seat.seen state.log
        → J.can job.old state }
    ensures { TreeTurned D.Disk J.did place job.old job.new seats.old seats.new }
{
    let cell = &shared.trees[place].cell;
    let seat = &mut seats.trees[place].seat;
    cell.seen(seat);
    cell.lend(rt, seat, job);
}

/// The same with the store.
pub(crate) fn lend_store<D: Disk + Drop, R: Wait, J: Job<Blocks<D>>>(
    rt: &R,
    shared: &Shared<D>,
    seats: &mut Seats<D>,
    job: &mut J,
)
    requires sits { AreSeats shared.now seats.old }
    requires can { (state : LogState D OneBlock) → J.can job.old state }
    ensures { StoreTurned D.Disk J.did job.old job.new seats.old seats.new }
{
    shared.store.seen(&mut seats.store);
    shared.store.lend(rt, &mut seats.store, job);
}

/// The same with the keys.
pub(crate) fn lend_keys<D: Disk + Drop, R: Wait, J: Job<Keys<D>>>(
    rt: &R,
    shared: &Shared<D>,
    seats: &mut Seats<D>,
    job: &mut J,
)
    requires sits { AreSeats shared.now seats.old }
    requires can { (state : LogState D Card) → J.can job.old state }
    ensures { KeysTurned D.Disk J.did job.old job.new seats.old seats.new }
{
    shared.keys.seen(&mut seats.keys);
    shared.keys.lend(rt, &mut seats.keys, job);
}
