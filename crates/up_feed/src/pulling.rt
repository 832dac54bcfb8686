//! One pull: a turn of the cell of a tree.
ghost use Rattle.std.specs.Prelude.{◌≡◌, ◌<◌, Some, length, position};
ghost use Rattle.std.specs.Result.{result_ok};
ghost use Rattle.up_feed.specs.Feeding.{PullsTree, ReadsBatch};
ghost use Rattle.up_names.specs.Texts.{UserName};
ghost use Rattle.up_shared.specs.Sharing.{AreSeats, is_cell_of};

use crate::batch::batch_in;
use std::alloc::{AllocError, Global};
use std::sync::Wait;
use up_cell::Job;
use up_disk::Disk;
use up_follow::Batch;
use up_names::User;
use up_shared::{Seats, Shared};
use up_tree::TreeState;

/// A batch, read out of a tree.
#[derive(Drop)]
struct ReadBatch {
    alloc: Global,
    from: u64,
    given: Result<Batch, AllocError>,
}

impl<D: Disk> Job<TreeState<D>> for ReadBatch {
    ghost can = { λ job state. Unit {0} };

    ghost did = { λ job old after new. ReadsBatch job.from old new (result_ok after.given) };

    fn run(&mut self, state: &mut TreeState<D>) {
        self.given = batch_in(self.alloc, state, self.from);
    }
}

/// The place of the tree of an owner.
pub(crate) fn place_of<D: Disk + Drop>(shared: &Shared<D>, owner: &User) -> Option<usize>
    ensures { result ≡ position (is_cell_of owner.now) shared.now.trees.items }
{
    shared.trees.iter().position(|tree| tree.owner == *owner)
}

/// Looks at the count of the tree at a place, and then waits for its turn and reads the batch behind the first `from` records of the log
/// that was lent. All other seats stay.
pub(crate) fn pull_at<D: Disk + Drop, R: Wait>(
    rt: &R,
    alloc: Global,
    shared: &Shared<D>,
    seats: &mut Seats<D>,
    place: usize,
    from: u64,
) -> Result<Batch, AllocError>
    requires sits { AreSeats shared.now seats.old }
    requires place { place < length shared.now.trees.items }
    ensures { (owner : UserName) → position (is_cell_of owner) shared.now.trees.items ≡ Some place
        → PullsTree owner from seats.old seats.new (result_ok result) }
{
    let mut job = ReadBatch {
        alloc,
        from,
        given: Err(AllocError),
    };
    let cell = &shared.trees[place].cell;
    let seat = &mut seats.trees[place].seat;
    cell.seen(seat);
    cell.lend(rt, seat, &mut job);
    job.given
}
