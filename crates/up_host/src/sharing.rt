//! A host is shared.
ghost use Rattle.std.specs.Prelude.{◌≡◌, IfOk, is_some, length};
ghost use Rattle.std.specs.List.{AllByRecursion};
ghost use Rattle.up_blocks.specs.Records.{IsTold};
ghost use Rattle.up_host.specs.Shares.{AreShared, IsSharedHost, IsSharedTree};

use crate::held::Held;
use crate::host::Host;
use std::alloc::{AllocError, Global};
use std::collections::VecDeque;
use up_cell::Cell;
use up_disk::Disk;
use up_shared::{Seats, Shared, TreeCell, TreeSeat};
use up_tree::TreeState;

impl<D: Disk + Drop> Host<D> {
    /// The host, to be shared, and seats that have seen all of its logs, with the whole share of each. An `Err` is want of memory: the host
    /// is then dropped with its disks, and no log was changed.
    #[tactic(auto, using(crate::proofs::ShareLemmas::shared_sits))]
    pub fn into_shared(self, alloc: Global) -> Result<(Shared<D>, Seats<D>), AllocError>
        ensures shared { IfOk result (λ made. IsSharedHost self made.0 made.1) }
        // The store's log has the bytes of each block that it put, where its disk tells its content.
        ensures told { AllByRecursion (IsTold (is_some (D.content self.store.state.disk)))
            self.store.state.log }
    {
        let Host {
            name,
            operator,
            trees,
            store,
            keys,
            room: _,
            random,
        } = self;
        let store_limits = store.state.limits();
        let _records = store.state.position();
        let (store, store_seat) = Cell::new(alloc, store.state)?;
        let keys_limits = keys.state.limits();
        let (keys, keys_seat) = Cell::new(alloc, keys.state)?;
        let (cells, seats) = share_trees(alloc, trees)?;
        Ok((
            Shared {
                name,
                operator,
                trees: cells,
                store,
                keys,
                random,
            },
            Seats {
                trees: seats,
                store: store_seat,
                store_limits,
                keys: keys_seat,
                keys_limits,
            },
        ))
    }
}

// The cells of trees, and the seats at them.
#[tactic(auto, using(crate::proofs::ShareLemmas::sharing_none, crate::proofs::ShareLemmas::sharing_next, crate::proofs::ShareLemmas::sharing_ends))]
fn share_trees<D: Disk + Drop>(
    alloc: Global,
    trees: Vec<Held<TreeState<D>>>,
) -> Result<(Vec<TreeCell<D>>, Vec<TreeSeat<D>>), AllocError>
    ensures { IfOk result (λ made. AreShared trees.items made.0.items made.1.items) }
{
    let mut left = VecDeque::from(trees);
    let mut cells = Vec::with_capacity(alloc, left.len())?;
    let mut seats = Vec::with_capacity(alloc, left.len())?;
    loop {
        let Some(held) = left.pop_front() else {
            return Ok((cells, seats));
        };
        let (cell, seat) = share_tree(alloc, held.state)?;
        cells.push_reserved(cell);
        seats.push_reserved(seat);
    }
}

// The cell of a tree, and the seat at it.
fn share_tree<D: Disk + Drop>(
    alloc: Global,
    state: TreeState<D>,
) -> Result<(TreeCell<D>, TreeSeat<D>), AllocError>
    ensures { IfOk result (λ made. IsSharedTree state made.0 made.1) }
{
    let owner = state.owner().clone()?;
    let limits = state.limits();
    let again = owner.clone()?;
    let (cell, seat) = Cell::new(alloc, state)?;
    Ok((
        TreeCell { owner, cell },
        TreeSeat {
            owner: again,
            limits,
            seat,
        },
    ))
}
