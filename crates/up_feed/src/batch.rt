//! The next records of a log, as their bytes.
ghost use Rattle.std.specs.Prelude.{◌≡◌, ◌++◌, ◌∷◌, ◌<◌, [], length, Some, IfOk, OnOk};
ghost use Rattle.up_entry.specs.Spelling as spelling;
ghost use Rattle.up_feed.specs.Feeding.{batch_in};

use std::alloc::{AllocError, Global};
use up_disk::Disk;
use up_entry::{Rec, write_rec};
use up_follow::Batch;
use up_lists::Items;
use up_tree::TreeState;

/// How many records a batch has at most.
const MOST_RECORDS: u64 = 64;

/// The next 64 records of a tree's log behind the first `from`, or all that are left, each as its bytes.
pub(crate) fn batch_in<D: Disk>(
    alloc: Global,
    tree: &TreeState<D>,
    from: u64,
) -> Result<Batch, AllocError>
    ensures { IfOk result (λ batch. batch ≡ batch_in from tree.now.log) }
{
    let more = MOST_RECORDS.min(tree.position().saturating_sub(from));
    let mut batch = Items::new(alloc);
    for at in 0..more {
        let Some(rec) = tree.rec_at(from + at + 1) else {
            unreachable!()
        };
        add_record(alloc, &mut batch, rec)?;
    }
    Ok(batch)
}

fn add_record(alloc: Global, batch: &mut Batch, rec: &Rec) -> Result<(), AllocError>
    ensures { OnOk result (batch.new ≡ batch.old ++ spelling.rec rec.now ∷ []) }
{
    batch.push(write_rec(alloc, rec)?)?;
    Ok(())
}
