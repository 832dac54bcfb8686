//! What a request does to a tree over its log, once it is known what it leads to.
ghost use Rattle.std.specs.Prelude.{◌≡◌, ◌-◌, ◌<◌, IfOk, Result, Ok};
ghost use Rattle.up_ends.specs.Growing.{OnlyGrows};
ghost use Rattle.up_lists.specs.Counts.{StaysUnless};
ghost use Rattle.up_list.specs.Changes.{added_by, answer_of};
ghost use Rattle.up_log_tree.specs.Fits.{Fits};
ghost use Rattle.up_log_tree.specs.Sizes.{size_of};
ghost use Rattle.up_tree.specs.States.{entries_of, fixed_of, log_of};
ghost use Rattle.up_bytes.specs.Sizes.{capped};
ghost use Rattle.up_wire.specs.Bounds.{bounded};
ghost use Rattle.up_commit.specs.Steps.{IsTold, Steps, applied_reply};

use std::alloc::AllocError;
use up_disk::Disk;
use up_entry::{Rec, rec_size};
use up_journal::AppendWhy;
use up_tree::TreeState;
use up_wire::{Done, Reply, bounded};

/// The reply to a request that changes nothing.
pub fn replied(reply: Result<Reply, AllocError>) -> Reply
    ensures { (meant : Reply) → IfOk reply (λ reply. reply ≡ meant) → IsTold (bounded meant) result }
{
    match reply {
        Ok(reply) => bounded(reply),
        Err(_) => Reply::OutOfMemory,
    }
}

/// Adds the record to which a change leads, or answers the refusal.
pub fn change<D: Disk>(
    state: &mut TreeState<D>,
    led: Result<Result<Rec, Reply>, AllocError>,
) -> Reply
    requires { IfOk led (λ led. IfOk led (Fits state.old.owner state.old.log)) }
    ensures steps { (meant : Result Rec Reply) → IfOk led (λ led. led ≡ meant) → Steps D.Disk
        (answer_of (log_of state.old) meant) (added_by (log_of state.old) meant)
        state.old state.new result }
    ensures quiet { StaysUnless (D.faults state.old.disk) (D.faults state.new.disk)
        (result ≡ Reply.Io) }
    ensures grows { OnlyGrows entries_of (λ state. D.faults state.disk) fixed_of state.old state.new }
{
    match led {
        Err(_) => Reply::OutOfMemory,
        Ok(Err(refusal)) => bounded(refusal),
        Ok(Ok(rec)) => add(state, rec),
    }
}

/// Adds a record, and answers its position. One that is too large is refused before the tree is asked.
fn add<D: Disk>(state: &mut TreeState<D>, rec: Rec) -> Reply
    requires { Fits state.old.owner state.old.log rec }
    ensures steps { Steps D.Disk (answer_of (log_of state.old) (Ok rec)) (added_by (log_of state.old) (Ok rec))
        state.old state.new result }
    ensures quiet { StaysUnless (D.faults state.old.disk) (D.faults state.new.disk)
        (result ≡ Reply.Io) }
    ensures grows { OnlyGrows entries_of (λ state. D.faults state.disk) fixed_of state.old state.new }
{
    state.recall();
    let size = rec_size(&rec);
    if size > state.largest() {
        let refusal = too_large(&rec, size);
        drop(rec);
        return refusal;
    }
    applied_reply(state.apply(rec))
}

/// The refusal of a record that is too large.
fn too_large(rec: &Rec, size: u64) -> Reply
    requires { size ≡ capped (size_of rec.now) }
    ensures { IsTold (Reply.TooLarge (size_of rec.now)) result }
{
    // No memory holds so much.
    if size == u64::MAX {
        return Reply::OutOfMemory;
    }
    Reply::TooLarge(size)
}

/// The reply by what came of adding a record.
fn applied_reply(applied: Result<u64, AppendWhy>) -> Reply
    ensures { result ≡ applied_reply applied }
{
    match applied {
        Ok(position) => Reply::Ok(Done::Changed(position)),
        Err(AppendWhy::Full(records)) => Reply::Full(records),
        Err(AppendWhy::Fault) => Reply::Io,
        Err(AppendWhy::OutOfMemory) => Reply::OutOfMemory,
    }
}
