//! A batch is added to a tree, record by record.
ghost use Rattle.std.specs.Prelude.{◌≡◌, ◌+◌, ◌<◌, ◌⊎◌, ◌∷◌, [], ℕ, List, length, Err, IfNone, IfOk, IfSome, Some};
ghost use Rattle.up_dir.specs.Crashes.{image_log};
ghost use Rattle.up_disk.specs.Leaving.{LeavesNow};
ghost use Rattle.up_ends.specs.Growing.{OnlyGrows};
ghost use Rattle.up_follow.specs.Feeds.{OnlyLonger};
ghost use Rattle.up_follow.specs.Pulls.{Pulls, Takes};
ghost use Rattle.up_follow.specs.Taking.{TakesRecord, TakesText};
ghost use Rattle.up_follow.specs.declared.fault.FollowWhy.TheVariants as why;
ghost use Rattle.up_journal.specs.Logs.{StandsForLog};
ghost use Rattle.up_lists.specs.Counts.{HasCause, StaysUnless};
ghost use Rattle.up_log_tree.specs.Fits.{Fits, fits};
ghost use Rattle.up_tree.specs.States.{entries_of, fixed_of, record_in, told};

use crate::fault::FollowWhy;
use crate::feed::Feed;
use std::alloc::{AllocError, Global};
use up_bytes::{Bytes, FieldFault};
use up_disk::Disk;
use up_entry::{Rec, read_rec, rec_size};
use up_tree::TreeState;

/// Takes a batch from the feed, from behind the tree's last record on, and adds its records.
pub(crate) fn pull_into<D: Disk, F: Feed>(
    alloc: Global,
    tree: &mut TreeState<D>,
    feed: &mut F,
) -> Result<u64, FollowWhy>
    ensures pulls { Pulls D.Disk (F.leader feed.new) tree.old tree.new result }
    ensures grows { OnlyGrows entries_of (λ state. D.faults state.disk) fixed_of tree.old tree.new }
    ensures untouched { result ≡ Err why.Failed → tree.new ≡ tree.old }
    ensures safe { LeavesNow D.Disk tree.new.disk
        (StandsForLog (image_log tree.new) tree.new.log tree.new.further) }
    ensures disk_cause { HasCause (D.faults tree.old.disk) (D.faults tree.new.disk)
        (result ≡ Err why.Io) }
    ensures disk_quiet { StaysUnless (D.faults tree.old.disk) (D.faults tree.new.disk)
        (result ≡ Err why.Io) }
    ensures feed_cause { HasCause (F.faults feed.old) (F.faults feed.new)
        (result ≡ Err why.Failed) }
    ensures feed_quiet { StaysUnless (F.faults feed.old) (F.faults feed.new)
        (result ≡ Err why.Failed) }
    ensures feed_grows { OnlyLonger (F.leader feed.old) (F.leader feed.new) }
    ensures tie { F.tied feed.old feed.new }
{
    let from = tree.position();
    match feed.pull(alloc, from) {
        Ok(batch) => {
            let added = add_all(alloc, tree, batch.as_slice());
            drop(batch);
            // That a crash now leaves the log is told of each tree.
            tree.recall();
            added
        }
        Err(fault) => Err(FollowWhy::from(fault)),
    }
}

/// Adds the records that texts spell, in their order, up to the first that is strange, or that the tree does not take. `Ok` is their
/// number.
pub(crate) fn add_all<D: Disk>(
    alloc: Global,
    tree: &mut TreeState<D>,
    batch: &[Bytes],
) -> Result<u64, FollowWhy>
    ensures takes { Takes D.Disk batch.now tree.old tree.new result }
    ensures given { result ≡ Err why.Failed → ⊥ }
    ensures cause { HasCause (D.faults tree.old.disk) (D.faults tree.new.disk) (result ≡ Err why.Io) }
    ensures quiet { StaysUnless (D.faults tree.old.disk) (D.faults tree.new.disk)
        (result ≡ Err why.Io) }
    ensures grows { OnlyGrows entries_of (λ state. D.faults state.disk) fixed_of tree.old tree.new }
{
    // That a crash now leaves the log is told of each tree.
    tree.recall();
    let mut left = batch;
    while let Some((text, rest)) = next_text(left) {
        match add_next(alloc, tree, text) {
            Ok(()) => left = rest,
            Err(why) => return Err(why),
        }
    }
    Ok(batch.len() as u64)
}

// The first text, and those behind it.
fn next_text(batch: &[Bytes]) -> Option<(&[u8], &[Bytes])>
    ensures some { IfSome result (λ cut. batch.now ≡ cut.0.now ∷ cut.1.now) }
    ensures none { IfNone result (batch.now ≡ []) }
    ensures shorter { IfSome result (λ cut. length cut.1.now < length batch.now) }
{
    let (first, rest) = batch.split_first()?;
    Some((first.as_slice(), rest))
}

/// Adds the record that a text spells.
fn add_next<D: Disk>(alloc: Global, tree: &mut TreeState<D>, text: &[u8]) -> Result<(), FollowWhy>
    ensures takes { TakesText D.Disk text.now tree.old tree.new result }
    ensures cause { HasCause (D.faults tree.old.disk) (D.faults tree.new.disk) (result ≡ Err why.Io) }
    ensures quiet { StaysUnless (D.faults tree.old.disk) (D.faults tree.new.disk)
        (result ≡ Err why.Io) }
    ensures grows { OnlyGrows entries_of (λ state. D.faults state.disk) fixed_of tree.old tree.new }
{
    match spelled(alloc, text) {
        Ok(Some(rec)) => add_fitting(tree, rec),
        Ok(None) => Err(strange(tree.position())),
        Err(AllocError) => Err(FollowWhy::OutOfMemory),
    }
}

/// The record that a text spells, or `None` where it is none's.
fn spelled(alloc: Global, text: &[u8]) -> Result<Option<Rec>, AllocError>
    ensures { IfOk result (λ found. found ≡ record_in text.now) }
{
    told(read_rec(alloc, text))
}

/// The record that was read, or `None` where the bytes are none's.
fn told(read: Result<Rec, FieldFault>) -> Result<Option<Rec>, AllocError>
    ensures { result ≡ told read }
{
    match read {
        Ok(rec) => Ok(Some(rec)),
        Err(FieldFault::OutOfMemory) => Err(AllocError),
        Err(FieldFault::Short | FieldFault::Spelling(_)) => Ok(None),
    }
}

// Why a record is not added that would stand behind so many.
fn strange(records: u64) -> FollowWhy
    ensures { (result ≡ why.Strange (records + 1)) ⊎ (result ≡ why.OutOfMemory) }
{
    // No memory holds so many.
    if records == u64::MAX {
        return FollowWhy::OutOfMemory;
    }
    FollowWhy::Strange(records + 1)
}

/// Adds a record if it fits.
fn add_fitting<D: Disk>(tree: &mut TreeState<D>, rec: Rec) -> Result<(), FollowWhy>
    ensures takes { (text : List ℕ) → record_in text ≡ Some rec
        → TakesText D.Disk text tree.old tree.new result }
    ensures cause { HasCause (D.faults tree.old.disk) (D.faults tree.new.disk) (result ≡ Err why.Io) }
    ensures quiet { StaysUnless (D.faults tree.old.disk) (D.faults tree.new.disk)
        (result ≡ Err why.Io) }
    ensures grows { OnlyGrows entries_of (λ state. D.faults state.disk) fixed_of tree.old tree.new }
{
    match tree.fits(&rec) {
        Ok(true) => add(tree, rec),
        Ok(false) => {
            drop(rec);
            Err(strange(tree.position()))
        }
        Err(AllocError) => {
            drop(rec);
            Err(FollowWhy::OutOfMemory)
        }
    }
}

/// Adds a record that fits, where the limits have room for it.
fn add<D: Disk>(tree: &mut TreeState<D>, rec: Rec) -> Result<(), FollowWhy>
    requires { Fits tree.old.owner tree.old.log rec }
    ensures takes { TakesRecord D.Disk rec tree.old tree.new result }
    ensures cause { HasCause (D.faults tree.old.disk) (D.faults tree.new.disk) (result ≡ Err why.Io) }
    ensures quiet { StaysUnless (D.faults tree.old.disk) (D.faults tree.new.disk)
        (result ≡ Err why.Io) }
    ensures grows { OnlyGrows entries_of (λ state. D.faults state.disk) fixed_of tree.old tree.new }
{
    // That the limits are those of a journal is told here.
    let records = tree.position();
    let size = rec_size(&rec);
    if size > tree.largest() {
        drop(rec);
        return Err(FollowWhy::Full(records));
    }
    match tree.apply(rec) {
        Ok(_position) => Ok(()),
        Err(why) => Err(FollowWhy::from(why)),
    }
}
