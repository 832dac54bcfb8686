//! A feed over records in memory.
ghost use Rattle.std.specs.Prelude.{◌≡◌, ◌≤◌, ◌++◌, ◌∷◌, [], length, take, drop, true, Err, IfOk, OnOk, Some, ◌↔◌};
ghost use Rattle.up_follow.specs.Feeds.{IsBatch, OnlyLonger, batch_limit};
ghost use Rattle.up_follow.specs.ListLogs.{after_pull, batch_of};
ghost use Rattle.up_follow.specs.declared.fault.FeedFault.TheVariants as feed_fault;
ghost use Rattle.up_lists.specs.Calls.{fails_next, no_call_made};
ghost use Rattle.up_lists.specs.Counts.{HasCause, StaysUnless};

use crate::fault::FeedFault;
use crate::feed::{Batch, Feed};
use std::alloc::{AllocError, Global};
use std::marker::Model;
use up_bytes::{Bytes, copy_of};
use up_lists::{Calls, Items};

/// How many records a batch has at most.
const MOST_RECORDS: usize = 64;

/// A feed over records in memory, some of whose pulls may fail. They are numbered from 0, those that fail too.
#[derive(Drop)]
pub struct ListFeed {
    records: Items<Bytes>,
    calls: Calls,
}

impl Model for ListFeed {
    ghost use Rattle.up_follow.specs.ListLogs.{ListLog};

    ghost Value = { ListLog };

    ghost view = { λ feed. record {
      records = feed.records;
      calls = feed.calls;
    } };
}

impl ListFeed {
    /// A feed of these records, of which nothing was pulled yet. The pulls with these numbers fail.
    pub fn new(records: Items<Bytes>, fails: Items<u64>) -> ListFeed
        ensures { result ≡ record { records = records; calls = no_call_made fails } }
    {
        ListFeed {
            records,
            calls: Calls::new(fails),
        }
    }
}

impl Feed for ListFeed {
    ghost leader = { λ feed. Some feed.records };

    ghost faults = { λ feed. feed.calls.faults };

    ghost tied = { λ _ _. Unit {0} };

    fn pull(&mut self, alloc: Global, from: u64) -> Result<Batch, FeedFault>
        // Which pulls fail, and what each other one gives.
        ensures failed { (result ≡ Err feed_fault.Failed) ↔ (fails_next self.old.calls ≡ true) }
        ensures given { IfOk result (λ batch. batch ≡ batch_of from self.old.records) }
        ensures after { self.new ≡ after_pull self.old }

        ensures few { IfOk result (λ batch. length batch ≤ batch_limit) }
        ensures batch { IfOk result (λ batch. IsBatch from batch self.new.records) }
        ensures grows { OnlyLonger (Some self.old.records) (Some self.new.records) }
        ensures cause { HasCause self.old.calls.faults self.new.calls.faults
            (result ≡ Err feed_fault.Failed) }
        ensures quiet { StaysUnless self.old.calls.faults self.new.calls.faults
            (result ≡ Err feed_fault.Failed) }
        ensures tie { Unit {0} }
    {
        if self.calls.next_fails() {
            return Err(FeedFault::Failed);
        }
        let batch = copied(alloc, batch_of(self.records.as_slice(), from))?;
        Ok(batch)
    }

    ghost same = { λ _. tt };

    ghost joined = { λ _ _ _ _ _. tt };
}

// The records behind the first `from`, at most 64.
fn batch_of(records: &[Bytes], from: u64) -> &[Bytes]
    ensures { result.now ≡ batch_of from records.now }
{
    first_of(behind(records, from))
}

// The records behind the first `from`.
fn behind(records: &[Bytes], from: u64) -> &[Bytes]
    ensures { result.now ≡ drop from records.now }
{
    let (_, behind) = records.split_at((from as usize).min(records.len()));
    behind
}

// The first 64, or all.
fn first_of(records: &[Bytes]) -> &[Bytes]
    ensures { result.now ≡ take batch_limit records.now }
{
    let (batch, _) = records.split_at(MOST_RECORDS.min(records.len()));
    batch
}

// These records, in memory of their own.
fn copied(alloc: Global, records: &[Bytes]) -> Result<Batch, AllocError>
    ensures { IfOk result (λ copy. copy ≡ records.now) }
{
    let mut copy = Items::new(alloc);
    for text in records {
        add_copy(alloc, &mut copy, text.as_slice())?;
    }
    Ok(copy)
}

fn add_copy(alloc: Global, copy: &mut Batch, text: &[u8]) -> Result<(), AllocError>
    ensures { OnOk result (copy.new ≡ copy.old ++ text.now ∷ []) }
{
    copy.push(copy_of(alloc, text)?)?;
    Ok(())
}
