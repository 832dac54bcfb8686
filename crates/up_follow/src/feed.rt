//! What a feed promises.
ghost use Rattle.std.specs.Prelude.{◌≡◌, ◌≤◌, ℕ, List, length, Err, IfOk, IfSome};
ghost use Rattle.std.specs.declared.option.Option.{Option};
ghost use Rattle.up_follow.specs.Feeds.{IsBatch, OnlyLonger, batch_limit};
ghost use Rattle.up_follow.specs.declared.fault.FeedFault.TheVariants as feed_fault;
ghost use Rattle.up_lists.specs.Counts.{HasCause, StaysUnless};

use crate::fault::FeedFault;
use std::alloc::Global;
use up_bytes::Bytes;
use up_lists::Items;

/// At most 64 records of a log, one after the other, each as its bytes.
pub type Batch = Items<Bytes>;

/// Where the records of a leader's log come from: a list, a tree of a host in the same process, or a server over a connection.
///
/// A pull may wait for others; what is promised of it is so where it returns.
pub trait Feed {
    /// The records of the leader's log, each as its bytes, where the feed tells them. Such a log only grows.
    ghost leader: { Self → Option (List (List ℕ)) };

    /// How many pulls failed so far. A count that stands at 2^64 - 1 stays there.
    ghost faults: { Self → ℕ };

    /// What every call leaves as it is: of an object that holds a borrowed one, that it is the same one.
    ghost tied: { Self → Self → Type 0 };

    /// Gives records from number `from` + 1 on, as the log stands at the call's end, and none exactly where it has no more.
    fn pull(&mut self, alloc: Global, from: u64) -> Result<Batch, FeedFault>
        ensures few { IfOk result (λ batch. length batch ≤ batch_limit) }
        ensures batch { IfOk result (λ batch. IfSome (leader self.new) (IsBatch from batch)) }
        ensures grows { OnlyLonger (leader self.old) (leader self.new) }
        ensures cause { HasCause (faults self.old) (faults self.new)
            (result ≡ Err feed_fault.Failed) }
        ensures quiet { StaysUnless (faults self.old) (faults self.new)
            (result ≡ Err feed_fault.Failed) }
        ensures tie { tied self.old self.new };

    // No call at all leaves all as it is, and so do two calls, one after the other.
    ghost same: { (a : Self) → tied a a };

    ghost joined: { (a b c : Self) → tied a b → tied b c → tied a c };
}
