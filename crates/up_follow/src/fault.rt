//! Why no batch came, and why one was not taken whole.
ghost use Rattle.std.specs.Prelude.{◌≡◌};
ghost use Rattle.up_follow.specs.Whys.{why_of_append, why_of_feed};
ghost use Rattle.up_follow.specs.declared.fault.FeedFault.TheVariants as feed_fault;
ghost use Rattle.up_follow.specs.declared.fault.FollowWhy.TheVariants as follow_why;

use std::alloc::{AllocError, AllocFailed};
use thiserror::Error;
use up_journal::AppendWhy;

/// Why a feed gave no batch.
#[derive(Clone, Copy, Debug, PartialEq, Eq, Error)]
pub enum FeedFault {
    /// The feed failed, and its count of faults rose.
    #[error("the feed failed")]
    Failed,
    /// Want of memory.
    #[error("out of memory")]
    OutOfMemory,
}

/// Why a pull did not add all records of a batch. Those before the refused one are added.
#[derive(Clone, Copy, Debug, PartialEq, Eq, Error)]
pub enum FollowWhy {
    /// The feed failed, and its count of faults rose.
    #[error("the feed failed")]
    Failed,
    /// The next record does not decode, or does not fit: the position that it would have had, from 1.
    #[error("the record at position {0} does not fit")]
    Strange(u64),
    /// The log holds so many records, and the next one would pass the limits.
    #[error("the log is full with {0} records")]
    Full(u64),
    /// The follower's disk failed, and its count of faults rose.
    #[error("the disk failed")]
    Io,
    /// Want of memory.
    #[error("out of memory")]
    OutOfMemory,
}

impl From<AllocError> for FeedFault {
    ghost from_gives = { λ _ fault. fault ≡ feed_fault.OutOfMemory };

    fn from(_error: AllocError) -> FeedFault {
        FeedFault::OutOfMemory
    }
}

impl<T: Drop> From<AllocFailed<T>> for FeedFault {
    ghost from_gives = { λ _ fault. fault ≡ feed_fault.OutOfMemory };

    fn from(_error: AllocFailed<T>) -> FeedFault {
        FeedFault::OutOfMemory
    }
}

impl From<AllocError> for FollowWhy {
    ghost from_gives = { λ _ why. why ≡ follow_why.OutOfMemory };

    fn from(_error: AllocError) -> FollowWhy {
        FollowWhy::OutOfMemory
    }
}

impl From<FeedFault> for FollowWhy {
    ghost from_gives = { λ fault why. why ≡ why_of_feed fault };

    fn from(fault: FeedFault) -> FollowWhy {
        match fault {
            FeedFault::Failed => FollowWhy::Failed,
            FeedFault::OutOfMemory => FollowWhy::OutOfMemory,
        }
    }
}

impl From<AppendWhy> for FollowWhy {
    ghost from_gives = { λ refused why. why ≡ why_of_append refused };

    fn from(refused: AppendWhy) -> FollowWhy {
        match refused {
            AppendWhy::Full(records) => FollowWhy::Full(records),
            AppendWhy::Fault => FollowWhy::Io,
            AppendWhy::OutOfMemory => FollowWhy::OutOfMemory,
        }
    }
}
