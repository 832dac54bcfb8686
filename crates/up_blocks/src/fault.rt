//! Why a block was not given, kept or deleted.
ghost use Rattle.std.specs.Prelude.{◌≡◌, Some};
ghost use Rattle.up_blocks.specs.Messages.{message};
ghost use Rattle.up_blocks.specs.declared.fault.BlockWhy.TheVariants as block;

use std::alloc::AllocError;
use std::error::Error;
use std::fmt;
use up_journal::{AppendWhy, ReadWhy};

/// Why a block was not given, kept or deleted. The blocks are then as before.
#[derive(Clone, Copy, Debug, PartialEq, Eq)]
pub enum BlockWhy {
    /// No block with this reference is held: of `get` and `delete` alone.
    NotExist,
    /// The log has so many records, and one more would pass the limits: of `put` and `delete` alone.
    Full(u64),
    /// The disk failed.
    Fault,
    OutOfMemory,
}

impl fmt::Display for BlockWhy {
    ghost output = { λ why. Some (message why) };

    fn fmt<W: fmt::Write>(&self, f: &mut fmt::Formatter<W>) -> fmt::Result {
        match self {
            BlockWhy::NotExist => write!(f, "no such block is held"),
            BlockWhy::Full(records) => write!(f, "the store is full with {records} records"),
            BlockWhy::Fault => write!(f, "the disk failed"),
            BlockWhy::OutOfMemory => write!(f, "out of memory"),
        }
    }
}

impl Error for BlockWhy {}

impl From<AppendWhy> for BlockWhy {
    ghost use Rattle.up_blocks.specs.Blocks.{why_of};

    ghost from_gives = { λ append why. why ≡ why_of append };

    fn from(append: AppendWhy) -> Self {
        match append {
            AppendWhy::Full(records) => BlockWhy::Full(records),
            AppendWhy::Fault => BlockWhy::Fault,
            AppendWhy::OutOfMemory => BlockWhy::OutOfMemory,
        }
    }
}

impl From<ReadWhy> for BlockWhy {
    ghost use Rattle.up_blocks.specs.Blocks.{why_of_read};

    ghost from_gives = { λ read why. why ≡ why_of_read read };

    fn from(read: ReadWhy) -> Self {
        match read {
            ReadWhy::Fault => BlockWhy::Fault,
            ReadWhy::OutOfMemory => BlockWhy::OutOfMemory,
        }
    }
}

impl From<AllocError> for BlockWhy {
    ghost from_gives = { λ _ why. why ≡ block.OutOfMemory };

    fn from(_: AllocError) -> Self {
        BlockWhy::OutOfMemory
    }
}
