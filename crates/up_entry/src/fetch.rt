//! What a fetch of a block answers.

ghost use Rattle.std.specs.Prelude.{◌≡◌};

use std::alloc::AllocError;
use up_bytes::{Bytes, copy_of};

/// The answer for a block that was asked of its store.
#[derive(Debug, Drop, PartialEq, Eq)]
pub enum Fetch {
    /// The bytes that the store has for the reference.
    Got(Bytes),
    /// The store has no such block, or nobody serves its address.
    Missing,
    /// The store could not be asked, or failed.
    Failed,
}

impl Clone for Fetch {
    ghost is_clone = { λ fetch copy. copy ≡ fetch };

    fn clone(&self) -> Result<Fetch, AllocError> {
        match self {
            Fetch::Got(bytes) => Ok(Fetch::Got(copy_of(bytes.allocator(), bytes.as_slice())?)),
            Fetch::Missing => Ok(Fetch::Missing),
            Fetch::Failed => Ok(Fetch::Failed),
        }
    }
}
