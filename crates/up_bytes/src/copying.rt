//! Copies of bytes.

ghost use Rattle.std.specs.Prelude.{◌≡◌, IfOk};

use crate::Bytes;
use std::alloc::{AllocError, Global};
use up_lists::Items;

/// A copy of bytes, in memory of its own. It takes none for no bytes.
pub fn copy_of(alloc: Global, bytes: &[u8]) -> Result<Bytes, AllocError>
    ensures { IfOk result (λ copy. copy ≡ bytes.now) }
{
    if bytes.is_empty() {
        return Ok(Items::new(alloc));
    }
    Ok(Items::from_vec(Vec::from_slice(alloc, bytes)?))
}
