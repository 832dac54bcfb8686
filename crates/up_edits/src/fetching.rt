//! What was fetched of the blocks of a control file.
ghost use Rattle.std.specs.Prelude.{◌≡◌, ◌==◌, ◌&&◌, length};
ghost use Rattle.std.specs.Str.{bytes_eq};
ghost use Rattle.sha2.specs.Sha256.{sha256};
ghost use Rattle.std.specs.Option.{option_copied};
ghost use Rattle.up_answers.specs.Fetching.{good_bytes, is_failed};

use up_bytes::Bytes;
use up_entry::{Block, Fetch, Location};
use up_lists::Items;
use up_refs::Reference;

/// What was fetched: locations of blocks, each with the answer.
pub type Fetched = Items<(Location, Fetch)>;

/// Whether the fetch of a block failed.
pub(crate) fn is_failed(fetch: Option<&Fetch>) -> bool
    ensures { result ≡ is_failed (option_copied fetch.entry) }
{
    match fetch {
        Some(Fetch::Failed) => true,
        Some(Fetch::Got(_)) | Some(Fetch::Missing) | None => false,
    }
}

/// The bytes that were fetched for a block, where they have its size and its reference.
pub(crate) fn good_bytes<'a>(block: &Block, fetch: Option<&'a Fetch>) -> Option<&'a Bytes>
    ensures { option_copied result ≡ good_bytes block.now (option_copied fetch.entry) }
{
    match fetch {
        Some(Fetch::Got(bytes)) if is_block(block, bytes.as_slice()) => Some(bytes),
        _ => None,
    }
}

/// Whether bytes have a block's size and its reference.
fn is_block(block: &Block, bytes: &[u8]) -> bool
    ensures { result ≡ (length bytes.now == block.now.size
        && bytes_eq (sha256 bytes.now) block.now.location.reference) }
{
    bytes.len() as u64 == block.size && Reference::of(bytes) == block.location.reference
}
