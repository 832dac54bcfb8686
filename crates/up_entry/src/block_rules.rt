//! The rules of blocks.

ghost use Rattle.std.specs.Prelude.{◌≡◌, map, nat_le, ◌&&◌};
ghost use Rattle.std.specs.List.{list_all, sum};
ghost use Rattle.up_entry.specs.Rules.{are_joined, block_fits, blocks_fit, control_size_fits, endpoint_fits, is_address};

use crate::entries::{Block, Endpoint, Kind};
use crate::kind_rules::is_control_file;
use up_names::Path;

/// How many bytes of a file a block may have.
const MAX_BLOCK: u64 = 1_048_576;

/// How many bytes the blocks of a control file may have.
const MAX_CONTROL: u64 = 32_768;

/// Whether an entry of this kind may have the blocks: only a file has any, and there each fits and they are joined.
pub(crate) fn blocks_fit(kind: Kind, blocks: &[Block]) -> bool
    ensures { result ≡ blocks_fit kind blocks.now }
{
    match kind {
        Kind::File => all_fit(blocks) && are_joined(blocks),
        Kind::Directory | Kind::Link => blocks.is_empty(),
    }
}

fn all_fit(blocks: &[Block]) -> bool
    ensures { result ≡ list_all block_fits blocks.now }
{
    blocks.iter().all(block_fits)
}

/// Whether a block has 1 to 1,048,576 bytes, and its store an address.
#[tactic(auto, unfolding(crate::specs::Rules::block_fits))]
fn block_fits(block: &Block) -> bool
    ensures { result ≡ block_fits block.now }
{
    (1..=MAX_BLOCK).contains(&block.size) && endpoint_fits(&block.location.endpoint)
}

fn endpoint_fits(endpoint: &Endpoint) -> bool
    ensures { result ≡ endpoint_fits endpoint.now }
{
    match endpoint {
        Endpoint::Local => true,
        Endpoint::Address(address) => is_address(address.as_slice()),
    }
}

/// Whether an address is one that a store or a directory may have: 1 to 255 bytes from 0x21 to 0x7E. It takes no memory.
#[tactic(auto, unfolding(crate::specs::Rules::is_address))]
pub fn is_address(address: &[u8]) -> bool
    ensures { result ≡ is_address address.now }
{
    (1..=255).contains(&address.len()) && has_address_bytes(address)
}

fn has_address_bytes(address: &[u8]) -> bool
    ensures { result ≡ list_all (λ b. nat_le 0x21 b && nat_le b 0x7E) address.now }
{
    address.iter().all(|b| (0x21..=0x7E).contains(b))
}

/// Whether each block begins where the one before it ends, the first at 0. Ends are exact: the last may be past 2^64.
fn are_joined(blocks: &[Block]) -> bool
    ensures { result ≡ are_joined 0 blocks.now }
{
    let mut end: u128 = 0;
    for block in blocks {
        if u128::from(block.offset) != end {
            return false;
        }
        end += u128::from(block.size);
    }
    true
}

/// Whether the blocks are few enough bytes for a control file, where the entry is one.
pub(crate) fn control_size_fits(kind: Kind, path: &Path, blocks: &[Block]) -> bool
    ensures { result ≡ control_size_fits kind path.now blocks.now }
{
    !is_control_file(kind, path) || have_at_most(blocks, MAX_CONTROL)
}

/// Whether the blocks have together at most so many bytes.
fn have_at_most(blocks: &[Block], bytes: u64) -> bool
    ensures { result ≡ nat_le (sum (map (λ block. block.size) blocks.now)) bytes }
{
    let mut left = bytes;
    for block in blocks {
        if block.size > left {
            return false;
        }
        left -= block.size;
    }
    true
}
