//! Words that are lists: the blocks of a file, and endpoints.

ghost use Rattle.std.specs.Prelude.{◌≡◌, ◌++◌, ◌∷◌, [], Some, option_map, is_some};
ghost use Rattle.std.specs.List.{after_first, before_first, slice_split};
ghost use Rattle.up_text.specs.Lists.{address_named, all_endpoints, block_at, blocks_from, blocks_named, endpoint_named, endpoints_named, is_colon, is_comma, offset_behind, sized_block, with_block};
ghost use Rattle.up_text.specs.Meant.{IsMeant};
ghost use Rattle.up_text.specs.Words.{decoded};

use crate::fault::LineFault;
use crate::lines::place_of;
use crate::numbers::read_num;
use crate::words::{is_word, read_word};
use std::alloc::Global;
use up_bytes::Bytes;
use up_entry::{Block, Endpoint, Location};
use up_lists::Items;
use up_refs::Reference;

/// The text that a word stands for.
pub(crate) fn text_named(alloc: Global, word: &[u8]) -> Result<Bytes, LineFault>
    ensures { IsMeant (λ text. text) result (decoded word.now) }
{
    match read_word(alloc, word)? {
        Some(text) => Ok(text),
        None => Err(LineFault::Malformed),
    }
}

/// The blocks that a word stands for.
#[tactic(auto, unfolding(crate::specs::Lists::blocks_named))]
pub(crate) fn blocks_of(alloc: Global, word: &[u8]) -> Result<Items<Block>, LineFault>
    ensures { IsMeant (λ blocks. blocks) result (blocks_named word.now) }
{
    if word == b"-".as_slice() {
        return Ok(Items::new(alloc));
    }
    some_blocks(alloc, word)
}

/// The blocks of a list, each where the one before it ends.
fn some_blocks(alloc: Global, list: &[u8]) -> Result<Items<Block>, LineFault>
    ensures { IsMeant (λ blocks. blocks) result
        (blocks_from (Some 0) (slice_split is_comma list.now)) }
{
    let mut blocks = Items::new(alloc);
    let mut offset = Some(0);
    for piece in list.split(|b| *b == b',') {
        offset = take_block(alloc, &mut blocks, offset, piece)?;
    }
    Ok(blocks)
}

/// Takes the block of a list that is at this offset, and gives the offset behind it.
fn take_block(
    alloc: Global,
    blocks: &mut Items<Block>,
    offset: Option<u64>,
    piece: &[u8],
) -> Result<Option<u64>, LineFault>
    ensures { IsMeant (λ next. (blocks.new, next)) result
        (option_map (with_block blocks.old) (block_at offset piece.now)) }
{
    let Some(block) = block_at(alloc, offset, piece) else {
        return Err(LineFault::Malformed);
    };
    let next = block.offset.checked_add(block.size);
    blocks.push(block)?;
    Ok(next)
}

/// The block of a list that is at this offset.
#[tactic(auto, unfolding(crate::specs::Lists::block_at))]
fn block_at(alloc: Global, offset: Option<u64>, piece: &[u8]) -> Option<Block>
    ensures { result ≡ block_at offset piece.now }
{
    let offset = offset?;
    let (reference, size) = sized_block(piece)?;
    Some(Block {
        location: Location {
            endpoint: Endpoint::Local,
            reference,
        },
        offset,
        size,
        packdata: Items::new(alloc),
    })
}

/// The reference and the size of a block of a list.
#[tactic(auto, unfolding(crate::specs::Lists::sized_block))]
fn sized_block(piece: &[u8]) -> Option<(Reference, u64)>
    ensures { result ≡ sized_block piece.now }
{
    let (reference, size) = cut_at_colon(piece);
    let reference = Reference::parse(reference)?;
    let size = read_num(size)?;
    Some((reference, size))
}

/// What stands in front of the first colon, and behind it; where there is none, the whole and nothing.
fn cut_at_colon(piece: &[u8]) -> (&[u8], &[u8])
    ensures front { result.0.now ≡ before_first is_colon piece.now }
    ensures behind { result.1.now ≡ after_first is_colon piece.now }
{
    match place_of(b':', piece) {
        Some(end) => (&piece[..end], &piece[end + 1..]),
        None => (piece, &piece[piece.len()..]),
    }
}

/// Whether a word stands for blocks.
#[tactic(auto, unfolding(crate::specs::Lists::blocks_named))]
pub(crate) fn is_blocks(word: &[u8]) -> bool
    ensures { result ≡ is_some (blocks_named word.now) }
{
    word == b"-".as_slice() || are_blocks(word)
}

/// Whether a list is one of blocks, each where the one before it ends.
fn are_blocks(list: &[u8]) -> bool
    ensures { result ≡ is_some (blocks_from (Some 0) (slice_split is_comma list.now)) }
{
    let mut offset = Some(0);
    for piece in list.split(|b| *b == b',') {
        match behind_block(offset, piece) {
            Some(next) => offset = next,
            None => return false,
        }
    }
    true
}

/// The offset behind the block of a list that is at this offset.
#[tactic(auto, unfolding(crate::specs::Lists::block_at))]
fn behind_block(offset: Option<u64>, piece: &[u8]) -> Option<Option<u64>>
    ensures { result ≡ option_map (λ b. offset_behind b) (block_at offset piece.now) }
{
    let offset = offset?;
    let (_, size) = sized_block(piece)?;
    Some(offset.checked_add(size))
}

/// The endpoints that a word stands for.
#[tactic(auto, unfolding(crate::specs::Lists::endpoints_named))]
pub(crate) fn endpoints_of(alloc: Global, word: &[u8]) -> Result<Items<Endpoint>, LineFault>
    ensures { IsMeant (λ endpoints. endpoints) result (endpoints_named word.now) }
{
    if word.is_empty() {
        return Err(LineFault::Malformed);
    }
    if word == b"-".as_slice() {
        return Ok(Items::new(alloc));
    }
    some_endpoints(alloc, word)
}

/// The endpoints of a list.
fn some_endpoints(alloc: Global, list: &[u8]) -> Result<Items<Endpoint>, LineFault>
    ensures { IsMeant (λ endpoints. endpoints) result
        (all_endpoints (slice_split is_comma list.now)) }
{
    let mut endpoints = Items::new(alloc);
    for piece in list.split(|b| *b == b',') {
        take_endpoint(alloc, &mut endpoints, piece)?;
    }
    Ok(endpoints)
}

/// Takes the next endpoint of a list.
fn take_endpoint(
    alloc: Global,
    endpoints: &mut Items<Endpoint>,
    piece: &[u8],
) -> Result<(), LineFault>
    ensures { IsMeant (λ _. endpoints.new) result
        (option_map (λ endpoint. endpoints.old ++ endpoint ∷ []) (endpoint_named piece.now)) }
{
    let endpoint = endpoint_of(alloc, piece)?;
    endpoints.push(endpoint)?;
    Ok(())
}

/// The endpoint that a piece of a list is.
#[tactic(auto, unfolding(crate::specs::Lists::endpoint_named))]
fn endpoint_of(alloc: Global, piece: &[u8]) -> Result<Endpoint, LineFault>
    ensures { IsMeant (λ endpoint. endpoint) result (endpoint_named piece.now) }
{
    if piece == b"local".as_slice() {
        return Ok(Endpoint::Local);
    }
    Ok(Endpoint::Address(address_of(alloc, piece)?))
}

/// The address that a piece of a list is.
#[tactic(auto, unfolding(crate::specs::Lists::address_named))]
fn address_of(alloc: Global, piece: &[u8]) -> Result<Bytes, LineFault>
    ensures { IsMeant (λ address. address) result (address_named piece.now) }
{
    if piece.is_empty() {
        return Ok(Items::new(alloc));
    }
    text_named(alloc, piece)
}

/// Whether a word stands for endpoints.
#[tactic(auto, unfolding(crate::specs::Lists::endpoints_named))]
pub(crate) fn is_endpoints(word: &[u8]) -> bool
    ensures { result ≡ is_some (endpoints_named word.now) }
{
    !word.is_empty() && (word == b"-".as_slice() || are_endpoints(word))
}

/// Whether a list is one of endpoints.
fn are_endpoints(list: &[u8]) -> bool
    ensures { result ≡ is_some (all_endpoints (slice_split is_comma list.now)) }
{
    for piece in list.split(|b| *b == b',') {
        if !is_endpoint(piece) {
            return false;
        }
    }
    true
}

/// Whether a piece of a list is an endpoint.
#[tactic(auto, unfolding(crate::specs::Lists::endpoint_named, crate::specs::Lists::address_named))]
fn is_endpoint(piece: &[u8]) -> bool
    ensures { result ≡ is_some (endpoint_named piece.now) }
{
    piece.is_empty() || piece == b"local".as_slice() || is_word(piece)
}
