//! The text of a control file that is put.
ghost use Rattle.std.specs.Prelude.{◌≡◌, IfOk};
ghost use Rattle.std.specs.List.{list_any};
ghost use Rattle.up_answers.specs.Fetching.{fetch_for, is_failed, joined_bytes, parsed_as, text_put};
ghost use Rattle.up_edits.specs.Texts.{bytes_of_all};

use crate::fetching::{good_bytes, is_failed};
use crate::index::Index;
use std::alloc::{AllocError, Global};
use up_access::parse_access;
use up_bytes::Bytes;
use up_entry::{Block, Entry, Fetch, Location, is_control_file};
use up_group::parse_group;
use up_names::{Control, TextFault, User};
use up_wire::Reply;

/// The text that is kept with an entry that is put, or the refusal: `Io` where the fetch of a block of a control file failed, then
/// `BadBlock` of the first block that is not as the entry says, then `BadText` where the joined bytes do not parse.
#[tactic(auto, unfolding(up_answers::specs::Fetching::text_put))]
pub(crate) fn text_put<'a>(
    alloc: Global,
    owner: &User,
    fetched: &'a [(Location, Fetch)],
    entry: &'a Entry,
) -> Result<Result<Bytes, Reply>, AllocError>
    ensures { IfOk result (λ text. text ≡ text_put owner.now fetched.now entry.now) }
{
    if !is_control_file(entry.attr.kind, &entry.name) {
        return Ok(Ok(Bytes::new(alloc)));
    }
    let text = match bytes_of_all(alloc, fetched, entry.blocks.as_slice())? {
        Ok(text) => text,
        Err(refusal) => return Ok(Err(refusal)),
    };
    let parsed = parsed_as(owner, entry.name.control_kind(), text)?;
    Ok(parsed)
}

/// The bytes of all blocks, joined; or `Io` where the fetch of one failed, or else `BadBlock` of the first that has no good bytes.
#[tactic(auto, unfolding(crate::specs::Texts::bytes_of_all))]
fn bytes_of_all<'a>(
    alloc: Global,
    fetched: &'a [(Location, Fetch)],
    blocks: &'a [Block],
) -> Result<Result<Bytes, Reply>, AllocError>
    ensures { IfOk result (λ joined. joined ≡ bytes_of_all fetched.now blocks.now) }
{
    let index = Index::new(alloc, fetched)?;
    if any_failed(&index, blocks) {
        return Ok(Err(Reply::Io));
    }
    joined_bytes(alloc, &index, blocks)
}

/// Whether the fetch of one of these blocks failed.
fn any_failed<'a>(fetched: &Index<'a>, blocks: &'a [Block]) -> bool
    ensures { result ≡ list_any (λ block. is_failed (fetch_for fetched.now block)) blocks.now }
{
    for block in blocks {
        if is_failed(fetched.fetch_for(block)) {
            return true;
        }
    }
    false
}

/// The bytes of all blocks, joined, or `BadBlock` of the first that has no good bytes.
fn joined_bytes<'a>(
    alloc: Global,
    fetched: &Index<'a>,
    blocks: &'a [Block],
) -> Result<Result<Bytes, Reply>, AllocError>
    ensures { IfOk result (λ joined. joined ≡ joined_bytes fetched.now blocks.now) }
{
    let mut text = Vec::new(alloc);
    for block in blocks {
        let Some(bytes) = good_bytes(block, fetched.fetch_for(block)) else {
            return Ok(Err(Reply::BadBlock(block.location.reference)));
        };
        text.extend_from_slice(bytes.as_slice())?;
    }
    Ok(Ok(Bytes::from_vec(text)))
}

/// The text, where it parses as one of this kind in the owner's tree, or `BadText` of its first bad line.
fn parsed_as(
    owner: &User,
    control: Control,
    text: Bytes,
) -> Result<Result<Bytes, Reply>, AllocError>
    ensures { IfOk result (λ parsed. parsed ≡ parsed_as owner.now control text) }
{
    let fault = match control {
        Control::Access => parse_access(owner, text.as_slice()).err(),
        Control::Group => parse_group(owner, text.as_slice()).err(),
        Control::Ordinary => None,
    };
    match fault {
        None => Ok(Ok(text)),
        Some(TextFault::BadText(line)) => Ok(Err(Reply::BadText(line))),
        Some(TextFault::OutOfMemory) => Err(AllocError),
    }
}
