//! Copies of an entry and of its parts, each in memory of its own.

ghost use Rattle.std.specs.Prelude.{◌≡◌, IfOk};

use crate::entries::{Block, Endpoint, Entry, Location};
use std::alloc::{AllocError, Global};
use up_bytes::{Bytes, copy_of};
use up_lists::Items;
use up_names::{Path, User};

impl Clone for Endpoint {
    ghost is_clone = { λ endpoint copy. copy ≡ endpoint };

    fn clone(&self) -> Result<Endpoint, AllocError> {
        match self {
            Endpoint::Local => Ok(Endpoint::Local),
            Endpoint::Address(address) => {
                let copy = copy_of(address.allocator(), address.as_slice())?;
                Ok(Endpoint::Address(copy))
            }
        }
    }
}

impl Clone for Location {
    ghost is_clone = { λ location copy. copy ≡ location };

    fn clone(&self) -> Result<Location, AllocError> {
        Ok(Location {
            endpoint: self.endpoint.clone()?,
            reference: self.reference,
        })
    }
}

impl Clone for Block {
    ghost is_clone = { λ block copy. copy ≡ block };

    fn clone(&self) -> Result<Block, AllocError> {
        Ok(Block {
            location: self.location.clone()?,
            offset: self.offset,
            size: self.size,
            packdata: copy_of(self.packdata.allocator(), self.packdata.as_slice())?,
        })
    }
}

impl Clone for Entry {
    ghost is_clone = { λ entry copy. copy ≡ entry };

    fn clone(&self) -> Result<Entry, AllocError> {
        let (name, signed_name, writer) = copied_names(self)?;
        match copied_rest(self) {
            Ok((blocks, packdata, link)) => Ok(Entry {
                signed_name,
                packing: self.packing,
                time: self.time,
                blocks,
                packdata,
                link,
                writer,
                name,
                attr: self.attr,
                sequence: self.sequence,
            }),
            Err(AllocError) => {
                drop(name);
                drop(signed_name);
                drop(writer);
                Err(AllocError)
            }
        }
    }
}

/// The entry's name, its signed name and its writer.
pub(crate) fn copied_names(entry: &Entry) -> Result<(Path, Path, User), AllocError>
    ensures { IfOk result (λ copy. copy ≡ (entry.now.name, entry.now.signed_name, entry.now.writer)) }
{
    let name = entry.name.clone()?;
    let signed_name = entry.signed_name.clone()?;
    let writer = entry.writer.clone()?;
    Ok((name, signed_name, writer))
}

/// The entry's blocks, its pack data and its target.
fn copied_rest(entry: &Entry) -> Result<(Items<Block>, Bytes, Option<Path>), AllocError>
    ensures { IfOk result (λ copy. copy ≡ (entry.now.blocks, entry.now.packdata, entry.now.link)) }
{
    let packdata = copy_of(entry.packdata.allocator(), entry.packdata.as_slice())?;
    let link = copied_link(&entry.link)?;
    let blocks = copied_blocks(entry.blocks.allocator(), entry.blocks.as_slice())?;
    Ok((blocks, packdata, link))
}

/// The same blocks, in order.
pub(crate) fn copied_blocks(alloc: Global, blocks: &[Block]) -> Result<Items<Block>, AllocError>
    ensures { IfOk result (λ copies. copies ≡ blocks.now) }
{
    let mut copies = Vec::with_capacity(alloc, blocks.len())?;
    for block in blocks {
        copies.push(block.clone()?)?;
    }
    Ok(Items::from_vec(copies))
}

/// The same target.
pub(crate) fn copied_link(link: &Option<Path>) -> Result<Option<Path>, AllocError>
    ensures { IfOk result (λ copy. copy ≡ link.now) }
{
    match link {
        Some(target) => Ok(Some(target.clone()?)),
        None => Ok(None),
    }
}
