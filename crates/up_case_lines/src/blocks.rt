//! Words that stand for blocks: `-` for none, else blocks joined by commas, each of five fields joined by colons, in which
//! these two bytes are coded.
use crate::answer::Answer;
use crate::fault::Fault;
use crate::words::{bytes_of, number_of};
use std::alloc::Global;
use up_entry::{Block, Endpoint, Location};
use up_lists::Items;
use up_refs::Reference;

/// The blocks that a word stands for, each `TEXT:OFFSET:SIZE:ADDRESS:PACKDATA`. A block has the reference of its TEXT, so
/// that lines are short. ADDRESS is `-` for the host's own store; where the field is empty it is the address of no bytes,
/// at which no store answers.
pub fn blocks_of(alloc: Global, word: &str) -> Result<Items<Block>, Fault> {
    let mut blocks = Items::new(alloc);
    if word == "-" {
        return Ok(blocks);
    }
    for block in word.split(',') {
        blocks.push(block_of(alloc, block)?)?;
    }
    Ok(blocks)
}

// The block that stands between two commas.
fn block_of(alloc: Global, block: &str) -> Result<Block, Fault> {
    let fields = fields_of(block)?;
    let offset = number_of(fields.offset)?;
    let size = number_of(fields.size)?;
    let reference = reference_of(alloc, fields.text)?;
    let packdata = bytes_of(alloc, fields.packdata)?;
    let endpoint = endpoint_of(alloc, fields.address)?;
    Ok(Block {
        location: Location {
            endpoint,
            reference,
        },
        offset,
        size,
        packdata,
    })
}

/// The fields of a block, as they stand.
#[derive(Clone, Copy)]
struct Fields<'a> {
    text: &'a str,
    offset: &'a str,
    size: &'a str,
    address: &'a str,
    packdata: &'a str,
}

fn fields_of(block: &str) -> Result<Fields<'_>, Fault> {
    let (text, rest) = cut_field(block)?;
    let (offset, rest) = cut_field(rest)?;
    let (size, rest) = cut_field(rest)?;
    let (address, packdata) = cut_field(rest)?;
    if packdata.contains(':') {
        return Err(Fault::BadLine);
    }
    Ok(Fields {
        text,
        offset,
        size,
        address,
        packdata,
    })
}

// A block's field, and what stands behind the colon that ends it.
fn cut_field(fields: &str) -> Result<(&str, &str), Fault> {
    fields.split_once(':').ok_or(Fault::BadLine)
}

// The reference of the text that a field stands for.
fn reference_of(alloc: Global, field: &str) -> Result<Reference, Fault> {
    Ok(Reference::of(bytes_of(alloc, field)?.as_slice()))
}

fn endpoint_of(alloc: Global, field: &str) -> Result<Endpoint, Fault> {
    match field {
        "-" => Ok(Endpoint::Local),
        "" => Ok(Endpoint::Address(Items::new(alloc))),
        _ => Ok(Endpoint::Address(bytes_of(alloc, field)?)),
    }
}

/// Adds the word of some blocks, each `REF:OFFSET:SIZE:ADDRESS:PACKDATA` with `-` for the host's own store and for empty
/// packdata.
pub fn add_blocks(alloc: Global, blocks: &[Block], answer: &mut Answer) {
    if blocks.is_empty() {
        answer.word("-");
    }
    for (place, block) in blocks.iter().enumerate() {
        if place == 0 {
            answer.begin();
        } else {
            answer.push(",");
        }
        add_block(alloc, block, answer);
    }
}

fn add_block(alloc: Global, block: &Block, answer: &mut Answer) {
    answer.made(block.location.reference.text(alloc));
    answer.push(":");
    answer.made(block.offset.to_string(alloc));
    answer.push(":");
    answer.made(block.size.to_string(alloc));
    answer.push(":");
    add_endpoint(&block.location.endpoint, answer);
    answer.push(":");
    answer.field(block.packdata.as_slice());
}

/// Adds the field of an endpoint.
pub fn add_endpoint(endpoint: &Endpoint, answer: &mut Answer) {
    match endpoint {
        Endpoint::Local => answer.push("-"),
        Endpoint::Address(address) => answer.field(address.as_slice()),
    }
}
