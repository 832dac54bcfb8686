//! Entries of many blocks, which would make long lines.
use super::Session;
use super::puts::{empty_put, set_text};
use super::written::record_bytes;
use std::alloc::Global;
use std::mem;
use up_case_lines::{Answer, Fault, Words};
use up_entry::{Block, Endpoint, Location, PutEntry, Rec, check_entry};
use up_lists::Items;
use up_names::User;
use up_refs::Reference;

/// How many bytes of the file each block has, the most that a block may have.
const BLOCK: u64 = 1_048_576;

/// `many N`: how many bytes the record has that puts the session's user's file `many` of N blocks, or `differ` where
/// another is read of them.
pub fn many_line(
    alloc: Global,
    session: &Session,
    mut words: Words<'_>,
    answer: &mut Answer,
) -> Result<(), Fault> {
    let count = words.last_number()?;
    let rec = record_of_blocks(alloc, &session.user, count)?;
    let told = add_size(alloc, &rec, answer);
    drop(rec);
    told
}

fn add_size(alloc: Global, rec: &Rec, answer: &mut Answer) -> Result<(), Fault> {
    match record_bytes(alloc, rec)? {
        Some(bytes) => answer.number(bytes.len()),
        None => answer.word("differ"),
    }
    Ok(())
}

// The record that puts a file of so many blocks.
fn record_of_blocks(alloc: Global, user: &User, count: u64) -> Result<Rec, Fault> {
    let put = put_of_blocks(alloc, user, count)?;
    let checked = check_entry(alloc, &put, user);
    drop(put);
    Ok(Rec::Put(checked?.entry, Items::new(alloc)))
}

// The user's file of so many blocks.
fn put_of_blocks(alloc: Global, user: &User, count: u64) -> Result<PutEntry, Fault> {
    let mut put = empty_put(alloc);
    put.packing = 1;
    match fill(alloc, &mut put, user, count) {
        Ok(()) => Ok(put),
        Err(fault) => {
            drop(put);
            Err(fault)
        }
    }
}

fn fill(alloc: Global, put: &mut PutEntry, user: &User, count: u64) -> Result<(), Fault> {
    drop(mem::replace(&mut put.blocks, blocks(alloc, count)?));
    let name = format!(in alloc; "{}/many", user.text())?;
    fill_names(alloc, put, name.as_str(), user.text())
}

fn fill_names(alloc: Global, put: &mut PutEntry, name: &str, writer: &str) -> Result<(), Fault> {
    set_text(alloc, &mut put.name, name)?;
    set_text(alloc, &mut put.signed_name, name)?;
    set_text(alloc, &mut put.writer, writer)
}

// So many blocks, each where the one before it ends.
fn blocks(alloc: Global, count: u64) -> Result<Items<Block>, Fault> {
    let mut blocks = Items::new(alloc);
    for place in 0..count {
        blocks.push(block(alloc, place)?)?;
    }
    Ok(blocks)
}

// The block at this place, counted from 0.
fn block(alloc: Global, place: u64) -> Result<Block, Fault> {
    let offset = place.checked_mul(BLOCK).ok_or(Fault::BadLine)?;
    Ok(Block {
        location: Location {
            endpoint: Endpoint::Local,
            reference: Reference::from_bytes([0; 32]),
        },
        offset,
        size: BLOCK,
        packdata: Items::new(alloc),
    })
}
