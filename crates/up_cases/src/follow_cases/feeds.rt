//! What a leader's tree comes to, and the records that a feed gives.
use std::alloc::Global;
use up_bytes::Bytes;
use up_case_asks::{Given, ask};
use up_case_lines::{Answer, Fault, Words};
use up_disk::MemDisk;
use up_entry::write_rec;
use up_lists::Items;
use up_tree::TreeState;

/// Has the owner of a tree make so many directories below one, each named by its number, from 0.
pub fn make_many(
    alloc: Global,
    tree: &mut TreeState<MemDisk>,
    given: &mut Given,
    mut words: Words<'_>,
) -> Result<(), Fault> {
    let dir = words.word()?;
    for i in 0..words.last_number()? {
        make_one(alloc, tree, given, dir, i)?;
    }
    Ok(())
}

fn make_one(
    alloc: Global,
    tree: &mut TreeState<MemDisk>,
    given: &mut Given,
    dir: &str,
    i: u64,
) -> Result<(), Fault> {
    let owner = tree.owner().clone()?;
    let line = format!(in alloc; "mkdir {dir}/{i} 100 0")?;
    let mut said = Answer::new(alloc);
    ask(
        alloc,
        tree,
        given,
        &owner,
        Words::new(line.as_str()),
        &mut said,
    )
}

/// The feed gives the records of a tree from one number to another, behind those that it gives already.
pub fn give(
    alloc: Global,
    tree: &TreeState<MemDisk>,
    records: &mut Items<Bytes>,
    numbers: (u64, u64),
) -> Result<(), Fault> {
    let (first, last) = numbers;
    for n in first..last.saturating_add(1) {
        give_one(alloc, tree, records, n)?;
    }
    Ok(())
}

fn give_one(
    alloc: Global,
    tree: &TreeState<MemDisk>,
    records: &mut Items<Bytes>,
    n: u64,
) -> Result<(), Fault> {
    let Some(rec) = tree.rec_at(n) else {
        return Err(Fault::BadLine);
    };
    add(records, write_rec(alloc, rec)?)
}

/// The feed gives these bytes, behind the records that it gives already.
pub fn add(records: &mut Items<Bytes>, bytes: Bytes) -> Result<(), Fault> {
    records.push(bytes)?;
    Ok(())
}
