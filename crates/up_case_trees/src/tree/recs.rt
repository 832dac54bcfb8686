//! Commands that add a record to a tree's log.
use std::alloc::{AllocError, Global};
use up_bytes::FieldFault;
use up_case_lines::{Answer, Fault, Words, bytes_of, bytes_of_digits, number_of, path_of};
use up_case_logs::add_appended;
use up_disk::MemDisk;
use up_entry::{Attr, Entry, Kind, Rec, read_rec, rec_size};
use up_lists::Items;
use up_mem_tree::fits_is_told_by_rules;
use up_tree::TreeState;

/// Does a command that adds a record, or that settles the log.
pub fn turn(
    alloc: Global,
    tree: &mut TreeState<MemDisk>,
    keyword: &str,
    words: Words<'_>,
    answer: &mut Answer,
) -> Result<(), Fault> {
    if keyword == "resolve" {
        let resolved = tree.resolve().is_ok();
        answer.word(if resolved { "ok" } else { "fault" });
        return Ok(());
    }
    let rec = rec_of(alloc, keyword, words)?;
    add(tree, rec, answer);
    Ok(())
}

/// Adds a record where it fits: `ok` and its position, or `unfit`, or why not.
pub fn add(tree: &mut TreeState<MemDisk>, rec: Rec, answer: &mut Answer) {
    fits_is_told_by_rules();
    tree.recall();
    match tree.fits(&rec) {
        Ok(true) if rec_size(&rec) <= tree.largest() => add_appended(tree.apply(rec), answer),
        fitting => {
            drop(rec);
            answer.word(refusal(fitting));
        }
    }
}

// Why a record is not added, by whether it fits.
fn refusal(fitting: Result<bool, AllocError>) -> &'static str {
    match fitting {
        Ok(true) => "too large",
        Ok(false) => "unfit",
        Err(AllocError) => "out of memory",
    }
}

// The record that a command adds.
fn rec_of(alloc: Global, keyword: &str, mut words: Words<'_>) -> Result<Rec, Fault> {
    match keyword {
        "dir" => dir_rec(alloc, words),
        "file" => file_rec(alloc, words),
        "link" => link_rec(alloc, words),
        "delete" => Ok(Rec::Delete(path_of(alloc, words.one()?)?)),
        "snap" => Ok(Rec::Snap(words.last_number()?)),
        "record" => spelled_rec(alloc, words.one()?),
        _ => Err(Fault::BadLine),
    }
}

// `dir PATH SEQUENCE`: puts a directory.
fn dir_rec(alloc: Global, mut words: Words<'_>) -> Result<Rec, Fault> {
    let (path, sequence) = words.two()?;
    let entry = entry_of(alloc, path, Kind::Directory, number_of(sequence)?)?;
    Ok(Rec::Put(entry, Items::new(alloc)))
}

// `file PATH SEQUENCE TEXT`: puts a file, with the text of a control file.
fn file_rec(alloc: Global, mut words: Words<'_>) -> Result<Rec, Fault> {
    let (path, sequence, text) = words.three()?;
    let sequence = number_of(sequence)?;
    let text = bytes_of(alloc, text)?;
    Ok(Rec::Put(entry_of(alloc, path, Kind::File, sequence)?, text))
}

// `link PATH SEQUENCE TARGET`: puts a link.
fn link_rec(alloc: Global, mut words: Words<'_>) -> Result<Rec, Fault> {
    let (path, sequence, target) = words.three()?;
    let sequence = number_of(sequence)?;
    let target = path_of(alloc, target)?;
    let mut entry = entry_of(alloc, path, Kind::Link, sequence)?;
    drop(entry.link.replace(target));
    Ok(Rec::Put(entry, Items::new(alloc)))
}

/// The entry, plain and without blocks, written by the owner of its path.
pub fn entry_of(alloc: Global, path: &str, kind: Kind, sequence: u64) -> Result<Entry, Fault> {
    let name = path_of(alloc, path)?;
    let writer = name.owner().clone()?;
    let signed_name = name.clone()?;
    Ok(Entry {
        signed_name,
        packing: 1,
        time: 0,
        blocks: Items::new(alloc),
        packdata: Items::new(alloc),
        link: None,
        writer,
        name,
        attr: Attr {
            kind,
            incomplete: false,
        },
        sequence,
    })
}

// `record HEX`: the record that these bytes spell.
fn spelled_rec(alloc: Global, digits: &str) -> Result<Rec, Fault> {
    let bytes = bytes_of_digits(alloc, digits)?;
    read_rec(alloc, bytes.as_slice()).map_err(read_fault)
}

fn read_fault(fault: FieldFault) -> Fault {
    match fault {
        FieldFault::OutOfMemory => Fault::OutOfMemory,
        FieldFault::Short | FieldFault::Spelling(_) => Fault::BadLine,
    }
}
