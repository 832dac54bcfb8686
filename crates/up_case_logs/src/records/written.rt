//! The lines that write, and that read again what was written.
use super::Session;
use std::alloc::{AllocError, Global};
use up_bytes::{Bytes, FieldFault, Reader, Writer};
use up_case_lines::{Answer, Fault, Words, bytes_of, number_of, path_of};
use up_entry::{Entry, Rec, read_entry, read_rec, write_entry, write_rec};

/// `write`: the digits of the current entry, or `differ` where another is read of them.
pub fn write_line(
    alloc: Global,
    session: &Session,
    words: Words<'_>,
    answer: &mut Answer,
) -> Result<(), Fault> {
    words.end()?;
    let entry = session.current()?;
    let bytes = entry_bytes(alloc, entry)?;
    answer.digits(bytes.as_slice());
    if !is_entry(alloc, bytes.as_slice(), entry)? {
        answer.word("differ");
    }
    Ok(())
}

fn entry_bytes(alloc: Global, entry: &Entry) -> Result<Bytes, AllocError> {
    let mut out = Writer::new(alloc);
    write_entry(entry, &mut out)?;
    Ok(out.finish())
}

// Whether all of the bytes are read as this entry.
fn is_entry(alloc: Global, bytes: &[u8], entry: &Entry) -> Result<bool, Fault> {
    let mut input = Reader::new(bytes);
    match read_entry(alloc, &mut input) {
        Ok(again) => Ok(is_same_entry(again, entry) && input.at_end()),
        Err(fault) => is_nothing(fault),
    }
}

fn is_same_entry(again: Entry, entry: &Entry) -> bool {
    let is_same = again == *entry;
    drop(again);
    is_same
}

// What is not read is nothing; but want of memory does not tell.
fn is_nothing(fault: FieldFault) -> Result<bool, Fault> {
    if fault == FieldFault::OutOfMemory {
        Err(Fault::OutOfMemory)
    } else {
        Ok(false)
    }
}

/// `record put TEXT`, `record delete PATH` and `record snap N`: the digits of the record that puts the current entry with
/// the text beside it, deletes the item at the path, or takes a snapshot; or `differ` where another is read of them.
pub fn record_line(
    alloc: Global,
    session: &Session,
    mut words: Words<'_>,
    answer: &mut Answer,
) -> Result<(), Fault> {
    let (kind, argument) = words.two()?;
    let rec = record_of(alloc, session, kind, argument)?;
    let told = add_digits(alloc, &rec, answer);
    drop(rec);
    told
}

fn add_digits(alloc: Global, rec: &Rec, answer: &mut Answer) -> Result<(), Fault> {
    match record_bytes(alloc, rec)? {
        Some(bytes) => answer.digits(bytes.as_slice()),
        None => answer.word("differ"),
    }
    Ok(())
}

/// The bytes of the record that two words stand for.
pub fn bytes_of_record(
    alloc: Global,
    session: &Session,
    mut words: Words<'_>,
) -> Result<Bytes, Fault> {
    let (kind, argument) = words.two()?;
    let rec = record_of(alloc, session, kind, argument)?;
    let bytes = write_rec(alloc, &rec);
    drop(rec);
    Ok(bytes?)
}

// The record that two words stand for.
fn record_of(alloc: Global, session: &Session, kind: &str, argument: &str) -> Result<Rec, Fault> {
    match kind {
        "put" => put_record(alloc, session, argument),
        "delete" => Ok(Rec::Delete(path_of(alloc, argument)?)),
        "snap" => Ok(Rec::Snap(number_of(argument)?)),
        _ => Err(Fault::BadLine),
    }
}

// The record that puts the current entry with a text beside it.
fn put_record(alloc: Global, session: &Session, text: &str) -> Result<Rec, Fault> {
    let entry = session.current()?.clone()?;
    let control = bytes_of(alloc, text)?;
    Ok(Rec::Put(entry, control))
}

/// The bytes of a record, or `None` where another is read of them.
pub fn record_bytes(alloc: Global, rec: &Rec) -> Result<Option<Bytes>, Fault> {
    let bytes = write_rec(alloc, rec)?;
    if is_record(alloc, bytes.as_slice(), rec)? {
        Ok(Some(bytes))
    } else {
        Ok(None)
    }
}

// Whether the bytes are read as this record.
fn is_record(alloc: Global, bytes: &[u8], rec: &Rec) -> Result<bool, Fault> {
    match read_rec(alloc, bytes) {
        Ok(again) => Ok(is_same_record(again, rec)),
        Err(fault) => is_nothing(fault),
    }
}

fn is_same_record(again: Rec, rec: &Rec) -> bool {
    let is_same = again == *rec;
    drop(again);
    is_same
}
