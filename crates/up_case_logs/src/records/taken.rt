//! The lines that read bytes, and write again what was read.
use std::alloc::Global;
use up_bytes::{FieldFault, Reader, Writer};
use up_case_lines::{
    Answer, Fault, Words, add_blocks, add_endpoint, add_entry, add_fault, add_record,
    bytes_of_digits,
};
use up_entry::{
    read_blocks, read_endpoint, read_entry, read_path, read_rec, read_user, write_blocks,
    write_endpoint, write_entry,
};

/// A keyword and `HEX`: what is read of these bytes. `read` reads a record that is the whole of them; `entry`, `path`,
/// `username`, `endpoint` and `blocks` read what stands in front.
pub fn taken_line(
    alloc: Global,
    keyword: &str,
    mut words: Words<'_>,
    answer: &mut Answer,
) -> Result<(), Fault> {
    let digits = words.one()?;
    match part_of(keyword) {
        Some(part) => part_line(alloc, part, digits, answer),
        None if keyword == "read" => record_line(alloc, digits, answer),
        None => Err(Fault::BadLine),
    }
}

// The part that a keyword names.
fn part_of(keyword: &str) -> Option<Part> {
    match keyword {
        "entry" => Some(Part::Entry),
        "path" => Some(Part::Path),
        "username" => Some(Part::User),
        "endpoint" => Some(Part::Endpoint),
        "blocks" => Some(Part::Blocks),
        _ => None,
    }
}

// The record that is the whole of the bytes, or the fault.
fn record_line(alloc: Global, digits: &str, answer: &mut Answer) -> Result<(), Fault> {
    let bytes = bytes_of_digits(alloc, digits)?;
    add_record_of(alloc, bytes.as_slice(), answer)
}

/// Adds the words of the record that these bytes are, or the fault.
pub fn add_record_of(alloc: Global, bytes: &[u8], answer: &mut Answer) -> Result<(), Fault> {
    match read_rec(alloc, bytes) {
        Ok(rec) => {
            add_record(alloc, &rec, answer);
            drop(rec);
            Ok(())
        }
        Err(fault) => add_fault(fault, answer),
    }
}

/// What is read from the front of some bytes.
#[derive(Clone, Copy)]
enum Part {
    Entry,
    Path,
    User,
    Endpoint,
    Blocks,
}

// The words of the part that stands in front, and the place behind it; or the fault. A word `differ` follows where the part
// is not written again as it stood, and `moved` where a fault did not leave the place where it was.
fn part_line(alloc: Global, part: Part, digits: &str, answer: &mut Answer) -> Result<(), Fault> {
    let bytes = bytes_of_digits(alloc, digits)?;
    let mut input = Reader::new(bytes.as_slice());
    let mut again = Writer::new(alloc);
    let taken = take_part(alloc, part, &mut input, &mut again, answer);
    let place = input.place();
    match taken {
        Ok(()) => {
            answer.number(place);
            if !is_front(again.as_slice(), bytes.as_slice(), place) {
                answer.word("differ");
            }
            Ok(())
        }
        Err(fault) => add_refusal(fault, place, answer),
    }
}

// A fault that left the place there. It was at 0.
fn add_refusal(fault: FieldFault, place: u64, answer: &mut Answer) -> Result<(), Fault> {
    if place != 0 {
        answer.word("moved");
    }
    add_fault(fault, answer)
}

// Whether these are the bytes in front of the place.
fn is_front(front: &[u8], bytes: &[u8], place: u64) -> bool {
    front.len() as u64 == place && bytes.starts_with(front)
}

// Reads a part, adds its words, and writes it again.
fn take_part(
    alloc: Global,
    part: Part,
    input: &mut Reader<'_>,
    again: &mut Writer,
    answer: &mut Answer,
) -> Result<(), FieldFault> {
    match part {
        Part::Entry => take_entry(alloc, input, again, answer),
        Part::Path => take_path(alloc, input, again, answer),
        Part::User => take_user(alloc, input, again, answer),
        Part::Endpoint => take_endpoint(alloc, input, again, answer),
        Part::Blocks => take_blocks(alloc, input, again, answer),
    }
}

fn take_entry(
    alloc: Global,
    input: &mut Reader<'_>,
    again: &mut Writer,
    answer: &mut Answer,
) -> Result<(), FieldFault> {
    let entry = read_entry(alloc, input)?;
    add_entry(alloc, &entry, answer);
    let written = write_entry(&entry, again);
    drop(entry);
    Ok(written?)
}

fn take_path(
    alloc: Global,
    input: &mut Reader<'_>,
    again: &mut Writer,
    answer: &mut Answer,
) -> Result<(), FieldFault> {
    let path = read_path(alloc, input)?;
    answer.coded(path.as_str().as_bytes());
    Ok(again.text(path.as_str().as_bytes())?)
}

fn take_user(
    alloc: Global,
    input: &mut Reader<'_>,
    again: &mut Writer,
    answer: &mut Answer,
) -> Result<(), FieldFault> {
    let user = read_user(alloc, input)?;
    answer.coded(user.text().as_bytes());
    Ok(again.text(user.text().as_bytes())?)
}

fn take_endpoint(
    alloc: Global,
    input: &mut Reader<'_>,
    again: &mut Writer,
    answer: &mut Answer,
) -> Result<(), FieldFault> {
    let endpoint = read_endpoint(alloc, input)?;
    answer.begin();
    add_endpoint(&endpoint, answer);
    Ok(write_endpoint(&endpoint, again)?)
}

fn take_blocks(
    alloc: Global,
    input: &mut Reader<'_>,
    again: &mut Writer,
    answer: &mut Answer,
) -> Result<(), FieldFault> {
    let blocks = read_blocks(alloc, input)?;
    add_blocks(alloc, blocks.as_slice(), answer);
    Ok(write_blocks(&blocks, again)?)
}
