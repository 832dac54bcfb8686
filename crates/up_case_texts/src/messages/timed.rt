//! What is timed: a reply of many rows is written and read, and its bytes are copied.
use std::alloc::{AllocError, Global};
use up_bytes::{Bytes, FieldFault, Writer, copy_of};
use up_case_lines::{Answer, Fault, bytes_of_digits, number_of};
use up_wire::{ServerFrame, read_server, write_server};

/// How often each is done.
const TURNS: u64 = 40;

/// A row: no rest, and a file of `ann@a.example` at `a/directory/and/a/file`, without blocks.
const ROW: &str =
    "0024616E6E40612E6578616D706C652F612F6469726563746F72792F616E642F612F66696C6524616E6E40612E6578616D706C652F612F6469726563746F72792F616E642F612F66696C650180C49FD50C0D616E6E40612E6578616D706C6500000000AC02";

/// `makes N`: how many bytes the reply has that gives N rows alike. `writes N`, `reads N` and `copies N`: how many bytes of
/// it are written, read, or copied as they stand, in forty turns.
pub fn timed_line(
    alloc: Global,
    keyword: &str,
    count: &str,
    answer: &mut Answer,
) -> Result<(), Fault> {
    let bytes = message(alloc, number_of(count)?)?;
    let read = read_server(alloc, bytes.as_slice());
    add_turned(alloc, keyword, &read, &bytes, answer);
    drop(read);
    Ok(())
}

fn add_turned(
    alloc: Global,
    keyword: &str,
    read: &Result<ServerFrame, FieldFault>,
    bytes: &Bytes,
    answer: &mut Answer,
) {
    match read {
        Ok(_) if keyword == "makes" => answer.number(bytes.len()),
        Ok(frame) => answer.number(turned(alloc, keyword, frame, bytes)),
        Err(_) => answer.word("unread"),
    }
}

// How many bytes come of all turns.
fn turned(alloc: Global, keyword: &str, frame: &ServerFrame, bytes: &Bytes) -> u64 {
    let mut size = 0u64;
    for _ in 0..TURNS {
        size = size.saturating_add(turn(alloc, keyword, frame, bytes));
    }
    size
}

// How many bytes come of a turn, none where there is no memory for it.
fn turn(alloc: Global, keyword: &str, frame: &ServerFrame, bytes: &Bytes) -> u64 {
    match keyword {
        "writes" => len_of(write_server(alloc, frame)),
        "reads" => len_read(alloc, bytes),
        _ => len_of(copy_of(alloc, bytes.as_slice())),
    }
}

fn len_of(made: Result<Bytes, AllocError>) -> u64 {
    match made {
        Ok(bytes) => bytes.len(),
        Err(_) => 0,
    }
}

fn len_read(alloc: Global, bytes: &Bytes) -> u64 {
    match read_server(alloc, bytes.as_slice()).err() {
        None => bytes.len(),
        Some(_) => 0,
    }
}

// The message of the reply that gives so many rows.
fn message(alloc: Global, count: u64) -> Result<Bytes, Fault> {
    let row = bytes_of_digits(alloc, ROW)?;
    let mut out = Writer::new(alloc);
    add_rows(&mut out, row.as_slice(), count)?;
    Ok(out.finish())
}

// What is done, its shape, the number of rows, and each row.
fn add_rows(out: &mut Writer, row: &[u8], count: u64) -> Result<(), AllocError> {
    out.raw(&[0, 3])?;
    out.num(count)?;
    for _ in 0..count {
        out.raw(row)?;
    }
    Ok(())
}
