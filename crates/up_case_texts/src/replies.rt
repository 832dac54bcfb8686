//! The lines that tell a reply. A line stands alone.
use std::alloc::{AllocError, Global};
use up_bytes::{Bytes, FieldFault};
use up_case_lines::{Answer, Fault, Topic, Words, bytes_of_digits};
use up_text::reply_lines;
use up_wire::{Reply, ServerFrame, read_server};

/// Lines about the lines of replies. They keep nothing.
#[derive(Clone, Copy)]
pub struct Replies;

impl Topic for Replies {
    fn turn(&mut self, alloc: Global, line: &str, answer: &mut Answer) -> Result<(), Fault> {
        let mut words = Words::new(line);
        match words.word()? {
            "tell" => tell_line(alloc, words.one()?, answer),
            _ => Err(Fault::BadLine),
        }
    }
}

// `tell HEX`: the lines that tell the reply whose message these bytes are, parted by ` / `; `none` where there is no line.
// In a line each byte that is no printing character is coded, and so is `%`.
fn tell_line(alloc: Global, digits: &str, answer: &mut Answer) -> Result<(), Fault> {
    let bytes = bytes_of_digits(alloc, digits)?;
    let read = read_server(alloc, bytes.as_slice());
    let told = add_told(alloc, &read, answer);
    drop(read);
    told
}

fn add_told(
    alloc: Global,
    read: &Result<ServerFrame, FieldFault>,
    answer: &mut Answer,
) -> Result<(), Fault> {
    match read {
        Ok(ServerFrame::Answer(given)) => Ok(add_reply(alloc, given, answer)?),
        Ok(_) => Ok(()),
        Err(_) => Err(Fault::BadLine),
    }
}

fn add_reply(alloc: Global, given: &Reply, answer: &mut Answer) -> Result<(), AllocError> {
    let lines = reply_lines(alloc, given)?;
    add_lines(lines.as_slice(), answer);
    Ok(())
}

fn add_lines(lines: &[Bytes], answer: &mut Answer) {
    if lines.is_empty() {
        answer.word("none");
    }
    for (place, line) in lines.iter().enumerate() {
        if place > 0 {
            answer.word("/");
        }
        add_line(line.as_slice(), answer);
    }
}

// Adds a line, its words coded once more.
fn add_line(line: &[u8], answer: &mut Answer) {
    for word in line.split(|b| *b == b' ') {
        answer.coded(word);
    }
}
