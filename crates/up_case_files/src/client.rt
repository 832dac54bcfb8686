//! The client: what it gets and puts over a table of requests with their replies. The rows of a table come first, then the
//! table, and then what is got and put over it.
use std::alloc::Global;
use up_bytes::{Bytes, FieldFault, copy_of};
use up_case_lines::{
    Answer, Fault, Topic, Words, bytes_of, bytes_of_digits, int_of, number_of, path_of, user_of,
};
use up_client::{ClientFault, TableAsk, get, put};
use up_lists::Items;
use up_names::{Path, User};
use up_refs::Reference;
use up_text::fault_lines;
use up_wire::{ClientFrame, Done, Reply, Request, ServerFrame, read_client, read_server};

/// The greatest size of a block.
const BLOCK: usize = 1_048_576;

/// How many bytes are shown as they are. Of more their number and their digest are shown.
const SHOWN: u64 = 64;

/// The rows of the next table, and the table that is asked: there is none before the first line `table`.
#[derive(Drop)]
pub struct ClientLines {
    rows: Option<Items<(Request, Reply)>>,
    table: Option<TableAsk>,
}

impl ClientLines {
    pub fn new() -> ClientLines {
        ClientLines {
            rows: None,
            table: None,
        }
    }

    // The rows so far.
    fn rows(&mut self, alloc: Global) -> &mut Items<(Request, Reply)> {
        self.rows.get_or_insert_with(|| Items::new(alloc))
    }

    // `table FAILS`: makes a table of the rows so far, of which the calls with these numbers fail.
    fn table_line(&mut self, alloc: Global, mut words: Words<'_>) -> Result<(), Fault> {
        let fails = numbers_of(alloc, words.one()?)?;
        let rows = self.rows.take().unwrap_or(Items::new(alloc));
        self.table = Some(TableAsk::new(rows, fails));
        Ok(())
    }
}

impl Topic for ClientLines {
    fn turn(&mut self, alloc: Global, line: &str, answer: &mut Answer) -> Result<(), Fault> {
        let mut words = Words::new(line);
        let keyword = words.word()?;
        match keyword {
            "row" => row_line(alloc, self.rows(alloc), words),
            "kept" => kept_line(alloc, self.rows(alloc), words),
            "table" => self.table_line(alloc, words),
            _ => match &mut self.table {
                Some(table) => ask_line(alloc, table, keyword, words, answer),
                None => Err(Fault::BadLine),
            },
        }
    }
}

/// Adds what a line `row HEX HEX` or `kept N` says to the rows of a table.
pub(crate) fn add_row_line(
    alloc: Global,
    rows: &mut Items<(Request, Reply)>,
    line: &str,
) -> Result<(), Fault> {
    let mut words = Words::new(line);
    match words.word()? {
        "row" => row_line(alloc, rows, words),
        "kept" => kept_line(alloc, rows, words),
        _ => Err(Fault::BadLine),
    }
}

// Numbers joined by commas, `-` for none.
fn numbers_of(alloc: Global, word: &str) -> Result<Items<u64>, Fault> {
    let mut numbers = Items::new(alloc);
    if word == "-" {
        return Ok(numbers);
    }
    for number in word.split(',') {
        add_number(number, &mut numbers)?;
    }
    Ok(numbers)
}

fn add_number(word: &str, numbers: &mut Items<u64>) -> Result<(), Fault> {
    numbers.push(number_of(word)?)?;
    Ok(())
}

// `row HEX HEX`: a row of the request and the reply that these messages carry.
fn row_line(
    alloc: Global,
    rows: &mut Items<(Request, Reply)>,
    mut words: Words<'_>,
) -> Result<(), Fault> {
    let (asked, told) = words.two()?;
    let request = request_of(alloc, asked)?;
    match reply_of(alloc, told) {
        Ok(reply) => add_row(rows, request, reply),
        Err(fault) => {
            drop(request);
            Err(fault)
        }
    }
}

fn add_row(
    rows: &mut Items<(Request, Reply)>,
    request: Request,
    reply: Reply,
) -> Result<(), Fault> {
    rows.push((request, reply))?;
    Ok(())
}

pub(crate) fn request_of(alloc: Global, digits: &str) -> Result<Request, Fault> {
    let bytes = bytes_of_digits(alloc, digits)?;
    let frame = read_client(alloc, bytes.as_slice());
    drop(bytes);
    asked_by(frame)
}

fn asked_by(frame: Result<ClientFrame, FieldFault>) -> Result<Request, Fault> {
    match frame {
        Ok(ClientFrame::Ask(request)) => Ok(request),
        other => {
            drop(other);
            Err(Fault::BadLine)
        }
    }
}

// The reply of a server's message; `nomemory` is the one that has none.
fn reply_of(alloc: Global, digits: &str) -> Result<Reply, Fault> {
    if digits == "nomemory" {
        return Ok(Reply::OutOfMemory);
    }
    let bytes = bytes_of_digits(alloc, digits)?;
    let frame = read_server(alloc, bytes.as_slice());
    drop(bytes);
    told_by(frame)
}

fn told_by(frame: Result<ServerFrame, FieldFault>) -> Result<Reply, Fault> {
    match frame {
        Ok(ServerFrame::Answer(reply)) => Ok(reply),
        other => {
            drop(other);
            Err(Fault::BadLine)
        }
    }
}

// `kept N`: rows for each block of the text of N bytes, as a store has them that keeps it when it is put and gives it when
// it is got.
fn kept_line(
    alloc: Global,
    rows: &mut Items<(Request, Reply)>,
    mut words: Words<'_>,
) -> Result<(), Fault> {
    let text = long_text(alloc, words.last_number()?)?;
    for block in text.as_slice().chunks(BLOCK) {
        add_block(alloc, rows, block)?;
    }
    Ok(())
}

fn add_block(alloc: Global, rows: &mut Items<(Request, Reply)>, block: &[u8]) -> Result<(), Fault> {
    let reference = Reference::of(block);
    add_kept(alloc, rows, reference, block)?;
    add_given(alloc, rows, reference, block)
}

fn add_kept(
    alloc: Global,
    rows: &mut Items<(Request, Reply)>,
    reference: Reference,
    block: &[u8],
) -> Result<(), Fault> {
    let bytes = copy_of(alloc, block)?;
    let kept = Reply::Ok(Done::Reference(reference));
    add_row(rows, Request::StorePut(bytes), kept)
}

fn add_given(
    alloc: Global,
    rows: &mut Items<(Request, Reply)>,
    reference: Reference,
    block: &[u8],
) -> Result<(), Fault> {
    let digits = Items::from_vec(reference.text(alloc)?.into_bytes());
    let bytes = copy_of(alloc, block)?;
    let given = Reply::Ok(Done::Bytes(bytes));
    add_row(rows, Request::Get(digits), given)
}

// The text of so many bytes: the one at place i, from 0, is what i leaves of 251.
fn long_text(alloc: Global, size: u64) -> Result<Bytes, Fault> {
    let mut text = Vec::new(alloc);
    for place in 0..size {
        text.push((place % 251) as u8)?;
    }
    Ok(Items::from_vec(text))
}

fn ask_line(
    alloc: Global,
    table: &mut TableAsk,
    keyword: &str,
    words: Words<'_>,
    answer: &mut Answer,
) -> Result<(), Fault> {
    match keyword {
        "get" => get_line(alloc, table, words, answer),
        "put" => put_line(alloc, table, words, answer),
        _ => Err(Fault::BadLine),
    }
}

// `get PATH`: what is got there.
fn get_line(
    alloc: Global,
    table: &mut TableAsk,
    mut words: Words<'_>,
    answer: &mut Answer,
) -> Result<(), Fault> {
    let path = path_of(alloc, words.one()?)?;
    let got = get(alloc, table, &path);
    let added = add_got(alloc, &got, answer);
    drop(got);
    added
}

pub(crate) fn add_got(
    alloc: Global,
    got: &Result<Bytes, ClientFault>,
    answer: &mut Answer,
) -> Result<(), Fault> {
    match got {
        Ok(bytes) => {
            add_bytes(bytes, answer);
            Ok(())
        }
        Err(fault) => add_fault(alloc, fault, answer),
    }
}

// Bytes, or of many of them their number and their digest.
fn add_bytes(bytes: &Bytes, answer: &mut Answer) {
    answer.word("bytes");
    if bytes.len() <= SHOWN {
        answer.coded(bytes.as_slice());
        return;
    }
    answer.number(bytes.len());
    answer.digits(Reference::of(bytes.as_slice()).bytes());
}

// The lines of a fault. `failed` is the one where no answer came.
fn add_fault(alloc: Global, fault: &ClientFault, answer: &mut Answer) -> Result<(), Fault> {
    match fault {
        ClientFault::Failed => answer.word("failed"),
        ClientFault::OutOfMemory => answer.word("nomemory"),
        _ => {
            let lines = fault_lines(alloc, fault)?;
            add_lines(alloc, lines.as_slice(), answer);
        }
    }
    Ok(())
}

pub(crate) fn add_lines(alloc: Global, lines: &[Bytes], answer: &mut Answer) {
    for line in lines {
        answer.part();
        answer.made(String::from_utf8_lossy(alloc, line.as_slice()));
    }
}

// `put USER PATH TIME SEQUENCE TEXT`: where the change stands that puts it. TEXT is a word, or `=N` for the text of N bytes.
fn put_line(
    alloc: Global,
    table: &mut TableAsk,
    mut words: Words<'_>,
    answer: &mut Answer,
) -> Result<(), Fault> {
    let (user, path, time) = words.next_three()?;
    let (sequence, text) = words.two()?;
    let time = int_of(time)?;
    let sequence = int_of(sequence)?;
    let user = user_of(alloc, user)?;
    match path_of(alloc, path) {
        Ok(path) => {
            let to = To {
                user: &user,
                path: &path,
                time,
                sequence,
            };
            let done = put_text(alloc, table, to, text, answer);
            drop(path);
            drop(user);
            done
        }
        Err(fault) => {
            drop(user);
            Err(fault)
        }
    }
}

// Where a file is put.
#[derive(Clone, Copy)]
struct To<'a> {
    user: &'a User,
    path: &'a Path,
    time: i64,
    sequence: i64,
}

fn put_text(
    alloc: Global,
    table: &mut TableAsk,
    to: To<'_>,
    word: &str,
    answer: &mut Answer,
) -> Result<(), Fault> {
    let text = told_text(alloc, word)?;
    let done = put(
        alloc,
        table,
        to.user,
        to.path,
        to.time,
        to.sequence,
        text.as_slice(),
    );
    let added = add_put(alloc, &done, answer);
    drop(done);
    added
}

fn add_put(
    alloc: Global,
    done: &Result<u64, ClientFault>,
    answer: &mut Answer,
) -> Result<(), Fault> {
    match done {
        Ok(position) => {
            answer.word("ok");
            answer.number(*position);
            Ok(())
        }
        Err(fault) => add_fault(alloc, fault, answer),
    }
}

fn told_text(alloc: Global, word: &str) -> Result<Bytes, Fault> {
    match word.strip_prefix('=') {
        Some(size) => long_text(alloc, number_of(size)?),
        None => bytes_of(alloc, word),
    }
}
