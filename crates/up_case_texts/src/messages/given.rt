//! What a server sends.
use super::known::add_record;
use super::read::Message;
use std::alloc::{AllocError, Global};
use up_bytes::{Bytes, FieldFault};
use up_case_lines::{Answer, add_entry, what_word};
use up_entry::{Entry, What};
use up_refs::Reference;
use up_wire::{Done, Reply, Row, ServerFrame, WatchEvent, read_server, reply_size, write_server};

impl Message for ServerFrame {
    fn read(alloc: Global, bytes: &[u8]) -> Result<ServerFrame, FieldFault> {
        read_server(alloc, bytes)
    }

    fn written(&self, alloc: Global) -> Result<Bytes, AllocError> {
        write_server(alloc, self)
    }

    fn has_size(&self, bytes: u64) -> bool {
        match self {
            ServerFrame::Answer(given) => reply_size(given) == bytes,
            _ => true,
        }
    }

    fn add(&self, alloc: Global, answer: &mut Answer) {
        add_server(alloc, self, answer);
    }
}

fn add_server(alloc: Global, frame: &ServerFrame, answer: &mut Answer) {
    match frame {
        ServerFrame::Challenge(bytes) => {
            answer.word("challenge");
            answer.digits(bytes);
        }
        ServerFrame::Welcome => answer.word("welcome"),
        ServerFrame::NotSigned => answer.word("notsigned"),
        ServerFrame::Answer(given) => add_reply(alloc, given, answer),
    }
}

fn add_reply(alloc: Global, given: &Reply, answer: &mut Answer) {
    match given {
        Reply::Ok(done) => add_done(alloc, done, answer),
        Reply::Invalid(what) => add_what(*what, answer),
        Reply::WrongHost => answer.word("wronghost"),
        Reply::FollowLink(entry) => add_named(alloc, "followlink", entry, answer),
        Reply::Private => answer.word("private"),
        Reply::Permission(right) => {
            answer.word("permission");
            answer.word(right.word());
        }
        Reply::NotExist => answer.word("notexist"),
        Reply::NotDir => answer.word("notdir"),
        Reply::IsDir => answer.word("isdir"),
        Reply::Exist => answer.word("exist"),
        Reply::BadSequence(current) => add_number("badsequence", *current, answer),
        Reply::NotEmpty => answer.word("notempty"),
        Reply::BadBlock(reference) => add_reference(alloc, "badblock", reference, answer),
        Reply::BadText(line) => add_number("badtext", *line, answer),
        Reply::TooLarge(size) => add_number("toolarge", *size, answer),
        Reply::Full(records) => add_number("full", *records, answer),
        Reply::Io => answer.word("io"),
        Reply::OutOfMemory => answer.word("outofmemory"),
    }
}

fn add_what(what: What, answer: &mut Answer) {
    answer.word("invalid");
    answer.word(what_word(what));
    if let What::Pattern(element) = what {
        answer.number(element);
    }
}

fn add_done(alloc: Global, done: &Done, answer: &mut Answer) {
    match done {
        Done::Changed(position) => add_number("changed", *position, answer),
        Done::Entry(entry) => add_named(alloc, "entry", entry, answer),
        Done::Rows(rows) => add_rows(alloc, rows.as_slice(), answer),
        Done::Access(None) => answer.word("access none"),
        Done::Access(Some(entry)) => add_named(alloc, "access", entry, answer),
        Done::Events(events, next) => add_events(alloc, events.as_slice(), *next, answer),
        Done::Text(text) => add_bytes("text", text, answer),
        Done::Reference(reference) => add_reference(alloc, "ref", reference, answer),
        Done::Bytes(bytes) => add_bytes("bytes", bytes, answer),
        Done::Key(known) => {
            answer.word("key");
            add_record(known, answer);
        }
    }
}

// The number of rows, and each behind `; `.
fn add_rows(alloc: Global, rows: &[Row], answer: &mut Answer) {
    add_number("rows", rows.len() as u64, answer);
    for row in rows {
        answer.part();
        answer.number(row.rest);
        add_entry(alloc, &row.entry, answer);
    }
}

// The number of events and the sequence to go on from, and each event behind `; `.
fn add_events(alloc: Global, events: &[WatchEvent], next: u64, answer: &mut Answer) {
    add_number("events", events.len() as u64, answer);
    answer.number(next);
    for event in events {
        answer.part();
        answer.number(event.position);
        answer.word(if event.delete { "delete" } else { "put" });
        add_entry(alloc, &event.entry, answer);
    }
}

fn add_number(word: &str, number: u64, answer: &mut Answer) {
    answer.word(word);
    answer.number(number);
}

fn add_bytes(word: &str, bytes: &Bytes, answer: &mut Answer) {
    answer.word(word);
    answer.coded(bytes.as_slice());
}

fn add_named(alloc: Global, word: &str, entry: &Entry, answer: &mut Answer) {
    answer.word(word);
    add_entry(alloc, entry, answer);
}

fn add_reference(alloc: Global, word: &str, reference: &Reference, answer: &mut Answer) {
    answer.word(word);
    answer.begin();
    answer.made(reference.text(alloc));
}
