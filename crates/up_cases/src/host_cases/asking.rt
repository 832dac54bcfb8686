//! What a user asks of a host.
use crate::host_cases::events::{add_event, add_reply};
use crate::host_cases::requests::{File, file_request, line_request, store_request};
use crate::host_cases::served::Served;
use std::alloc::Global;
use up_case_lines::{Answer, Fault, Words};
use up_disk::MemDisk;
use up_host::Host;
use up_peer::{Loader, Peers};
use up_sign::Session;
use up_wire::{Reply, Request};

/// Asks a host that has no peers, as [`ask`] does.
pub fn ask_alone(
    alloc: Global,
    host: &mut Host<MemDisk>,
    words: Words<'_>,
    answer: &mut Answer,
) -> Result<(), Fault> {
    let mut nobody = Peers::new(alloc);
    let asked = ask(alloc, host, &mut nobody, words, answer);
    drop(nobody);
    asked
}

/// `USER WORDS`: what comes of what the words of a script ask. Besides, `put PATH TIME SEQ BYTES` has the bytes stored first, as one
/// block, and `remote PATH TIME SEQ ADDRESS BYTES` says that the block is at an address.
pub fn ask<S: Served, L: Loader>(
    alloc: Global,
    host: &mut S,
    loader: &mut L,
    mut words: Words<'_>,
    answer: &mut Answer,
) -> Result<(), Fault> {
    let name = words.word()?;
    match host.session(alloc, name)? {
        Some(session) => {
            let asked = ask_as(alloc, host, loader, &session, words, answer);
            drop(session);
            asked
        }
        None => {
            answer.word("notsigned");
            Ok(())
        }
    }
}

fn ask_as<S: Served, L: Loader>(
    alloc: Global,
    host: &mut S,
    loader: &mut L,
    session: &Session,
    mut words: Words<'_>,
    answer: &mut Answer,
) -> Result<(), Fault> {
    let line = words.some()?;
    match words.word()? {
        "put" => put(alloc, host, loader, session, file_told(words)?, answer),
        "remote" => put_file(alloc, host, loader, session, remote_told(words)?, answer),
        _ => {
            let request = line_request(alloc, session.user(), line)?;
            ask_request(alloc, host, loader, session, request, answer)
        }
    }
}

// Asks what a line asks.
fn ask_request<S: Served, L: Loader>(
    alloc: Global,
    host: &mut S,
    loader: &mut L,
    session: &Session,
    request: Request,
    answer: &mut Answer,
) -> Result<(), Fault> {
    let event = host.event(alloc, loader, session, &request);
    drop(request);
    let added = add_event(alloc, &event, answer);
    drop(event);
    added
}

// The bytes are stored, and then the file is put. No bytes are no block.
fn put<S: Served, L: Loader>(
    alloc: Global,
    host: &mut S,
    loader: &mut L,
    session: &Session,
    file: File<'_>,
    answer: &mut Answer,
) -> Result<(), Fault> {
    if file.bytes == "-" || store(alloc, host, loader, session, file.bytes, answer)? {
        return put_file(alloc, host, loader, session, file, answer);
    }
    Ok(())
}

fn put_file<S: Served, L: Loader>(
    alloc: Global,
    host: &mut S,
    loader: &mut L,
    session: &Session,
    file: File<'_>,
    answer: &mut Answer,
) -> Result<(), Fault> {
    let request = file_request(alloc, session.user(), file)?;
    ask_request(alloc, host, loader, session, request, answer)
}

// Stores the bytes of a word. Where they are not stored, the answer says why.
fn store<S: Served, L: Loader>(
    alloc: Global,
    host: &mut S,
    loader: &mut L,
    session: &Session,
    word: &str,
    answer: &mut Answer,
) -> Result<bool, Fault> {
    let request = store_request(alloc, word)?;
    let event = host.event(alloc, loader, session, &request);
    drop(request);
    let stored = is_stored(alloc, &event.reply, answer);
    drop(event);
    stored
}

fn is_stored(alloc: Global, reply: &Reply, answer: &mut Answer) -> Result<bool, Fault> {
    if let Reply::Ok(_) = reply {
        return Ok(true);
    }
    add_reply(alloc, reply, answer)?;
    Ok(false)
}

// `PATH TIME SEQ BYTES`.
fn file_told(mut words: Words<'_>) -> Result<File<'_>, Fault> {
    let (path, time, sequence) = words.next_three()?;
    let bytes = words.one()?;
    Ok(File {
        path,
        time,
        sequence,
        address: "-",
        bytes,
    })
}

// `PATH TIME SEQ ADDRESS BYTES`.
fn remote_told(mut words: Words<'_>) -> Result<File<'_>, Fault> {
    let (path, time, sequence) = words.next_three()?;
    let (address, bytes) = words.two()?;
    Ok(File {
        path,
        time,
        sequence,
        address,
        bytes,
    })
}
