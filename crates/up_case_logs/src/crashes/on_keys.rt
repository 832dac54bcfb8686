//! Commands of a key server's log.
ghost use Rattle.std.specs.Prelude.{IfOk};
ghost use Rattle.up_keys.specs.Answers.{IsAsked};

use super::on_disk::add_outcome;
use super::on_journal::add_open_fault;
use super::replies::{add_key, add_reply};
use super::watched::Watched;
use super::{add_counted, so_many};
use std::alloc::Global;
use up_bytes::Bytes;
use up_case_lines::{Answer, Fault, Words, bytes_of, number_of, user_of};
use up_entry::Endpoint;
use up_journal::Limits;
use up_keys::{Keys, key_step};
use up_lists::Items;
use up_names::User;
use up_wire::{KeyCard, Request};

/// The least that the limits leave for a record.
pub const ROOM: u64 = 8_192;

/// The limits with which images are opened.
const IMAGE_LIMITS: Limits = Limits {
    records: 1_000,
    device: 1 << 20,
    largest: ROOM,
};

/// The longest key, and the longest address, that a line asks for by a number.
const LONGEST: u64 = 1 << 12;

/// Does one command of a key server's log, or answers `false` where it is none.
pub fn turn(
    alloc: Global,
    keys: &mut Keys<Watched>,
    mut words: Words<'_>,
    answer: &mut Answer,
) -> Result<bool, Fault> {
    match words.word()? {
        "look" => look_line(alloc, keys, words, answer)?,
        "step" => step_line(alloc, keys, words, answer)?,
        "count" => add_counted("records", keys.position(), answer),
        "resolve" => add_outcome(keys.resolve(), answer),
        _ => return Ok(false),
    }
    Ok(true)
}

// `look USER`: the record that the log has for a user.
fn look_line(
    alloc: Global,
    keys: &Keys<Watched>,
    mut words: Words<'_>,
    answer: &mut Answer,
) -> Result<(), Fault> {
    let user = user_of(alloc, words.one()?)?;
    match keys.lookup(&user) {
        Some(known) => add_key(known, answer),
        None => answer.word("none"),
    }
    Ok(())
}

// `step USER key NAME`, `step USER setkey NAME DIRS STORES KEY`: the reply to a user's request.
fn step_line(
    alloc: Global,
    keys: &mut Keys<Watched>,
    mut words: Words<'_>,
    answer: &mut Answer,
) -> Result<(), Fault> {
    let user = words.word()?;
    let request = request_of(alloc, words)?;
    step_as(alloc, keys, user, &request, answer)
}

fn step_as(
    alloc: Global,
    keys: &mut Keys<Watched>,
    user: &str,
    request: &Request,
    answer: &mut Answer,
) -> Result<(), Fault>
    requires { IsAsked request.now }
{
    let user = user_of(alloc, user)?;
    let reply = key_step(keys, &user, request);
    Ok(add_reply(alloc, reply, answer)?)
}

fn request_of(alloc: Global, mut words: Words<'_>) -> Result<Request, Fault>
    ensures { IfOk result IsAsked }
{
    match words.word()? {
        "key" => Ok(Request::KeyLookup(bytes_of(alloc, words.one()?)?)),
        "setkey" => Ok(Request::KeyPut(card_of(alloc, words)?)),
        _ => Err(Fault::BadLine),
    }
}

// `NAME DIRS STORES KEY`.
fn card_of(alloc: Global, mut words: Words<'_>) -> Result<KeyCard, Fault> {
    let user = bytes_of(alloc, words.word()?)?;
    let (dirs, stores, key) = words.three()?;
    card_with(alloc, user, dirs, stores, key)
}

fn card_with(
    alloc: Global,
    user: Bytes,
    dirs: &str,
    stores: &str,
    key: &str,
) -> Result<KeyCard, Fault> {
    Ok(KeyCard {
        user,
        dirs: endpoints_of(alloc, dirs)?,
        stores: endpoints_of(alloc, stores)?,
        key: told_bytes(alloc, key)?,
    })
}

// Endpoints joined by commas, or `-` for none.
fn endpoints_of(alloc: Global, word: &str) -> Result<Items<Endpoint>, Fault> {
    let mut endpoints = Items::new(alloc);
    if word == "-" {
        return Ok(endpoints);
    }
    for piece in word.split(',') {
        endpoints.push(endpoint_of(alloc, piece)?)?;
    }
    Ok(endpoints)
}

// `local`, or an address.
fn endpoint_of(alloc: Global, piece: &str) -> Result<Endpoint, Fault> {
    if piece == "local" {
        return Ok(Endpoint::Local);
    }
    Ok(Endpoint::Address(told_bytes(alloc, piece)?))
}

// A word's bytes, or for `*N` so many bytes `k`.
fn told_bytes(alloc: Global, word: &str) -> Result<Bytes, Fault> {
    match word.strip_prefix('*') {
        Some(number) => Ok(so_many(alloc, b'k', number_of(number)?.min(LONGEST))?),
        None => bytes_of(alloc, word),
    }
}

/// Adds how many records a key server's log over a disk has, and the key of `ann@a.example`, or why it is refused.
pub fn add_key_log(alloc: Global, disk: Watched, answer: &mut Answer) -> Result<(), Fault> {
    let ann = user_of(alloc, "ann@a.example")?;
    match Keys::open(alloc, disk, IMAGE_LIMITS) {
        Ok(keys) => add_key_of(&keys, &ann, answer),
        Err(fault) => add_open_fault(fault.why, answer),
    }
    Ok(())
}

// The number of records, and a user's key.
fn add_key_of(keys: &Keys<Watched>, user: &User, answer: &mut Answer) {
    answer.number(keys.position());
    match keys.lookup(user) {
        Some(known) => answer.coded(known.key.as_slice()),
        None => answer.word("none"),
    }
}
