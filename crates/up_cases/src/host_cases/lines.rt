//! The lines about the host of a name, beside what it is asked.
ghost use Rattle.std.specs.Prelude.{◌≡◌, true};
ghost use Rattle.up_keys.specs.Records.{has_bounds};

use crate::host_cases::events::add_reply;
use std::alloc::Global;
use up_case_lines::{Answer, Fault, Words, bytes_of, path_of, user_of};
use up_case_logs::add_appended;
use up_disk::MemDisk;
use up_host::Host;
use up_journal::AppendWhy;
use up_keys::keeps_bounds;
use up_lists::Items;
use up_names::{Path, User};
use up_wire::{KeyRecord, Reply};

/// `enrol NAME USER KEY`: `ok` and the position, or why not. The record has no endpoints.
pub fn enrol_line(
    alloc: Global,
    host: &mut Host<MemDisk>,
    mut words: Words<'_>,
    answer: &mut Answer,
) -> Result<(), Fault> {
    let (user, key) = words.two()?;
    let card = card_of(alloc, user, key)?;
    enrol(host, card, answer)
}

fn card_of(alloc: Global, user: &str, key: &str) -> Result<KeyRecord, Fault> {
    let user = user_of(alloc, user)?;
    match bytes_of(alloc, key) {
        Ok(key) => Ok(KeyRecord {
            user,
            dirs: Items::new(alloc),
            stores: Items::new(alloc),
            key,
        }),
        Err(fault) => {
            drop(user);
            Err(fault)
        }
    }
}

// A key that is empty or too long does not fit.
fn enrol(host: &mut Host<MemDisk>, card: KeyRecord, answer: &mut Answer) -> Result<(), Fault> {
    if has_bounds(&card) {
        add_appended(enrolled(host, card), answer);
        return Ok(());
    }
    drop(card);
    Err(Fault::BadLine)
}

fn has_bounds(card: &KeyRecord) -> bool
    ensures { result ≡ has_bounds card.now }
{
    keeps_bounds(
        card.dirs.as_slice(),
        card.stores.as_slice(),
        card.key.as_slice(),
    )
}

// The position of a record, of which nothing else is known.
fn enrolled(host: &mut Host<MemDisk>, card: KeyRecord) -> Result<u64, AppendWhy>
    requires { has_bounds card ≡ true }
{
    host.enrol(card)
}

/// `key NAME USER`: the key of the user's record.
pub fn key_line(
    alloc: Global,
    host: &Host<MemDisk>,
    mut words: Words<'_>,
    answer: &mut Answer,
) -> Result<(), Fault> {
    let user = user_of(alloc, words.one()?)?;
    add_key(host, &user, answer);
    drop(user);
    Ok(())
}

fn add_key(host: &Host<MemDisk>, user: &User, answer: &mut Answer) {
    match host.key_record(user) {
        Some(card) => answer.coded(card.key.as_slice()),
        None => answer.word("none"),
    }
}

/// `text NAME USER PATH`: what a user is answered who asks for the text of a group.
pub fn text_line(
    alloc: Global,
    host: &Host<MemDisk>,
    mut words: Words<'_>,
    answer: &mut Answer,
) -> Result<(), Fault> {
    let (user, path) = words.two()?;
    let reply = text_reply(alloc, host, user, path)?;
    let added = add_reply(alloc, &reply, answer);
    drop(reply);
    added
}

fn text_reply(alloc: Global, host: &Host<MemDisk>, user: &str, path: &str) -> Result<Reply, Fault> {
    let user = user_of(alloc, user)?;
    let reply = text_for(alloc, host, &user, path);
    drop(user);
    reply
}

fn text_for(alloc: Global, host: &Host<MemDisk>, user: &User, path: &str) -> Result<Reply, Fault> {
    let path = path_of(alloc, path)?;
    let reply = group_text(alloc, host, user, &path);
    drop(path);
    Ok(reply)
}

// The reply, of which nothing else is known.
fn group_text(alloc: Global, host: &Host<MemDisk>, user: &User, path: &Path) -> Reply {
    host.group_text(alloc, user, path)
}
