//! The lines that tell a reply.

ghost use Rattle.std.specs.Prelude.{◌≡◌, ◌++◌, [], ◌∷◌, drop, IfOk, OnOk, codes, decimal, map};
ghost use Rattle.std.specs.List.{flat_map};
ghost use Rattle.up_refs.specs.References.{text_of};
ghost use Rattle.up_text.specs.Entries.{entry_words};
ghost use Rattle.up_text.specs.Lines.{behind_spaces, spaced};
ghost use Rattle.up_text.specs.Replies.{done_words, element_words, event_words, first_text, further_words, key_words, line_behind, reply_lines, reply_words, row_words, what_word};
ghost use Rattle.up_text.specs.Words.{coded};

use crate::entries::{add_endpoints, add_entry, add_num, add_plain, add_reference, add_text};
use std::alloc::{AllocError, Global};
use up_bytes::Bytes;
use up_entry::{Entry, What};
use up_lists::Items;
use up_refs::Reference;
use up_wire::{Done, KeyRecord, Reply, Row, WatchEvent};

/// The lines that tell a reply, each without the session's number and its LF. There is none for want of memory.
#[tactic(auto, unfolding(crate::specs::Replies::reply_lines))]
pub fn reply_lines(alloc: Global, reply: &Reply) -> Result<Items<Bytes>, AllocError>
    ensures { IfOk result (λ lines. lines ≡ reply_lines reply.now) }
{
    let mut lines = Vec::new(alloc);
    add_lines(alloc, &mut lines, reply)?;
    Ok(Items::from_vec(lines))
}

/// Adds the lines that tell a reply to a text, each behind this front, and with its LF. There is none for want of memory. An `Err` may leave
/// a part of them there.
pub fn push_reply(out: &mut Vec<u8>, front: &[u8], reply: &Reply) -> Result<(), AllocError>
    ensures { OnOk result (out.new.items ≡ out.old.items
        ++ flat_map (line_behind front.now) (reply_lines reply.now)) }
{
    if let Reply::OutOfMemory = reply {
        return Ok(());
    }
    out.extend_from_slice(front)?;
    add_first(out, reply)?;
    out.push(b'\n')?;
    push_further(out, front, reply)
}

// ---- the lines one by one

/// Adds the lines of a reply.
pub(crate) fn add_lines(
    alloc: Global,
    lines: &mut Vec<Bytes>,
    reply: &Reply,
) -> Result<(), AllocError>
    ensures { OnOk result (lines.new.items ≡ lines.old.items
        ++ map (λ words. spaced words) (reply_words reply.now)) }
{
    if let Reply::OutOfMemory = reply {
        return Ok(());
    }
    let mut line = Vec::new(alloc);
    add_first(&mut line, reply)?;
    add_line(lines, line)?;
    add_further(alloc, lines, reply)
}

/// Adds a line.
pub(crate) fn add_line(lines: &mut Vec<Bytes>, line: Vec<u8>) -> Result<(), AllocError>
    ensures { OnOk result (lines.new.items ≡ lines.old.items ++ line.items ∷ []) }
{
    lines.push(Items::from_vec(line))?;
    Ok(())
}

/// Adds the lines behind the first one of a reply.
#[tactic(auto, unfolding(crate::specs::Replies::reply_words))]
fn add_further(alloc: Global, lines: &mut Vec<Bytes>, reply: &Reply) -> Result<(), AllocError>
    ensures { OnOk result (lines.new.items ≡ lines.old.items
        ++ map (λ words. spaced words) (drop 1 (reply_words reply.now))) }
{
    match reply {
        Reply::Ok(done) => add_behind(alloc, lines, done),
        Reply::Invalid(_)
        | Reply::WrongHost
        | Reply::FollowLink(_)
        | Reply::Private
        | Reply::Permission(_)
        | Reply::NotExist
        | Reply::NotDir
        | Reply::IsDir
        | Reply::Exist
        | Reply::BadSequence(_)
        | Reply::NotEmpty
        | Reply::BadBlock(_)
        | Reply::BadText(_)
        | Reply::TooLarge(_)
        | Reply::Full(_)
        | Reply::Io
        | Reply::OutOfMemory => Ok(()),
    }
}

/// Adds the lines behind the first one of what was done.
#[tactic(auto, unfolding(crate::specs::Replies::further_words))]
fn add_behind(alloc: Global, lines: &mut Vec<Bytes>, done: &Done) -> Result<(), AllocError>
    ensures { OnOk result (lines.new.items ≡ lines.old.items
        ++ map (λ words. spaced words) (further_words done.now)) }
{
    match done {
        Done::Rows(rows) => add_rows(alloc, lines, rows.as_slice()),
        Done::Events(events, _) => add_events(alloc, lines, events.as_slice()),
        Done::Changed(_)
        | Done::Entry(_)
        | Done::Access(_)
        | Done::Text(_)
        | Done::Reference(_)
        | Done::Bytes(_)
        | Done::Key(_) => Ok(()),
    }
}

/// Adds a line for each row.
fn add_rows(alloc: Global, lines: &mut Vec<Bytes>, rows: &[Row]) -> Result<(), AllocError>
    ensures { OnOk result (lines.new.items
        ≡ lines.old.items ++ map (λ words. spaced words) (map (λ row. row_words row) rows.now)) }
{
    for row in rows {
        add_row(alloc, lines, row)?;
    }
    Ok(())
}

/// Adds the line of a row.
fn add_row(alloc: Global, lines: &mut Vec<Bytes>, row: &Row) -> Result<(), AllocError>
    ensures { OnOk result (lines.new.items ≡ lines.old.items ++ spaced (row_words row.now) ∷ []) }
{
    let mut line = Vec::new(alloc);
    tell_row(&mut line, row)?;
    add_line(lines, line)
}

/// Adds a line for each event.
fn add_events(
    alloc: Global,
    lines: &mut Vec<Bytes>,
    events: &[WatchEvent],
) -> Result<(), AllocError>
    ensures { OnOk result (lines.new.items
        ≡ lines.old.items
        ++ map (λ words. spaced words) (map (λ event. event_words event) events.now)) }
{
    for event in events {
        add_event(alloc, lines, event)?;
    }
    Ok(())
}

/// Adds the line of an event.
fn add_event(alloc: Global, lines: &mut Vec<Bytes>, event: &WatchEvent) -> Result<(), AllocError>
    ensures { OnOk result (lines.new.items ≡ lines.old.items
        ++ spaced (event_words event.now) ∷ []) }
{
    let mut line = Vec::new(alloc);
    tell_event(&mut line, event)?;
    add_line(lines, line)
}

// ---- all lines in one text

/// Adds the lines behind the first one of a reply, each behind this front.
#[tactic(auto, unfolding(crate::specs::Replies::reply_words))]
fn push_further(out: &mut Vec<u8>, front: &[u8], reply: &Reply) -> Result<(), AllocError>
    ensures { OnOk result (out.new.items ≡ out.old.items
        ++ flat_map (λ words. line_behind front.now (spaced words))
        (drop 1 (reply_words reply.now))) }
{
    match reply {
        Reply::Ok(done) => push_behind(out, front, done),
        Reply::Invalid(_)
        | Reply::WrongHost
        | Reply::FollowLink(_)
        | Reply::Private
        | Reply::Permission(_)
        | Reply::NotExist
        | Reply::NotDir
        | Reply::IsDir
        | Reply::Exist
        | Reply::BadSequence(_)
        | Reply::NotEmpty
        | Reply::BadBlock(_)
        | Reply::BadText(_)
        | Reply::TooLarge(_)
        | Reply::Full(_)
        | Reply::Io
        | Reply::OutOfMemory => Ok(()),
    }
}

/// Adds the lines behind the first one of what was done.
#[tactic(auto, unfolding(crate::specs::Replies::further_words))]
fn push_behind(out: &mut Vec<u8>, front: &[u8], done: &Done) -> Result<(), AllocError>
    ensures { OnOk result (out.new.items ≡ out.old.items
        ++ flat_map (λ words. line_behind front.now (spaced words)) (further_words done.now)) }
{
    match done {
        Done::Rows(rows) => push_rows(out, front, rows.as_slice()),
        Done::Events(events, _) => push_events(out, front, events.as_slice()),
        Done::Changed(_)
        | Done::Entry(_)
        | Done::Access(_)
        | Done::Text(_)
        | Done::Reference(_)
        | Done::Bytes(_)
        | Done::Key(_) => Ok(()),
    }
}

/// Adds a line for each row.
fn push_rows(out: &mut Vec<u8>, front: &[u8], rows: &[Row]) -> Result<(), AllocError>
    ensures { OnOk result (out.new.items ≡ out.old.items
        ++ flat_map (λ words. line_behind front.now (spaced words))
        (map (λ row. row_words row) rows.now)) }
{
    for row in rows {
        push_row(out, front, row)?;
    }
    Ok(())
}

/// Adds the line of a row.
fn push_row(out: &mut Vec<u8>, front: &[u8], row: &Row) -> Result<(), AllocError>
    ensures { OnOk result (out.new.items ≡ out.old.items
        ++ line_behind front.now (spaced (row_words row.now))) }
{
    out.extend_from_slice(front)?;
    tell_row(out, row)?;
    out.push(b'\n')?;
    Ok(())
}

/// Adds a line for each event.
fn push_events(out: &mut Vec<u8>, front: &[u8], events: &[WatchEvent]) -> Result<(), AllocError>
    ensures { OnOk result (out.new.items ≡ out.old.items
        ++ flat_map (λ words. line_behind front.now (spaced words))
        (map (λ event. event_words event) events.now)) }
{
    for event in events {
        push_event(out, front, event)?;
    }
    Ok(())
}

/// Adds the line of an event.
fn push_event(out: &mut Vec<u8>, front: &[u8], event: &WatchEvent) -> Result<(), AllocError>
    ensures { OnOk result (out.new.items ≡ out.old.items
        ++ line_behind front.now (spaced (event_words event.now))) }
{
    out.extend_from_slice(front)?;
    tell_event(out, event)?;
    out.push(b'\n')?;
    Ok(())
}

// ---- the text of a line

/// Adds the first line of a reply.
#[tactic(auto, unfolding(crate::specs::Replies::reply_words))]
fn add_first(out: &mut Vec<u8>, reply: &Reply) -> Result<(), AllocError>
    ensures { OnOk result (out.new.items ≡ out.old.items ++ first_text (reply_words reply.now)) }
{
    match reply {
        Reply::Ok(done) => tell_done(out, done),
        Reply::Invalid(what) => tell_invalid(out, *what),
        Reply::WrongHost => out.extend_from_slice(b"wronghost"),
        Reply::FollowLink(entry) => tell_found(out, b"followlink", entry),
        Reply::Private => out.extend_from_slice(b"private"),
        Reply::Permission(right) => tell_named(out, b"permission", right.word().as_bytes()),
        Reply::NotExist => out.extend_from_slice(b"notexist"),
        Reply::NotDir => out.extend_from_slice(b"notdir"),
        Reply::IsDir => out.extend_from_slice(b"isdir"),
        Reply::Exist => out.extend_from_slice(b"exist"),
        Reply::BadSequence(current) => tell_counted(out, b"badsequence", *current),
        Reply::NotEmpty => out.extend_from_slice(b"notempty"),
        Reply::BadBlock(reference) => tell_kept(out, b"badblock", reference),
        Reply::BadText(line) => tell_counted(out, b"badtext", *line),
        Reply::TooLarge(size) => tell_counted(out, b"toolarge", *size),
        Reply::Full(records) => tell_counted(out, b"full", *records),
        Reply::Io => out.extend_from_slice(b"io"),
        Reply::OutOfMemory => Ok(()),
    }
}

/// Adds the first line of what was done.
#[tactic(auto, unfolding(crate::specs::Replies::done_words))]
fn tell_done(out: &mut Vec<u8>, done: &Done) -> Result<(), AllocError>
    ensures { OnOk result (out.new.items ≡ out.old.items ++ spaced (done_words done.now)) }
{
    match done {
        Done::Changed(position) => tell_counted(out, b"ok", *position),
        Done::Entry(entry) => tell_found(out, b"entry", entry),
        Done::Rows(rows) => tell_counted(out, b"glob", rows.len()),
        Done::Access(None) => tell_named(out, b"access", b"none"),
        Done::Access(Some(entry)) => tell_found(out, b"access", entry),
        Done::Events(events, next) => tell_watched(out, events.len(), *next),
        Done::Text(text) => tell_text(out, b"text", text.as_slice()),
        Done::Reference(reference) => tell_kept(out, b"ref", reference),
        Done::Bytes(bytes) => tell_text(out, b"bytes", bytes.as_slice()),
        Done::Key(known) => tell_key(out, known),
    }
}

/// A word and a number.
pub(crate) fn tell_counted(out: &mut Vec<u8>, word: &[u8], number: u64) -> Result<(), AllocError>
    ensures { OnOk result (out.new.items ≡ out.old.items
        ++ spaced (word.now ∷ decimal number ∷ [])) }
{
    out.extend_from_slice(word)?;
    add_num(out, number)
}

/// A word and a second one.
fn tell_named(out: &mut Vec<u8>, word: &[u8], second: &[u8]) -> Result<(), AllocError>
    ensures { OnOk result (out.new.items ≡ out.old.items
        ++ spaced (word.now ∷ second.now ∷ [])) }
{
    out.extend_from_slice(word)?;
    add_plain(out, second)
}

/// A word and the word that stands for a text.
fn tell_text(out: &mut Vec<u8>, word: &[u8], text: &[u8]) -> Result<(), AllocError>
    ensures { OnOk result (out.new.items ≡ out.old.items
        ++ spaced (word.now ∷ coded text.now ∷ [])) }
{
    out.extend_from_slice(word)?;
    add_text(out, text)
}

/// A word and a reference.
fn tell_kept(out: &mut Vec<u8>, word: &[u8], reference: &Reference) -> Result<(), AllocError>
    ensures { OnOk result (out.new.items ≡ out.old.items
        ++ spaced (word.now ∷ text_of reference.now ∷ [])) }
{
    out.extend_from_slice(word)?;
    add_reference(out, reference)
}

/// A word and an entry.
fn tell_found(out: &mut Vec<u8>, word: &[u8], entry: &Entry) -> Result<(), AllocError>
    ensures { OnOk result (out.new.items ≡ out.old.items
        ++ spaced (word.now ∷ entry_words entry.now)) }
{
    out.extend_from_slice(word)?;
    add_entry(out, entry)
}

/// What is malformed.
fn tell_invalid(out: &mut Vec<u8>, what: What) -> Result<(), AllocError>
    ensures { OnOk result (out.new.items ≡ out.old.items
        ++ spaced (codes "invalid" ∷ what_word what ∷ element_words what)) }
{
    out.extend_from_slice(b"invalid")?;
    add_what(out, what)
}

/// Adds what is malformed, and for a pattern the number of the element.
fn add_what(out: &mut Vec<u8>, what: What) -> Result<(), AllocError>
    ensures { OnOk result (out.new.items ≡ out.old.items
        ++ behind_spaces (what_word what ∷ element_words what)) }
{
    match what {
        What::Pattern(element) => {
            add_plain(out, b"pattern")?;
            add_num(out, element)
        }
        What::Name => add_plain(out, b"name"),
        What::SignedName => add_plain(out, b"signedname"),
        What::Writer => add_plain(out, b"writer"),
        What::Packing => add_plain(out, b"packing"),
        What::Attr => add_plain(out, b"attr"),
        What::Link => add_plain(out, b"link"),
        What::Blocks => add_plain(out, b"blocks"),
        What::Packdata => add_plain(out, b"packdata"),
        What::Root => add_plain(out, b"root"),
        What::Control => add_plain(out, b"control"),
        What::ControlSize => add_plain(out, b"controlsize"),
        What::Sequence => add_plain(out, b"sequence"),
        What::Reference => add_plain(out, b"reference"),
        What::Block => add_plain(out, b"block"),
        What::Key => add_plain(out, b"key"),
        What::SnapshotWatch => add_plain(out, b"snapshotwatch"),
        What::GroupName => add_plain(out, b"groupname"),
    }
}

/// The line in front of events.
fn tell_watched(out: &mut Vec<u8>, count: u64, next: u64) -> Result<(), AllocError>
    ensures { OnOk result (out.new.items ≡ out.old.items
        ++ spaced (codes "watch" ∷ decimal count ∷ decimal next ∷ [])) }
{
    out.extend_from_slice(b"watch")?;
    add_num(out, count)?;
    add_num(out, next)
}

/// The line of a key record.
fn tell_key(out: &mut Vec<u8>, known: &KeyRecord) -> Result<(), AllocError>
    ensures { OnOk result (out.new.items ≡ out.old.items
        ++ spaced (codes "key" ∷ key_words known.now)) }
{
    out.extend_from_slice(b"key")?;
    add_text(out, known.user.text().as_bytes())?;
    add_endpoints(out, known.dirs.as_slice())?;
    add_endpoints(out, known.stores.as_slice())?;
    add_text(out, known.key.as_slice())
}

/// The line of a row.
fn tell_row(out: &mut Vec<u8>, row: &Row) -> Result<(), AllocError>
    ensures { OnOk result (out.new.items ≡ out.old.items ++ spaced (row_words row.now)) }
{
    out.extend_from_slice(b"row")?;
    add_num(out, row.rest)?;
    add_entry(out, &row.entry)
}

/// The line of an event.
fn tell_event(out: &mut Vec<u8>, event: &WatchEvent) -> Result<(), AllocError>
    ensures { OnOk result (out.new.items ≡ out.old.items ++ spaced (event_words event.now)) }
{
    out.extend_from_slice(b"event")?;
    add_num(out, event.position)?;
    add_plain(out, if event.delete { b"delete" } else { b"put" })?;
    add_entry(out, &event.entry)
}
