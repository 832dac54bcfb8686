//! Copies of replies, each in memory of its own.
ghost use Rattle.std.specs.Prelude.{◌≡◌, IfOk};
ghost use Rattle.up_wire.specs.declared.replies.Done.TheVariants as dones;

use std::alloc::{AllocError, Global};
use up_bytes::copy_of;
use up_entry::{Endpoint, Entry};
use up_lists::Items;
use up_wire::{Done, KeyRecord, Reply, Row, WatchEvent};

/// The same reply.
pub(crate) fn copied(alloc: Global, reply: &Reply) -> Result<Reply, AllocError>
    ensures { IfOk result (λ copy. copy ≡ reply.now) }
{
    match reply {
        Reply::Ok(done) => Ok(Reply::Ok(copied_done(alloc, done)?)),
        Reply::FollowLink(entry) => Ok(Reply::FollowLink(entry.clone()?)),
        Reply::Invalid(what) => Ok(Reply::Invalid(*what)),
        Reply::WrongHost => Ok(Reply::WrongHost),
        Reply::Private => Ok(Reply::Private),
        Reply::Permission(right) => Ok(Reply::Permission(*right)),
        Reply::NotExist => Ok(Reply::NotExist),
        Reply::NotDir => Ok(Reply::NotDir),
        Reply::IsDir => Ok(Reply::IsDir),
        Reply::Exist => Ok(Reply::Exist),
        Reply::BadSequence(current) => Ok(Reply::BadSequence(*current)),
        Reply::NotEmpty => Ok(Reply::NotEmpty),
        Reply::BadBlock(reference) => Ok(Reply::BadBlock(*reference)),
        Reply::BadText(line) => Ok(Reply::BadText(*line)),
        Reply::TooLarge(size) => Ok(Reply::TooLarge(*size)),
        Reply::Full(records) => Ok(Reply::Full(*records)),
        Reply::Io => Ok(Reply::Io),
        Reply::OutOfMemory => Ok(Reply::OutOfMemory),
    }
}

fn copied_done(alloc: Global, done: &Done) -> Result<Done, AllocError>
    ensures { IfOk result (λ copy. copy ≡ done.now) }
{
    match done {
        Done::Changed(position) => Ok(Done::Changed(*position)),
        Done::Entry(entry) => Ok(Done::Entry(entry.clone()?)),
        Done::Rows(rows) => Ok(Done::Rows(copied_rows(alloc, rows.as_slice())?)),
        Done::Access(entry) => Ok(Done::Access(copied_access(entry)?)),
        Done::Events(events, next) => copied_watch(alloc, events.as_slice(), *next),
        Done::Text(text) => Ok(Done::Text(copy_of(alloc, text.as_slice())?)),
        Done::Reference(reference) => Ok(Done::Reference(*reference)),
        Done::Bytes(bytes) => Ok(Done::Bytes(copy_of(alloc, bytes.as_slice())?)),
        Done::Key(known) => Ok(Done::Key(copied_record(alloc, known)?)),
    }
}

fn copied_watch(alloc: Global, events: &[WatchEvent], next: u64) -> Result<Done, AllocError>
    ensures { IfOk result (λ copy. copy ≡ dones.Events events.now next) }
{
    Ok(Done::Events(copied_events(alloc, events)?, next))
}

fn copied_rows(alloc: Global, rows: &[Row]) -> Result<Items<Row>, AllocError>
    ensures { IfOk result (λ copies. copies ≡ rows.now) }
{
    let mut copies = Vec::with_capacity(alloc, rows.len())?;
    for row in rows {
        copies.push(copied_row(row)?)?;
    }
    Ok(Items::from_vec(copies))
}

fn copied_row(row: &Row) -> Result<Row, AllocError>
    ensures { IfOk result (λ copy. copy ≡ row.now) }
{
    Ok(Row {
        entry: row.entry.clone()?,
        rest: row.rest,
    })
}

fn copied_access(entry: &Option<Entry>) -> Result<Option<Entry>, AllocError>
    ensures { IfOk result (λ copy. copy ≡ entry.now) }
{
    match entry {
        Some(entry) => Ok(Some(entry.clone()?)),
        None => Ok(None),
    }
}

fn copied_events(alloc: Global, events: &[WatchEvent]) -> Result<Items<WatchEvent>, AllocError>
    ensures { IfOk result (λ copies. copies ≡ events.now) }
{
    let mut copies = Vec::with_capacity(alloc, events.len())?;
    for event in events {
        copies.push(copied_event(event)?)?;
    }
    Ok(Items::from_vec(copies))
}

fn copied_event(event: &WatchEvent) -> Result<WatchEvent, AllocError>
    ensures { IfOk result (λ copy. copy ≡ event.now) }
{
    Ok(WatchEvent {
        position: event.position,
        delete: event.delete,
        entry: event.entry.clone()?,
    })
}

fn copied_record(alloc: Global, known: &KeyRecord) -> Result<KeyRecord, AllocError>
    ensures { IfOk result (λ copy. copy ≡ known.now) }
{
    Ok(KeyRecord {
        user: known.user.clone()?,
        dirs: copied_endpoints(alloc, known.dirs.as_slice())?,
        stores: copied_endpoints(alloc, known.stores.as_slice())?,
        key: copy_of(alloc, known.key.as_slice())?,
    })
}

fn copied_endpoints(alloc: Global, endpoints: &[Endpoint]) -> Result<Items<Endpoint>, AllocError>
    ensures { IfOk result (λ copies. copies ≡ endpoints.now) }
{
    let mut copies = Vec::with_capacity(alloc, endpoints.len())?;
    for endpoint in endpoints {
        copies.push(endpoint.clone()?)?;
    }
    Ok(Items::from_vec(copies))
}
