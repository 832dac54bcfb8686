//! What was done, as fields: a shape and what it has.

ghost use Rattle.std.specs.Prelude.{◌≡◌};
ghost use Rattle.up_bytes.specs.First.{IsFirst, fails_at, list_fails, row_fails};
ghost use Rattle.up_bytes.specs.Reading.{Gives, list_at, num_at, row_at};
ghost use Rattle.up_wire.specs.First.{done_fails, done_firsts};
ghost use Rattle.up_wire.specs.Reading.{done_at, done_table, events_at, row_of};
ghost use Rattle.up_wire.specs.Spelling.{done_tag, spelled_done, IsDone};

use crate::keys::KeyRecord;
use crate::replies::{Done, Row};
use crate::words::take_option;
use std::alloc::{AllocError, Global};
use up_bytes::{
    FieldFault, Fields, Reader, Writer, list_size, num_len, read_list, text_len, write_list,
};
use up_entry::Entry;
use up_lists::Items;
use up_refs::Reference;

impl Fields for Done {
    ghost spelling = { spelled_done };

    ghost read_at = { done_at };

    ghost comes_first = { done_fails };

    ghost IsTyped = { IsDone };

    #[tactic(auto, unfolding(crate::specs::Reading::done_at, up_bytes::specs::Reading::tagged_at))]
    fn take(alloc: Global, input: &mut Reader) -> Result<Done, FieldFault> {
        let place = input.place();
        let number = input.byte()?;
        take_done(alloc, number, place, input)
    }

    fn append(&self, out: &mut Writer) -> Result<(), AllocError> {
        out.byte(number_of(self))?;
        match self {
            Done::Changed(position) => out.num(*position),
            Done::Entry(entry) => entry.write(out),
            Done::Rows(rows) => write_list(rows.as_slice(), out),
            Done::Access(None) => out.byte(0),
            Done::Access(Some(entry)) => {
                out.byte(1)?;
                entry.write(out)
            }
            Done::Events(events, next) => {
                write_list(events.as_slice(), out)?;
                out.num(*next)
            }
            Done::Text(text) => out.text(text.as_slice()),
            Done::Reference(reference) => out.raw(reference.bytes()),
            Done::Bytes(bytes) => out.text(bytes.as_slice()),
            Done::Key(record) => record.write(out),
        }
    }

    fn size(&self) -> u64 {
        let fields = match self {
            Done::Changed(position) => num_len(*position),
            Done::Entry(entry) => entry.size(),
            Done::Rows(rows) => list_size(rows.as_slice()),
            Done::Access(None) => 1,
            Done::Access(Some(entry)) => entry.size().saturating_add(1),
            Done::Events(events, next) => {
                list_size(events.as_slice()).saturating_add(num_len(*next))
            }
            Done::Text(text) => text_len(text.as_slice()),
            Done::Reference(reference) => reference.bytes().len() as u64,
            Done::Bytes(bytes) => text_len(bytes.as_slice()),
            Done::Key(record) => record.size(),
        };
        fields.saturating_add(1)
    }
}

/// The number of what was done.
fn number_of(done: &Done) -> u8
    ensures { result ≡ done_tag done.now }
{
    match done {
        Done::Changed(_) => 0x01,
        Done::Entry(_) => 0x02,
        Done::Rows(_) => 0x03,
        Done::Access(_) => 0x04,
        Done::Events(_, _) => 0x05,
        Done::Text(_) => 0x06,
        Done::Reference(_) => 0x07,
        Done::Bytes(_) => 0x08,
        Done::Key(_) => 0x09,
    }
}

/// Takes the fields of what was done that has this number, which stands at this place. A refused call leaves the place anywhere.
fn take_done(alloc: Global, number: u8, place: u64, input: &mut Reader) -> Result<Done, FieldFault>
    ensures exact { Gives (λ done. (done, input.new)) result
        (row_at done_table place number input.old) }
    ensures first { IsFirst (row_fails done_firsts number input.old) result }
{
    match number {
        0x01 => Ok(Done::Changed(input.num()?)),
        0x02 => Ok(Done::Entry(Entry::take(alloc, input)?)),
        0x03 => Ok(Done::Rows(take_rows(alloc, input)?)),
        0x04 => Ok(Done::Access(take_option(alloc, input)?)),
        0x05 => take_events(alloc, input),
        0x06 => Ok(Done::Text(input.text(alloc)?)),
        0x07 => Ok(Done::Reference(Reference::from_bytes(input.bytes_32()?))),
        0x08 => Ok(Done::Bytes(input.text(alloc)?)),
        0x09 => Ok(Done::Key(KeyRecord::take(alloc, input)?)),
        _ => Err(FieldFault::Spelling(place)),
    }
}

/// Takes rows. A refused call leaves the place where it was.
fn take_rows(alloc: Global, input: &mut Reader) -> Result<Items<Row>, FieldFault>
    ensures exact { Gives (λ rows. (rows, input.new)) result (list_at row_of input.old) }
    ensures first { IsFirst (list_fails (fails_at num_at) input.old) result }
{
    read_list(alloc, input)
}

/// Takes events and the sequence to go on from. A refused call leaves the place anywhere.
#[tactic(auto, unfolding(crate::specs::Reading::events_at))]
fn take_events(alloc: Global, input: &mut Reader) -> Result<Done, FieldFault>
    ensures exact { Gives (λ done. (done, input.new)) result (events_at input.old) }
    ensures first { IsFirst (list_fails (fails_at num_at) input.old) result }
{
    let events = read_list(alloc, input)?;
    let next = input.num()?;
    Ok(Done::Events(events, next))
}
