//! Reading entries.

ghost use Rattle.std.specs.Prelude.{◌≡◌, IfOk, OnErr, true};
ghost use Rattle.up_bytes.specs.Reading.{Answers, FaultFirst, Gives, text_at};
ghost use Rattle.up_entry.specs.Reading.{attr_at, entry_at, heading_at, link_at, link_in};

use crate::attrs::attr_of;
use crate::entries::{Attr, Entry, Kind};
use crate::names::{canonical_path, read_path, take_path_like, take_user_like};
use std::alloc::{AllocError, Global};
use up_bytes::{FieldFault, Fields, Reader, read_list};
use up_names::{Path, User};

/// Takes an entry from the front of the input, whole or with the incomplete mark. A refused call leaves the place where it
/// was.
///
/// The fault is `Short` where the input ends within a field, else `Spelling` with the place of the first field that is no
/// spelling of a value that may stand there: each name is a canonical text, attr is a kind with or without the mark, and a
/// link's target is there exactly for a link. Packing, sizes and addresses may be any.
pub fn read_entry(alloc: Global, input: &mut Reader) -> Result<Entry, FieldFault>
    ensures exact { Gives (λ entry. (entry, input.new)) result (entry_at true input.old) }

    // Where the name's text is refused, so is the entry, before any memory is asked for.
    ensures first { FaultFirst (text_at input.old) result }
    ensures err { OnErr result (input.new ≡ input.old) }
{
    Entry::read(alloc, input)
}

/// Takes an entry; one with the incomplete mark only where marks may stand. A refused call leaves the place anywhere.
#[tactic(auto, unfolding(crate::specs::Reading::entry_at))]
pub(crate) fn take_entry(
    alloc: Global,
    input: &mut Reader,
    marks: bool,
) -> Result<Entry, FieldFault>
    ensures exact { Gives (λ entry. (entry, input.new)) result (entry_at marks input.old) }
    ensures first { FaultFirst (text_at input.old) result }
{
    let heading = take_heading(alloc, input, marks)?;
    let link = take_link(alloc, input, heading.attr.kind)?;
    let packdata = match input.text(alloc) {
        Ok(packdata) => packdata,
        Err(fault) => {
            drop(heading);
            drop(link);
            return Err(fault);
        }
    };
    let blocks = match read_list(alloc, input) {
        Ok(blocks) => blocks,
        Err(fault) => {
            drop(heading);
            drop(link);
            drop(packdata);
            return Err(fault);
        }
    };
    match input.num() {
        Ok(sequence) => Ok(Entry {
            signed_name: heading.signed_name,
            packing: heading.packing,
            time: heading.time,
            blocks,
            packdata,
            link,
            writer: heading.writer,
            name: heading.name,
            attr: heading.attr,
            sequence,
        }),
        Err(fault) => {
            drop(heading);
            drop(link);
            drop(packdata);
            drop(blocks);
            Err(fault)
        }
    }
}

/// What stands in front of an entry's link.
#[derive(Drop)]
struct Heading {
    name: Path,
    signed_name: Path,
    packing: u8,
    time: i64,
    writer: User,
    attr: Attr,
}

/// Takes what stands in front of an entry's link; with the incomplete mark only where marks may stand. A refused call
/// leaves the place anywhere.
#[tactic(auto, unfolding(crate::specs::Reading::heading_at))]
fn take_heading(alloc: Global, input: &mut Reader, marks: bool) -> Result<Heading, FieldFault>
    ensures exact { Gives (λ heading. (heading, input.new)) result (heading_at marks input.old) }
    ensures first { FaultFirst (text_at input.old) result }
{
    let name = read_path(alloc, input)?;
    let signed_name = take_path_like(alloc, input, &name)?;
    let packing = input.byte()?;
    let time = input.int()?;
    let writer = match take_user_like(alloc, input, name.owner()) {
        Ok(writer) => writer,
        Err(fault) => {
            drop(name);
            drop(signed_name);
            return Err(fault);
        }
    };
    match take_attr(input, marks) {
        Ok(attr) => Ok(Heading {
            name,
            signed_name,
            packing,
            time,
            writer,
            attr,
        }),
        Err(fault) => {
            drop(name);
            drop(signed_name);
            drop(writer);
            Err(fault)
        }
    }
}

/// Takes the byte of an entry's attributes; with the mark only where marks may stand.
#[tactic(auto, unfolding(crate::specs::Reading::attr_at))]
fn take_attr(input: &mut Reader, marks: bool) -> Result<Attr, FieldFault>
    ensures { Answers (λ attr. (attr, input.new)) result (attr_at marks input.old) }
{
    let place = input.place();
    match attr_of(input.byte()?) {
        Some(attr) if marks || !attr.incomplete => Ok(attr),
        _ => Err(FieldFault::Spelling(place)),
    }
}

/// Takes the target of an entry of this kind: the canonical text of a path for a link, else the empty text. A refused call
/// leaves the place anywhere.
#[tactic(auto, unfolding(crate::specs::Reading::link_at))]
fn take_link(alloc: Global, input: &mut Reader, kind: Kind) -> Result<Option<Path>, FieldFault>
    ensures { Gives (λ link. (link, input.new)) result (link_at kind input.old) }
{
    let place = input.place();
    match link_in(alloc, kind, input.slice()?)? {
        Some(link) => Ok(link),
        None => Err(FieldFault::Spelling(place)),
    }
}

/// What the text of an entry's target stands for, where it may stand in an entry of this kind.
fn link_in(alloc: Global, kind: Kind, text: &[u8]) -> Result<Option<Option<Path>>, AllocError>
    ensures { IfOk result (λ found. found ≡ link_in kind text.now) }
{
    match kind {
        Kind::Link => Ok(canonical_path(alloc, text)?.map(Some)),
        Kind::File | Kind::Directory if text.is_empty() => Ok(Some(None)),
        Kind::File | Kind::Directory => Ok(None),
    }
}
