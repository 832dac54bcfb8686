//! Entries and records in words.
use crate::answer::Answer;
use crate::blocks::add_blocks;
use crate::fault::Fault;
use std::alloc::Global;
use up_bytes::FieldFault;
use up_entry::{Attr, Entry, Kind, Rec, What};
use up_names::Path;

/// Adds the kind of a record and its words.
pub fn add_record(alloc: Global, rec: &Rec, answer: &mut Answer) {
    match rec {
        Rec::Put(entry, control) => add_put(alloc, entry, control.as_slice(), answer),
        Rec::Delete(path) => {
            answer.word("delete");
            answer.coded(path.as_str().as_bytes());
        }
        Rec::Snap(time) => {
            answer.word("snap");
            answer.number(*time);
        }
    }
}

fn add_put(alloc: Global, entry: &Entry, control: &[u8], answer: &mut Answer) {
    answer.word("put");
    add_entry(alloc, entry, answer);
    answer.coded(control);
}

/// Adds an entry: ten words, its name, kind, sequence, time, writer, packing, packdata, link, signed name and blocks.
pub fn add_entry(alloc: Global, entry: &Entry, answer: &mut Answer) {
    add_heading(entry, answer);
    answer.number(u64::from(entry.packing));
    answer.coded(entry.packdata.as_slice());
    answer.coded(link_text(&entry.link));
    answer.coded(signed_text(entry));
    add_blocks(alloc, entry.blocks.as_slice(), answer);
}

fn add_heading(entry: &Entry, answer: &mut Answer) {
    answer.coded(entry.name.as_str().as_bytes());
    answer.word(kind_word(entry.attr));
    answer.number(entry.sequence);
    answer.int(entry.time);
    answer.coded(entry.writer.text().as_bytes());
}

// The word of a kind, with `?` behind it where the incomplete mark is set.
fn kind_word(attr: Attr) -> &'static str {
    match (attr.kind, attr.incomplete) {
        (Kind::File, false) => "file",
        (Kind::File, true) => "file?",
        (Kind::Directory, false) => "dir",
        (Kind::Directory, true) => "dir?",
        (Kind::Link, false) => "link",
        (Kind::Link, true) => "link?",
    }
}

// The text of a link's target, empty where there is none.
fn link_text(link: &Option<Path>) -> &[u8] {
    match link {
        Some(target) => target.as_str().as_bytes(),
        None => b"",
    }
}

// The signed name, or `=` where it is the name.
fn signed_text(entry: &Entry) -> &[u8] {
    if entry.signed_name == entry.name {
        b"="
    } else {
        entry.signed_name.as_str().as_bytes()
    }
}

/// The word of what is malformed.
pub fn what_word(what: What) -> &'static str {
    match what {
        What::Name => "name",
        What::SignedName => "signedname",
        What::Writer => "writer",
        What::Packing => "packing",
        What::Attr => "attr",
        What::Link => "link",
        What::Blocks => "blocks",
        What::Packdata => "packdata",
        What::Root => "root",
        What::Control => "control",
        What::ControlSize => "controlsize",
        What::Sequence => "sequence",
        What::Pattern(_) => "pattern",
        What::Reference => "reference",
        What::Block => "block",
        What::Key => "key",
        What::SnapshotWatch => "snapshotwatch",
        What::GroupName => "groupname",
    }
}

/// Adds the fault of a reading. Want of memory has no words, and is handed on.
pub fn add_fault(fault: FieldFault, answer: &mut Answer) -> Result<(), Fault> {
    match fault {
        FieldFault::Short => answer.word("short"),
        FieldFault::Spelling(place) => {
            answer.word("spelling");
            answer.number(place);
        }
        FieldFault::OutOfMemory => return Err(Fault::OutOfMemory),
    }
    Ok(())
}
