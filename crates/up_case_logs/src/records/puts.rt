//! The lines that hand in an entry, and that show it.
use super::Session;
use std::alloc::Global;
use std::mem;
use up_bytes::Bytes;
use up_case_lines::{
    Answer, Fault, Words, add_entry, blocks_of, byte_of, bytes_of, int_of, number_of, what_word,
};
use up_entry::{Checked, EntryFault, PutEntry, check_entry, shown};
use up_lists::Items;

/// `put NAME SIGNED WRITER PACKING ATTR TIME SEQUENCE LINK PACKDATA BLOCKS`: `ok SEQUENCE`, and the entry is the current
/// one, or `invalid` and the word of the first rule that it breaks.
pub fn put_line(
    alloc: Global,
    session: &mut Session,
    words: Words<'_>,
    answer: &mut Answer,
) -> Result<(), Fault> {
    let put = put_of(alloc, words)?;
    let checked = check_entry(alloc, &put, &session.user);
    drop(put);
    match checked {
        Ok(checked) => {
            keep(session, checked, answer);
            Ok(())
        }
        Err(EntryFault::Invalid(what)) => {
            answer.word("invalid");
            answer.word(what_word(what));
            Ok(())
        }
        Err(EntryFault::OutOfMemory) => Err(Fault::OutOfMemory),
    }
}

// Keeps an entry as the current one.
fn keep(session: &mut Session, checked: Checked, answer: &mut Answer) {
    answer.word("ok");
    answer.int(checked.sequence);
    drop(session.entry.replace(checked.entry));
}

// The entry that all of a line's words stand for.
fn put_of(alloc: Global, words: Words<'_>) -> Result<PutEntry, Fault> {
    let mut put = empty_put(alloc);
    match fill(alloc, &mut put, words) {
        Ok(()) => Ok(put),
        Err(fault) => {
            drop(put);
            Err(fault)
        }
    }
}

/// An entry of no words.
pub fn empty_put(alloc: Global) -> PutEntry {
    PutEntry {
        signed_name: Items::new(alloc),
        packing: 0,
        time: 0,
        blocks: Items::new(alloc),
        packdata: Items::new(alloc),
        link: Items::new(alloc),
        writer: Items::new(alloc),
        name: Items::new(alloc),
        attr: 0,
        sequence: 0,
    }
}

fn fill(alloc: Global, put: &mut PutEntry, mut words: Words<'_>) -> Result<(), Fault> {
    fill_names(alloc, put, &mut words)?;
    fill_numbers(put, &mut words)?;
    fill_content(alloc, put, words)
}

// The first three words.
fn fill_names(alloc: Global, put: &mut PutEntry, words: &mut Words<'_>) -> Result<(), Fault> {
    let (name, signed_name, writer) = words.next_three()?;
    set_text(alloc, &mut put.name, name)?;
    set_text(alloc, &mut put.signed_name, signed_name)?;
    set_text(alloc, &mut put.writer, writer)
}

// The four words behind them.
fn fill_numbers(put: &mut PutEntry, words: &mut Words<'_>) -> Result<(), Fault> {
    put.packing = byte_of(words.word()?)?;
    put.attr = byte_of(words.word()?)?;
    put.time = int_of(words.word()?)?;
    put.sequence = int_of(words.word()?)?;
    Ok(())
}

// The last three words.
fn fill_content(alloc: Global, put: &mut PutEntry, mut words: Words<'_>) -> Result<(), Fault> {
    let (link, packdata, blocks) = words.three()?;
    set_text(alloc, &mut put.link, link)?;
    set_text(alloc, &mut put.packdata, packdata)?;
    drop(mem::replace(&mut put.blocks, blocks_of(alloc, blocks)?));
    Ok(())
}

/// Puts the text that a word stands for in the place of another.
pub fn set_text(alloc: Global, text: &mut Bytes, word: &str) -> Result<(), Fault> {
    drop(mem::replace(text, bytes_of(alloc, word)?));
    Ok(())
}

/// `position N`: the current entry gets the sequence N, as an entry does that was put at position N of a log.
pub fn position_line(session: &mut Session, mut words: Words<'_>) -> Result<(), Fault> {
    let position = number_of(words.one()?)?;
    match &mut session.entry {
        Some(entry) => {
            entry.sequence = position;
            Ok(())
        }
        None => Err(Fault::BadLine),
    }
}

/// `show yes` and `show no`: the current entry as it is shown to a user who may read its name, and to another one.
pub fn show_line(
    alloc: Global,
    session: &Session,
    mut words: Words<'_>,
    answer: &mut Answer,
) -> Result<(), Fault> {
    let may_read = is_yes(words.one()?)?;
    let entry = shown(alloc, session.current()?, may_read)?;
    add_entry(alloc, &entry, answer);
    drop(entry);
    Ok(())
}

// Whether a word is `yes` rather than `no`.
fn is_yes(word: &str) -> Result<bool, Fault> {
    match word {
        "yes" => Ok(true),
        "no" => Ok(false),
        _ => Err(Fault::BadLine),
    }
}
