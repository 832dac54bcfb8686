//! What is wrong with a line of an Access or Group text. Only what is said of it depends on this.
use crate::flaw::Flaw;
use crate::why::{Why, kept};
use std::alloc::AllocError;
use up_bytes::Bytes;
use up_lists::Items;
use up_names::control_texts::{next_control_line, next_word};
use up_names::{User, parse_item};
use up_rights::read_right;

/// Why a line of an Access text, whose number this is, does not fit.
pub(crate) fn bad_access(owner: &User, text: &[u8], number: u64) -> Why {
    match access_flaw(owner, line_at(text, number)) {
        Ok((word, flaw)) => Why::AccessText(number, word, flaw),
        Err(_) => Why::OutOfMemory,
    }
}

/// Why a line of a Group text, whose number this is, does not fit.
pub(crate) fn bad_group(owner: &User, text: &[u8], number: u64) -> Why {
    match name_flaw(owner, line_at(text, number)) {
        Ok((word, flaw)) => Why::GroupText(number, word, flaw),
        Err(_) => Why::OutOfMemory,
    }
}

/// The line of a control text with this number, from 1; the last one where there are fewer.
fn line_at(text: &[u8], number: u64) -> &[u8] {
    let mut rest = text;
    for _ in 1..number {
        match next_control_line(rest) {
            (_, Some(after)) => rest = after,
            (_, None) => break,
        }
    }
    let (line, _) = next_control_line(rest);
    line
}

/// The flaw of a line of an Access text, and the word that has it.
fn access_flaw(owner: &User, line: &[u8]) -> Result<(Bytes, Flaw), AllocError> {
    let alloc = owner.allocator();
    let Some(colon) = line.iter().position(|b| *b == b':') else {
        return Ok((Items::new(alloc), Flaw::NoColon));
    };
    let rights = &line[..colon];
    if next_word(rights).is_none() {
        return Ok((Items::new(alloc), Flaw::NoRight));
    }
    match other_than_right(rights) {
        Some(word) => Ok((kept(alloc, word)?, Flaw::ControlRight)),
        None => name_flaw(owner, &line[colon + 1..]),
    }
}

/// The first word of a part that is no right.
fn other_than_right(part: &[u8]) -> Option<&[u8]> {
    let mut rest = part;
    while let Some((word, after)) = next_word(rest) {
        if read_right(word).is_none() {
            return Some(word);
        }
        rest = after;
    }
    None
}

/// The first word of a part that names nobody; the part itself where there is none.
fn name_flaw(owner: &User, part: &[u8]) -> Result<(Bytes, Flaw), AllocError> {
    let mut rest = part;
    while let Some((word, after)) = next_word(rest) {
        if parse_item(owner, word)?.is_none() {
            return Ok((kept(owner.allocator(), word)?, Flaw::ControlName));
        }
        rest = after;
    }
    Ok((kept(owner.allocator(), part)?, Flaw::ControlName))
}
