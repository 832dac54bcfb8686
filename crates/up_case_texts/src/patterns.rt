//! Patterns: which texts are patterns, and what their elements read and match. A line stands alone.
use crate::names::repeated;
use std::alloc::Global;
use up_case_lines::{Answer, Fault, Topic, Words, number_of, string_of, text_of};
use up_pattern::{Pattern, PatternFault, parse_pattern};

/// Lines about patterns. They keep nothing.
#[derive(Clone, Copy)]
pub struct Patterns;

impl Topic for Patterns {
    fn turn(&mut self, alloc: Global, line: &str, answer: &mut Answer) -> Result<(), Fault> {
        let mut words = Words::new(line);
        match words.word()? {
            "pattern" => pattern_line(alloc, words.one()?, answer),
            "match" => match_line(alloc, words, answer),
            "length" => length_line(alloc, words, answer),
            "long" => long_line(alloc, words, answer),
            _ => Err(Fault::BadLine),
        }
    }
}

// `pattern TEXT`: the owner, and what each element reads, or `?` where it has a mark; or the fault.
fn pattern_line(alloc: Global, word: &str, answer: &mut Answer) -> Result<(), Fault> {
    let text = text_of(alloc, word)?;
    match parse_pattern(alloc, text.as_slice()) {
        Ok(pattern) => {
            add_pattern(&pattern, answer);
            Ok(())
        }
        Err(fault) => add_fault(fault, answer),
    }
}

fn add_pattern(pattern: &Pattern, answer: &mut Answer) {
    answer.coded(pattern.owner().text().as_bytes());
    for i in 0..pattern.len() {
        match pattern.literal(i) {
            Some(text) => answer.coded(text.as_bytes()),
            None => answer.word("?"),
        }
    }
}

fn add_fault(fault: PatternFault, answer: &mut Answer) -> Result<(), Fault> {
    match fault {
        PatternFault::Name => answer.word("name"),
        PatternFault::Element(place) => {
            answer.word("element");
            answer.number(place);
        }
        PatternFault::OutOfMemory => return Err(Fault::OutOfMemory),
    }
    Ok(())
}

// `match ELEMENT TEXT`: whether the text matches the only element of a pattern, or the fault.
fn match_line(alloc: Global, mut words: Words<'_>, answer: &mut Answer) -> Result<(), Fault> {
    let (element, text) = words.two()?;
    let text = string_of(alloc, text)?;
    add_match(alloc, element, text.as_str(), answer)
}

fn add_match(alloc: Global, element: &str, text: &str, answer: &mut Answer) -> Result<(), Fault> {
    let element = string_of(alloc, element)?;
    let pattern = format!(in alloc; "ann@a.example/{element}")?;
    match parse_pattern(alloc, pattern.as_bytes()) {
        Ok(pattern) => {
            answer.yes(pattern.len() == 1 && pattern.matches(0, text));
            Ok(())
        }
        Err(fault) => add_fault(fault, answer),
    }
}

// `length TEXT N PIECE`: how many elements the pattern has that is the text with N pieces behind it, or the fault.
fn length_line(alloc: Global, mut words: Words<'_>, answer: &mut Answer) -> Result<(), Fault> {
    let (text, count, piece) = words.three()?;
    let text = repeated(alloc, text, number_of(count)?, piece)?;
    match parse_pattern(alloc, text.as_bytes()) {
        Ok(pattern) => {
            answer.number(pattern.len());
            Ok(())
        }
        Err(fault) => add_fault(fault, answer),
    }
}

// `long ELEMENT N PIECE`: whether N pieces match the element; it is asked at once.
fn long_line(alloc: Global, mut words: Words<'_>, answer: &mut Answer) -> Result<(), Fault> {
    let (element, count, piece) = words.three()?;
    let count = number_of(count)?;
    let text = repeated(alloc, "", count, piece)?;
    add_match(alloc, element, text.as_str(), answer)
}
