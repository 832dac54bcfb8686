//! References: digests of bytes, their digits, and their order. A line stands alone.
use std::alloc::Global;
use up_case_lines::{Answer, Fault, Topic, Words, bytes_of};
use up_refs::Reference;

/// Lines about references. They keep nothing.
#[derive(Clone, Copy)]
pub struct References;

impl Topic for References {
    fn turn(&mut self, alloc: Global, line: &str, answer: &mut Answer) -> Result<(), Fault> {
        let mut words = Words::new(line);
        match words.word()? {
            "reference" => reference_line(alloc, words.one()?, answer),
            "parse" => parse_line(alloc, words.one()?, answer),
            "compare" => compare_line(words, answer),
            _ => Err(Fault::BadLine),
        }
    }
}

// `reference TEXT`: the digits of the text's reference.
fn reference_line(alloc: Global, word: &str, answer: &mut Answer) -> Result<(), Fault> {
    let bytes = bytes_of(alloc, word)?;
    let reference = Reference::of(bytes.as_slice());
    answer.begin();
    answer.made(reference.text(alloc));
    Ok(())
}

// `parse DIGITS`: the digits of the reference that these stand for, made of its bytes, or `none`.
fn parse_line(alloc: Global, word: &str, answer: &mut Answer) -> Result<(), Fault> {
    let digits = bytes_of(alloc, word)?;
    match Reference::parse(digits.as_slice()) {
        Some(reference) => {
            let again = Reference::from_bytes(*reference.bytes());
            answer.begin();
            answer.made(again.text(alloc));
        }
        None => answer.word("none"),
    }
    Ok(())
}

// `compare DIGITS DIGITS`: how the first stands to the second in the order of references.
fn compare_line(mut words: Words<'_>, answer: &mut Answer) -> Result<(), Fault> {
    let (first, second) = words.two()?;
    let first = Reference::parse(first.as_bytes()).ok_or(Fault::BadLine)?;
    let second = Reference::parse(second.as_bytes()).ok_or(Fault::BadLine)?;
    answer.order(first.cmp(&second));
    Ok(())
}
