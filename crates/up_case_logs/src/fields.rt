//! Words and fields: how texts and numbers are written, and read again. A line stands alone.
use std::alloc::{AllocError, Global};
use std::borrow::CowSlice;
use up_bytes::{Bytes, FieldFault, Reader, Writer, int_len, num_len};
use up_case_lines::{
    Answer, Fault, Topic, Words, add_fault, byte_of, bytes_of_digits, int_of, number_of,
};
use up_text::{read_word, word_text, write_word};

/// Lines about words and fields. They keep nothing.
#[derive(Clone, Copy)]
pub struct Fields;

impl Topic for Fields {
    fn turn(&mut self, alloc: Global, line: &str, answer: &mut Answer) -> Result<(), Fault> {
        let mut words = Words::new(line);
        match words.word()? {
            "word" => word_line(alloc, words.one()?, answer),
            "text" => text_line(alloc, words.one()?, answer),
            "num" => num_line(alloc, words.one()?, answer),
            "int" => int_line(alloc, words.one()?, answer),
            "write" => write_line(alloc, words, answer),
            "read" => read_line(alloc, words, answer),
            _ => Err(Fault::BadLine),
        }
    }
}

// `text HEX`: the digits of the word that stands for these bytes. A word `differ` follows where another text is read of it.
fn text_line(alloc: Global, digits: &str, answer: &mut Answer) -> Result<(), Fault> {
    let text = bytes_of_digits(alloc, digits)?;
    let word = write_word(alloc, text.as_slice())?;
    answer.digits(word.as_slice());
    match read_word(alloc, word.as_slice())? {
        Some(again) if again == text => {}
        _ => answer.word("differ"),
    }
    Ok(())
}

// `word HEX`: the digits of the text that the word of these bytes stands for, or `none`. It is asked for as bytes of its own
// and as what may stand in the word itself; a word `differ` follows where these are not the same.
fn word_line(alloc: Global, digits: &str, answer: &mut Answer) -> Result<(), Fault> {
    let word = bytes_of_digits(alloc, digits)?;
    let own = read_word(alloc, word.as_slice())?;
    if !is_lent(alloc, word.as_slice(), &own)? {
        answer.word("differ");
    }
    match &own {
        Some(text) => answer.digits(text.as_slice()),
        None => answer.word("none"),
    }
    Ok(())
}

// Whether this is what may stand in a word itself.
fn is_lent(alloc: Global, word: &[u8], own: &Option<Bytes>) -> Result<bool, AllocError> {
    let lent = word_text(alloc, word)?;
    Ok(are_same(own, &lent))
}

fn are_same(own: &Option<Bytes>, lent: &Option<CowSlice<'_, u8>>) -> bool {
    match (own, lent) {
        (None, None) => true,
        (Some(own), Some(lent)) => own.as_slice() == lent.as_slice(),
        _ => false,
    }
}

// `num N`: the digits of the number as a field. A word `differ` follows where it has another length than it is to have, or
// another number is read of it.
fn num_line(alloc: Global, word: &str, answer: &mut Answer) -> Result<(), Fault> {
    let number = number_of(word)?;
    let mut out = Writer::new(alloc);
    out.num(number)?;
    answer.digits(out.as_slice());
    let again = Reader::new(out.as_slice()).num();
    if again != Ok(number) || out.len() != num_len(number) {
        answer.word("differ");
    }
    Ok(())
}

// `int Z`: the same of a number that may be negative.
fn int_line(alloc: Global, word: &str, answer: &mut Answer) -> Result<(), Fault> {
    let number = int_of(word)?;
    let mut out = Writer::new(alloc);
    out.int(number)?;
    answer.digits(out.as_slice());
    let again = Reader::new(out.as_slice()).int();
    if again != Ok(number) || out.len() != int_len(number) {
        answer.word("differ");
    }
    Ok(())
}

// `write FIELDS`: the digits of what is written, field by field: `byte:N`, `text:HEX`, `raw:HEX`, and `first:N` to keep the
// first N bytes alone.
fn write_line(alloc: Global, words: Words<'_>, answer: &mut Answer) -> Result<(), Fault> {
    let fields = words.some()?;
    let mut out = Writer::new(alloc);
    for field in fields.split(' ') {
        write_field(alloc, field, &mut out)?;
    }
    answer.digits(out.as_slice());
    Ok(())
}

fn write_field(alloc: Global, field: &str, out: &mut Writer) -> Result<(), Fault> {
    let (kind, value) = field.split_once(':').ok_or(Fault::BadLine)?;
    match kind {
        "byte" => out.byte(byte_of(value)?)?,
        "first" => out.truncate(number_of(value)?),
        _ => write_bytes(kind, bytes_of_digits(alloc, value)?.as_slice(), out)?,
    }
    Ok(())
}

fn write_bytes(kind: &str, bytes: &[u8], out: &mut Writer) -> Result<(), Fault> {
    match kind {
        "text" => out.text(bytes)?,
        "raw" => out.raw(bytes)?,
        _ => return Err(Fault::BadLine),
    }
    Ok(())
}

// `read HEX FIELDS`: what is read of these bytes, field by field, parted by `; `: `byte`, `num`, `int`, `slice` and `text`,
// `raw:N` and `reference`, and `ahead:FIELD` by a reader of its own. Last comes the place.
fn read_line(alloc: Global, mut words: Words<'_>, answer: &mut Answer) -> Result<(), Fault> {
    let bytes = bytes_of_digits(alloc, words.word()?)?;
    read_fields(alloc, bytes.as_slice(), words.some()?, answer)
}

fn read_fields(
    alloc: Global,
    bytes: &[u8],
    fields: &str,
    answer: &mut Answer,
) -> Result<(), Fault> {
    let mut input = Reader::new(bytes);
    for field in fields.split(' ') {
        read_field(alloc, field, &mut input, answer)?;
        answer.part();
    }
    answer.word("place");
    answer.number(input.place());
    if input.at_end() {
        answer.word("at the end");
    }
    Ok(())
}

// Adds what is read of a field. A reading that fails is told.
fn read_field(
    alloc: Global,
    field: &str,
    input: &mut Reader<'_>,
    answer: &mut Answer,
) -> Result<(), Fault> {
    let taken = match field.strip_prefix("raw:") {
        Some(size) => take_raw(number_of(size)?, input, answer),
        None => take_field(alloc, field, input, answer),
    };
    match taken {
        Ok(true) => Ok(()),
        Ok(false) => Err(Fault::BadLine),
        Err(fault) => add_fault(fault, answer),
    }
}

fn take_raw(size: u64, input: &mut Reader<'_>, answer: &mut Answer) -> Result<bool, FieldFault> {
    answer.coded(input.raw(size)?);
    Ok(true)
}

// Answers `false` where there is no such field.
fn take_field(
    alloc: Global,
    field: &str,
    input: &mut Reader<'_>,
    answer: &mut Answer,
) -> Result<bool, FieldFault> {
    match field {
        "byte" => answer.number(u64::from(input.byte()?)),
        "num" => answer.number(input.num()?),
        "int" => answer.int(input.int()?),
        "slice" => answer.coded(input.slice()?),
        "ahead" => answer.coded(input.fork().slice()?),
        "text" => answer.coded(input.text(alloc)?.as_slice()),
        "reference" => answer.coded(input.bytes_32()?.as_slice()),
        _ => return Ok(false),
    }
    Ok(true)
}
