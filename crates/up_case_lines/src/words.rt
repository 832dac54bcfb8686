//! The words of a line, and what they stand for. Words are parted by single spaces; in a word `%` and two digits stand for a
//! byte, and a word `-` is the empty text.
use crate::fault::Fault;
use hex::FromHexError;
use std::alloc::Global;
use std::borrow::CowSlice;
use up_bytes::Bytes;
use up_lists::Items;
use up_names::{Path, User, parse_path, parse_user};
use up_text::{read_int, read_num, read_word, word_text};

/// The words of a line that are not taken yet.
#[derive(Clone, Copy)]
pub struct Words<'a> {
    rest: Option<&'a str>,
}

impl<'a> Words<'a> {
    pub fn new(line: &'a str) -> Words<'a> {
        Words { rest: Some(line) }
    }

    /// The next word, as it stands. A line without one does not fit.
    pub fn word(&mut self) -> Result<&'a str, Fault> {
        let rest = self.rest.ok_or(Fault::BadLine)?;
        let (word, after) = cut_word(rest);
        self.rest = after;
        Ok(word)
    }

    /// The words that are left, where there are some.
    pub fn rest(&self) -> Option<&'a str> {
        self.rest
    }

    /// The words that are left, of which there is one at least.
    pub fn some(&self) -> Result<&'a str, Fault> {
        self.rest.ok_or(Fault::BadLine)
    }

    /// The next word, a number.
    pub fn number(&mut self) -> Result<u64, Fault> {
        number_of(self.word()?)
    }

    /// A line with a further word does not fit.
    pub fn end(&self) -> Result<(), Fault> {
        match self.rest {
            Some(_) => Err(Fault::BadLine),
            None => Ok(()),
        }
    }

    /// The last word.
    pub fn one(&mut self) -> Result<&'a str, Fault> {
        let word = self.word()?;
        self.end()?;
        Ok(word)
    }

    /// The last word, a number.
    pub fn last_number(&mut self) -> Result<u64, Fault> {
        number_of(self.one()?)
    }

    /// The last two words, numbers.
    pub fn two_numbers(&mut self) -> Result<(u64, u64), Fault> {
        let first = self.number()?;
        let second = self.last_number()?;
        Ok((first, second))
    }

    /// The last two words.
    pub fn two(&mut self) -> Result<(&'a str, &'a str), Fault> {
        let first = self.word()?;
        let second = self.one()?;
        Ok((first, second))
    }

    /// The next three words.
    pub fn next_three(&mut self) -> Result<(&'a str, &'a str, &'a str), Fault> {
        let first = self.word()?;
        let second = self.word()?;
        let third = self.word()?;
        Ok((first, second, third))
    }

    /// The last three words.
    pub fn three(&mut self) -> Result<(&'a str, &'a str, &'a str), Fault> {
        let first = self.word()?;
        let (second, third) = self.two()?;
        Ok((first, second, third))
    }
}

// The first word, and what stands behind the space that ends it.
fn cut_word(line: &str) -> (&str, Option<&str>) {
    match line.split_once(' ') {
        Some((word, after)) => (word, Some(after)),
        None => (line, None),
    }
}

/// The text that a word stands for.
pub fn text_of<'a>(alloc: Global, word: &'a str) -> Result<CowSlice<'a, u8>, Fault> {
    word_text(alloc, word.as_bytes())?.ok_or(Fault::BadLine)
}

/// The text that a word stands for, as a string. What is no UTF-8 has the replacement character in its place.
pub fn string_of(alloc: Global, word: &str) -> Result<String, Fault> {
    let text = text_of(alloc, word)?;
    Ok(String::from_utf8_lossy(alloc, text.as_slice())?)
}

/// The user that a word names.
pub fn user_of(alloc: Global, word: &str) -> Result<User, Fault> {
    let text = text_of(alloc, word)?;
    Ok(parse_user(alloc, text.as_slice())?)
}

/// The path that a word names.
pub fn path_of(alloc: Global, word: &str) -> Result<Path, Fault> {
    let text = text_of(alloc, word)?;
    Ok(parse_path(alloc, text.as_slice())?)
}

/// The number that a word is.
pub fn number_of(word: &str) -> Result<u64, Fault> {
    read_num(word.as_bytes()).ok_or(Fault::BadLine)
}

/// The number that a word is, which may be negative.
pub fn int_of(word: &str) -> Result<i64, Fault> {
    read_int(word.as_bytes()).ok_or(Fault::BadLine)
}

/// The text that a word stands for, as bytes of its own.
pub fn bytes_of(alloc: Global, word: &str) -> Result<Bytes, Fault> {
    read_word(alloc, word.as_bytes())?.ok_or(Fault::BadLine)
}

/// The bytes whose hexadecimal digits a word is. `-` has none.
pub fn bytes_of_digits(alloc: Global, word: &str) -> Result<Bytes, Fault> {
    let digits = text_of(alloc, word)?;
    match hex::decode(alloc, digits.as_slice()) {
        Ok(bytes) => Ok(Items::from_vec(bytes)),
        Err(FromHexError::OutOfMemory) => Err(Fault::OutOfMemory),
        Err(_) => Err(Fault::BadLine),
    }
}

/// The number below 256 that a word is.
pub fn byte_of(word: &str) -> Result<u8, Fault> {
    let number = number_of(word)?;
    u8::try_from(number).map_err(|_| Fault::BadLine)
}
