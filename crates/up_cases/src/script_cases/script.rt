//! A script, how its source and its sink behave, and what stands around it.
use crate::script_cases::around::Around;
use std::alloc::{AllocError, Global};
use std::hash::RandomState;
use std::mem;
use up_case_lines::{Case, Fault, Words, bytes_of};
use up_lists::Items;

/// Which command runs a script.
#[derive(Clone, Copy, Debug, PartialEq, Eq)]
pub enum Command {
    Can,
    Script,
}

/// A script so far.
#[derive(Drop)]
pub struct Script<'a> {
    pub command: Command,
    /// The keys that names are hashed with.
    pub random: RandomState,
    input: Vec<u8>,
    /// The lines that the script is to print.
    pub asked: Vec<Case<'a>>,
    /// The words of the command, where they are not the usual ones.
    words: Option<Vec<String>>,
    /// How much the source gives at a time, and which of its calls fail.
    pieces: Vec<u64>,
    source_fails: Vec<u64>,
    /// Which calls of the sink fail.
    sink_fails: Vec<u64>,
    pub around: Around<'a>,
}

impl<'a> Script<'a> {
    /// A script without a line, over ends that do not fail.
    pub fn new(alloc: Global, command: Command, random: RandomState) -> Script<'a> {
        Script {
            command,
            random,
            input: Vec::new(alloc),
            asked: Vec::new(alloc),
            words: None,
            pieces: Vec::new(alloc),
            source_fails: Vec::new(alloc),
            sink_fails: Vec::new(alloc),
            around: Around::new(alloc),
        }
    }

    /// Adds what a line says: `| LINE` is a line of the script as it stands, `= LINE` is a further line that it prints, `line WORD` one of
    /// the bytes that the word stands for, `tail WORD` is such bytes with no end of line, `repeat N WORD` as many times such bytes.
    /// `command WORDS`, `pieces N`, `source N` and `sink N` say what the words of the command are, how much the source gives next, and
    /// which calls of the ends fail. Any other line is about what stands around the script.
    pub fn add(&mut self, alloc: Global, case: Case<'a>) -> Result<(), Fault> {
        if let Some(line) = case.question.strip_prefix("| ") {
            return self.add_line(line.as_bytes(), case);
        }
        if let Some(wanted) = case.question.strip_prefix("= ") {
            return self.add_wanted(wanted, case);
        }
        self.add_by_word(alloc, case)
    }

    // The same of a line with a keyword.
    fn add_by_word(&mut self, alloc: Global, case: Case<'a>) -> Result<(), Fault> {
        let mut words = Words::new(case.question);
        match words.word()? {
            "|" => self.add_line(b"", case),
            "line" => self.add_line(bytes_of(alloc, words.one()?)?.as_slice(), case),
            "tail" => self.add_bytes(bytes_of(alloc, words.one()?)?.as_slice(), case),
            "repeat" => self.repeat(alloc, words),
            keyword => self.set(alloc, keyword, words),
        }
    }

    // The same of a line that adds nothing to the input.
    fn set(&mut self, alloc: Global, keyword: &str, mut words: Words<'a>) -> Result<(), Fault> {
        match keyword {
            "command" => self.set_words(alloc, words),
            "pieces" => push(&mut self.pieces, words.last_number()?),
            "source" => push(&mut self.source_fails, words.last_number()?),
            "sink" => push(&mut self.sink_fails, words.last_number()?),
            _ => self.around.add(alloc, keyword, words),
        }
    }

    fn add_line(&mut self, line: &[u8], case: Case<'a>) -> Result<(), Fault> {
        self.add_bytes(line, case)?;
        self.input.push(b'\n')?;
        Ok(())
    }

    fn add_bytes(&mut self, bytes: &[u8], case: Case<'a>) -> Result<(), Fault> {
        self.input.extend_from_slice(bytes)?;
        if !case.wanted.is_empty() {
            self.asked.push(case)?;
        }
        Ok(())
    }

    fn add_wanted(&mut self, wanted: &'a str, case: Case<'a>) -> Result<(), Fault> {
        self.asked.push(Case { wanted, ..case })?;
        Ok(())
    }

    // Adds the bytes that a word stands for, so many times.
    fn repeat(&mut self, alloc: Global, mut words: Words<'_>) -> Result<(), Fault> {
        let count = words.number()?;
        let bytes = bytes_of(alloc, words.one()?)?;
        for _ in 0..count {
            self.input.extend_from_slice(bytes.as_slice())?;
        }
        Ok(())
    }

    // The words of the command, of which there may be none.
    fn set_words(&mut self, alloc: Global, words: Words<'_>) -> Result<(), Fault> {
        self.words = match words.rest() {
            Some(rest) => Some(texts_of(alloc, rest)?),
            None => Some(Vec::new(alloc)),
        };
        Ok(())
    }

    /// Takes the input out.
    pub fn take_input(&mut self, alloc: Global) -> Vec<u8> {
        mem::replace(&mut self.input, Vec::new(alloc))
    }

    /// The sizes of the pieces in which the source gives it.
    pub fn pieces(&self, alloc: Global) -> Result<Items<u64>, AllocError> {
        copied(alloc, &self.pieces)
    }

    /// The numbers of the calls of the source that fail.
    pub fn source_fails(&self, alloc: Global) -> Result<Items<u64>, AllocError> {
        copied(alloc, &self.source_fails)
    }

    /// The numbers of the calls of the sink that fail.
    pub fn sink_fails(&self, alloc: Global) -> Result<Items<u64>, AllocError> {
        copied(alloc, &self.sink_fails)
    }

    /// The words of the command.
    pub fn words(&self, alloc: Global) -> Result<Vec<String>, AllocError> {
        match (&self.words, self.command) {
            (Some(words), _) => words_again(alloc, words),
            (None, Command::Can) => texts_of(alloc, "can"),
            (None, Command::Script) => texts_of(alloc, "script helper"),
        }
    }
}

fn copied(alloc: Global, numbers: &[u64]) -> Result<Items<u64>, AllocError> {
    Ok(Items::from_vec(numbers.to_vec(alloc)?))
}

fn words_again(alloc: Global, words: &[String]) -> Result<Vec<String>, AllocError> {
    let mut again = Vec::new(alloc);
    for word in words {
        add_text(alloc, &mut again, word.as_str())?;
    }
    Ok(again)
}

// Words, each as a text of its own.
fn texts_of(alloc: Global, words: &str) -> Result<Vec<String>, AllocError> {
    let mut texts = Vec::new(alloc);
    for word in words.split(' ') {
        add_text(alloc, &mut texts, word)?;
    }
    Ok(texts)
}

fn add_text(alloc: Global, texts: &mut Vec<String>, word: &str) -> Result<(), AllocError> {
    texts.push(word.to_string(alloc)?)?;
    Ok(())
}

fn push(numbers: &mut Vec<u64>, number: u64) -> Result<(), Fault> {
    numbers.push(number)?;
    Ok(())
}
