//! The answer of a line.
use std::alloc::{AllocError, Global};
use std::cmp::Ordering;

/// The answer of a line so far. Where there was no memory for a part of it, that is kept, and `finish` says so: so no call
/// that adds to it answers anything.
#[derive(Drop)]
pub struct Answer {
    text: String,
    /// Whether the text stands at the beginning of a part, where no space parts the next word from what is there.
    begins: bool,
    lost: Result<(), AllocError>,
}

impl Answer {
    pub fn new(alloc: Global) -> Answer {
        Answer {
            text: String::new(alloc),
            begins: true,
            lost: Ok(()),
        }
    }

    /// The whole text, empty where nothing was added.
    pub fn finish(self) -> Result<String, AllocError> {
        self.lost?;
        Ok(self.text)
    }

    pub fn is_empty(&self) -> bool {
        self.text.is_empty()
    }

    /// Adds a text as it stands.
    pub fn push(&mut self, text: &str) {
        if let Err(lost) = self.text.push_str(text) {
            self.lost = Err(lost);
        }
    }

    /// Adds a text that was made for it.
    pub fn made(&mut self, text: Result<String, AllocError>) {
        match text {
            Ok(text) => self.push(text.as_str()),
            Err(lost) => self.lost = Err(lost),
        }
    }

    /// Parts the next words from what is there by `; `, where there is something.
    pub fn part(&mut self) {
        if !self.text.is_empty() {
            self.push("; ");
        }
        self.begins = true;
    }

    /// Parts a word from the one before it, where there is one.
    pub fn begin(&mut self) {
        if !self.begins {
            self.push(" ");
        }
        self.begins = false;
    }

    /// Adds a word as it stands.
    pub fn word(&mut self, word: &str) {
        self.begin();
        self.push(word);
    }

    /// Adds a number as a word.
    pub fn number(&mut self, number: u64) {
        self.begin();
        let alloc = *self.text.allocator();
        self.made(number.to_string(alloc));
    }

    /// Adds a number that may be negative as a word.
    pub fn int(&mut self, number: i64) {
        self.begin();
        let alloc = *self.text.allocator();
        self.made(number.to_string(alloc));
    }

    /// Adds how one thing stands to another.
    pub fn order(&mut self, order: Ordering) {
        self.word(match order {
            Ordering::Less => "less",
            Ordering::Equal => "same",
            Ordering::Greater => "greater",
        });
    }

    /// Adds `yes` or `no`.
    pub fn yes(&mut self, is_so: bool) {
        self.word(if is_so { "yes" } else { "no" });
    }

    /// Adds the hexadecimal digits of some bytes as a word, `-` for none.
    pub fn digits(&mut self, bytes: &[u8]) {
        self.begin();
        if bytes.is_empty() {
            self.push("-");
        }
        for byte in bytes {
            self.push_digits(*byte);
        }
    }

    /// Adds the word that stands for some bytes: each that is no printing character of ASCII is coded, and so is `%`.
    pub fn coded(&mut self, bytes: &[u8]) {
        self.begin();
        self.push_coded(bytes, b"%");
    }

    /// Adds the field that stands for some bytes, a word in which a colon and a comma are coded too.
    pub fn field(&mut self, bytes: &[u8]) {
        self.push_coded(bytes, b"%:,");
    }

    // Adds a word in which these marks are coded. `-` stands for no bytes.
    fn push_coded(&mut self, bytes: &[u8], marks: &[u8]) {
        match bytes {
            [] => self.push("-"),
            [b'-'] => self.push("%2D"),
            _ => {
                for byte in bytes {
                    self.push_byte(*byte, marks);
                }
            }
        }
    }

    fn push_byte(&mut self, byte: u8, marks: &[u8]) {
        let alloc = *self.text.allocator();
        if byte.is_ascii_graphic() && !marks.contains(&byte) {
            self.made((byte as char).to_string(alloc));
        } else {
            self.push("%");
            self.push_digits(byte);
        }
    }

    // The two digits of a byte.
    fn push_digits(&mut self, byte: u8) {
        let alloc = *self.text.allocator();
        self.made(format!(in alloc; "{byte:02X}"));
    }
}
