//! Words that are made of several.
use up_case_lines::Fault;

/// What stands before the first such mark, and behind it. A word without one does not fit.
pub fn cut(word: &str, mark: char) -> Result<(&str, &str), Fault> {
    word.split_once(mark).ok_or(Fault::BadLine)
}

/// What stands before the first ` : `, and behind it.
pub fn cut_asks(words: &str) -> Result<(&str, &str), Fault> {
    words.split_once(" : ").ok_or(Fault::BadLine)
}
