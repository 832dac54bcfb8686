//! The terms that an element of a pattern is made of.
use up_lists::Items;

/// The characters from `low` to `high`, both included; none where `low` is above `high`.
#[derive(Clone, Copy, Debug, PartialEq, Eq)]
pub struct Range {
    pub low: char,
    pub high: char,
}

/// A part of an element, and what it stands for.
#[derive(Debug, Drop)]
pub enum Term {
    /// `*`: any characters, or none.
    Many,
    /// `?`: any one character.
    One,
    /// This one character.
    Char(char),
    /// `[..]`: one character in one of the ranges.
    OneOf(Items<Range>),
    /// `[^..]`: one character in none of the ranges.
    NoneOf(Items<Range>),
}
