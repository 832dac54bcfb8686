//! Whether a text matches an element.

ghost use Rattle.std.specs.Prelude.{◌≡◌, ◌∷◌, [], MatchOption};
ghost use Rattle.std.specs.List.{list_all, list_any};
ghost use Rattle.std.specs.Str.{chars};
ghost use Rattle.up_pattern.specs.Matching.{matches, stands_for, is_in_range, is_many};
ghost use Rattle.up_pattern.specs.declared.terms.Term.TheVariants.{Many};

use crate::terms::{Range, Term};

/// Whether a text matches the terms of an element.
pub fn matches_terms(terms: &[Term], text: &str) -> bool
    ensures { result ≡ matches terms.now (chars text.now) }
{
    let mut left = terms;
    let mut rest = text;
    while let Some((term, others)) = left.split_first() {
        if term.is_many() {
            return matches_somewhere(others, rest);
        }
        let Some((c, after)) = first_char(rest) else {
            return false;
        };
        if !term.stands_for(c) {
            return false;
        }
        left = others;
        rest = after;
    }
    rest.is_empty()
}

/// Whether what follows some front of a text, which a `*` takes, matches the terms. Where they do not fit any more, the
/// last `*` takes one character more: no earlier one has to be tried again.
fn matches_somewhere(terms: &[Term], text: &str) -> bool
    ensures { result ≡ matches (Many ∷ terms.now) (chars text.now) }
{
    // behind the last `*`, and what it leaves of the text
    let mut again = terms;
    let mut from = text;
    let mut left = terms;
    let mut rest = text;
    while let Some((c, after)) = first_char(rest) {
        match left.split_first() {
            Some((term, others)) if term.is_many() => {
                again = others;
                from = rest;
                left = others;
            }
            Some((term, others)) if term.stands_for(c) => {
                left = others;
                rest = after;
            }
            _ => {
                let Some((_, later)) = first_char(from) else {
                    return false;
                };
                from = later;
                left = again;
                rest = later;
            }
        }
    }
    are_many(left)
}

/// Whether all terms are `*`, so that the empty text matches.
fn are_many(terms: &[Term]) -> bool
    ensures { result ≡ list_all is_many terms.now }
{
    terms.iter().all(|term| term.is_many())
}

/// The first character and what follows it.
fn first_char(text: &str) -> Option<(char, &str)>
    ensures { MatchOption result (chars text.now ≡ [])
        (λ found. chars text.now ≡ found.0 ∷ chars found.1.now) }
{
    let mut chars = text.chars();
    let first = chars.next()?;
    Some((first, chars.as_str()))
}

impl Term {
    fn is_many(&self) -> bool
        ensures { result ≡ is_many self.now }
    {
        matches!(self, Term::Many)
    }

    /// Whether a character is one that the term stands for.
    fn stands_for(&self, c: char) -> bool
        ensures { result ≡ stands_for self.now c }
    {
        match self {
            Term::Many | Term::One => true,
            Term::Char(d) => c == *d,
            Term::OneOf(ranges) => is_in_some(ranges.as_slice(), c),
            Term::NoneOf(ranges) => !is_in_some(ranges.as_slice(), c),
        }
    }
}

/// Whether a character lies in one of the ranges.
fn is_in_some(ranges: &[Range], c: char) -> bool
    ensures { result ≡ list_any (is_in_range c) ranges.now }
{
    ranges.iter().any(|range| range.low <= c && c <= range.high)
}
