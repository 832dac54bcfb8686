//! Elements of a pattern.
ghost use Rattle.std.specs.Prelude.{◌≡◌, ◌≤◌, ◌<◌, ◌&&◌, not, true, false, None, IfSome, IfOk, List, MatchOption, length};
ghost use Rattle.std.specs.Option.{option_copied, option_map, option_map_or};
ghost use Rattle.up_names.specs.PathNames.{is_element};
ghost use Rattle.up_pattern.specs.Matching.{matches};
ghost use Rattle.up_pattern.specs.Patterns.{element_of, is_step};
ghost use Rattle.std.specs.Str.{chars};
ghost use Rattle.std.specs.String.{string_bytes};
ghost use Rattle.std.specs.List.{position, position_or_len};
ghost use Rattle.up_pattern.specs.Elements.{IsClosed, is_close, literal_of, term_of, terms_behind, terms_of};
ghost use Rattle.up_pattern.specs.Reading.{Reads};

use crate::classes::class_of;
use crate::fault::ElementFault;
use crate::matching::matches_terms;
use crate::terms::Term;
use crate::tokens::Token;
use std::alloc::{AllocError, Global};
use std::marker::Model;
use up_lists::Items;

/// An element of a pattern: its terms, and beside them its text where it is literal, which is lent without memory.
#[derive(Debug, Drop)]
pub(crate) struct Element {
    terms: Items<Term>,
    literal: Option<String>,
}

impl Model for Element {
    ghost use Rattle.std.specs.Prelude.{◌≡◌, List};
    ghost use Rattle.std.specs.Option.{option_map};
    ghost use Rattle.std.specs.String.{string_bytes};
    ghost use Rattle.up_pattern.specs.Elements.{literal_of};
    ghost use Rattle.up_pattern.specs.declared.terms.Term.{Term};

    ghost Value = { List Term };

    ghost view = { λ element. element.terms };

    ghost invariant = { λ element. option_map string_bytes element.literal
        ≡ literal_of element.terms };
}

impl Element {
    /// The element of a text. It is malformed too where it reads `.` or `..` through escapes.
    pub(crate) fn parse(alloc: Global, text: &str) -> Result<Element, ElementFault>
        requires { is_element text.now ≡ true }
        ensures { Reads (λ element. element) result (element_of text.now) }
    {
        let terms = terms_of(alloc, text)?;
        let literal = literal_of(alloc, terms.as_slice())?;
        if hides_step(text, &literal) {
            return Err(ElementFault::Malformed);
        }
        Ok(Element { terms, literal })
    }

    /// The text that the element reads, or `None` exactly where it is not literal. It takes no memory.
    pub(crate) fn literal(&self) -> Option<&str>
        ensures { option_copied result ≡ literal_of self.now }
    {
        self.literal.as_deref()
    }

    /// Whether a text matches the element. It takes no memory.
    pub(crate) fn matches(&self, text: &str) -> bool
        ensures { result ≡ matches self.now (chars text.now) }
    {
        matches_terms(self.terms.as_slice(), text)
    }
}

/// Whether a literal element reads `.` or `..`, though it is not written so.
fn hides_step(text: &str, literal: &Option<String>) -> bool
    ensures { result ≡ (not (is_step text.now)
        && option_map_or is_step (option_map string_bytes literal.now) false) }
{
    match literal {
        Some(literal) => !is_step(text) && is_step(literal),
        None => false,
    }
}

/// The terms of an element's text.
#[tactic(auto, unfolding(crate::specs::Elements::terms_of))]
pub(crate) fn terms_of(alloc: Global, text: &str) -> Result<Items<Term>, ElementFault>
    ensures { Reads (λ terms. terms) result (terms_of (chars text.now)) }
{
    let tokens = Token::all_of(alloc, text)?;
    terms_outside(alloc, &tokens)
}

/// The terms of tokens that stand outside brackets.
fn terms_outside(alloc: Global, tokens: &[Token]) -> Result<Items<Term>, ElementFault>
    ensures { Reads (λ terms. terms) result (terms_behind None tokens.now) }
{
    let mut terms = Items::new(alloc);
    let mut left = tokens;
    while let Some((token, others)) = left.split_first() {
        if token.is_sign('[') {
            let Some((inside, after)) = split_at_close(others) else {
                return Err(ElementFault::Malformed);
            };
            terms.push(class_of(alloc, inside)?)?;
            left = after;
        } else {
            terms.push(term_of(token))?;
            left = others;
        }
    }
    Ok(terms)
}

/// What stands before the first `]`, and what follows it.
fn split_at_close(tokens: &[Token]) -> Option<(&[Token], &[Token])>
    ensures { MatchOption result (length tokens.now ≤ position_or_len is_close tokens.now)
        (λ parts. IsClosed tokens.now parts.0.now parts.1.now) }
{
    let close = close_of(tokens)?;
    Some((&tokens[..close], &tokens[close + 1..]))
}

/// The place of the first `]`.
fn close_of(tokens: &[Token]) -> Option<usize>
    ensures value { result ≡ position is_close tokens.now }
    ensures within { IfSome result (λ place. place < length tokens.now) }
{
    tokens.iter().position(|token| token.is_sign(']'))
}

fn term_of(token: &Token) -> Term
    ensures { result ≡ term_of token.now }
{
    if token.is_sign('*') {
        Term::Many
    } else if token.is_sign('?') {
        Term::One
    } else {
        Term::Char(token.character)
    }
}

/// The text that an element reads, where it is literal.
pub(crate) fn literal_of(alloc: Global, terms: &[Term]) -> Result<Option<String>, AllocError>
    ensures { IfOk result (λ literal. option_map string_bytes literal ≡ literal_of terms.now) }
{
    let mut text = String::new(alloc);
    for term in terms {
        let Term::Char(c) = term else {
            return Ok(None);
        };
        text.push(*c)?;
    }
    Ok(Some(text))
}

/// Whether a text is `.` or `..`, a step in a path.
fn is_step(text: &str) -> bool
    ensures { result ≡ is_step text.now }
{
    text == "." || text == ".."
}
