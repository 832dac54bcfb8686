//! Classes: what stands between the brackets of an element.
ghost use Rattle.std.specs.Prelude.{◌≡◌, ◌<◌, [], ◌∷◌, Option, None, Some, IfSome, MatchOption, length};
ghost use Rattle.up_pattern.specs.Elements.{class_of, prepended, range_of, ranges_of, some_ranges, upper_end};
ghost use Rattle.up_pattern.specs.Reading.{Reads};
ghost use Rattle.up_pattern.specs.declared.terms.Range.{Range};

use crate::fault::ElementFault;
use crate::terms::{Range, Term};
use crate::tokens::Token;
use std::alloc::Global;
use up_lists::Items;

/// The class of the tokens between brackets: ranges, or behind a `^` those that are excepted.
#[tactic(auto, unfolding(crate::specs::Elements::class_of))]
pub(crate) fn class_of(alloc: Global, inside: &[Token]) -> Result<Term, ElementFault>
    ensures { Reads (λ term. term) result (class_of inside.now) }
{
    let Some((first, others)) = inside.split_first() else {
        return Err(ElementFault::Malformed);
    };
    if first.is_sign('^') {
        Ok(Term::NoneOf(some_ranges(alloc, others)?))
    } else {
        Ok(Term::OneOf(some_ranges(alloc, inside)?))
    }
}

/// One range at least.
fn some_ranges(alloc: Global, tokens: &[Token]) -> Result<Items<Range>, ElementFault>
    ensures { Reads (λ ranges. ranges) result (some_ranges tokens.now) }
{
    if tokens.is_empty() {
        return Err(ElementFault::Malformed);
    }
    ranges_of(alloc, tokens)
}

fn ranges_of(alloc: Global, tokens: &[Token]) -> Result<Items<Range>, ElementFault>
    ensures { Reads (λ ranges. ranges) result (ranges_of tokens.now) }
{
    let mut ranges = Items::new(alloc);
    let mut left = tokens;
    while !left.is_empty() {
        let Some((range, after)) = first_range(left) else {
            return Err(ElementFault::Malformed);
        };
        ranges.push(range)?;
        left = after;
    }
    Ok(ranges)
}

/// The range at the front, and what follows it.
fn first_range(tokens: &[Token]) -> Option<(Range, &[Token])>
    requires { 0 < length tokens.now }
    ensures value { MatchOption result (ranges_of tokens.now ≡ None)
        (λ found. ranges_of tokens.now ≡ prepended (found.0 ∷ []) (ranges_of found.1.now)) }
    ensures shorter { IfSome result (λ found. length found.1.now < length tokens.now) }
{
    let (low, others) = tokens.split_first()?;
    let (high, after) = upper_end(others).unwrap_or((low, others));
    Some((range_of(low, high)?, after))
}

/// The token behind a `-`, and what follows it.
fn upper_end(tokens: &[Token]) -> Option<(&Token, &[Token])>
    ensures value { MatchOption result (upper_end tokens.now ≡ None)
        (λ found. upper_end tokens.now ≡ Some (found.0.now, found.1.now)) }
    ensures shorter { IfSome result (λ found. length found.1.now < length tokens.now) }
{
    let (dash, others) = tokens.split_first()?;
    if !dash.is_sign('-') {
        return None;
    }
    others.split_first()
}

/// The range of two ends, neither of which is a `-`.
fn range_of(low: &Token, high: &Token) -> Option<Range>
    ensures { result ≡ range_of low.now high.now }
{
    if low.is_sign('-') || high.is_sign('-') {
        return None;
    }
    Some(Range {
        low: low.character,
        high: high.character,
    })
}
