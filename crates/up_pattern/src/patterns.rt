//! Patterns.
ghost use Rattle.std.specs.Prelude.{◌≡◌, ◌≤◌, ◌<◌, [], length, slice_index_or, IfSome, IsTrue};
ghost use Rattle.std.specs.List.{slice_split};
ghost use Rattle.std.specs.Option.{option_copied, option_map};
ghost use Rattle.std.specs.Str.{chars};
ghost use Rattle.up_names.specs.PathNames.{is_name, is_slash};
ghost use Rattle.up_pattern.specs.Matching.{matches};
ghost use Rattle.up_pattern.specs.PatternGives.{Gives};
ghost use Rattle.up_pattern.specs.Patterns.{after_piece, element_of, elements_of, literal_at, pattern_of};
ghost use Rattle.up_pattern.specs.Reading.{Reads};

use crate::elements::Element;
use crate::fault::{ElementFault, PatternFault};
use std::alloc::Global;
use std::marker::Model;
use up_names::{User, cut_at_slash, element_text, parse_user};

/// How many bytes the text of a pattern may have.
const MAX_LEN: usize = 4096;

/// A pattern: its owner, and its elements, cleaned as those of a path.
#[derive(Debug, Drop)]
pub struct Pattern {
    owner: User,
    elements: Vec<Element>,
}

impl Model for Pattern {
    ghost use Rattle.std.specs.Prelude.{◌≡◌, true};
    ghost use Rattle.std.specs.List.{list_all};
    ghost use Rattle.up_pattern.specs.Patterns.{PatternName, reads_name};

    ghost Value = { PatternName };

    ghost view = { λ pattern. record { owner = pattern.owner; elements = pattern.elements.items } };

    ghost invariant = { λ pattern. list_all reads_name pattern.elements.items ≡ true };
}

impl Pattern {
    /// The owner.
    pub fn owner(&self) -> &User
        ensures { result.now ≡ self.now.owner }
    {
        &self.owner
    }

    /// The number of elements.
    pub fn len(&self) -> u64
        ensures { result ≡ length self.now.elements }
    {
        self.elements.len() as u64
    }

    /// The text that the element at place `i` reads, its escapes taken off. `None` exactly where `i` is at least the
    /// length, or a `*`, a `?` or a class is in the element. It takes no memory.
    pub fn literal(&self, i: u64) -> Option<&str>
        ensures value { option_copied result ≡ literal_at self.now i }

        // It may be an element of a path.
        ensures name { IfSome result (λ text. IsTrue (is_name text.now)) }
    {
        self.elements.get(i as usize)?.literal()
    }

    /// Whether a text matches the element at place `i`. It takes no memory.
    pub fn matches(&self, i: u64, element: &str) -> bool
        requires { i < length self.now.elements }
        ensures { result ≡ matches (slice_index_or self.now.elements i []) (chars element.now) }
    {
        self.elements[i as usize].matches(element)
    }
}

/// The pattern that a text is: a literal user's name, and perhaps elements behind slashes, cleaned as those of a path:
/// empty ones and `.` are dropped; `..` drops the element before it, and at the front nothing. A slash always parts
/// elements, also behind `\` and between brackets.
#[tactic(auto, unfolding(crate::specs::Patterns::pattern_of, up_names::specs::PathNames::pieces_of))]
pub fn parse_pattern(alloc: Global, text: &[u8]) -> Result<Pattern, PatternFault>
    ensures { Gives (λ pattern. pattern) result (pattern_of text.now) }
{
    if text.len() > MAX_LEN {
        return Err(PatternFault::Name);
    }
    let (owner, pieces) = cut_at_slash(text);
    let owner = parse_user(alloc, owner)?;
    let elements = match pieces {
        Some(pieces) => parse_elements(alloc, pieces)?,
        None => Vec::new(alloc),
    };
    Ok(Pattern { owner, elements })
}

/// The elements of the pieces behind an owner.
fn parse_elements(alloc: Global, pieces: &[u8]) -> Result<Vec<Element>, PatternFault>
    requires { length pieces.now ≤ 4096 }
    ensures { Gives (λ elements. elements.items) result
        (elements_of (slice_split is_slash pieces.now)) }
{
    let mut elements = Vec::new(alloc);
    let mut place = 0u64;
    for piece in pieces.split(|b| *b == b'/') {
        if let Err(fault) = take_piece(&mut elements, piece) {
            return Err(fault.at(place));
        }
        place += 1;
    }
    Ok(elements)
}

/// Takes the next piece of a pattern's text.
fn take_piece(elements: &mut Vec<Element>, piece: &[u8]) -> Result<(), ElementFault>
    ensures { Reads (λ _. elements.new.items) result
        (option_map (after_piece elements.old.items piece.now) (element_of piece.now)) }
{
    let Some(text) = element_text(piece) else {
        return Err(ElementFault::Malformed);
    };
    let element = Element::parse(*elements.allocator(), text)?;
    match text {
        "" | "." => {}
        ".." => {
            elements.pop();
        }
        _ => elements.push(element)?,
    }
    Ok(())
}
