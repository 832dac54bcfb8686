//! The characters of an element, with their escapes taken off.
ghost use Rattle.std.specs.Prelude.{◌≡◌, false};
ghost use Rattle.std.specs.Str.{chars};
ghost use Rattle.up_pattern.specs.Elements.{escapes};
ghost use Rattle.up_pattern.specs.Reading.{Reads};

use crate::fault::ElementFault;
use std::alloc::Global;

/// A character of an element, and whether a `\` stands before it, so that it stands for itself alone.
#[derive(Clone, Copy, Debug, PartialEq, Eq)]
pub(crate) struct Token {
    pub(crate) character: char,
    pub(crate) is_escaped: bool,
}

impl Token {
    ghost use Rattle.up_pattern.specs.Elements.{is_sign};

    /// Whether the token is this character with its meaning.
    pub(crate) fn is_sign(&self, c: char) -> bool
        ensures { result ≡ is_sign c self.now }
    {
        !self.is_escaped && self.character == c
    }

    ghost use Rattle.up_pattern.specs.Elements.{tokens_behind};

    /// The tokens of an element's text. It is malformed where a `\` stands at its end.
    pub(crate) fn all_of(alloc: Global, text: &str) -> Result<Vec<Token>, ElementFault>
        ensures { Reads (λ tokens. tokens.items) result (tokens_behind false (chars text.now)) }
    {
        let mut tokens = Vec::new(alloc);
        let mut is_escaped = false;
        for character in text.chars() {
            if escapes(is_escaped, character) {
                is_escaped = true;
            } else {
                tokens.push(Token {
                    character,
                    is_escaped,
                })?;
                is_escaped = false;
            }
        }
        if is_escaped {
            return Err(ElementFault::Malformed);
        }
        Ok(tokens)
    }
}

/// Whether a character escapes the next one.
fn escapes(is_escaped: bool, c: char) -> bool
    ensures { result ≡ escapes is_escaped c }
{
    !is_escaped && c == '\\'
}
