//! Cuts a script into lines and a line into words, by slices of the input and with no memory.

ghost use Rattle.std.specs.Prelude.{◌≡◌, ◌≢◌, ◌+◌, ◌<◌, ◌==◌, ◌↔◌, [], ◌∷◌, length, IsNone, IfSome, IfNone, option_copied, position};
ghost use Rattle.std.specs.List.{before_first, after_first};
ghost use Rattle.up_text.specs.Lines.{is_line_end, is_silent, line_words, script_lines, words_left};

use memchr::memchr;

/// Takes the first line off a text: the line without its LF, and the text after it. `None` for the empty text.
pub fn next_line(text: &[u8]) -> Option<(&[u8], &[u8])>
    ensures none { IsNone result ↔ (text.now ≡ []) }
    ensures no_line { IfNone result (script_lines text.now ≡ []) }
    ensures lines { IfSome result
        (λ cut. script_lines text.now ≡ cut.0.now ∷ script_lines cut.1.now) }
    ensures line { IfSome result (λ cut. cut.0.now ≡ before_first is_line_end text.now) }
    ensures rest { IfSome result (λ cut. cut.1.now ≡ after_first is_line_end text.now) }
    ensures shorter { IfSome result (λ cut. length cut.1.now < length text.now) }
{
    if text.is_empty() {
        return None;
    }
    match line_end(text) {
        Some(end) => Some((&text[..end], &text[end + 1..])),
        None => Some((text, &text[text.len()..])),
    }
}

/// The place of the first LF. Where a line has at most one byte, as an empty one and a bare `#` have, it is found at sight.
fn line_end(text: &[u8]) -> Option<usize>
    ensures { result ≡ position is_line_end text.now }
{
    match text {
        [b'\n', ..] => Some(0),
        [_, b'\n', ..] => Some(1),
        _ => place_of(b'\n', text),
    }
}

/// Whether a line says nothing: it is empty, or its first byte is `#`.
#[tactic(auto, unfolding(crate::specs::Lines::is_silent))]
pub fn is_silent(line: &[u8]) -> bool
    ensures { result ≡ is_silent line.now }
{
    match line.split_first() {
        Some((first, _)) => *first == b'#',
        None => true,
    }
}

/// Takes the first word off a line: the word, and what follows the space behind it, `None` where the line ends with
/// the word. Words are separated by single spaces; an empty one, which a doubled, leading or trailing space gives,
/// is handed out like any other, and no reader of a word takes it.
pub fn cut_word(line: &[u8]) -> (&[u8], Option<&[u8]>)
    ensures words { line_words line.now ≡ result.0.now ∷ words_left (option_copied result.1) }
    ensures shorter { IfSome result.1
        (λ rest. length result.0.now + length rest.now < length line.now) }
{
    match place_of(b' ', line) {
        Some(end) => (&line[..end], Some(&line[end + 1..])),
        None => (line, None),
    }
}

/// What is left of a line as one word. `None` where it has no word or more.
pub fn one_word(rest: Option<&[u8]>) -> Option<&[u8]>
    ensures some { IfSome result (λ first. words_left (option_copied rest.entry) ≡ first.now ∷ []) }
    ensures none { IfNone result (length (words_left (option_copied rest.entry)) ≢ 1) }
{
    match cut_word(rest?) {
        (first, None) => Some(first),
        (_, Some(_)) => None,
    }
}

/// What is left of a line as two words. `None` where it has fewer or more.
pub fn two_words(rest: Option<&[u8]>) -> Option<(&[u8], &[u8])>
    ensures some { IfSome result
        (λ cut. words_left (option_copied rest.entry) ≡ cut.0.now ∷ cut.1.now ∷ []) }
    ensures none { IfNone result (length (words_left (option_copied rest.entry)) ≢ 2) }
{
    let (first, after) = cut_word(rest?);
    let second = one_word(after)?;
    Some((first, second))
}

/// What is left of a line as three words. `None` where it has fewer or more.
pub fn three_words(rest: Option<&[u8]>) -> Option<(&[u8], &[u8], &[u8])>
    ensures some { IfSome result (λ cut. words_left (option_copied rest.entry)
        ≡ cut.0.now ∷ cut.1.now ∷ cut.2.now ∷ []) }
    ensures none { IfNone result (length (words_left (option_copied rest.entry)) ≢ 3) }
{
    let (first, after) = cut_word(rest?);
    let (second, third) = two_words(after)?;
    Some((first, second, third))
}

/// The place of the first byte that is `wanted`.
pub(crate) fn place_of(wanted: u8, bytes: &[u8]) -> Option<usize>
    ensures { result ≡ position (λ b. b == wanted) bytes.now }
{
    memchr(wanted, bytes)
}
