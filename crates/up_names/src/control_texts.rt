//! What Access and Group texts share: how a text is cut into lines, and a line into words. Nothing here takes memory.
ghost use Rattle.std.specs.Prelude.{◌≡◌, ◌<◌, [], ◌∷◌, length, MatchOption, IfSome, not, position};
ghost use Rattle.up_names.specs.ControlTexts.{control_lines, is_gap, line_of, says_nothing, without_return, words_in};

use crate::cuts::cut;

/// The first line of a text, without its comment, and what stands behind its LF: `None` where the text ends with it.
#[tactic(auto, using(crate::proofs::ControlTextLemmas::lines))]
pub fn next_control_line(text: &[u8]) -> (&[u8], Option<&[u8]>)
    // The text has this line, and then those of the rest.
    ensures lines { MatchOption result.1 (control_lines text.now ≡ result.0.now ∷ [])
        (λ rest. control_lines text.now ≡ result.0.now ∷ control_lines rest.now) }
    ensures shorter { IfSome result.1 (λ rest. length rest.now < length text.now) }
{
    let (piece, rest) = cut(text, b'\n');
    (line_of(piece), rest)
}

/// What a piece between LFs says.
fn line_of(piece: &[u8]) -> &[u8]
    ensures { result.now ≡ line_of piece.now }
{
    let (line, _) = cut(without_return(piece), b'#');
    line
}

#[tactic(auto, unfolding(crate::specs::ControlTexts::without_return))]
fn without_return(piece: &[u8]) -> &[u8]
    ensures { result.now ≡ without_return piece.now }
{
    if piece.ends_with(b"\r") {
        &piece[..piece.len() - 1]
    } else {
        piece
    }
}

/// The first word of a line, and what stands behind it: `None` where the line has no word.
#[tactic(auto, using(crate::proofs::ControlTextLemmas::words))]
pub fn next_word(line: &[u8]) -> Option<(&[u8], &[u8])>
    // The line has this word, and then those of the rest.
    ensures words { MatchOption result (words_in line.now ≡ [])
        (λ found. words_in line.now ≡ found.0.now ∷ words_in found.1.now) }
    ensures shorter { IfSome result (λ found. length found.1.now < length line.now) }
{
    let start = word_start(line)?;
    let begun = &line[start..];
    match word_end(begun) {
        Some(end) => Some((&begun[..end], &begun[end..])),
        None => Some((begun, b"")),
    }
}

fn word_start(line: &[u8]) -> Option<usize>
    ensures { result ≡ position (λ b. not (is_gap b)) line.now }
{
    line.iter().position(|b| !is_gap(*b))
}

fn word_end(begun: &[u8]) -> Option<usize>
    ensures { result ≡ position is_gap begun.now }
{
    begun.iter().position(|b| is_gap(*b))
}

fn is_gap(byte: u8) -> bool
    ensures { result ≡ is_gap byte }
{
    byte == b',' || byte == b' ' || byte == b'\t'
}

/// Whether a line is blanks alone, spaces and tabs, and so says nothing.
pub fn says_nothing(line: &[u8]) -> bool
    ensures { result ≡ says_nothing line.now }
{
    line.iter().all(|b| *b == b' ' || *b == b'\t')
}
