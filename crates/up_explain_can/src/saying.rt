//! What is printed of a malformed line.
ghost use Rattle.std.specs.Prelude.{◌≡◌, ◌++◌, IfOk, OnOk, codes};
ghost use Rattle.up_command.specs.Printed.{ended};
ghost use Rattle.up_explain_can.specs.Explaining.{IsOneLine, explained};

use crate::flaw::Flaw;
use crate::why::Why;
use std::alloc::{AllocError, Global};
use up_text::push_word;

/// How many bytes of a word are shown, at most; they are coded then.
const MOST_SHOWN: usize = 64;

/// Adds the line that says why a line, whose number this is, is malformed. Where memory is wanting, a part of it may be left there.
pub(crate) fn say_why(out: &mut Vec<u8>, number: u64, words: &[u8]) -> Result<(), AllocError>
    ensures { OnOk result (out.new.items ≡ out.old.items ++ explained number words.now) }
{
    let digits = number.to_string(*out.allocator())?;
    add_line(out, digits.as_bytes(), words)
}

/// Adds the line with these digits.
fn add_line(out: &mut Vec<u8>, digits: &[u8], words: &[u8]) -> Result<(), AllocError>
    ensures { OnOk result (out.new.items ≡ out.old.items
        ++ (codes "line " ++ digits.now ++ codes ": " ++ ended words.now)) }
{
    out.extend_from_slice(b"line ")?;
    out.extend_from_slice(digits)?;
    out.extend_from_slice(b": ")?;
    out.extend_from_slice(words)?;
    out.push(b'\n')?;
    Ok(())
}

/// Why a line is malformed, in words. How it is cut into words comes first: that is the cause of all else.
pub(crate) fn words_of(alloc: Global, line: &[u8], why: &Why) -> Result<Vec<u8>, AllocError>
    ensures { IfOk result (λ words. IsOneLine words.items) }
{
    let mut words = Vec::new(alloc);
    match cut_flaw(line) {
        Some(flaw) => push_flaw(&mut words, flaw)?,
        None => push_why(&mut words, why)?,
    }
    Ok(words)
}

/// What is wrong with how a line is cut into words.
fn cut_flaw(line: &[u8]) -> Option<Flaw> {
    if line.starts_with(b" ") {
        Some(Flaw::SpaceFirst)
    } else if line.ends_with(b" ") {
        Some(Flaw::SpaceLast)
    } else if line.windows(2).any(|pair| pair == b"  ".as_slice()) {
        Some(Flaw::TwoSpaces)
    } else if line.ends_with(b"\r") {
        Some(Flaw::ReturnLast)
    } else {
        None
    }
}

/// Adds why a line is malformed.
#[tactic(auto, using(crate::proofs::LineLemmas::joined_line))]
fn push_why(out: &mut Vec<u8>, why: &Why) -> Result<(), AllocError>
    requires { IsOneLine out.old.items }
    ensures { OnOk result (IsOneLine out.new.items) }
{
    match why {
        Why::Line(flaw) => push_flaw(out, *flaw),
        Why::Word(word, flaw) => push_of_word(out, word.as_slice(), *flaw),
        Why::AccessText(number, word, flaw) => {
            push_number(out, b"the Access text is bad at its line ", *number)?;
            push_of_text(out, word.as_slice(), *flaw)
        }
        Why::GroupText(number, word, flaw) => {
            push_number(out, b"the Group text is bad at its line ", *number)?;
            push_of_text(out, word.as_slice(), *flaw)
        }
        Why::OutOfMemory => Ok(()),
    }
}

/// Adds a flaw.
#[tactic(auto, using(crate::proofs::LineLemmas::joined_line))]
fn push_flaw(out: &mut Vec<u8>, flaw: Flaw) -> Result<(), AllocError>
    requires { IsOneLine out.old.items }
    ensures { OnOk result (IsOneLine out.new.items) }
{
    out.extend_from_slice(flaw.words().as_bytes())
}

/// Adds a word and its flaw.
#[tactic(auto, using(crate::proofs::LineLemmas::joined_line))]
fn push_of_word(out: &mut Vec<u8>, word: &[u8], flaw: Flaw) -> Result<(), AllocError>
    requires { IsOneLine out.old.items }
    ensures { OnOk result (IsOneLine out.new.items) }
{
    out.push(b'"')?;
    push_front(out, word)?;
    out.extend_from_slice(b"\" ")?;
    push_flaw(out, flaw)
}

/// Adds as much of a word as is shown, coded as words of output are.
#[tactic(auto, using(crate::proofs::LineLemmas::coded_line, crate::proofs::LineLemmas::decimal_line, crate::proofs::LineLemmas::joined_line))]
fn push_front(out: &mut Vec<u8>, word: &[u8]) -> Result<(), AllocError>
    requires { IsOneLine out.old.items }
    ensures { OnOk result (IsOneLine out.new.items) }
{
    let (front, rest) = word.split_at(MOST_SHOWN.min(word.len()));
    push_word(out, front)?;
    if rest.is_empty() {
        return Ok(());
    }
    out.extend_from_slice(b"..")
}

/// Adds the flaw of a line of a text; of a word in it, where it has one.
#[tactic(auto, using(crate::proofs::LineLemmas::joined_line))]
fn push_of_text(out: &mut Vec<u8>, word: &[u8], flaw: Flaw) -> Result<(), AllocError>
    requires { IsOneLine out.old.items }
    ensures { OnOk result (IsOneLine out.new.items) }
{
    out.extend_from_slice(b": ")?;
    if word.is_empty() {
        push_flaw(out, flaw)
    } else {
        push_of_word(out, word, flaw)
    }
}

/// Adds words and a number.
#[tactic(auto, using(crate::proofs::LineLemmas::coded_line, crate::proofs::LineLemmas::decimal_line, crate::proofs::LineLemmas::joined_line))]
fn push_number(out: &mut Vec<u8>, words: &[u8], number: u64) -> Result<(), AllocError>
    requires before { IsOneLine out.old.items }
    requires words { IsOneLine words.now }
    ensures { OnOk result (IsOneLine out.new.items) }
{
    let digits = number.to_string(*out.allocator())?;
    out.extend_from_slice(words)?;
    out.extend_from_slice(digits.as_bytes())
}
