//! The words of a program, and the command that they name.
ghost use Rattle.std.specs.Prelude.{◌≡◌, map, string_bytes, IfOk};
ghost use Rattle.upspin.specs.ProgramWords.{command_of, explained, named, named_by_two, program_words};

use std::alloc::{AllocError, Global};
use std::str;
use up_bytes::Bytes;

/// A command for people.
#[derive(Clone, Copy, Debug, PartialEq, Eq)]
pub enum Command {
    Serve,
    Client,
    Copy,
    Follow,
    Audit,
    Share,
    Storm,
    Can,
    /// The words `explain can`, and no others.
    ExplainCan,
    /// The words `explain script`, and no others.
    ExplainScript,
    /// `script`, and the words of no command, which get the usage line from it.
    Script,
}

/// The words of a program behind its name, each as a text, in their order. Where one of them is not UTF-8 there is none: it fits no
/// command.
pub fn program_words(alloc: Global, given: &[Bytes]) -> Result<Vec<String>, AllocError>
    ensures { IfOk result (λ words. map string_bytes words.items ≡ program_words given.now) }
{
    let mut words = Vec::new(alloc);
    let mut left = given;
    while let Some((word, rest)) = left.split_first() {
        match str::from_utf8(word.as_slice()) {
            Ok(text) => words.push(String::from_str(alloc, text)?)?,
            Err(_) => return Ok(Vec::new(alloc)),
        }
        left = rest;
    }
    Ok(words)
}

/// The command that words name.
pub fn command_of(words: &[String]) -> Command
    ensures { result ≡ command_of (map string_bytes words.now) }
{
    match words {
        [] => Command::Script,
        [word] => named(word.as_str()),
        [word, kind] => named_by_two(word.as_str(), kind.as_str()),
        [word, _second, _third, _more @ ..] => named(word.as_str()),
    }
}

// That of two words.
fn named_by_two(word: &str, kind: &str) -> Command
    ensures { result ≡ named_by_two word.now kind.now }
{
    if word == "explain" {
        explained(kind)
    } else {
        named(word)
    }
}

// That of two words, the first of which is `explain`.
fn explained(kind: &str) -> Command
    ensures { result ≡ explained kind.now }
{
    match kind {
        "can" => Command::ExplainCan,
        "script" => Command::ExplainScript,
        _ => Command::Script,
    }
}

// That of its first word.
fn named(word: &str) -> Command
    ensures { result ≡ named word.now }
{
    match word {
        "can" => Command::Can,
        "serve" => Command::Serve,
        "client" => Command::Client,
        "copy" => Command::Copy,
        "follow" => Command::Follow,
        "audit" => Command::Audit,
        "share" => Command::Share,
        "storm" => Command::Storm,
        _ => Command::Script,
    }
}
