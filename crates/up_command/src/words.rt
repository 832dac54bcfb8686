//! Words that several commands have.
ghost use Rattle.std.specs.Prelude.{◌≡◌, ◌++◌, [], ◌∷◌, IfOk, OnOk};
ghost use Rattle.std.specs.Option.{option_copied};
ghost use Rattle.std.specs.Str.{bytes_eq};
ghost use Rattle.up_text.specs.Lines.{words_left};
ghost use Rattle.up_command.specs.Words.{call_path, key_named, user_named};

use std::alloc::{AllocError, Global};
use up_bytes::{Bytes, copy_of};
use up_lists::Items;
use up_names::{NameFault, Path, User, parse_path, parse_user};
use up_text::{ClientLine, cut_word, read_word, word_text};

/// Whether a word is this one, as it stands.
pub fn is(word: &[u8], wanted: &[u8]) -> bool
    ensures { result ≡ bytes_eq word.now wanted.now }
{
    word == wanted
}

/// The user that a word names. `None` where it names none.
#[tactic(auto, unfolding(crate::specs::Words::user_named))]
pub fn user_named(alloc: Global, word: &[u8]) -> Result<Option<User>, AllocError>
    ensures { IfOk result (λ found. found ≡ user_named word.now) }
{
    let Some(text) = word_text(alloc, word)? else {
        return Ok(None);
    };
    match parse_user(alloc, text.as_slice()) {
        Ok(user) => Ok(Some(user)),
        Err(NameFault::OutOfMemory) => Err(AllocError),
        Err(_) => Ok(None),
    }
}

/// The public key that a word stands for, of 1 to 1,024 bytes. `None` where it stands for none.
#[tactic(auto, unfolding(crate::specs::Words::key_named))]
pub fn key_named(alloc: Global, word: &[u8]) -> Result<Option<Bytes>, AllocError>
    ensures { IfOk result (λ found. found ≡ key_named word.now) }
{
    let Some(key) = read_word(alloc, word)? else {
        return Ok(None);
    };
    if !(1..=1024).contains(&key.len()) {
        return Ok(None);
    }
    Ok(Some(key))
}

/// The words that are left of a line.
pub fn words_of(alloc: Global, words: Option<&[u8]>) -> Result<Items<Bytes>, AllocError>
    ensures { IfOk result (λ all. all ≡ words_left (option_copied words.entry)) }
{
    let mut all = Items::new(alloc);
    let mut left = words;
    while let Some(line) = left {
        let (word, after) = cut_word(line);
        add_word(alloc, &mut all, word)?;
        left = after;
    }
    Ok(all)
}

fn add_word(alloc: Global, words: &mut Items<Bytes>, word: &[u8]) -> Result<(), AllocError>
    ensures { OnOk result (words.new ≡ words.old ++ word.now ∷ []) }
{
    words.push(copy_of(alloc, word)?)?;
    Ok(())
}

/// The path of a put or get of the client. `None` where it does not parse.
pub fn call_path(alloc: Global, call: &ClientLine) -> Result<Option<Path>, AllocError>
    ensures { IfOk result (λ found. found ≡ call_path call.now) }
{
    let text = match call {
        ClientLine::Put(path, _, _, _) => path,
        ClientLine::Get(path) => path,
    };
    match parse_path(alloc, text.as_slice()) {
        Ok(path) => Ok(Some(path)),
        Err(NameFault::OutOfMemory) => Err(AllocError),
        Err(_) => Ok(None),
    }
}
