//! The texts and names that words stand for, or why they stand for none.
ghost use Rattle.std.specs.Prelude.{◌≡◌, None};
ghost use Rattle.std.specs.Cow.{cow_slice_items};
ghost use Rattle.up_can.specs.CanLines.{path_named};
ghost use Rattle.up_command.specs.Words.{user_named};
ghost use Rattle.up_explain_can.specs.Judging.{IsMeant};
ghost use Rattle.up_explain_can.specs.declared.why.Why.{Why};
ghost use Rattle.up_names.specs.declared.fault.NameFault.{NameFault};
ghost use Rattle.up_text.specs.Words.{decoded};

use crate::flaw::Flaw;
use crate::why::{Why, bad_word};
use std::alloc::Global;
use std::borrow::CowSlice;
use up_names::{NameFault, Path, User, parse_path, parse_user};
use up_text::word_text;

/// The text that a word stands for.
pub fn text_named<'a>(alloc: Global, word: &'a [u8]) -> Result<CowSlice<'a, u8>, Why>
    ensures { IsMeant cow_slice_items result (decoded word.now) }
{
    match word_text(alloc, word)? {
        Some(text) => Ok(text),
        None => Err(bad_word(alloc, word, Flaw::Percent)),
    }
}

/// The user that a word names.
#[tactic(auto, unfolding(up_command::specs::Words::user_named))]
pub fn user_named(alloc: Global, word: &[u8]) -> Result<User, Why>
    ensures { IsMeant (λ user. user) result (user_named word.now) }
{
    let text = text_named(alloc, word)?;
    match parse_user(alloc, text.as_slice()) {
        Ok(user) => Ok(user),
        Err(fault) => Err(no_user(alloc, text.as_slice(), fault)),
    }
}

/// Why a text names no user.
fn no_user(alloc: Global, text: &[u8], fault: NameFault) -> Why
    ensures { fault ≡ NameFault.OutOfMemory → result ≡ Why.OutOfMemory }
{
    match user_flaw(fault) {
        Some(flaw) => bad_word(alloc, text, flaw),
        None => Why::OutOfMemory,
    }
}

/// What is wrong with a text that names no user; `None` for want of memory.
fn user_flaw(fault: NameFault) -> Option<Flaw>
    ensures { fault ≡ NameFault.OutOfMemory → result ≡ None }
{
    match fault {
        NameFault::TooLong(_) => Some(Flaw::UserLong),
        NameFault::AtSigns(0) => Some(Flaw::UserNoAt),
        NameFault::AtSigns(_) => Some(Flaw::UserAts),
        NameFault::Local => Some(Flaw::UserLocal),
        NameFault::Suffix => Some(Flaw::UserSuffix),
        NameFault::Domain | NameFault::Element(_) => Some(Flaw::UserDomain),
        NameFault::OutOfMemory => None,
    }
}

/// The path that a word names.
#[tactic(auto, unfolding(up_can::specs::CanLines::path_named))]
pub(crate) fn path_named(alloc: Global, word: &[u8]) -> Result<Path, Why>
    ensures { IsMeant (λ path. path) result (path_named word.now) }
{
    let text = text_named(alloc, word)?;
    match parse_path(alloc, text.as_slice()) {
        Ok(path) => Ok(path),
        Err(fault) => Err(no_path(alloc, text.as_slice(), fault)),
    }
}

/// Why a text names no path.
fn no_path(alloc: Global, text: &[u8], fault: NameFault) -> Why
    ensures { fault ≡ NameFault.OutOfMemory → result ≡ Why.OutOfMemory }
{
    match path_flaw(text, fault) {
        Some(flaw) => bad_word(alloc, text, flaw),
        None => Why::OutOfMemory,
    }
}

/// What is wrong with a text that names no path; `None` for want of memory.
fn path_flaw(text: &[u8], fault: NameFault) -> Option<Flaw>
    ensures { fault ≡ NameFault.OutOfMemory → result ≡ None }
{
    match fault {
        NameFault::TooLong(_) if text.len() > 4096 => Some(Flaw::PathLong),
        NameFault::TooLong(_) => Some(Flaw::PathUserLong),
        NameFault::AtSigns(0) => Some(Flaw::PathNoAt),
        NameFault::AtSigns(_) => Some(Flaw::PathAts),
        NameFault::Local => Some(Flaw::PathLocal),
        NameFault::Suffix => Some(Flaw::PathSuffix),
        NameFault::Domain => Some(Flaw::PathDomain),
        NameFault::Element(_) => Some(Flaw::PathElement),
        NameFault::OutOfMemory => None,
    }
}
