//! The lines of the text of users to be enrolled.
ghost use Rattle.std.specs.Prelude.{◌≡◌, ◌≤◌, true, length, IfOk, IfSome};
ghost use Rattle.std.specs.Option.{option_copied};
ghost use Rattle.up_command.specs.Words.{is_key};
ghost use Rattle.up_keys.specs.Records.{has_bounds};
ghost use Rattle.up_serve.specs.EnrolLines.{IsGood, enrol_line, plain_card, user_line};
ghost use Rattle.up_text.specs.Lines.{line_words};

use std::alloc::{AllocError, Global};
use up_bytes::Bytes;
use up_command::{key_named, user_named};
use up_lists::Items;
use up_names::User;
use up_text::{cut_word, is_silent, one_word};
use up_wire::KeyRecord;

/// What a line says.
#[derive(Drop)]
pub enum EnrolLine {
    /// An empty line or a comment.
    Silent,
    /// `USER KEY`: a user's record, without endpoints.
    User(KeyRecord),
}

/// What a line says. `None` where it is bad.
#[tactic(auto, unfolding(crate::specs::EnrolLines::enrol_line))]
pub fn enrol_line(alloc: Global, line: &[u8]) -> Result<Option<EnrolLine>, AllocError>
    ensures says { IfOk result (λ found. found ≡ enrol_line line.now) }
    ensures good { IfOk result (λ found. IfSome found IsGood) }
{
    if is_silent(line) {
        return Ok(Some(EnrolLine::Silent));
    }
    user_line(alloc, line)
}

// `USER KEY`
#[tactic(auto, unfolding(crate::specs::EnrolLines::user_line))]
fn user_line(alloc: Global, line: &[u8]) -> Result<Option<EnrolLine>, AllocError>
    ensures says { IfOk result (λ found. found ≡ user_line (line_words line.now)) }
    ensures good { IfOk result (λ found. IfSome found IsGood) }
{
    let (user, after) = cut_word(line);
    let Some(key) = one_word(after) else {
        return Ok(None);
    };
    let Some(user) = user_named(alloc, user)? else {
        return Ok(None);
    };
    let Some(key) = key_named(alloc, key)? else {
        return Ok(None);
    };
    Ok(Some(EnrolLine::User(plain_card(alloc, user, key))))
}

// A record without endpoints.
#[tactic(auto, unfolding(up_keys::specs::Records::keeps_bounds, up_keys::specs::Records::endpoints_fit))]
fn plain_card(alloc: Global, user: User, key: Bytes) -> KeyRecord
    requires { is_key key ≡ true }
    ensures card { result ≡ plain_card user key }
    ensures bounds { has_bounds result ≡ true }
{
    KeyRecord {
        user,
        dirs: Items::new(alloc),
        stores: Items::new(alloc),
        key,
    }
}
