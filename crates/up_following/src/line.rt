//! The lines of the input: what each says by itself.
ghost use Rattle.std.specs.Prelude.{◌≡◌, IfOk, Some};
ghost use Rattle.std.specs.Option.{option_and_then, option_copied};
ghost use Rattle.up_following.specs.FollowLines.{asked_line, line_of, pull_line};
ghost use Rattle.up_text.specs.Lines.{words_left};
ghost use Rattle.up_text.specs.Requests.{request_of};

use std::alloc::{AllocError, Global};
use up_command::{is, user_named, words_of};
use up_names::User;
use up_text::{cut_word, is_silent, read_request};
use up_wire::Request;

/// What a line says.
#[derive(Drop)]
pub enum FollowLine {
    /// An empty line or a comment.
    Silent,
    /// `pull`: a batch is taken from the feed.
    Pull,
    /// `USER` and the words of a request, which the follower is asked as that user.
    Ask(User, Request),
}

/// What a line says, or `None` where it is malformed.
#[tactic(auto, unfolding(crate::specs::FollowLines::line_of, crate::specs::FollowLines::words_line))]
pub fn follow_line(alloc: Global, line: &[u8]) -> Result<Option<FollowLine>, AllocError>
    ensures { IfOk result (λ found. found ≡ line_of line.now) }
{
    if is_silent(line) {
        return Ok(Some(FollowLine::Silent));
    }
    let (first, words) = cut_word(line);
    if is(first, b"pull") {
        return Ok(pull_line(words));
    }
    asked_line(alloc, first, words)
}

// `pull`, with no word behind it
fn pull_line(words: Option<&[u8]>) -> Option<FollowLine>
    ensures { result ≡ pull_line (words_left (option_copied words.entry)) }
{
    match words {
        None => Some(FollowLine::Pull),
        Some(_) => None,
    }
}

// `USER` and the words of a request
#[tactic(auto, unfolding(crate::specs::FollowLines::asked_line))]
fn asked_line(
    alloc: Global,
    first: &[u8],
    words: Option<&[u8]>,
) -> Result<Option<FollowLine>, AllocError>
    ensures { IfOk result (λ found.
        found ≡ asked_line first.now (words_left (option_copied words.entry))) }
{
    let Some(user) = user_named(alloc, first)? else {
        return Ok(None);
    };
    asked_by(alloc, user, words)
}

// The words of a request that a user asks.
fn asked_by(
    alloc: Global,
    user: User,
    words: Option<&[u8]>,
) -> Result<Option<FollowLine>, AllocError>
    ensures { IfOk result (λ found. found ≡ option_and_then
        (λ request. Some (FollowLine.Ask user request))
        (request_of user (words_left (option_copied words.entry)))) }
{
    let words = words_of(alloc, words)?;
    let Some(request) = read_request(alloc, words.as_slice(), &user)? else {
        return Ok(None);
    };
    Ok(Some(FollowLine::Ask(user, request)))
}
