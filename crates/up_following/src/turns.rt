//! What comes of a line.
ghost use Rattle.std.specs.Prelude.{◌≡◌, ◌++◌, OnOk};
ghost use Rattle.std.specs.List.{flat_map};
ghost use Rattle.up_command.specs.Printed.{ended};
ghost use Rattle.up_follow.specs.declared.feed.Feed as feeds;
ghost use Rattle.up_following.specs.FollowTurns.{AskCame, LineCame, PullCame, SaysCame, LineGathered, result_of_pull, result_of_reply, world};
ghost use Rattle.up_text.specs.Replies.{reply_lines};

use crate::line::{FollowLine, follow_line};
use crate::stop::LineStop;
use std::alloc::{AllocError, Global};
use up_command::{say, say_count};
use up_disk::Disk;
use up_follow::{Feed, FollowWhy, Follower};
use up_names::User;
use up_text::push_reply;
use up_wire::{Reply, Request};

/// Does what a line says, and gathers what it prints.
pub(crate) fn run_line<D: Disk, F: Feed>(
    alloc: Global,
    follower: &mut Follower<D>,
    feed: &mut F,
    line: &[u8],
    out: &mut Vec<u8>,
) -> Result<(), LineStop>
    ensures came { LineGathered (λ came. LineCame D.Disk F.Feed (world follower.old feed.old) line.now came
        (world follower.new feed.new)) out.old.items result out.new.items }
    ensures tie { F.tied feed.old feed.new }
{
    let Some(says) = follow_line(alloc, line)? else {
        return Err(LineStop::Malformed);
    };
    do_line(alloc, follower, feed, says, out)
}

// Does what was said.
fn do_line<D: Disk, F: Feed>(
    alloc: Global,
    follower: &mut Follower<D>,
    feed: &mut F,
    says: FollowLine,
    out: &mut Vec<u8>,
) -> Result<(), LineStop>
    ensures came { LineGathered (λ came. SaysCame D.Disk F.Feed (world follower.old feed.old) says came
        (world follower.new feed.new)) out.old.items result out.new.items }
    ensures tie { F.tied feed.old feed.new }
{
    match says {
        FollowLine::Silent => Ok(()),
        FollowLine::Pull => pull(alloc, follower, feed, out),
        FollowLine::Ask(user, request) => {
            let asked = ask(alloc, follower, &user, &request, out);
            drop(user);
            drop(request);
            asked
        }
    }
}

// `pull`
fn pull<D: Disk, F: Feed>(
    alloc: Global,
    follower: &mut Follower<D>,
    feed: &mut F,
    out: &mut Vec<u8>,
) -> Result<(), LineStop>
    ensures came { LineGathered (λ came. PullCame D.Disk F.Feed (world follower.old feed.old) came
        (world follower.new feed.new)) out.old.items result out.new.items }
    ensures tie { F.tied feed.old feed.new }
{
    let pulled = follower.pull(alloc, feed);
    say_pull_result(out, pulled)
}

// What came of a pull.
fn say_pull_result(out: &mut Vec<u8>, pulled: Result<u64, FollowWhy>) -> Result<(), LineStop>
    ensures { LineGathered (λ came. came ≡ result_of_pull pulled) out.old.items result out.new.items }
{
    match pulled {
        Ok(count) => Ok(say_count(out, b"pulled ", count)?),
        Err(FollowWhy::Failed) => Ok(say(out, b"failed", b"")?),
        Err(FollowWhy::Strange(position)) => Ok(say_count(out, b"strange ", position)?),
        Err(FollowWhy::Full(records)) => Ok(say_count(out, b"full ", records)?),
        Err(FollowWhy::Io) => Ok(say(out, b"io", b"")?),
        Err(FollowWhy::OutOfMemory) => Err(LineStop::OutOfMemory),
    }
}

// A request of a user.
fn ask<D: Disk>(
    alloc: Global,
    follower: &mut Follower<D>,
    user: &User,
    request: &Request,
    out: &mut Vec<u8>,
) -> Result<(), LineStop>
    ensures came { LineGathered (λ came. AskCame user.now request.now follower.old came)
        out.old.items result out.new.items }
    ensures unchanged { follower.new ≡ follower.old }
{
    match follower.answer(alloc, user, request) {
        Some(reply) => {
            let said = say_reply_result(out, &reply);
            drop(reply);
            said
        }
        None => Ok(say(out, b"readonly", b"")?),
    }
}

// What is said of a reply.
fn say_reply_result(out: &mut Vec<u8>, reply: &Reply) -> Result<(), LineStop>
    ensures { LineGathered (λ came. came ≡ result_of_reply reply.now) out.old.items result out.new.items }
{
    if let Reply::OutOfMemory = reply {
        return Err(LineStop::OutOfMemory);
    }
    Ok(say_reply(out, reply)?)
}

// The lines of a reply, each with its LF.
fn say_reply(out: &mut Vec<u8>, reply: &Reply) -> Result<(), AllocError>
    ensures { OnOk result (out.new.items ≡ out.old.items ++ flat_map ended (reply_lines reply.now)) }
{
    push_reply(out, b"", reply)
}
