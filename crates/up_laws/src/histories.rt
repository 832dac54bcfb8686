//! Two trees under two lists of turns.
ghost use Rattle.std.specs.Prelude.{◌≡◌, [], ◌∷◌, ◌++◌, IfOk, if◌then◌else◌, length, Some};
ghost use Rattle.std.specs.List.{zip};
ghost use Rattle.up_answers.specs.Laws.{AreInCalendar};
ghost use Rattle.up_ends.specs.Moments.{IsMoment};
ghost use Rattle.up_tree.specs.States.{log_of};
ghost use Rattle.up_laws.specs.Turns.{IsMade, one_stops, turn_of, turns_of};
ghost use Rattle.up_laws.specs.Histories.{ArePlayedAlike, IsPlayed, TakesTurns, are_of};

use crate::turns::{Pairs, Turn, make_turn, stops};
use std::alloc::{AllocError, Global};
use up_disk::Disk;
use up_lists::Items;
use up_names::User;
use up_tree::TreeState;
use up_wire::Reply;

/// Makes the turns of two lists of one length, each on its tree, and keeps the replies at the places where both turns are the user's. It
/// stops after the first turn of which one reply tells of want of memory or of the tree's disk; an `Io` that tells of a fetch that failed
/// is an answer like any other. Want of memory of its own leaves both trees after some first turns.
pub fn two_histories<D: Disk, E: Disk>(
    alloc: Global,
    a: &mut TreeState<D>,
    b: &mut TreeState<E>,
    user: &User,
    first: &[Turn],
    second: &[Turn],
) -> Result<Pairs, AllocError>
    requires lengths { length first.now ≡ length second.now }
    requires first_moments { AreInCalendar (turns_of first.now) }
    requires second_moments { AreInCalendar (turns_of second.now) }
    ensures played { IsPlayed D.Disk E.Disk user.now
        (zip (turns_of first.now) (turns_of second.now)) (a.old, b.old) (a.new, b.new) result }
    ensures alike { IfOk result (ArePlayedAlike user.now (turns_of first.now) (turns_of second.now)
        (log_of a.old) (log_of b.old) (log_of a.new) (log_of b.new)) }
{
    let mut replies = Items::new(alloc);
    for i in 0..first.len() {
        if take_turns(alloc, a, b, user, &first[i], &second[i], &mut replies)? {
            return Ok(stopped_after(replies, i as u64));
        }
    }
    Ok(Pairs {
        replies,
        stopped: None,
    })
}

/// What came of a run that stopped after turn `number`, from 0.
fn stopped_after(replies: Items<(Reply, Reply)>, number: u64) -> Pairs
    ensures { result ≡ record { replies = replies; stopped = Some number } }
{
    Pairs {
        replies,
        stopped: Some(number),
    }
}

/// Makes a turn of each list, keeps the replies behind the others where both turns are the user's, and tells whether one reply stops the
/// run.
fn take_turns<D: Disk, E: Disk>(
    alloc: Global,
    a: &mut TreeState<D>,
    b: &mut TreeState<E>,
    user: &User,
    one: &Turn,
    two: &Turn,
    replies: &mut Items<(Reply, Reply)>,
) -> Result<bool, AllocError>
    requires first { IsMoment one.now.now }
    requires second { IsMoment two.now.now }
    ensures { TakesTurns D.Disk E.Disk user.now (turn_of one.entry.now, turn_of two.entry.now)
        (a.old, b.old) (a.new, b.new) replies.old replies.new result }
{
    let (first, second) = make_both(alloc, a, b, one, two);
    note(alloc, user, one, two, first, second, replies)
}

/// Makes a turn of each list, each on its tree, and gives both replies.
fn make_both<D: Disk, E: Disk>(
    alloc: Global,
    a: &mut TreeState<D>,
    b: &mut TreeState<E>,
    one: &Turn,
    two: &Turn,
) -> (Reply, Reply)
    requires first_moment { IsMoment one.now.now }
    requires second_moment { IsMoment two.now.now }
    ensures first { IsMade D.Disk (turn_of one.entry.now) a.old a.new result.0 }
    ensures second { IsMade E.Disk (turn_of two.entry.now) b.old b.new result.1 }
{
    let first = make_turn(alloc, a, one);
    let second = make_turn(alloc, b, two);
    (first, second)
}

/// Keeps the replies to a turn of each list, and tells whether one of them stops the run.
fn note(
    alloc: Global,
    user: &User,
    one: &Turn,
    two: &Turn,
    first: Reply,
    second: Reply,
    replies: &mut Items<(Reply, Reply)>,
) -> Result<bool, AllocError>
    ensures kept { IfOk result (λ stopped. replies.new
        ≡ (if are_of user.now (turn_of one.entry.now, turn_of two.entry.now)
        then replies.old ++ (first, second) ∷ [] else replies.old)) }
    ensures stopped { IfOk result (λ stopped. stopped
        ≡ one_stops (turn_of one.entry.now, turn_of two.entry.now) (first, second)) }
{
    let stopped = match one_stops(alloc, one, two, &first, &second) {
        Ok(stopped) => stopped,
        Err(wants) => {
            drop(first);
            drop(second);
            return Err(wants);
        }
    };
    keep(are_of(user, one, two), first, second, replies)?;
    Ok(stopped)
}

/// Whether one of two replies stops the run.
fn one_stops(
    alloc: Global,
    one: &Turn,
    two: &Turn,
    first: &Reply,
    second: &Reply,
) -> Result<bool, AllocError>
    ensures { IfOk result (λ stopped. stopped
        ≡ one_stops (turn_of one.entry.now, turn_of two.entry.now) (first.now, second.now)) }
{
    if stops(alloc, one, first)? {
        return Ok(true);
    }
    stops(alloc, two, second)
}

/// Whether both turns are the user's.
fn are_of(user: &User, one: &Turn, two: &Turn) -> bool
    ensures { result ≡ are_of user.now (turn_of one.entry.now, turn_of two.entry.now) }
{
    one.user == *user && two.user == *user
}

/// Adds a pair of replies at the end, where it is to be kept.
fn keep(
    kept: bool,
    first: Reply,
    second: Reply,
    replies: &mut Items<(Reply, Reply)>,
) -> Result<(), AllocError>
    ensures { IfOk result (λ done. replies.new
        ≡ (if kept then replies.old ++ (first, second) ∷ [] else replies.old)) }
{
    if !kept {
        drop(first);
        drop(second);
        return Ok(());
    }
    replies.push((first, second))?;
    Ok(())
}
