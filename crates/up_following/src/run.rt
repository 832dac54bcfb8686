//! The lines of an input, one after the other.
ghost use Rattle.std.specs.Prelude.{◌≡◌, ◌≢◌, ◌≤◌, ◌++◌, ◌∷◌, [], IfOk, IsErrOf, OnOk};
ghost use Rattle.std.specs.Io.KnownBytes.{Appends};
ghost use Rattle.up_command.specs.Statuses.{IsOneOf, code_by, code_of};
ghost use Rattle.up_ends.specs.Writing.{WritesPart};
ghost use Rattle.up_follow.specs.declared.feed.Feed as feeds;
ghost use Rattle.up_following.specs.FollowRuns.{Followed, stop_code, stop_text};
ghost use Rattle.up_following.specs.FollowTurns.{world};
ghost use Rattle.up_lists.specs.Counts.{Rose, StaysUnless};
ghost use Rattle.up_text.specs.Lines.{script_lines};

use crate::stop::LineStop;
use crate::turns::run_line;
use std::alloc::{AllocError, Global};
use up_command::{Status, Stop, bad_line, finish, flush};
use up_disk::Disk;
use up_ends::Sink;
use up_follow::{Feed, Follower};
use up_text::next_line;

/// Does what the lines say, one after the other, prints what they print, and answers the status with which that ended.
pub(crate) fn run_lines<D: Disk, F: Feed, K: Sink>(
    alloc: Global,
    follower: &mut Follower<D>,
    feed: &mut F,
    lines: &[u8],
    sink: &mut K,
) -> u8
    ensures followed { Followed D.Disk F.Feed (K.held sink.old) (K.held sink.new)
        (world follower.old feed.old) (script_lines lines.now) result (world follower.new feed.new) }
    ensures status { IsOneOf (0 ∷ 1 ∷ 3 ∷ 4 ∷ []) result }
    ensures cause { result ≡ 3 → Rose (K.faults sink.old) (K.faults sink.new) }
    ensures later { K.faults sink.old ≤ K.faults sink.new }
    ensures quiet { StaysUnless (K.faults sink.old) (K.faults sink.new) (result ≡ 3) }
    ensures tie { F.tied feed.old feed.new }
{
    match run_each(alloc, follower, feed, lines, sink) {
        Ok(status) => status.code(),
        Err(Stop::WriteFault) => Status::WriteFault.code(),
        Err(Stop::OutOfMemory) => Status::OutOfMemory.code(),
    }
}

fn run_each<D: Disk, F: Feed, K: Sink>(
    alloc: Global,
    follower: &mut Follower<D>,
    feed: &mut F,
    lines: &[u8],
    sink: &mut K,
) -> Result<Status, Stop>
    ensures followed { Followed D.Disk F.Feed (K.held sink.old) (K.held sink.new)
        (world follower.old feed.old) (script_lines lines.now) (code_by result)
        (world follower.new feed.new) }
    ensures status { IfOk result (λ status. IsOneOf (0 ∷ 1 ∷ []) (code_of status)) }
    ensures cause { IsErrOf result Stop.WriteFault → Rose (K.faults sink.old) (K.faults sink.new) }
    ensures later { K.faults sink.old ≤ K.faults sink.new }
    ensures quiet { StaysUnless (K.faults sink.old) (K.faults sink.new)
        (IsErrOf result Stop.WriteFault) }
    ensures tie { F.tied feed.old feed.new }
{
    let mut gathered = Vec::new(alloc);
    let mut number: u64 = 1;
    let mut rest = lines;
    while let Some((line, after)) = next_line(rest) {
        match run_line(alloc, follower, feed, line, &mut gathered) {
            Ok(()) => flush(sink, &mut gathered)?,
            Err(why) => return end(alloc, sink, &mut gathered, number, why),
        }
        number += 1;
        rest = after;
    }
    finish(sink, &mut gathered, b"")?;
    Ok(Status::Done)
}

/// Ends a run at a line that was not done, whose number this is.
fn end<K: Sink>(
    alloc: Global,
    sink: &mut K,
    gathered: &mut Vec<u8>,
    number: u64,
    why: LineStop,
) -> Result<Status, Stop>
    ensures whole { OnOk result (Appends (K.held sink.old) (K.held sink.new)
        (gathered.old.items ++ stop_text number why)) }
    ensures code { IfOk result (λ status. code_of status ≡ stop_code why) }
    ensures kind { IfOk result (λ status. IsOneOf (1 ∷ []) (code_of status)) }
    ensures part { WritesPart (K.held sink.old) (K.held sink.new)
        (gathered.old.items ++ stop_text number why) }
    ensures wanting { why ≡ LineStop.OutOfMemory → IsErrOf result Stop.OutOfMemory }
    ensures unwritten { why ≡ LineStop.OutOfMemory → sink.new ≡ sink.old }
    ensures cause { IsErrOf result Stop.WriteFault → Rose (K.faults sink.old) (K.faults sink.new) }
    ensures later { K.faults sink.old ≤ K.faults sink.new }
    ensures quiet { StaysUnless (K.faults sink.old) (K.faults sink.new)
        (IsErrOf result Stop.WriteFault) }
{
    let (last, status) = ending(alloc, number, why)?;
    finish(sink, gathered, &last)?;
    Ok(status)
}

/// The text that is written last where a line was not done, whose number this is, and the status.
fn ending(alloc: Global, number: u64, why: LineStop) -> Result<(Vec<u8>, Status), AllocError>
    ensures text { IfOk result (λ ending. ending.0.items ≡ stop_text number why) }
    ensures code { IfOk result (λ ending. code_of ending.1 ≡ stop_code why) }
    ensures kind { IfOk result (λ ending. IsOneOf (1 ∷ []) (code_of ending.1)) }
    ensures done { OnOk result (why ≢ LineStop.OutOfMemory) }
{
    match why {
        LineStop::Malformed => Ok((bad_line(alloc, number)?, Status::BadLine)),
        LineStop::OutOfMemory => Err(AllocError),
    }
}
