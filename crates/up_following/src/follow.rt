//! `upspin follow`: lines in, replies out, and a second log of a tree.
ghost use Rattle.std.specs.Prelude.{◌≡◌, ◌+◌, ◌-◌, ◌<◌, ◌≤◌, ◌^◌, ◌↔◌, ◌∷◌, [], false, length, map, string_bytes, IfSome, None, Some};
ghost use Rattle.std.specs.Io.KnownBytes.{Appends, IsAtEnd};
ghost use Rattle.std.specs.List.{sum_by};
ghost use Rattle.up_command.specs.Statuses.{IsOneOf, input_limit, usage_line};
ghost use Rattle.up_ends.specs.Writing.{WritesPart};
ghost use Rattle.up_follow.specs.declared.feed.Feed as feeds;
ghost use Rattle.up_following.specs.FollowAnswers.{FollowsInput, Means, follow_limits};
ghost use Rattle.up_following.specs.FollowLines.{follow_owner};
ghost use Rattle.up_journal.specs.Journal.{AreLimits};
ghost use Rattle.up_lists.specs.Counts.{Rose, StaysUnless};
ghost use Rattle.up_policy.specs.Trees.{owns_snapshots};

use crate::owner::follow_owner;
use crate::run::run_lines;
use std::alloc::{AllocError, Global};
use std::hash::RandomState;
use up_command::{Status, read_script, usage};
use up_disk::{Disk, Disks};
use up_ends::{Sink, Source};
use up_follow::{Feed, Follower};
use up_journal::Limits;
use up_names::User;
use up_reports::{LIMITS, Refused, put_back, tell_refused};

/// Runs `upspin follow`, whose words are `follow`, the leader's address, a helper's path, the tree's owner and a file: reads its input to
/// the end, opens the disk, of which there is one, as the log of that tree, and then does what the lines say, in order. `pull` takes a
/// batch from the feed; `USER` and a request are answered over the log, as that user, whom the follower's operator names.
///
/// It answers a status: 0 at the end of the input, 1 at the first malformed line, with `bad line N` printed last, 2 and 3 where the source
/// or the sink failed, 4 for want of memory, in a pull or a reply too, 6 where the disk failed at opening, 7 for an input of over
/// 67,108,864 bytes, 8 where the log does not open for its content, with the line of that printed, and 64 where the words are others or
/// the owner is no user, or a snapshot user, with the usage line printed. After 2 and 7 nothing was written, after 3 and 4 a front of
/// the text. The disk is back in its place, whatever the status, and a later run goes on from its log. Names are hashed with these
/// keys.
pub fn follow_run<D: Disk + Drop, F: Feed, S: Source, K: Sink>(
    alloc: Global,
    random: RandomState,
    words: &[String],
    feed: &mut F,
    disks: &mut Disks<D>,
    source: &mut S,
    sink: &mut K,
) -> u8
    requires one { length disks.old.disks ≡ 1 }

    // What is written is what the lines of the source mean, and so is what is left of the log.
    ensures meaning { IfSome (follow_owner (map string_bytes words.now)) (λ owner.
        IsOneOf (0 ∷ 1 ∷ 3 ∷ 4 ∷ 6 ∷ 8 ∷ []) result → Means D.Disk F.Feed follow_limits owner
        (S.left source.old) (K.held sink.old) (K.held sink.new)
        disks.old.disks disks.new.disks feed.old feed.new result) }

    // For all sources, sinks, feeds and disks: the statuses that come, and the cause of each.
    ensures statuses { IsOneOf (0 ∷ 1 ∷ 2 ∷ 3 ∷ 4 ∷ 6 ∷ 7 ∷ 8 ∷ 64 ∷ []) result }
    ensures read_fault { result ≡ 2 → Rose (S.faults source.old) (S.faults source.new) }
    ensures write_fault { result ≡ 3 → Rose (K.faults sink.old) (K.faults sink.new) }
    ensures disk_fault { result ≡ 6
        → Rose (sum_by D.faults disks.old.disks) (sum_by D.faults disks.new.disks) }
    ensures too_long { S.given source.old + input_limit < 2 ^ 64 - 1
        → IsOneOf (0 ∷ 1 ∷ 2 ∷ 6 ∷ 7 ∷ 8 ∷ []) result
        → (result ≡ 7 ↔ (S.given source.old + input_limit < S.given source.new)) }
    ensures told_long { result ≡ 7 → IfSome (S.left source.old) (λ bytes. input_limit < length bytes) }
    ensures source_counts { S.faults source.old ≤ S.faults source.new }
    ensures source_quiet { StaysUnless (S.faults source.old) (S.faults source.new) (result ≡ 2) }
    ensures sink_counts { K.faults sink.old ≤ K.faults sink.new }
    ensures sink_quiet { StaysUnless (K.faults sink.old) (K.faults sink.new) (result ≡ 3) }
    ensures disk_back { length disks.new.disks ≡ 1 }
    ensures tie { F.tied feed.old feed.new }

    // Words that are none of this command.
    ensures usage { follow_owner (map string_bytes words.now) ≡ None
        → IsOneOf (3 ∷ 4 ∷ 64 ∷ []) result × (source.new ≡ source.old) × (disks.new ≡ disks.old)
        × (feed.new ≡ feed.old) × WritesPart (K.held sink.old) (K.held sink.new) usage_line }
    ensures usage_only { result ≡ 64 → follow_owner (map string_bytes words.now) ≡ None }
    ensures usage_written { result ≡ 64 → Appends (K.held sink.old) (K.held sink.new) usage_line }

    // What is left.
    ensures at_end { IsOneOf (0 ∷ 1 ∷ 6 ∷ 8 ∷ []) result → IsAtEnd (S.left source.new) }
    ensures untouched { IsOneOf (2 ∷ 7 ∷ []) result
        → (sink.new ≡ sink.old) × (disks.new ≡ disks.old) × (feed.new ≡ feed.old) }
    ensures unused { result ≡ 64 → (disks.new ≡ disks.old) × (feed.new ≡ feed.old) }
{
    match follow_owner(alloc, words) {
        Ok(Some(owner)) => {
            follow_within(alloc, random, LIMITS, owner, feed, disks, source, sink)
        }
        Ok(None) => usage(sink).code(),
        Err(AllocError) => Status::OutOfMemory.code(),
    }
}

/// Does what [`follow_run`] does for an owner, with any limits of the log. The statuses are the same but for 64.
pub fn follow_within<D: Disk + Drop, F: Feed, S: Source, K: Sink>(
    alloc: Global,
    random: RandomState,
    limits: Limits,
    owner: User,
    feed: &mut F,
    disks: &mut Disks<D>,
    source: &mut S,
    sink: &mut K,
) -> u8
    requires limits { AreLimits limits }
    requires plain { owns_snapshots owner ≡ false }
    requires one { length disks.old.disks ≡ 1 }
    ensures means { IsOneOf (0 ∷ 1 ∷ 3 ∷ 4 ∷ 6 ∷ 8 ∷ []) result → Means D.Disk F.Feed limits owner
        (S.left source.old) (K.held sink.old) (K.held sink.new)
        disks.old.disks disks.new.disks feed.old feed.new result }
    ensures statuses { IsOneOf (0 ∷ 1 ∷ 2 ∷ 3 ∷ 4 ∷ 6 ∷ 7 ∷ 8 ∷ []) result }
    ensures read_fault { result ≡ 2 → Rose (S.faults source.old) (S.faults source.new) }
    ensures write_fault { result ≡ 3 → Rose (K.faults sink.old) (K.faults sink.new) }
    ensures disk_fault { result ≡ 6
        → Rose (sum_by D.faults disks.old.disks) (sum_by D.faults disks.new.disks) }
    ensures long { S.given source.old + input_limit < 2 ^ 64 - 1
        → (result ≡ 7 ↔ (S.given source.old + input_limit < S.given source.new)) }
    ensures told_long { result ≡ 7 → IfSome (S.left source.old) (λ bytes. input_limit < length bytes) }
    ensures at_end { IsOneOf (0 ∷ 1 ∷ 6 ∷ 8 ∷ []) result → IsAtEnd (S.left source.new) }
    ensures untouched { IsOneOf (2 ∷ 7 ∷ []) result
        → (sink.new ≡ sink.old) × (disks.new ≡ disks.old) × (feed.new ≡ feed.old) }
    ensures source_counts { S.faults source.old ≤ S.faults source.new }
    ensures source_quiet { StaysUnless (S.faults source.old) (S.faults source.new) (result ≡ 2) }
    ensures sink_counts { K.faults sink.old ≤ K.faults sink.new }
    ensures sink_quiet { StaysUnless (K.faults sink.old) (K.faults sink.new) (result ≡ 3) }
    ensures disk_back { length disks.new.disks ≡ 1 }
    ensures tie { F.tied feed.old feed.new }
{
    match read_script(alloc, source) {
        Ok(input) => run_input(alloc, random, limits, owner, feed, disks, &input, sink),
        Err(status) => {
            drop(owner);
            status
        }
    }
}

/// Runs an input that was read whole, and answers the status with which that ended. The disk is back in its place then.
fn run_input<D: Disk + Drop, F: Feed, K: Sink>(
    alloc: Global,
    random: RandomState,
    limits: Limits,
    owner: User,
    feed: &mut F,
    disks: &mut Disks<D>,
    input: &[u8],
    sink: &mut K,
) -> u8
    requires limits { AreLimits limits }
    requires plain { owns_snapshots owner ≡ false }
    requires one { length disks.old.disks ≡ 1 }
    ensures follows { FollowsInput D.Disk F.Feed limits owner input.now (K.held sink.old) (K.held sink.new)
        disks.old.disks disks.new.disks feed.old feed.new result }
    ensures status { IsOneOf (0 ∷ 1 ∷ 3 ∷ 4 ∷ 6 ∷ 8 ∷ []) result }
    ensures cause { result ≡ 3 → Rose (K.faults sink.old) (K.faults sink.new) }
    ensures later { K.faults sink.old ≤ K.faults sink.new }
    ensures quiet { StaysUnless (K.faults sink.old) (K.faults sink.new) (result ≡ 3) }
    ensures tie { F.tied feed.old feed.new }
{
    let Some(disk) = disks.take() else {
        unreachable!()
    };
    match Follower::open(alloc, random, disk, owner, limits) {
        Ok(follower) => {
            let mut follower = follower;
            let status = run_lines(alloc, &mut follower, feed, input, sink);
            put_back(disks, follower.into_disk());
            status
        }
        Err(fault) => {
            let why = fault.why;
            put_back(disks, fault.disk);
            tell_refused(alloc, sink, Refused { which: 0, why })
        }
    }
}
