//! The command that pulls a second log of a tree.
ghost use Rattle.std.specs.Prelude.{◌≡◌, length, IfOk};

use crate::{OUT_OF_MEMORY, READ_FAULT};
use std::alloc::AllocError;
use std::hash::RandomState;
use up_disk::Disks;
use up_ends::{StdSink, StdSource};
use up_follow::{Feed, ListFeed};
use up_follower::{leader_of, log_of, no_log};
use up_following::follow_run;
use up_lists::Items;
use up_net::LogDisk;

/// Runs `upspin follow`, and answers its status. Where the words are others, nobody is pulled from, and no file is touched.
pub fn follow_status(rt: HostRuntime, words: &[String]) -> u8 {
    let Ok(random) = RandomState::new(&rt) else {
        return READ_FAULT;
    };
    match leader_of(rt, words) {
        Ok(Some(mut leader)) => follow_over(rt, random, words, &mut leader, log_of(&rt, words)),
        Ok(None) => follow_over(rt, random, words, &mut nobody(rt), no_log(rt.alloc())),
        Err(_) => OUT_OF_MEMORY,
    }
}

/// Who is pulled from where the words name no leader.
fn nobody(rt: HostRuntime) -> ListFeed {
    ListFeed::new(Items::new(rt.alloc()), Items::new(rt.alloc()))
}

/// Runs it over a leader and the log.
fn follow_over<F: Feed>(
    rt: HostRuntime,
    random: RandomState,
    words: &[String],
    leader: &mut F,
    log: Result<Disks<LogDisk>, AllocError>,
) -> u8
    requires { IfOk log (λ disks. length disks.disks ≡ 1) }
{
    let Ok(mut disks) = log else {
        return OUT_OF_MEMORY;
    };
    follow_run(
        rt.alloc(),
        random,
        words,
        leader,
        &mut disks,
        &mut StdSource::new(rt.stdin()),
        &mut StdSink::new(rt.stdout()),
    )
}
