//! The command that runs sessions at once over one shared host.
use crate::READ_FAULT;
use std::hash::RandomState;
use std::sync::Wait;
use std::thread::Threads;
use up_ends::{OpenGate, StdSink};
use up_storm::storm_run;

/// Runs `upspin storm`, at whose gate nobody waits, and answers its status.
pub fn storm_status<R: Threads + Wait + Sync>(
    threads: &R,
    rt: HostRuntime,
    words: &[String],
) -> u8 {
    let Ok(random) = RandomState::new(&rt) else {
        return READ_FAULT;
    };
    let mut sink = StdSink::new(rt.stdout());
    storm_run(threads, rt.alloc(), random, words, &mut sink, &OpenGate)
}
