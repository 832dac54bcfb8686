//! The commands that run a script from standard input.
use crate::{OUT_OF_MEMORY, READ_FAULT};
use std::alloc::{AllocError, Global};
use std::hash::RandomState;
use up_disk::blank_disks;
use up_ends::{StdSink, StdSource};
use up_explain_can::explain_can;
use up_explain_script::explain_script;
use up_net::{HelperVerifier, HostClock, Machine, SeedNonces};
use up_peer::Peers;
use up_script::{can_run, script_run};

/// Runs `upspin can`, and answers its status.
pub fn can_status(rt: &HostRuntime, words: &[String]) -> u8 {
    let Ok(random) = RandomState::new(rt) else {
        return READ_FAULT;
    };
    let mut source = StdSource::new(rt.stdin());
    let mut sink = StdSink::new(rt.stdout());
    can_run(rt.alloc(), random, words, &mut source, &mut sink)
}

/// Runs `upspin explain can`, and answers its status.
pub fn explain_can_status(rt: &HostRuntime) -> u8 {
    let mut source = StdSource::new(rt.stdin());
    let mut sink = StdSink::new(rt.stdout());
    explain_can(rt.alloc(), &mut source, &mut sink)
}

/// Runs `upspin explain script`, and answers its status.
pub fn explain_script_status(rt: &HostRuntime) -> u8 {
    let mut source = StdSource::new(rt.stdin());
    let mut sink = StdSink::new(rt.stdout());
    explain_script(rt.alloc(), &mut source, &mut sink)
}

/// Runs `upspin script`, and answers its status. The words of no command get the usage line from it.
pub fn script_status(rt: &HostRuntime, words: &[String]) -> u8 {
    let Ok(random) = RandomState::new(rt) else {
        return READ_FAULT;
    };
    let Ok(nonces) = SeedNonces::from_random(&mut Machine::new(rt.alloc(), rt)) else {
        return READ_FAULT;
    };
    match helper_path(rt.alloc(), words) {
        Ok(helper) => script_with(rt, random, words, nonces, helper),
        Err(_) => OUT_OF_MEMORY,
    }
}

/// The word behind the command, which names the helper; empty where there is none.
fn helper_path(alloc: Global, words: &[String]) -> Result<String, AllocError> {
    match words.get(1) {
        Some(path) => path.clone(),
        None => Ok(String::new(alloc)),
    }
}

/// Runs the script with these nonces and the helper at this path: over empty disks in memory, the machine's clock, and no peer.
fn script_with(
    rt: &HostRuntime,
    random: RandomState,
    words: &[String],
    mut nonces: SeedNonces,
    helper: String,
) -> u8 {
    let Ok(mut disks) = blank_disks(rt.alloc(), &[]) else {
        return OUT_OF_MEMORY;
    };
    let mut verifier = HelperVerifier::new(rt.alloc(), Machine::new(rt.alloc(), rt), helper);
    script_run(
        rt.alloc(),
        random,
        words,
        &mut StdSource::new(rt.stdin()),
        &mut StdSink::new(rt.stdout()),
        &mut disks,
        &mut verifier,
        &mut HostClock::new(Machine::new(rt.alloc(), rt)),
        &mut nonces,
        &mut Peers::new(rt.alloc()),
    )
}
