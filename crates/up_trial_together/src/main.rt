//! Trials of a host that many share, with callers in threads of their own.
//!
//! What no clause can say is tried here: that a caller of one tree does not wait for a caller of another, that groups and blocks are
//! loaded outside of the turn of the tree that is asked, and that one caller sees what another was told. A thread that waits for another
//! does so for some turns at most, so that a trial in which one caller holds another up fails, and does not hang. At last four callers
//! ask at once, and every reply is held against that of a host that is not shared.
//!
//! The program prints how each trial came out; its status is 1 where one could not be made.
#![tactic(auto)]

mod callers;
mod disks;
mod four;
mod hosts;
mod judging;
mod plans;
mod trials;
mod users;
mod waits;

use std::alloc::AllocError;
use std::hash::RandomState;
use std::process::ExitCode;
use std::sync::Wait;
use std::thread::Threads;
use trials::{FETCH_OUTSIDE, LOAD_OUTSIDE, READ_BACK, TWO_TREES};

fn main(rt: HostRuntime) -> ExitCode {
    match RandomState::new(&rt) {
        Ok(random) => try_all(&rt, rt, random),
        Err(_) => ExitCode::from(1),
    }
}

fn try_all<R: Threads + Wait + Sync>(
    threads: &R,
    rt: HostRuntime,
    random: RandomState,
) -> ExitCode {
    let alloc = rt.alloc();
    let mut made = true;
    for trial in [TWO_TREES, LOAD_OUTSIDE, FETCH_OUTSIDE, READ_BACK] {
        made = made
            & print(
                rt,
                trial.name,
                trials::comes_out(threads, alloc, random, trial),
            );
    }
    made = made & print(rt, "four callers", four::are_right(threads, alloc, random));
    ExitCode::from(if made { 0 } else { 1 })
}

// Prints whether a trial came out as it should, and tells whether that could be said.
fn print(rt: HostRuntime, name: &str, came: Result<bool, AllocError>) -> bool {
    match came {
        Ok(true) => println!(rt; "{name}: as it should be").is_ok(),
        Ok(false) => println!(rt; "{name}: otherwise").is_ok(),
        Err(_) => {
            let _ = eprintln!(rt; "{name}: the trial could not be made");
            false
        }
    }
}
