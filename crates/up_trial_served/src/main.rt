//! A server and its clients in one process, over loopback: each worked example of `examples.txt` is asked of a new server, one client for
//! each session, and each reply has to be the one that stands there. In the file a line `enrol USER KEY` is one of the server's file of users,
//! `open N USER` makes a session, `N ..` is a line of `upspin client` in it, `copy N PATH ..` is `upspin copy` of these paths as its user, and
//! a line behind `= ` is what the line before it prints.
//!
//! The program is the server's and the clients' helper too: its words are then `verify ..` or `sign ..`. It prints how many examples and lines
//! there were, and before that each line whose reply is another one; its status is 1 where there is one, or where an example, or the follower, could not be run.
//!
//! Then a follower pulls from a leader that sends what no server sends: each time that is a failure, or a record that is none.
//!
//! Then a server takes changes of a client while a follower pulls them from it, and refuses one that has no tree there; once all have
//! ended, the two logs are compared, and the number of their records is printed.
#![tactic(auto)]

mod example;
mod following;
mod helper;
mod leading;
mod serving;
mod session;

use crate::example::Example;
use std::process::ExitCode;
use std::sync::Wait;
use std::thread::Threads;
use std::time::Clock;
use std::{fs, io};

/// How many lines were asked in how many examples, and how many of them were not answered as they should be.
#[derive(Drop, Clone, Copy)]
struct Tally {
    examples: u64,
    lines: u64,
    others: u64,
}

/// Runs each example of the file of this folder.
fn run_all<R: Threads + Wait + Clock + Sync>(threads: &R, rt: HostRuntime) -> io::Result<Tally> {
    let mut tally = Tally {
        examples: 0,
        lines: 0,
        others: 0,
    };
    let text = fs::read_to_string(&rt, "examples.txt")?;
    let helper = helper::path(&rt)?;
    for part in text.as_str().split("\n== ").skip(1) {
        run_one(threads, rt, helper.as_str(), Example::of(part), &mut tally)?;
    }
    Ok(tally)
}

/// Runs all examples, then a follower of a leader that sends what no server sends, and then a server with a follower.
fn run<R: Threads + Wait + Clock + Sync>(threads: &R, rt: HostRuntime) -> io::Result<(Tally, u64)> {
    let tally = run_all(threads, rt)?;
    let helper = helper::path(&rt)?;
    leading::run(threads, rt, helper.as_str())?;
    let followed = following::run(threads, rt, helper.as_str())?;
    Ok((tally, followed))
}

/// Runs one example, and counts it.
fn run_one<R: Threads + Wait + Clock + Sync>(
    threads: &R,
    rt: HostRuntime,
    helper: &str,
    example: Example<'_>,
    tally: &mut Tally,
) -> io::Result<()> {
    let (lines, others) = serving::run(threads, rt, helper, example)?;
    tally.examples = tally.examples.saturating_add(1);
    tally.lines = tally.lines.saturating_add(lines);
    tally.others = tally.others.saturating_add(others);
    Ok(())
}

/// Says what was counted.
fn tell(rt: HostRuntime, tally: Tally, followed: u64) -> io::Result<()> {
    let Tally {
        examples,
        lines,
        others,
    } = tally;
    println!(rt; "{examples} examples, {lines} lines, {others} answered otherwise")?;
    println!(rt; "{followed} records followed")
}

fn main(rt: HostRuntime) -> ExitCode {
    if let Some(status) = helper::status(&rt) {
        return ExitCode::from(status);
    }
    match run(&rt, rt) {
        Ok((tally, followed)) => match tell(rt, tally, followed) {
            Ok(()) => ExitCode::from(u8::from(tally.others > 0)),
            Err(_) => ExitCode::from(3),
        },
        Err(why) => {
            let _ = eprintln!(rt; "an example, or the follower, could not be run: {why}");
            ExitCode::from(1)
        }
    }
}
