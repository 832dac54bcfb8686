//! The program `upspin`: it makes the real source and sink, and what else a command needs of the machine, and hands them to the
//! command's top call.
#![tactic(auto)]

mod arguments;
mod asking;
mod following;
mod reports;
mod scripts;
mod storms;
mod telling;
mod words;

use crate::arguments::{Command, command_of};
use crate::words::words;
use std::process::ExitCode;
use std::sync::Wait;
use std::thread::Threads;
use std::time::Clock;
use up_ends::StdSink;
use up_helper::{sign_run, verify_run};
use up_server::serve;

/// The status where the system gives no random bytes, to hash names with or to draw challenges from; nothing was read or written.
pub const READ_FAULT: u8 = 2;

/// The status for want of memory before a command runs.
pub const OUT_OF_MEMORY: u8 = 4;

/// The status of a command that stands in for a helper. `None` where the first word is none of these.
fn helper_status(rt: &HostRuntime, words: &[String]) -> Option<u8> {
    match words.first()?.as_str() {
        "verify" => Some(verify_run(rt.alloc(), words)),
        "sign" => Some(sign_run(rt.alloc(), words, &mut StdSink::new(rt.stdout()))),
        _ => None,
    }
}

/// Runs a command, and answers its status.
fn status_of<R: Threads + Wait + Clock + Sync>(
    threads: &R,
    rt: HostRuntime,
    command: Command,
    words: &[String],
) -> u8 {
    match command {
        Command::Serve => serve(threads, rt, words, &mut StdSink::new(rt.stdout())),
        Command::Storm => storms::storm_status(threads, rt, words),
        Command::Client => asking::client_status(&rt, words),
        Command::Copy => asking::copy_status(&rt, words),
        Command::Follow => following::follow_status(rt, words),
        Command::Audit => reports::audit_status(&rt, words),
        Command::Share => reports::share_status(&rt, words),
        Command::Can => scripts::can_status(&rt, words),
        Command::ExplainCan => scripts::explain_can_status(&rt),
        Command::ExplainScript => scripts::explain_script_status(&rt),
        Command::Script => scripts::script_status(&rt, words),
    }
}

fn main(rt: HostRuntime) -> ExitCode {
    let Ok(words) = words(&rt) else {
        telling::tell(&rt, Command::Script, &[], OUT_OF_MEMORY);
        return ExitCode::from(OUT_OF_MEMORY);
    };
    // A helper says no more than its status.
    if let Some(status) = helper_status(&rt, &words) {
        return ExitCode::from(status);
    }
    let command = command_of(&words);
    let status = status_of(&rt, rt, command, &words);
    telling::tell(&rt, command, &words, status);
    ExitCode::from(status)
}
