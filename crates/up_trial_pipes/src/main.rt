//! A connection to a host over a pair of pipes. Its client asks again only once it was answered, so a server that kept a reply back until
//! more is asked would wait for it forever.
//!
//! The program says that each request was answered as it should be before the next one, and that the connection ended by the client's Bye; its status is 1
//! where that is not so, or where the trial could not be made.
#![tactic(auto)]

mod pipes;

use std::hash::RandomState;
use std::io;
use std::process::ExitCode;
use std::thread::Threads;
use up_talk::TalkEnd;

/// Whether each request was answered, and the connection ended as it should.
fn is_answered(threads: &impl Threads, rt: HostRuntime) -> io::Result<bool> {
    let random = RandomState::new(&rt)?;
    let (end, answered) = pipes::talked(rt.alloc(), &rt, threads, random)?;
    Ok(answered && end == TalkEnd::Ended)
}

fn main(rt: HostRuntime) -> ExitCode {
    match is_answered(&rt, rt) {
        Ok(true) => match println!(rt; "each of 202 requests was answered before the next one") {
            Ok(()) => ExitCode::from(0),
            Err(_) => ExitCode::from(3),
        },
        Ok(false) => {
            let _ = eprintln!(rt;
                "a request was answered otherwise, or the connection did not end by Bye"
            );
            ExitCode::from(1)
        }
        Err(why) => {
            let _ = eprintln!(rt; "the trial could not be made: {why}");
            ExitCode::from(1)
        }
    }
}
