//! One example: a new server, and the clients of its sessions.
use crate::example::{Example, Line, line_of};
use crate::session::{Sessions, Tried};
use std::io::{ErrorKind, PipeReader, PipeWriter, Read, pipe};
use std::sync::Wait;
use std::thread::{Threads, join};
use std::time::Clock;
use std::{fs, io};
use up_ends::StdSink;
use up_server::serve;

/// The server's file of users, in the folder in which the program runs, and its logs there.
pub const USERS: &str = "users";

const LOGS: [&str; 3] = ["tree-0.log2", "store.log2", "keys.log2"];

/// Asks the lines of an example of a new server, with this helper for it and its clients. Answered are the number of lines that ask, and of those whose reply is another one.
pub fn run<R: Threads + Wait + Clock + Sync>(
    threads: &R,
    rt: HostRuntime,
    helper: &str,
    example: Example<'_>,
) -> io::Result<(u64, u64)> {
    clear(rt);
    write_users(rt, example)?;
    let words = words(rt, helper, connections_of(example))?;
    let (hears, says) = pipe(&rt)?;
    let (status, tried) = join(
        threads,
        || served(threads, rt, words, says),
        || asked(rt, helper, example, hears),
    );
    clear(rt);
    let tried = tried?;
    if status == 0 {
        Ok(tried)
    } else {
        Err(io::Error::from(ErrorKind::Other))
    }
}

/// Removes what an earlier example left.
pub fn clear(rt: HostRuntime) {
    for log in LOGS {
        let _ = fs::remove_file(&rt, log);
    }
    let _ = fs::remove_file(&rt, USERS);
}

fn write_users(rt: HostRuntime, example: Example<'_>) -> io::Result<()> {
    let mut users = String::new(rt.alloc());
    for line in example.lines.lines() {
        if let Line::Enrol(user) = line_of(line) {
            add_line(&mut users, user)?;
        }
    }
    fs::write(&rt, USERS, users.as_str())
}

fn add_line(text: &mut String, line: &str) -> io::Result<()> {
    text.push_str(line)?;
    text.push('\n')?;
    Ok(())
}

/// How many connections come: one of each session that asks something, and one of each line that copies.
fn connections_of(example: Example<'_>) -> u64 {
    let mut count: u64 = 0;
    for line in example.lines.lines() {
        count = count.saturating_add(match line_of(line) {
            Line::Open(number, _) => u64::from(asks(example, number)),
            Line::Copy(_, _) => 1,
            _ => 0,
        });
    }
    count
}

fn asks(example: Example<'_>, session: &str) -> bool {
    for line in example.lines.lines() {
        if let Line::Ask(number, _) = line_of(line) {
            if number == session {
                return true;
            }
        }
    }
    false
}

/// The words of the server.
fn words(rt: HostRuntime, helper: &str, connections: u64) -> io::Result<Vec<String>> {
    let mut words = Vec::new(rt.alloc());
    for word in [
        "serve",
        "--listen",
        "127.0.0.1:0",
        "--host",
        "home",
        "--operator",
        "op@h.example",
        "--tree",
        "ann@a.example",
        "--folder",
        ".",
        "--helper",
        helper,
        "--enrol",
        USERS,
        "--connections",
    ] {
        words.push(String::from_str(rt.alloc(), word)?)?;
    }
    words.push(format!(in rt.alloc(); "{connections}")?)?;
    Ok(words)
}

/// Runs a server with these words, which says on the pipe where it listens.
pub fn served<R: Threads + Wait + Clock + Sync>(
    threads: &R,
    rt: HostRuntime,
    words: Vec<String>,
    says: PipeWriter,
) -> u8 {
    let mut sink = StdSink::new(says);
    serve(threads, rt, words.as_slice(), &mut sink)
}

/// Asks the lines of an example, once the server says where it listens.
fn asked(
    rt: HostRuntime,
    helper: &str,
    example: Example<'_>,
    mut hears: PipeReader,
) -> io::Result<(u64, u64)> {
    let port = port_heard(rt, &mut hears)?;
    let mut sessions = Sessions::new(rt, helper, port);
    let mut tried = Tried::new(rt, example.title);
    for line in example.lines.lines() {
        sessions.take(line_of(line), &mut tried)?;
    }
    tried.settle(rt)?;
    Ok((tried.lines, tried.others))
}

/// The port of the line `listening 127.0.0.1:PORT`.
pub fn port_heard(rt: HostRuntime, hears: &mut PipeReader) -> io::Result<String> {
    let mut line = String::new(rt.alloc());
    let mut byte = [0; 1];
    for _ in 0..100 {
        hears.read_exact(&mut byte)?;
        if byte[0] == b'\n' {
            break;
        }
        line.push(char::from(byte[0]))?;
    }
    match line.as_str().strip_prefix("listening 127.0.0.1:") {
        Some(port) => Ok(String::from_str(rt.alloc(), port)?),
        None => Err(io::Error::from(ErrorKind::InvalidData)),
    }
}
