//! The files of cases, and the topic of each.
use crate::follow_cases::Follows;
use crate::host_cases::Hosts;
use crate::script_cases::{Command, run_scripts};
use crate::serve_cases::Serves;
use crate::share_cases::Shares;
use std::hash::RandomState;
use std::random::RandomSource;
use std::rt::Files;
use std::sync::Wait;
use std::{fs, io};
use up_case_audits::Audits;
use up_case_files::{CacheLines, ClientLines, CopyLines, TerminalLines};
use up_case_lines::{File, Tally, run_lines};
use up_case_logs::{Crashes, Fields, Logs, Moves, Records};
use up_case_texts::{
    Ends, Messages, Names, Patterns, PeerLines, References, Replies, Requests, Rights, Signing,
    Streams, Texts,
};
use up_case_trees::{Asked, Trees};
use up_case_worlds::Worlds;

/// Runs each file of a folder, in order of their names.
pub fn run_all<R: Files + RandomSource + AllocGlobal + Print + Clone + Drop + Wait>(
    rt: &R,
    folder: &str,
    tally: &mut Tally,
) -> io::Result<()> {
    let names = names_of_files(rt, folder)?;
    for name in &names {
        run_file(rt, folder, name.as_str(), tally)?;
    }
    Ok(())
}

// The names of a folder's files, in order.
fn names_of_files<R: Files + AllocGlobal + Clone + Drop>(
    rt: &R,
    folder: &str,
) -> io::Result<Vec<String>> {
    let mut names = Vec::new(rt.alloc());
    for entry in fs::read_dir(rt, folder)? {
        let name = entry?.file_name().to_string(rt.alloc())?;
        names.push(name)?;
    }
    names.sort_unstable();
    Ok(names)
}

// Runs a file's lines.
fn run_file<R: Files + RandomSource + AllocGlobal + Print + Wait>(
    rt: &R,
    folder: &str,
    name: &str,
    tally: &mut Tally,
) -> io::Result<()> {
    let path = format!(in rt.alloc(); "{folder}/{name}")?;
    let text = fs::read_to_string(rt, path.as_str())?;
    let file = File {
        name,
        text: text.as_str(),
    };
    run_topic(rt, file, tally)
}

// Runs lines about the topic that their file is named for.
fn run_topic<R: RandomSource + AllocGlobal + Print + Wait>(
    rt: &R,
    file: File<'_>,
    tally: &mut Tally,
) -> io::Result<()> {
    match topic_of(file.name) {
        "client" => run_lines(rt, file, ClientLines::new(), tally),
        "terminal" => run_lines(rt, file, TerminalLines::new(rt.alloc()), tally),
        "names" => run_lines(rt, file, Names, tally),
        "texts" => run_lines(rt, file, Texts, tally),
        "tree" => run_lines(rt, file, Trees, tally),
        "messages" => run_lines(rt, file, Messages, tally),
        "replies" => run_lines(rt, file, Replies, tally),
        "requests" => run_lines(rt, file, Requests, tally),
        "fields" => run_lines(rt, file, Fields, tally),
        "patterns" => run_lines(rt, file, Patterns, tally),
        _ => run_other_topic(rt, file, tally),
    }
}

// The same of other topics: ends and frames, peers and signatures, and what logs are made of.
fn run_other_topic<R: RandomSource + AllocGlobal + Print + Wait>(
    rt: &R,
    file: File<'_>,
    tally: &mut Tally,
) -> io::Result<()> {
    match topic_of(file.name) {
        "caches" => run_lines(rt, file, CacheLines::new(), tally),
        "copies" => run_lines(rt, file, CopyLines::new(rt.alloc()), tally),
        "ends" => run_lines(rt, file, Ends, tally),
        "frames" => run_lines(rt, file, Streams, tally),
        "peers" => run_lines(rt, file, PeerLines, tally),
        "signing" => run_lines(rt, file, Signing, tally),
        "references" => run_lines(rt, file, References, tally),
        "records" => run_lines(rt, file, Records::new(), tally),
        "logs" => run_lines(rt, file, Logs::new(), tally),
        "moves" => run_lines(rt, file, Moves, tally),
        "crashes" => run_lines(rt, file, Crashes, tally),
        "audits" => run_lines(rt, file, Audits, tally),
        _ => run_hashed(rt, file, RandomState::new(rt)?, tally),
    }
}

// The same of topics whose names are hashed, with these keys.
fn run_hashed<R: AllocGlobal + Print + Wait>(
    rt: &R,
    file: File<'_>,
    random: RandomState,
    tally: &mut Tally,
) -> io::Result<()> {
    let name = file.name;
    match topic_of(name) {
        "scripts" => run_scripts(rt, file, Command::Can, random, tally),
        "sessions" => run_scripts(rt, file, Command::Script, random, tally),
        "hosts" => run_lines(rt, file, Hosts::new(rt, rt.alloc(), random), tally),
        "follows" => run_lines(rt, file, Follows::new(random), tally),
        "globs" | "steps" | "watches" => run_lines(rt, file, Asked::new(random), tally),
        "rights" => run_lines(rt, file, Rights::new(random), tally),
        "serves" => run_lines(rt, file, Serves::new(random), tally),
        "shares" => run_lines(rt, file, Shares::new(rt.alloc(), random), tally),
        "worlds" => run_lines(rt, file, Worlds::new(random), tally),
        _ => {
            tally.fail();
            println!(rt; "{name}: no topic has this name")
        }
    }
}

// What stands before the first `-` or `.` in a file's name.
fn topic_of(name: &str) -> &str {
    before('-', before('.', name))
}

fn before(mark: char, text: &str) -> &str {
    match text.split_once(mark) {
        Some((front, _)) => front,
        None => text,
    }
}
