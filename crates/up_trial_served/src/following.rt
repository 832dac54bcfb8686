//! A server that takes changes while a follower pulls them. Once both have ended, their logs are the same.
ghost use Rattle.up_journal.specs.Journal.{AreLimits};

use crate::serving::{USERS, clear, port_heard, served};
use std::hash::RandomState;
use std::io::{ErrorKind, PipeReader, pipe};
use std::net::TcpListener;
use std::sync::Wait;
use std::thread::{Threads, join};
use std::time::Clock;
use std::{fs, io};
use up_disk::Disks;
use up_ends::{MemSink, MemSource};
use up_follower::{leader_of, log_of};
use up_following::follow_run;
use up_journal::{Journal, Limits, same_heads};
use up_lists::Items;
use up_names::{User, parse_user};
use up_net::{LogDisk, SocketAsk, Waits};
use up_report_files::open_for_reading;
use up_terminal::client_run;

/// Whose tree it is.
pub const OWNER: &str = "ann@a.example";

/// A user who has a key there, and no tree.
const TREELESS: &str = "bob@b.example";

/// The file of users.
const ENROLLED: &str = "ann@a.example ann@a.example\nbob@b.example bob@b.example\n";

/// The log of the tree, and that of the follower.
const LEADER: &str = "tree-0.log2";

pub const FOLLOWER: &str = "followed.log2";

/// How many directories are made below the first one.
const DIRECTORIES: u64 = 150;

/// How often a follower pulls.
const PULLS: u64 = 40;

/// Has a client make changes while a follower pulls, and a follower pull the rest; then compares the two logs. Answered is how many records
/// both have.
pub fn run<R: Threads + Wait + Clock + Sync>(
    threads: &R,
    rt: HostRuntime,
    helper: &str,
) -> io::Result<u64> {
    clear_all(rt);
    fs::write(&rt, USERS, ENROLLED)?;
    let feed = free_port(rt)?;
    let words = words(rt, helper, feed)?;
    let (hears, says) = pipe(&rt)?;
    let (status, followed) = join(
        threads,
        || served(threads, rt, words, says),
        || changed_and_followed(threads, rt, helper, feed, hears),
    );
    followed?;
    if status != 0 {
        return Err(other());
    }
    let records = same_logs(rt)?;
    clear_all(rt);
    Ok(records)
}

fn clear_all(rt: HostRuntime) {
    clear(rt);
    let _ = fs::remove_file(&rt, FOLLOWER);
}

fn other() -> io::Error {
    io::Error::from(ErrorKind::Other)
}

/// A port at which nobody listens.
fn free_port(rt: HostRuntime) -> io::Result<u16> {
    let listener = TcpListener::bind(&rt, "127.0.0.1:0")?;
    Ok(listener.local_addr()?.port())
}

/// The words of the server.
fn words(rt: HostRuntime, helper: &str, feed: u16) -> io::Result<Vec<String>> {
    let mut words = Vec::new(rt.alloc());
    for word in [
        "serve",
        "--listen",
        "127.0.0.1:0",
        "--host",
        "home",
        "--operator",
        "op@h.example",
        "--tree",
        OWNER,
        "--folder",
        ".",
        "--helper",
        helper,
        "--enrol",
        USERS,
        "--connections",
        "1",
        "--feeds",
        "3",
        "--feed",
    ] {
        words.push(String::from_str(rt.alloc(), word)?)?;
    }
    words.push(format!(in rt.alloc(); "127.0.0.1:{feed}")?)?;
    Ok(words)
}

/// A pull of who has no tree there, which fails; then changes and pulls at once, and then pulls alone, up to the last record.
fn changed_and_followed<R: Threads + Wait + Clock + Sync>(
    threads: &R,
    rt: HostRuntime,
    helper: &str,
    feed: u16,
    mut hears: PipeReader,
) -> io::Result<()> {
    let port = port_heard(rt, &mut hears)?;
    refused(rt, helper, feed)?;
    let (changed, meanwhile) = join(
        threads,
        || changed(rt, helper, port),
        || pulled(rt, helper, feed, OWNER, PULLS),
    );
    changed?;
    meanwhile?;
    let said = pulled(rt, helper, feed, OWNER, PULLS)?;
    if said.as_str().ends_with("\npulled 0\n") {
        Ok(())
    } else {
        Err(other())
    }
}

/// A pull of who has no tree there fails.
fn refused(rt: HostRuntime, helper: &str, feed: u16) -> io::Result<()> {
    let said = pulled(rt, helper, feed, TREELESS, 1)?;
    if said.as_str() == "failed\n" {
        Ok(())
    } else {
        Err(other())
    }
}

/// Makes the directories, as the owner.
fn changed(rt: HostRuntime, helper: &str, port: String) -> io::Result<()> {
    let alloc = rt.alloc();
    let mut lines = format!(in alloc; "mkdir {OWNER}/ 100 0\n")?;
    for number in 0..DIRECTORIES {
        let line = format!(in alloc; "mkdir {OWNER}/d{number} 100 0\n")?;
        lines.push_str(line.as_str())?;
    }
    let mut server = dialled(rt, helper, port.as_str())?;
    let mut source = source_of(rt, lines);
    let mut sink = MemSink::new(alloc, Items::new(alloc));
    let words = all_words(rt, ["client", "home", helper, OWNER].as_slice())?;
    let status = client_run(alloc, words.as_slice(), &mut source, &mut sink, &mut server);
    if status == 0 { Ok(()) } else { Err(other()) }
}

fn dialled(rt: HostRuntime, helper: &str, port: &str) -> io::Result<SocketAsk<HostRuntime>> {
    let alloc = rt.alloc();
    let address = format!(in alloc; "home@127.0.0.1:{port}")?;
    let helper = String::from_str(alloc, helper)?;
    let user = owner(rt)?;
    Ok(SocketAsk::new(alloc, rt, address.as_bytes(), user, helper, Waits::usual())?)
}

fn owner(rt: HostRuntime) -> io::Result<User> {
    match parse_user(rt.alloc(), OWNER.as_bytes()) {
        Ok(user) => Ok(user),
        Err(_) => Err(other()),
    }
}

/// Pulls so often, as this user, and answers what that printed.
pub fn pulled(
    rt: HostRuntime,
    helper: &str,
    feed: u16,
    user: &str,
    pulls: u64,
) -> io::Result<String> {
    let alloc = rt.alloc();
    let mut lines = String::new(alloc);
    for _ in 0..pulls {
        lines.push_str("pull\n")?;
    }
    let address = format!(in alloc; "home@127.0.0.1:{feed}")?;
    let words = all_words(
        rt,
        ["follow", address.as_str(), helper, user, FOLLOWER].as_slice(),
    )?;
    let mut source = source_of(rt, lines);
    let mut sink = MemSink::new(alloc, Items::new(alloc));
    if followed(rt, words.as_slice(), &mut source, &mut sink)? != 0 {
        return Err(other());
    }
    match std::str::from_utf8(sink.bytes()) {
        Ok(text) => Ok(String::from_str(alloc, text)?),
        Err(_) => Err(other()),
    }
}

/// Runs `upspin follow`, and answers its status.
fn followed(
    rt: HostRuntime,
    words: &[String],
    source: &mut MemSource,
    sink: &mut MemSink,
) -> io::Result<u8> {
    let random = RandomState::new(&rt)?;
    let Some(mut leader) = leader_of(rt, words)? else {
        return Err(other());
    };
    let mut disks = log_of(&rt, words)?;
    Ok(follow_run(
        rt.alloc(),
        random,
        words,
        &mut leader,
        &mut disks,
        source,
        sink,
    ))
}

fn source_of(rt: HostRuntime, text: String) -> MemSource {
    let alloc = rt.alloc();
    MemSource::new(text.into_bytes(), Items::new(alloc), Items::new(alloc))
}

fn all_words(rt: HostRuntime, texts: &[&str]) -> io::Result<Vec<String>> {
    let mut words = Vec::new(rt.alloc());
    for text in texts {
        words.push(String::from_str(rt.alloc(), text)?)?;
    }
    Ok(words)
}

/// Compares the two logs, and answers how many records both have.
fn same_logs(rt: HostRuntime) -> io::Result<u64> {
    let names = all_words(rt, [LEADER, FOLLOWER].as_slice())?;
    let mut disks = open_for_reading(rt.alloc(), &rt, ".", names.as_slice())?;
    let leader = next_log(rt, &mut disks)?;
    let follower = next_log(rt, &mut disks)?;
    if same_heads(&leader, &follower) {
        Ok(leader.len())
    } else {
        Err(other())
    }
}

fn next_log(rt: HostRuntime, disks: &mut Disks<LogDisk>) -> io::Result<Journal<LogDisk>> {
    let Some(disk) = disks.take() else {
        return Err(other());
    };
    match Journal::open(rt.alloc(), disk, limits()) {
        Ok(log) => Ok(log),
        Err(_) => Err(other()),
    }
}

/// The limits of a log.
fn limits() -> Limits
    ensures { AreLimits result }
{
    Limits {
        records: 1_048_576,
        device: 1_073_741_824,
        largest: 131_072,
    }
}
