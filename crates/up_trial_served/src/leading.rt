//! A leader that sends what no server sends, and what a follower makes of it.
use crate::following::{FOLLOWER, OWNER, pulled};
use std::io::{ErrorKind, Read, Write};
use std::net::{TcpListener, TcpStream};
use std::sync::Wait;
use std::thread::{Threads, join};
use std::time::Clock;
use std::{fs, io};

/// A challenge, and that whoever answered it is welcome: what the leader sends before all else.
const WELCOME: &[u8] = b"\x00\x00\x00\x21\x81that the follower signs 32 bytes\x00\x00\x00\x01\x82";

/// What it then sends on each connection that comes: that there is no such tree, that there is no memory, a message that is none, one
/// record that is cut, a byte behind no record, 65 records, and, all on the last one, 64 records and none.
const CONNECTIONS: u64 = 7;

/// What the follower prints: each of the first six is a failure, behind which it connects again, and of the 64 records the first is none.
const PRINTED: &str = "failed\nfailed\nfailed\nfailed\nfailed\nfailed\nstrange 1\npulled 0\n";

/// Has a follower pull from that leader.
pub fn run<R: Threads + Wait + Clock + Sync>(
    threads: &R,
    rt: HostRuntime,
    helper: &str,
) -> io::Result<()> {
    let _ = fs::remove_file(&rt, FOLLOWER);
    let listener = TcpListener::bind(&rt, "127.0.0.1:0")?;
    let port = listener.local_addr()?.port();
    let (led, said) = join(
        threads,
        || lead(rt, listener),
        || pulled(rt, helper, port, OWNER, 8),
    );
    let _ = fs::remove_file(&rt, FOLLOWER);
    led?;
    if said?.as_str() == PRINTED {
        Ok(())
    } else {
        Err(io::Error::from(ErrorKind::Other))
    }
}

/// Takes the connections, one after the other.
fn lead(rt: HostRuntime, listener: TcpListener) -> io::Result<()> {
    for number in 0..CONNECTIONS {
        let (stream, _) = listener.accept()?;
        answer(rt, stream, number)?;
    }
    Ok(())
}

/// Sends all at once, and waits until the follower is gone.
fn answer(rt: HostRuntime, mut stream: TcpStream, number: u64) -> io::Result<()> {
    let sent = sent(rt, number)?;
    stream.write_all(sent.as_slice())?;
    wait_for_end(rt, &mut stream)
}

fn wait_for_end(rt: HostRuntime, stream: &mut TcpStream) -> io::Result<()> {
    let mut heard = Vec::new(rt.alloc());
    stream.read_to_end(&mut heard)?;
    Ok(())
}

/// What is sent on the connection of this number.
fn sent(rt: HostRuntime, number: u64) -> io::Result<Vec<u8>> {
    let mut bytes = WELCOME.to_vec(rt.alloc())?;
    add_message(&mut bytes, number)?;
    Ok(bytes)
}

fn add_message(bytes: &mut Vec<u8>, number: u64) -> io::Result<()> {
    bytes.extend_from_slice(message(number))?;
    match number {
        5 => add_records(bytes, 65),
        6 => add_last(bytes),
        _ => Ok(()),
    }
}

/// The message on the connection of this number, but for the records of a batch.
fn message(number: u64) -> &'static [u8] {
    match number {
        0 => b"\x00\x00\x00\x01\xC1",
        1 => b"\x00\x00\x00\x01\xC2",
        2 => b"\x00\x00\x00\x01\xC3",
        3 => b"\x00\x00\x00\x03\xC0\x01\x02",
        4 => b"\x00\x00\x00\x03\xC0\x00\x00",
        5 => b"\x00\x00\x00\x84\xC0\x41",
        _ => b"\x00\x00\x00\x82\xC0\x40",
    }
}

/// A batch of 64 records, and one of none.
fn add_last(bytes: &mut Vec<u8>) -> io::Result<()> {
    add_records(bytes, 64)?;
    bytes.extend_from_slice(b"\x00\x00\x00\x02\xC0\x00")?;
    Ok(())
}

/// So many records, each of one byte, which is none's.
fn add_records(bytes: &mut Vec<u8>, count: u64) -> io::Result<()> {
    for _ in 0..count {
        bytes.extend_from_slice(b"\x01\x09")?;
    }
    Ok(())
}
