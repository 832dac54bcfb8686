//! Connections that come: answered in threads of their own, and in the thread that accepts where nothing is split off for them.
use std::alloc::AllocError;
use std::io;
use std::io::{Read, Write};
use std::net::{SocketAddr, TcpListener, TcpStream};
use std::sync::Wait;
use std::test::Fail;
use std::thread::{Threads, join};
use std::time::Clock;
use up_accept::{Attends, Bounds, serve_each};

/// Says the first byte of a connection back. A part is how many more can be split off.
#[derive(Drop)]
struct Echo;

impl Attends for Echo {
    type Part = u64;

    ghost is_part = { λ _ _. Unit {0} };

    fn split(&self, part: &mut u64) -> Result<u64, AllocError> {
        *part = part.checked_sub(1).ok_or(AllocError)?;
        Ok(0)
    }

    fn attend<R: Wait>(&self, _rt: &R, _part: &mut u64, mut stream: &TcpStream, _from: SocketAddr) {
        let mut byte = [0; 1];
        if stream.read_exact(&mut byte).is_ok() {
            let _ = stream.write_all(&byte);
        }
    }
}

/// What a server says to this byte.
fn said_to(rt: HostRuntime, address: SocketAddr, byte: u8) -> io::Result<u8> {
    let stream = TcpStream::connect(&rt, address)?;
    let mut ends = &stream;
    ends.write_all(&[byte])?;
    let mut said = [0; 1];
    ends.read_exact(&mut said)?;
    Ok(said[0])
}

/// Whether three connections, one after the other, are answered.
fn are_answered(rt: HostRuntime, address: SocketAddr) -> bool {
    for byte in [b'a', b'b', b'c'] {
        if said_to(rt, address, byte).ok() != Some(byte) {
            return false;
        }
    }
    true
}

fn serve_three<R: Threads + Wait + Clock + Sync>(
    threads: &R,
    listener: &TcpListener,
    parts: u64,
) -> bool {
    let mut left = parts;
    let bounds = Bounds {
        connections: 3,
        at_once: 2,
    };
    serve_each(threads, listener, &Echo, &mut left, bounds).is_ok()
}

/// Whether three connections were served to their end, and whether all were answered, where so many parts are split off.
fn answered<R: Threads + Wait + Clock + Sync>(
    threads: &R,
    rt: HostRuntime,
    parts: u64,
) -> io::Result<(bool, bool)> {
    let listener = TcpListener::bind(&rt, "127.0.0.1:0")?;
    let address = listener.local_addr()?;
    Ok(join(
        threads,
        || serve_three(threads, &listener, parts),
        || are_answered(rt, address),
    ))
}

#[test]
fn connections_are_answered_by_parts_and_without(rt: HostRuntime) -> Result<(), Fail> {
    for parts in [0, 1, 3] {
        assert_eq!(rt; answered(&rt, rt, parts)?, (true, true));
    }
    Ok(())
}
