//! The next connection of a listener.
use std::net::{SocketAddr, TcpListener, TcpStream};
use std::time::{Clock, Duration};
use std::{io, thread};

/// The failures after which `accept` is tried again, by their numbers on Linux: no memory, no descriptor in the system, none in the
/// process, a connection that ended before it was accepted, and no buffer.
const PASSING: [i32; 5] = [12, 23, 24, 103, 105];

/// How many milliseconds are waited before that.
const PAUSE: u64 = 20;

/// The next connection of a listener, and the address that it comes from. It waits for one. Where accepting fails for want of
/// descriptors, buffers or memory, or because the other side has gone, it is tried again after 20 ms; any other failure is an `Err`.
pub fn accepted<C: Clock>(
    clock: &C,
    listener: &TcpListener,
) -> io::Result<(TcpStream, SocketAddr)> {
    for _ in 0..u64::MAX {
        match listener.accept() {
            Ok(connection) => return Ok(connection),
            Err(error) => {
                if !passes(&error) {
                    return Err(error);
                }
            }
        }
        thread::sleep(clock, Duration::from_millis(PAUSE));
    }
    Err(io::Error::from(io::ErrorKind::Other))
}

// Whether accepting is tried again after this failure.
fn passes(error: &io::Error) -> bool {
    match error.raw_os_error() {
        Some(number) => PASSING.contains(&number),
        None => false,
    }
}
