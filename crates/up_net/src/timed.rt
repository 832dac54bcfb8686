//! A stream that ends with a question's time.
ghost use Rattle.std.specs.Prelude.{None};

use std::io;
use std::io::{ErrorKind, Read, Write};
use std::net::TcpStream;
use std::time::{Clock, Duration};

/// How long whoever dials a server waits at most.
#[derive(Clone, Copy, Debug)]
pub struct Waits {
    /// For a connection, for each read and for each write.
    pub each: Duration,
    /// For all of a question, from its first call to its answer.
    pub whole: Duration,
}

impl Waits {
    /// Those of a host, a client and a follower: 10 seconds for each, 60 for a whole question.
    pub fn usual() -> Waits {
        Waits {
            each: Duration::from_secs(10),
            whole: Duration::from_secs(60),
        }
    }
}

/// A stream of which no read and no write waits longer than `each`, nor past the moment `until` of a clock.
#[derive(Drop)]
pub(crate) struct Timed<C: Clock> {
    pub clock: C,
    pub stream: TcpStream,
    pub each: Duration,
    pub until: Duration,
}

impl<C: Clock> Timed<C> {
    fn left(&self) -> io::Result<Duration> {
        wait_before(&self.clock, self.each, self.until)
    }
}

/// How long may be waited now. An `Err` where the moment has come.
pub(crate) fn wait_before<C: Clock>(
    clock: &C,
    each: Duration,
    until: Duration,
) -> io::Result<Duration> {
    let now = clock.monotonic()?;
    match until.checked_sub(now) {
        Some(left) if !left.is_zero() => Ok(left.min(each)),
        _ => Err(io::Error::from(ErrorKind::TimedOut)),
    }
}

impl<C: Clock> Read for Timed<C> {
    ghost remaining = { λ _. None };

    fn read(&mut self, buf: &mut [u8]) -> io::Result<usize> {
        self.stream.set_read_timeout(Some(self.left()?))?;
        self.stream.read(buf)
    }
}

impl<C: Clock> Write for Timed<C> {
    ghost contents = { λ _. None };

    fn write(&mut self, piece: &[u8]) -> io::Result<usize> {
        self.stream.set_write_timeout(Some(self.left()?))?;
        self.stream.write(piece)
    }

    fn flush(&mut self) -> io::Result<()> {
        Ok(())
    }
}
