//! A stream that is asked again.
ghost use Rattle.std.specs.Prelude.{None};

use std::io;
use std::io::{ErrorKind, Read, Write};

/// How often it is asked again, one time after the other.
const TRIES: u32 = 1_000;

/// A stream that is asked again where a signal ended its wait, as the stop and the going on of the program does where reads and
/// writes have a time limit. A call that signals end 1,000 times fails.
#[derive(Drop)]
pub struct Patient<S> {
    stream: S,
}

impl<S> Patient<S> {
    /// Asks this stream.
    pub fn new(stream: S) -> Self {
        Patient { stream }
    }
}

impl<S: Read> Read for Patient<S> {
    ghost remaining = { λ _. None };

    fn read(&mut self, buf: &mut [u8]) -> io::Result<usize> {
        for _ in 0..TRIES {
            match self.stream.read(buf) {
                Err(error) if error.kind() == ErrorKind::Interrupted => {}
                other => return other,
            }
        }
        Err(io::Error::from(ErrorKind::Interrupted))
    }
}

impl<S: Write> Write for Patient<S> {
    ghost contents = { λ _. None };

    fn write(&mut self, piece: &[u8]) -> io::Result<usize> {
        for _ in 0..TRIES {
            match self.stream.write(piece) {
                Err(error) if error.kind() == ErrorKind::Interrupted => {}
                other => return other,
            }
        }
        Err(io::Error::from(ErrorKind::Interrupted))
    }

    fn flush(&mut self) -> io::Result<()> {
        self.stream.flush()
    }
}
