//! The two ends of a connection that a server accepted.
ghost use Rattle.std.specs.Prelude.{◌≡◌, IfOk};

use crate::patient::Patient;
use std::io;
use std::net::TcpStream;
use std::time::Duration;
use up_ends::{StdSink, StdSource};

/// How long each read and each write of a connection waits at most. What passes that is a fault of its source or sink.
#[derive(Clone, Copy, Debug)]
pub struct ServerWaits {
    /// For bytes of the client.
    pub read: Duration,
    /// For room to write to the client.
    pub write: Duration,
}

impl ServerWaits {
    /// Those of a server: 600 seconds for a read, 60 for a write.
    pub fn usual() -> ServerWaits {
        ServerWaits {
            read: Duration::from_secs(600),
            write: Duration::from_secs(60),
        }
    }
}

/// The end of a stream that is read.
pub type StreamSource<'a> = StdSource<Patient<&'a TcpStream>>;

/// The end of a stream that is written to.
pub type StreamSink<'a> = StdSink<Patient<&'a TcpStream>>;

/// Both ends of a stream, which sends what is written at once, and whose reads and writes wait no longer than said. A wait that a signal
/// ended goes on, up to 1,000 times. An `Err` says why the stream cannot be set so.
pub fn ends(
    stream: &TcpStream,
    waits: ServerWaits,
) -> io::Result<(StreamSource<'_>, StreamSink<'_>)>
    ensures source { IfOk result (λ both. both.0.faults ≡ 0) }
    ensures sink { IfOk result (λ both. both.1.faults ≡ 0) }
{
    stream.set_nodelay(true)?;
    stream.set_read_timeout(Some(waits.read))?;
    stream.set_write_timeout(Some(waits.write))?;
    Ok((
        StdSource::new(Patient::new(stream)),
        StdSink::new(Patient::new(stream)),
    ))
}
