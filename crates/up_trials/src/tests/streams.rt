//! The two ends of a connection: over a stream that signals end, and on loopback, over one that is silent and then full.
use crate::tests::server::say;
use std::io;
use std::io::{ErrorKind, Read, Write};
use std::net::{TcpListener, TcpStream};
use std::test::Fail;
use std::time::Duration;
use up_ends::{Sink, Source};
use up_net::{Patient, ServerWaits, StreamSink, StreamSource, ends};

/// A stream that a signal ends so many times, and that then gives and takes all.
#[derive(Drop)]
struct Stopped(u32);

impl Stopped {
    fn call(&mut self) -> io::Result<()> {
        match self.0.checked_sub(1) {
            Some(left) => {
                self.0 = left;
                Err(io::Error::from(ErrorKind::Interrupted))
            }
            None => Ok(()),
        }
    }
}

impl Read for Stopped {
    fn read(&mut self, buf: &mut [u8]) -> io::Result<usize> {
        self.call()?;
        Ok(buf.len())
    }
}

impl Write for Stopped {
    fn write(&mut self, piece: &[u8]) -> io::Result<usize> {
        self.call()?;
        Ok(piece.len())
    }

    fn flush(&mut self) -> io::Result<()> {
        Ok(())
    }
}

/// Whether a read and a write come to their end where signals end so many of their tries.
fn comes_to_an_end(stops: u32) -> (bool, bool) {
    let read = Patient::new(Stopped(stops)).read(&mut [0; 5]).is_ok();
    let written = Patient::new(Stopped(stops)).write(b"hello").is_ok();
    (read, written)
}

#[test]
fn a_stream_that_signals_end(rt: HostRuntime) -> Result<(), Fail> {
    for (stops, taken) in [(0, true), (999, true), (1_000, false)] {
        assert_eq!(rt; comes_to_an_end(stops), (taken, taken));
    }
    Ok(())
}

/// A connection to a server.
fn dialled(rt: HostRuntime, listener: &TcpListener) -> io::Result<TcpStream> {
    let address = listener.local_addr()?;
    TcpStream::connect(&rt, address)
}

/// Both sides of a connection on loopback: the client's, and the server's.
fn sides(rt: HostRuntime) -> io::Result<(TcpStream, TcpStream)> {
    let listener = TcpListener::bind(&rt, "127.0.0.1:0")?;
    let client = dialled(rt, &listener)?;
    let (stream, _) = listener.accept()?;
    Ok((client, stream))
}

/// Reads until a read fails, at most a thousand times: how many failed.
fn read_all(source: &mut StreamSource) -> u64 {
    let mut room = [0; 5];
    for _ in 0..1_000 {
        if source.read(&mut room).is_err() {
            break;
        }
    }
    source.faults()
}

/// Writes until a write fails, at most a thousand times: how many failed.
fn write_all(sink: &mut StreamSink) -> u64 {
    for _ in 0..1_000 {
        if sink.write(&[0; 65_536]).is_err() {
            break;
        }
    }
    sink.faults()
}

/// What the server's ends do where the client says a little, and then nothing more, and takes nothing: whether one read and one write
/// go well, and how many calls fail.
fn talked(client: &TcpStream, stream: &TcpStream) -> io::Result<([bool; 2], [u64; 2])> {
    let wait = Duration::from_millis(100);
    let waits = ServerWaits {
        read: wait,
        write: wait,
    };
    let (mut source, mut sink) = ends(stream, waits)?;
    say(client, b"hi")?;
    let read = source.read(&mut [0; 5]).is_ok();
    let written = sink.write(b"hello") == Ok(5);
    Ok((
        [read, written],
        [read_all(&mut source), write_all(&mut sink)],
    ))
}

/// The same, and whether the server's side sends at once what is written.
fn connected(rt: HostRuntime) -> io::Result<(([bool; 2], [u64; 2]), bool)> {
    let (client, stream) = sides(rt)?;
    let came = talked(&client, &stream);
    let at_once = stream.nodelay();
    drop(client);
    drop(stream);
    Ok((came?, at_once?))
}

#[test]
fn ends_of_a_connection(rt: HostRuntime) -> Result<(), Fail> {
    assert_eq!(rt; connected(rt)?, (([true, true], [1, 1]), true));
    Ok(())
}
