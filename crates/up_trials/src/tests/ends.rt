//! A source and a sink over a reader and a writer that fail once, and then go on. Each call is one call of these, a failed
//! one too: nothing is tried again.
use std::io;
use std::io::{ErrorKind, Read, Write};
use std::test::Fail;
use up_ends::{Failed, Sink, Source, StdSink, StdSource};

/// Gives or takes one byte a call, but fails in its second call.
#[derive(Drop)]
struct FailsOnce {
    calls: u64,
    taken: Vec<u8>,
}

impl FailsOnce {
    // Counts a call.
    fn call(&mut self) -> io::Result<()> {
        self.calls = self.calls.saturating_add(1);
        if self.calls == 2 {
            return Err(io::Error::from(ErrorKind::Other));
        }
        Ok(())
    }
}

impl Read for FailsOnce {
    fn read(&mut self, buf: &mut [u8]) -> io::Result<usize> {
        self.call()?;
        match buf.first_mut() {
            Some(first) => {
                *first = b'x';
                Ok(1)
            }
            None => Ok(0),
        }
    }
}

impl Write for FailsOnce {
    fn write(&mut self, piece: &[u8]) -> io::Result<usize> {
        self.call()?;
        match piece.first() {
            Some(first) => {
                self.taken.push(*first)?;
                Ok(1)
            }
            None => Ok(0),
        }
    }

    fn flush(&mut self) -> io::Result<()> {
        Ok(())
    }
}

#[test]
fn source_over_a_reader_that_fails_once(rt: HostRuntime) -> Result<(), Fail> {
    let mut reader = FailsOnce {
        calls: 0,
        taken: Vec::new(rt.alloc()),
    };
    let mut source = StdSource::new(&mut reader);
    let mut buf = [0; 4];
    for answer in [Ok(1), Err(Failed), Ok(1)] {
        assert_eq!(rt; source.read(&mut buf), answer);
    }
    drop(source);
    assert_eq!(rt; reader.calls, 3);
    Ok(())
}

#[test]
fn sink_over_a_writer_that_fails_once(rt: HostRuntime) -> Result<(), Fail> {
    let mut writer = FailsOnce {
        calls: 0,
        taken: Vec::new(rt.alloc()),
    };
    let mut sink = StdSink::new(&mut writer);
    for answer in [Ok(1), Err(Failed), Ok(1)] {
        assert_eq!(rt; sink.write(b"ab".as_slice()), answer);
    }
    drop(sink);
    assert_eq!(rt; writer.calls, 3);
    assert_eq!(rt; writer.taken.as_slice(), b"aa".as_slice());
    Ok(())
}
