//! The frames of a connection that were made and not yet written.
ghost use Rattle.std.specs.Prelude.{◌≡◌, ◌++◌, [], length, take, is_ok, if◌then◌else◌, OnOk, OnErr, IsErr};
ghost use Rattle.std.specs.Io.KnownBytes.{Appends};
ghost use Rattle.up_ends.specs.Writing.{WritesPart};
ghost use Rattle.up_lists.specs.Counts.{HasCause, StaysUnless};
ghost use Rattle.up_frame.specs.Stream.{frame as framed};
ghost use Rattle.up_talk.specs.Turns.{FlushCame};

use std::alloc::{AllocError, Global};
use std::marker::Model;
use up_bytes::{Fields, Writer};
use up_ends::{Failed, Sink, write_all};

/// How many bytes are gathered before they are written.
const PIECE_SIZE: u64 = 65_536;

/// The frames that were made and not yet written. They are gathered, and written together.
#[derive(Drop)]
pub(crate) struct Outgoing {
    bytes: Writer,
}

impl Model for Outgoing {
    ghost use Rattle.std.specs.Prelude.{ℕ, List};

    ghost Value = { List ℕ };

    ghost view = { λ outgoing. outgoing.bytes };
}

impl Outgoing {
    /// None so far. It takes no memory.
    pub(crate) fn new(alloc: Global) -> Outgoing
        ensures { result ≡ [] }
    {
        Outgoing {
            bytes: Writer::new(alloc),
        }
    }

    /// Puts a frame with this payload behind the others. A call that finds no memory puts nothing.
    pub(crate) fn put<F: Fields>(&mut self, payload: &F) -> Result<(), AllocError>
        ensures { self.new
            ≡ (if is_ok result then self.old ++ framed (F.spelling payload.now) else self.old) }
    {
        let len = self.bytes.len();
        let put = append_frame(&mut self.bytes, payload);
        if put.is_err() {
            self.bytes.truncate(len);
        }
        put
    }

    // Whether so many bytes are there that they are to be written before more frames are made.
    fn is_full(&self) -> bool {
        self.bytes.len() >= PIECE_SIZE
    }

    /// Writes all of them where they are many, and keeps none then.
    pub(crate) fn flush_full<K: Sink>(&mut self, sink: &mut K) -> Result<(), Failed>
        ensures { FlushCame K.Sink self.old sink.old result self.new sink.new }
    {
        if !self.is_full() {
            return Ok(());
        }
        match self.flush(sink) {
            Ok(()) => Ok(()),
            Err(failed) => Err(failed),
        }
    }

    /// Writes all of them, and keeps none. After a fault a front of them was written.
    pub(crate) fn flush<K: Sink>(&mut self, sink: &mut K) -> Result<(), Failed>
        ensures none { self.new ≡ [] }
        ensures whole { OnOk result (Appends (K.held sink.old) (K.held sink.new) self.old) }
        ensures part { WritesPart (K.held sink.old) (K.held sink.new) self.old }
        ensures cause { HasCause (K.faults sink.old) (K.faults sink.new) (IsErr result) }
        ensures quiet { StaysUnless (K.faults sink.old) (K.faults sink.new) (IsErr result) }
    {
        let written = write_all(sink, self.bytes.as_slice());
        self.bytes.truncate(0);
        written
    }
}

// Appends a frame with this payload. A call that finds no memory may leave a part of it.
#[tactic(auto, unfolding(up_frame::specs::Stream::frame))]
fn append_frame<F: Fields>(out: &mut Writer, payload: &F) -> Result<(), AllocError>
    ensures appended { OnOk result (out.new ≡ out.old ++ framed (F.spelling payload.now)) }
    ensures kept { take (length out.old) out.new ≡ out.old }
{
    let size = payload.size();
    if size > u64::from(u32::MAX) {
        return Err(AllocError);
    }
    out.raw(&(size as u32).to_be_bytes())?;
    payload.append(out)
}
