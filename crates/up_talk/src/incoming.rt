//! The bytes of a connection that were read and not yet handled.
ghost use Rattle.std.specs.Prelude.{◌≡◌, ◌≤◌, ◌+◌, ◌<◌, ◌^◌, [], length, vec_len, take, drop, IfOk, OnErr, OnOk};
ghost use Rattle.up_bytes.specs.Forms.{IsBytes};
ghost use Rattle.up_frame.specs.Cutting.{IsFront};
ghost use Rattle.up_talk.specs.Incoming.{ReadCame};
ghost use Rattle.up_talk.specs.Limits.{longest};

use crate::fault::ReadWhy;
use std::alloc::{AllocError, Global};
use std::marker::Model;
use up_ends::Source;
use up_frame::{Front, front_of};

/// How many bytes one read asks for.
const PIECE_SIZE: usize = 65_536;

/// How many bytes the payload of a client's frame may have.
const LONGEST: u64 = 2_097_152;

/// How many bytes of a frame stand before its payload.
const HEAD: usize = 4;

/// The bytes that were read and not yet handled, and how many were handled before them.
///
/// They stand in the middle of one buffer, behind which the next read writes; so a byte is moved only where the frame to which it
/// belongs is not whole at the end of the buffer.
#[derive(Drop)]
pub(crate) struct Incoming {
    buffer: Vec<u8>,
    start: usize,
    end: usize,
    handled: u64,
}

impl Model for Incoming {
    ghost use Rattle.std.specs.Prelude.{◌≤◌, ◌-◌, length, take, drop};
    ghost use Rattle.up_talk.specs.Incoming.{Held};

    ghost Value = { Held };

    ghost view = { λ incoming. record {
      handled = incoming.handled;
      bytes = take (incoming.end - incoming.start) (drop incoming.start incoming.buffer.items);
    } };

    ghost invariant = { λ incoming. (incoming.start ≤ incoming.end)
        × (incoming.end ≤ length incoming.buffer.items) };
}

impl Incoming {
    /// None so far, with room for one read.
    pub(crate) fn new(alloc: Global) -> Result<Incoming, AllocError>
        ensures { IfOk result (λ incoming. incoming ≡ record { handled = 0; bytes = [] }) }
    {
        Ok(Incoming {
            buffer: zeros(alloc, PIECE_SIZE)?,
            start: 0,
            end: 0,
            handled: 0,
        })
    }

    /// Reads once, and answers how many bytes came.
    pub(crate) fn read<S: Source>(&mut self, source: &mut S) -> Result<usize, ReadWhy>
        ensures { ReadCame S.Source self.old source.old result self.new source.new }
    {
        self.make_room()?;
        self.read_behind(source)
    }

    // Reads to the room behind the bytes. Where there is none, there was no memory for it.
    fn read_behind<S: Source>(&mut self, source: &mut S) -> Result<usize, ReadWhy>
        ensures { ReadCame S.Source self.old source.old result self.new source.new }
    {
        let end = self.end;
        let most = (self.buffer.len() - end).min(PIECE_SIZE);
        if most == 0 {
            return Err(ReadWhy::OutOfMemory);
        }
        match source.read(&mut self.buffer[end..end + most]) {
            Ok(count) => {
                self.end += count;
                Ok(count)
            }
            Err(_) => Err(ReadWhy::Failed),
        }
    }

    // Makes room for one read behind the bytes.
    fn make_room(&mut self) -> Result<(), AllocError>
        ensures { self.new ≡ self.old }
    {
        if self.start == self.end {
            self.start = 0;
            self.end = 0;
        }
        if self.buffer.len() - self.end >= PIECE_SIZE {
            return Ok(());
        }
        self.move_to_front();
        if self.buffer.len() - self.end >= PIECE_SIZE {
            return Ok(());
        }
        self.grow()
    }

    // Moves the bytes to the front of the buffer.
    fn move_to_front(&mut self)
        ensures { self.new ≡ self.old }
    {
        let (start, end) = (self.start, self.end);
        self.buffer.copy_within(start..end, 0);
        self.start = 0;
        self.end = end - start;
    }

    // Makes the buffer twice as long, with room for one read.
    fn grow(&mut self) -> Result<(), AllocError>
        ensures { self.new ≡ self.old }
    {
        let len = self.buffer.len();
        self.buffer
            .resize(len.saturating_add(len).saturating_add(PIECE_SIZE), 0)
    }

    /// What is at the front of the bytes.
    pub(crate) fn front(&self) -> Front
        ensures front { IsFront longest self.now.bytes result }
        ensures bytes { IsBytes self.now.bytes }
    {
        client_front(self.bytes())
    }

    /// The payload of a whole frame at the front.
    pub(crate) fn payload(&self, len: usize) -> &[u8]
        requires { HEAD + len ≤ length self.now.bytes }
        ensures { result.now ≡ take len (drop HEAD self.now.bytes) }
    {
        let (_, behind) = self.bytes().split_at(HEAD);
        &behind[..len]
    }

    /// A whole frame at the front was handled.
    pub(crate) fn pass(&mut self, len: usize)
        requires there { HEAD + len ≤ length self.old.bytes }
        requires count { self.old.handled + (HEAD + len) < 2 ^ 64 }
        ensures { self.new ≡ record {
          handled = self.old.handled + (HEAD + len);
          bytes = drop (HEAD + len) self.old.bytes;
        } }
    {
        self.start += HEAD + len;
        self.handled += (HEAD + len) as u64;
    }

    /// How many bytes were handled.
    pub(crate) fn handled(&self) -> u64
        ensures { result ≡ self.now.handled }
    {
        self.handled
    }

    /// How many bytes were read and not handled.
    pub(crate) fn len(&self) -> usize
        ensures { result ≡ length self.now.bytes }
    {
        self.end - self.start
    }

    // The bytes.
    fn bytes(&self) -> &[u8]
        ensures { result.now ≡ self.now.bytes }
    {
        &self.buffer[self.start..self.end]
    }
}

// So many zeros.
fn zeros(alloc: Global, size: usize) -> Result<Vec<u8>, AllocError>
    ensures { IfOk result (λ room. vec_len room ≡ size) }
{
    vec![in alloc; 0; size]
}

// What is at the front of a client's bytes.
fn client_front(bytes: &[u8]) -> Front
    ensures front { IsFront longest bytes.now result }
    ensures bytes { IsBytes bytes.now }
{
    front_of(LONGEST, bytes)
}
