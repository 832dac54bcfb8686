//! The frames of a stream that comes in any pieces.

ghost use Rattle.std.specs.Prelude.{◌≡◌, ◌≢◌, ◌+◌, ◌<◌, ◌^◌, ◌↔◌, ℕ, List, [], ◌++◌, length, drop, OnOk, IsNone, Option, slice_get};
ghost use Rattle.std.specs.Option.{option_to_list};

use crate::cutting::take_frames;
use crate::fault::FrameFault;
use std::alloc::Global;
use std::collections::VecDeque;
use std::marker::Model;
use up_bytes::Bytes;

/// Cuts a stream into the payloads of its frames, whatever the pieces in which it comes.
#[derive(Debug, Drop)]
pub struct Frames {
    limit: u64,
    fed: u64,
    waiting: VecDeque<Bytes>,
    rest: Vec<u8>,
    bad: Option<u64>,
}

impl Model for Frames {
    ghost use Rattle.std.specs.Prelude.{◌≡◌, ◌≤◌, [], length};
    ghost use Rattle.std.specs.Option.{ForSome};
    ghost use Rattle.up_frame.specs.Holding.{Holding};

    ghost Value = { Holding };

    ghost view = { λ held. record {
      limit = held.limit;
      fed = held.fed;
      waiting = held.waiting.items;
      rest = held.rest.items;
      bad = held.bad;
    } };

    ghost invariant = { λ held. (length held.rest.items ≤ held.fed) × ForSome held.bad
        (λ _. held.rest.items ≡ []) };
}

impl Frames {
    ghost use Rattle.up_frame.specs.Holding.{StandsFor};

    /// The start of a stream whose frames carry payloads of 1 to `limit` bytes. It takes no memory.
    pub fn new(alloc: Global, limit: u64) -> Self
        ensures start { result
            ≡ record { limit = limit; fed = 0; waiting = []; rest = []; bad = None } }
        ensures stream { StandsFor result [] [] }
    {
        Frames {
            limit,
            fed: 0,
            waiting: VecDeque::new(alloc),
            rest: Vec::new(alloc),
            bad: None,
        }
    }

    /// Takes the next piece of the stream, and holds the payload of each frame that is whole now. A bad
    /// frame ends the stream: what stands from there on is dropped, and each later piece is answered alike.
    pub fn feed(&mut self, piece: &[u8]) -> Result<(), FrameFault>
        requires { self.old.fed + length piece.now < 2 ^ 64 }

        // However the stream was cut: with the piece behind it, what is held stands for all of it.
        ensures stream { result ≢ Err FrameFault.OutOfMemory
            → (stream : List ℕ) (given : List (List ℕ)) →
            StandsFor self.old stream given → StandsFor self.new (stream ++ piece.now) given }
        ensures fed { result ≢ Err FrameFault.OutOfMemory → self.new.fed
            ≡ self.old.fed + length piece.now }
        ensures limit { self.new.limit ≡ self.old.limit }

        // Which answer it is.
        ensures ok { OnOk result (self.new.bad ≡ None) }
        ensures bad { (p : ℕ) → result ≡ Err (FrameFault.BadFrame p) → self.new.bad ≡ Some p }
        ensures again { (p : ℕ) → self.old.bad ≡ Some p → result ≡ Err (FrameFault.BadFrame p) }
        ensures memory { result ≡ Err FrameFault.OutOfMemory → self.new ≡ self.old }
    {
        let fed = self.fed + piece.len() as u64;
        if let Some(place) = self.bad {
            self.fed = fed;
            return Err(FrameFault::BadFrame(place));
        }
        let before = self.rest.len();
        let start = self.fed - before as u64;
        self.rest.extend_from_slice(piece)?;
        match take_frames(self.limit, &mut self.rest, &mut self.waiting) {
            Err(_) => {
                self.rest.truncate(before);
                Err(FrameFault::OutOfMemory)
            }
            Ok(None) => {
                self.fed = fed;
                Ok(())
            }
            Ok(Some(at)) => {
                self.fed = fed;
                self.bad = Some(start + at);
                Err(FrameFault::BadFrame(start + at))
            }
        }
    }

    /// The payload of the first frame that waits. It takes no memory.
    pub fn next(&mut self) -> Option<Bytes>
        ensures first { result ≡ slice_get self.old.waiting 0 }
        ensures none { IsNone result ↔ (self.old.waiting ≡ []) }
        ensures others { self.new ≡ record self.old { waiting = drop 1 self.old.waiting } }
        ensures stream { (stream : List ℕ) (given : List (List ℕ)) →
            StandsFor self.old stream given
            → StandsFor self.new stream (given ++ option_to_list result) }
    {
        self.waiting.pop_front()
    }

    /// How many bytes are held beyond whole frames: 0 after a bad frame. It takes no memory.
    pub fn rest(&self) -> u64
        ensures rest { result ≡ length self.now.rest }
        ensures dropped { (p : ℕ) → self.now.bad ≡ Some p → result ≡ 0 }
    {
        self.rest.len() as u64
    }
}
