//! A source over bytes in memory.
ghost use Rattle.std.specs.Prelude.{◌≡◌, ◌<◌, ◌≤◌, ◌++◌, length, take, drop, min, if◌then◌else◌, IsErr, Ok, Err};
ghost use Rattle.std.specs.Vec.Iter.{into_iter_items};
ghost use Rattle.std.specs.Io.{ReadsAtMost};
ghost use Rattle.std.specs.Io.KnownBytes.{ReadConsumes};
ghost use Rattle.up_lists.specs.Counts.{HasCause, StaysUnless};
ghost use Rattle.up_lists.specs.Calls.{fails_next, no_call_made};
ghost use Rattle.up_ends.specs.Sources.{CountsGiven, piece_of, read_size, after_read, after_failed_read};

use crate::ends::Source;
use crate::fault::Failed;
use std::marker::Model;
use std::vec::IntoIter;
use up_lists::{Calls, Items};

/// A source over bytes in memory, whose reads are as large as its pieces and fail where it is told.
///
/// Its calls are numbered from 0, those that fail and those into an empty buffer too. A call whose number is
/// one of `fails` fails. Any other takes the next of `pieces` and gives at most so many bytes, 0 counting as 1;
/// once the pieces are used up it gives what fits.
#[derive(Drop)]
pub struct MemSource {
    bytes: Vec<u8>,
    // How many bytes were given: those that are left begin here.
    place: usize,
    pieces: IntoIter<u64>,
    calls: Calls,
}

impl Model for MemSource {
    ghost use Rattle.std.specs.Prelude.{drop, ◌≤◌, length};
    ghost use Rattle.std.specs.Vec.Iter.{into_iter_items};
    ghost use Rattle.up_ends.specs.Sources.{MemInput};

    ghost Value = { MemInput };

    ghost view = { λ s. record {
      left = drop s.place s.bytes.items;
      pieces = into_iter_items s.pieces;
      given = s.place;
      plan = s.calls;
    } };

    ghost invariant = { λ s. s.place ≤ length s.bytes.items };
}

impl MemSource {
    /// A source of these bytes. It takes no memory.
    pub fn new(bytes: Vec<u8>, pieces: Items<u64>, fails: Items<u64>) -> Self
        ensures { result ≡ record {
          left = bytes.items;
          pieces = pieces;
          given = 0;
          plan = no_call_made fails;
        } }
    {
        MemSource {
            bytes,
            place: 0,
            pieces: pieces.into_vec().into_iter(),
            calls: Calls::new(fails),
        }
    }
}

impl Source for MemSource {
    ghost use Rattle.std.specs.Prelude.{Some};

    ghost left = { λ s. Some s.left };

    ghost given = { λ s. s.given };

    ghost faults = { λ s. s.plan.faults };

    fn read(&mut self, buf: &mut [u8]) -> Result<usize, Failed>
        // Which calls fail, and how much each other one gives.
        ensures answer { result ≡ (if fails_next self.old.plan
            then Err record {} else Ok (read_size self.old (length buf.old))) }
        ensures after { self.new ≡ (if fails_next self.old.plan
            then after_failed_read self.old
            else after_read self.old (read_size self.old (length buf.old))) }

        ensures bound { ReadsAtMost result buf.new }
        ensures bytes { ReadConsumes (Some self.old.left) (Some self.new.left) result buf.new }
        ensures counted { CountsGiven self.old.given self.new.given result }
        ensures cause { HasCause self.old.plan.faults self.new.plan.faults (IsErr result) }
        ensures quiet { StaysUnless self.old.plan.faults self.new.plan.faults (IsErr result) }
    {
        if self.calls.next_fails() {
            return Err(Failed);
        }
        let most = next_piece(&mut self.pieces, buf.len());
        let count = give(&self.bytes[self.place..], buf, most);
        self.place += count;
        Ok(count)
    }
}

// How much of the room the next piece lets through. The piece is then used up.
fn next_piece(pieces: &mut IntoIter<u64>, room: usize) -> usize
    ensures size { result ≡ piece_of (into_iter_items pieces.old) room }
    ensures used { into_iter_items pieces.new ≡ drop 1 (into_iter_items pieces.old) }
    ensures room { result ≤ room }
    ensures some { 0 < room → 0 < result }
{
    match pieces.next() {
        Some(piece) => piece.max(1).min(room as u64) as usize,
        None => room,
    }
}

// Copies at most so many of the bytes left to the front of the buffer, and answers how many.
fn give(left: &[u8], buf: &mut [u8], most: usize) -> usize
    requires { most ≤ length buf.old }
    ensures size { result ≡ min most (length left.now) }
    ensures given { left.now ≡ take result buf.new ++ drop result left.now }
{
    let count = most.min(left.len());
    buf[..count].copy_from_slice(&left[..count]);
    count
}
