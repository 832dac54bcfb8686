//! A disk that is read ahead.
ghost use Rattle.std.specs.Prelude.{◌≡◌, ◌≤◌, ◌+◌, ◌-◌, length, min, take, true, IsErr, OnOk, IfOk, IfSome};
ghost use Rattle.up_disk.specs.Ahead.{AreAmong, IsAhead, IsOneRead};
ghost use Rattle.up_disk.specs.Disk.{part};

use crate::disk::Disk;
use crate::fault::Failed;
use std::alloc::Global;
use std::marker::Model;

/// How many bytes are read ahead.
const AHEAD: usize = 65_536;

/// A disk over another one, which reads 64 KiB ahead where a read goes on where the last one ended: the reads behind it come from
/// these, and need no call of the other disk. A write and a cut forget them. It is seen as the other disk.
///
/// A read ahead that fails is the fault of the call that made it, and nothing is read again. Without memory for the 64 KiB nothing is
/// read ahead.
#[derive(Drop)]
pub struct Ahead<D: Disk> {
    disk: D,
    buffer: Buffer,
}

/// Bytes of a disk that were read ahead: the first `held` of the room, which stand from `from` on. The last read ended at `next`.
#[derive(Drop)]
struct Buffer {
    room: Vec<u8>,
    from: u64,
    held: usize,
    next: u64,
    ghost within: { held ≤ length room.items },
}

impl<D: Disk> Model for Ahead<D> {
    ghost use Rattle.std.specs.Prelude.{take};
    ghost use Rattle.up_disk.specs.Ahead.{IsAhead};

    ghost Value = { D };

    ghost view = { λ ahead. ahead.disk };

    ghost invariant = { λ ahead. IsAhead (D.content ahead.disk) ahead.buffer.from
        (take ahead.buffer.held ahead.buffer.room.items) };
}

impl<D: Disk> Ahead<D> {
    /// Reads this disk ahead.
    pub fn new(alloc: Global, disk: D) -> Self
        ensures { result ≡ disk }
    {
        Ahead {
            disk,
            buffer: Buffer::new(alloc),
        }
    }

    /// The disk that is read ahead.
    pub fn inner(&self) -> &D
        ensures { result.now ≡ self.now }
    {
        &self.disk
    }

    /// Gives the disk back.
    pub fn into_inner(self) -> D
        ensures { result ≡ self }
    {
        self.disk
    }
}

impl Buffer {
    // Nothing was read ahead. Where there is no memory, nothing will be.
    fn new(alloc: Global) -> Buffer
        ensures { result.held ≡ 0 }
    {
        let room = match vec![in alloc; 0; AHEAD] {
            Ok(room) => room,
            Err(_) => Vec::new(alloc),
        };
        Buffer {
            room,
            from: 0,
            held: 0,
            next: 0,
        }
    }

    // Copies the bytes at a place, where all of them were read ahead, and answers whether they were.
    fn gives(&self, at: u64, buf: &mut [u8]) -> bool
        ensures { result ≡ true → AreAmong self.now.from (take self.now.held self.now.room.items)
            at (length buf.old) buf.new }
    {
        let Some(skip) = at.checked_sub(self.from) else {
            return false;
        };
        let ahead = &self.room.as_slice()[..self.held];
        if skip > ahead.len() as u64 {
            return false;
        }
        let rest = &ahead[skip as usize..];
        if buf.len() > rest.len() {
            return false;
        }
        buf.copy_from_slice(&rest[..buf.len()]);
        true
    }
}

// Reads from a place on as many bytes as there is room for, or as the disk has, and answers how many.
fn fill<D: Disk>(disk: &mut D, at: u64, room: &mut [u8]) -> Result<usize, Failed>
    requires { at ≤ D.size_of disk.old }
    ensures count { IfOk result (λ n. n ≡ min (D.size_of disk.old - at) (length room.old)) }
    ensures bytes { IfOk result (λ n.
        IfSome (D.content disk.old) (λ all. take n room.new ≡ part at n all)) }
    ensures read { IsOneRead D.Disk disk.old disk.new (IsErr result) }
{
    let left = disk.size() - at;
    let count = left.min(room.len() as u64) as usize;
    disk.read(at, &mut room[..count])?;
    Ok(count)
}

// Reads ahead from a place on, and copies the first of these bytes.
#[tactic(auto, using(crate::proofs::AheadLemmas::front_read, crate::proofs::AheadLemmas::read_is_ahead))]
fn read_ahead<D: Disk>(
    disk: &mut D,
    buffer: &mut Buffer,
    at: u64,
    buf: &mut [u8],
) -> Result<(), Failed>
    requires within { at + length buf.old ≤ D.size_of disk.old }
    requires room { length buf.old ≤ length buffer.old.room.items }
    ensures bytes { OnOk result (IfSome (D.content disk.old)
        (λ bytes. buf.new ≡ part at (length buf.old) bytes)) }
    ensures ahead { IsAhead (D.content disk.new) buffer.new.from
        (take buffer.new.held buffer.new.room.items) }
    ensures read { IsOneRead D.Disk disk.old disk.new (IsErr result) }
{
    buffer.held = 0;
    let count = fill(disk, at, buffer.room.as_mut_slice())?;
    buffer.from = at;
    buffer.held = count;
    buf.copy_from_slice(&buffer.room.as_slice()[..buf.len()]);
    Ok(())
}

impl<D: Disk> Disk for Ahead<D> {
    ghost content = { D.content };

    ghost size_of = { D.size_of };

    ghost may_leave = { D.may_leave };

    ghost moment = { D.moment };

    ghost left_since = { D.left_since };

    ghost faults = { D.faults };

    ghost sized = { D.sized };

    ghost told = { D.told };

    ghost leaves_read = { D.leaves_read };

    ghost counts_now = { D.counts_now };

    ghost only_now = { D.only_now };

    fn size(&self) -> u64 {
        self.disk.size()
    }

    fn read(&mut self, at: u64, buf: &mut [u8]) -> Result<(), Failed> {
        let goes_on = self.buffer.next == at;
        self.buffer.next = at.saturating_add(buf.len() as u64);
        if self.buffer.gives(at, buf) {
            return Ok(());
        }
        if goes_on && buf.len() < self.buffer.room.len() {
            return read_ahead(&mut self.disk, &mut self.buffer, at, buf);
        }
        self.disk.read(at, buf)
    }

    fn write_at(&mut self, at: u64, bytes: &[u8]) -> Result<(), Failed> {
        self.buffer.held = 0;
        self.disk.write_at(at, bytes)
    }

    fn cut(&mut self, size: u64) -> Result<(), Failed> {
        self.buffer.held = 0;
        self.disk.cut(size)
    }

    fn sync(&mut self) -> Result<(), Failed> {
        self.disk.sync()
    }
}
