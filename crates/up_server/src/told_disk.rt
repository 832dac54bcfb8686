//! A disk that says how far it was read.
ghost use Rattle.std.specs.Prelude.{◌≡◌};

use std::io::Eprint;
use std::marker::Model;
use std::time::{Clock, Duration};
use up_disk::{Disk, Failed};

/// A disk of more bytes than this says how far it was read.
const LONG: u64 = 16_777_216;

/// After so many further bytes the clock is read.
const STEP: u64 = 1_048_576;

/// A disk over another one, which says on standard error how far it was read: for a disk of more than 16 MiB about once a second a line
/// `upspin: NAME: N of M MiB are read`. It does so while reads go on behind all that was read before, and until it is first written to or
/// cut: while its log is opened, and not afterwards. It is seen as the other disk.
#[derive(Drop)]
pub struct ToldDisk<D: Disk, R: Eprint + Clock + Copy> {
    disk: D,
    progress: Progress<R>,
}

impl<D: Disk, R: Eprint + Clock + Copy> Model for ToldDisk<D, R> {
    ghost Value = { D };

    ghost view = { λ told. told.disk };
}

impl<D: Disk, R: Eprint + Clock + Copy> ToldDisk<D, R> {
    /// Says of this disk, under this name, how far it was read.
    pub fn new(disk: D, rt: R, name: String) -> Self
        ensures { result ≡ disk }
    {
        let size = disk.size();
        let begun = rt.monotonic().ok();
        ToldDisk {
            disk,
            progress: Progress {
                rt,
                name,
                size,
                read: 0,
                looked: 0,
                told: begun,
            },
        }
    }

    /// Gives the disk back.
    pub fn into_inner(self) -> D
        ensures { result ≡ self }
    {
        self.disk
    }
}

/// How far a disk of this name and size was read, and when that was told last; never again where there is no such time.
#[derive(Drop)]
struct Progress<R: Eprint + Clock + Copy> {
    rt: R,
    name: String,
    size: u64,
    read: u64,
    looked: u64,
    told: Option<Duration>,
}

impl<R: Eprint + Clock + Copy> Progress<R> {
    // Notes that a read ended here.
    fn note(&mut self, end: u64) {
        if self.size <= LONG || end <= self.read {
            return;
        }
        self.read = end;
        if end - self.looked.min(end) >= STEP {
            self.looked = end;
            self.tell();
        }
    }

    // Says how far it was read, where a second has gone by.
    fn tell(&mut self) {
        let Some(told) = self.told else {
            return;
        };
        let Ok(now) = self.rt.monotonic() else {
            return;
        };
        if now.saturating_sub(told) < Duration::from_secs(1) {
            return;
        }
        self.told = Some(now);
        let (read, size) = (self.read / STEP, self.size / STEP);
        let name = self.name.as_str();
        // Where the line cannot be written, the log is opened all the same.
        let _ = eprintln!(self.rt; "upspin: {name}: {read} of {size} MiB are read");
    }

    // Says no more.
    fn stop(&mut self) {
        self.told = None;
    }
}

impl<D: Disk, R: Eprint + Clock + Copy> Disk for ToldDisk<D, R> {
    ghost content = { D.content };

    ghost size_of = { D.size_of };

    ghost may_leave = { D.may_leave };

    ghost moment = { D.moment };

    ghost left_since = { D.left_since };

    ghost faults = { D.faults };

    ghost sized = { D.sized };

    ghost told = { D.told };

    ghost leaves_read = { D.leaves_read };

    ghost counts_now = { D.counts_now };

    ghost only_now = { D.only_now };

    fn size(&self) -> u64 {
        self.disk.size()
    }

    fn read(&mut self, at: u64, buf: &mut [u8]) -> Result<(), Failed> {
        self.progress.note(at.saturating_add(buf.len() as u64));
        self.disk.read(at, buf)
    }

    fn write_at(&mut self, at: u64, bytes: &[u8]) -> Result<(), Failed> {
        self.progress.stop();
        self.disk.write_at(at, bytes)
    }

    fn cut(&mut self, size: u64) -> Result<(), Failed> {
        self.progress.stop();
        self.disk.cut(size)
    }

    fn sync(&mut self) -> Result<(), Failed> {
        self.disk.sync()
    }
}
