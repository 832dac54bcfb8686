//! A disk over a file.
ghost use Rattle.std.specs.Prelude.{◌≡◌, ◌≤◌, ◌+◌, ◌^◌, ◌||◌, Bool, false, true, length, max, is_err, is_ok, IfOk, OnOk};
ghost use Rattle.up_lists.specs.Counts.{count_after};
ghost use Rattle.up_net.specs.Files.{AskSize, Changes, Counts, CutTo, ReadAt, Syncs, WriteAt};

use crate::log_file::{LogFile, SystemFile};
use std::io;
use std::marker::Model;
use up_disk::{Disk, Failed};

/// A disk over a file. It tells no content. Its size is that which the file had at first, kept since, and asked of the file again only
/// after a write or a cut that failed.
///
/// After a sync that failed each further one fails, without a call of the file: what the system had to write then it may have dropped,
/// and a later sync would say that all is well. A file that is opened again says what is there.
#[derive(Drop)]
pub struct FileDisk<F: LogFile> {
    file: F,
    size: u64,
    faults: u64,
    lost: bool,
}

impl<F: LogFile> Model for FileDisk<F> {
    ghost use Rattle.up_net.specs.Files.{FileState};

    ghost Value = { FileState F };

    ghost view = { λ disk. record {
      file = disk.file;
      size = disk.size;
      faults = disk.faults;
      lost = disk.lost;
    } };
}

impl FileDisk<SystemFile> {
    /// A disk in the place of a file that could not be had. It has no byte, and each call of it fails.
    pub fn missing() -> FileDisk<SystemFile>
        ensures size { result.size ≡ 0 }
        ensures faults { result.faults ≡ 0 }
    {
        FileDisk {
            file: SystemFile::missing(),
            size: 0,
            faults: 0,
            lost: false,
        }
    }
}

impl<F: LogFile> FileDisk<F> {
    /// A disk over this file. An `Err` says why its size is not known.
    pub fn new(mut file: F) -> io::Result<FileDisk<F>>
        ensures asked { IfOk result (λ disk. F.does file AskSize true disk.file) }
        ensures faults { IfOk result (λ disk. disk.faults ≡ 0) }
        ensures lost { IfOk result (λ disk. disk.lost ≡ false) }
    {
        let size = file.size()?;
        Ok(FileDisk {
            file,
            size,
            faults: 0,
            lost: false,
        })
    }

    /// How many calls failed so far. A count that stands at 2^64 - 1 stays there.
    pub fn faults(&self) -> u64
        ensures { result ≡ self.now.faults }
    {
        self.faults
    }

    // Counts a call that failed.
    fn failed(&mut self) -> Failed
        ensures { self.new ≡ record self.old { faults = count_after self.old.faults 1 } }
    {
        self.faults = self.faults.saturating_add(1);
        Failed
    }
}

// The size that a file has now, as far as it lies between these, or the least where it is not told.
fn size_between<F: LogFile>(file: &mut F, least: u64, most: u64) -> u64
    requires { least ≤ most }
    ensures asked { (known : Bool) × F.does file.old AskSize known file.new }
    ensures from { least ≤ result }
    ensures to { result ≤ most }
{
    match file.size() {
        Ok(size) => size.clamp(least, most),
        Err(_) => least,
    }
}

impl<F: LogFile> Disk for FileDisk<F> {
    ghost use Rattle.std.specs.Prelude.{◌≤◌, ◌+◌, ◌^◌, length, None};
    ghost use Rattle.up_net.specs.Files.{no_image, no_image_since};
    ghost use Rattle.up_net.specs.FileLaws.{nothing_told, nothing_now, nothing_since, no_size, no_read};

    ghost content = { λ _. None };

    ghost size_of = { λ disk. disk.size };

    ghost may_leave = { no_image };

    ghost moment = { λ _. 0 };

    ghost left_since = { no_image_since };

    ghost faults = { λ disk. disk.faults };

    ghost sized = { no_size };

    ghost told = { nothing_told };

    ghost leaves_read = { no_read };

    ghost counts_now = { nothing_now };

    ghost only_now = { nothing_since };

    fn size(&self) -> u64 {
        self.size
    }

    fn read(&mut self, at: u64, buf: &mut [u8]) -> Result<(), Failed>
        requires { at + length buf.old ≤ self.old.size }
        // The file is read once.
        ensures called { F.does self.old.file (ReadAt at (length buf.old)) (is_ok result)
            self.new.file }
        ensures size { self.new.size ≡ self.old.size }
        ensures lost { self.new.lost ≡ self.old.lost }
        ensures counted { Counts self.old.faults result self.new.faults }
    {
        match self.file.read_at(at, buf) {
            Ok(()) => Ok(()),
            Err(_) => Err(self.failed()),
        }
    }

    fn write_at(&mut self, at: u64, bytes: &[u8]) -> Result<(), Failed>
        requires within { at ≤ self.old.size }
        requires end { at + length bytes.now ≤ 2 ^ 62 }
        // The file is written once, and asked for its size where that failed.
        ensures called { Changes F.does (WriteAt at bytes.now) self.old.file result self.new.file }
        ensures size { OnOk result (self.new.size ≡ max self.old.size (at + length bytes.now)) }
        ensures no_shorter { self.old.size ≤ self.new.size }
        ensures no_longer { self.new.size ≤ max self.old.size (at + length bytes.now) }
        ensures lost { self.new.lost ≡ self.old.lost }
        ensures counted { Counts self.old.faults result self.new.faults }
    {
        let most = self.size.max(at + bytes.len() as u64);
        match self.file.write_at(at, bytes) {
            Ok(()) => {
                self.size = most;
                Ok(())
            }
            Err(_) => {
                self.size = size_between(&mut self.file, self.size, most);
                Err(self.failed())
            }
        }
    }

    fn cut(&mut self, size: u64) -> Result<(), Failed>
        requires { size ≤ self.old.size }
        // The file is cut once, and asked for its size where that failed.
        ensures called { Changes F.does (CutTo size) self.old.file result self.new.file }
        ensures size { OnOk result (self.new.size ≡ size) }
        ensures no_shorter { size ≤ self.new.size }
        ensures no_longer { self.new.size ≤ self.old.size }
        ensures lost { self.new.lost ≡ self.old.lost }
        ensures counted { Counts self.old.faults result self.new.faults }
    {
        match self.file.cut(size) {
            Ok(()) => {
                self.size = size;
                Ok(())
            }
            Err(_) => {
                self.size = size_between(&mut self.file, size, self.size);
                Err(self.failed())
            }
        }
    }

    fn sync(&mut self) -> Result<(), Failed>
        // The file is synced once, unless a sync has failed before.
        ensures called { Syncs F.does self.old.lost self.old.file result self.new.file }
        ensures lost { self.new.lost ≡ (self.old.lost || is_err result) }
        ensures size { self.new.size ≡ self.old.size }
        ensures counted { Counts self.old.faults result self.new.faults }
    {
        if self.lost {
            return Err(self.failed());
        }
        match self.file.sync() {
            Ok(()) => Ok(()),
            Err(_) => {
                self.lost = true;
                Err(self.failed())
            }
        }
    }
}
