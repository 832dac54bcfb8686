//! The calls of a file.
ghost use Rattle.std.specs.Prelude.{Bool, is_ok, length};
ghost use Rattle.up_net.specs.Files.{AskSize, CutTo, FileCall, ReadAt, SyncNow, WriteAt};

use std::fs::File;
use std::io;
use std::os::unix::fs::FileExt;

/// A file as a disk needs it.
pub trait LogFile: Drop {
    /// Whether a call that is done, or else fails, leads from one state to the other. Of a file of the system nothing is told.
    ghost does: { Self → FileCall → Bool → Self → Type 0 };

    /// Reads the bytes at a place, as many as the buffer has.
    fn read_at(&mut self, at: u64, buf: &mut [u8]) -> io::Result<()>
        ensures { does self.old (ReadAt at (length buf.old)) (is_ok result) self.new };

    /// Writes all of these bytes at a place.
    fn write_at(&mut self, at: u64, bytes: &[u8]) -> io::Result<()>
        ensures { does self.old (WriteAt at bytes.now) (is_ok result) self.new };

    /// Cuts the file to a size.
    fn cut(&mut self, size: u64) -> io::Result<()>
        ensures { does self.old (CutTo size) (is_ok result) self.new };

    /// Has the system write what it has not written yet of the file.
    fn sync(&mut self) -> io::Result<()>
        ensures { does self.old SyncNow (is_ok result) self.new };

    /// The number of bytes that the file has.
    fn size(&mut self) -> io::Result<u64>
        ensures { does self.old AskSize (is_ok result) self.new };
}

/// A file of the system, open for reading and writing; or none, and then each call fails.
#[derive(Drop)]
pub struct SystemFile {
    file: Option<File>,
}

impl SystemFile {
    /// This file.
    pub fn new(file: File) -> SystemFile {
        SystemFile { file: Some(file) }
    }

    /// No file.
    pub fn missing() -> SystemFile {
        SystemFile { file: None }
    }

    fn open(&self) -> io::Result<&File> {
        match &self.file {
            Some(file) => Ok(file),
            None => Err(io::Error::from(io::ErrorKind::NotFound)),
        }
    }
}

impl LogFile for SystemFile {
    ghost use Rattle.up_net.specs.Files.{AnyCall};

    ghost does = { AnyCall };

    fn read_at(&mut self, at: u64, buf: &mut [u8]) -> io::Result<()> {
        self.open()?.read_exact_at(buf, at)
    }

    fn write_at(&mut self, at: u64, bytes: &[u8]) -> io::Result<()> {
        self.open()?.write_all_at(bytes, at)
    }

    fn cut(&mut self, size: u64) -> io::Result<()> {
        self.open()?.set_len(size)
    }

    fn sync(&mut self) -> io::Result<()> {
        self.open()?.sync_data()
    }

    fn size(&mut self) -> io::Result<u64> {
        Ok(self.open()?.metadata()?.len())
    }
}
