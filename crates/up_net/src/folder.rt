//! The logs in a folder, and the file that enrols users.
ghost use Rattle.std.specs.Prelude.{◌≡◌, length, None, IfOk};

use crate::file_disk::FileDisk;
use crate::log_file::SystemFile;
use std::alloc::{AllocError, Global};
use std::fmt::Display;
use std::fs::{File, Files};
use std::io;
use std::io::{Eprint, Read};
use up_disk::{Ahead, Disk, Disks};
use up_ends::StdSource;

/// The disk of a log in a folder.
pub type LogDisk = Ahead<FileDisk<SystemFile>>;

/// The disk over the file of a log, or none where that could not be had.
type Opened = Option<FileDisk<SystemFile>>;

/// Opens the logs with these names in a folder, as disks in the order of the names. A missing file is made. Each is locked, exclusively
/// and without waiting, for as long as its disk lives, so that no two processes write to one log. Where one was made, or is empty as one
/// that was just made, the folder is synced once, before any disk is handed out.
///
/// A file that cannot be opened, made, locked or asked for its size is a disk whose every call fails; so is each file that was made or is
/// empty, where the folder cannot be synced. A line on standard error then says which file and why.
pub fn open_logs<R: Files<File = File> + Eprint>(
    alloc: Global,
    rt: &R,
    folder: &str,
    names: &[String],
) -> Result<Disks<LogDisk>, AllocError>
    ensures { IfOk result (λ disks. length disks.disks ≡ length names.now) }
{
    let mut logs = Vec::new(alloc);
    for name in names {
        let path = format!(in alloc; "{folder}/{name}")?;
        logs.push(open_log(rt, path.as_str()))?;
    }
    let durable = !any_empty(logs.as_slice()) || is_synced(rt, folder);
    disks_over(alloc, logs, durable)
}

// Whether some log has no byte yet.
fn any_empty(logs: &[Opened]) -> bool {
    logs.iter().any(|log| is_empty(log))
}

fn is_empty(log: &Opened) -> bool {
    match log {
        Some(disk) => disk.size() == 0,
        None => false,
    }
}

// The disks of these logs. One that is empty is none where its folder is not known to be synced.
fn disks_over(alloc: Global, logs: Vec<Opened>, durable: bool) -> Result<Disks<LogDisk>, AllocError>
    ensures { IfOk result (λ disks. length disks.disks ≡ length logs.items) }
{
    let mut disks = Disks::new(alloc);
    for log in logs {
        disks.push(Ahead::new(alloc, kept(log, durable)))?;
    }
    Ok(disks)
}

// The disk of a log, where it could be had, and where it stays in its folder.
fn kept(log: Opened, durable: bool) -> FileDisk<SystemFile> {
    let Some(disk) = log else {
        return FileDisk::missing();
    };
    if durable || disk.size() > 0 {
        return disk;
    }
    drop(disk);
    FileDisk::missing()
}

// The log at a path. Where it cannot be had a line says why.
fn open_log<R: Files<File = File> + Eprint>(rt: &R, path: &str) -> Opened {
    match try_open(rt, path) {
        Ok(disk) => Some(disk),
        Err(error) => {
            tell(rt, path, error);
            None
        }
    }
}

// The log at a path, made where it is missing, and locked.
fn try_open<R: Files<File = File>>(rt: &R, path: &str) -> io::Result<FileDisk<SystemFile>> {
    let mut options = File::options();
    let file = options.read(true).write(true).create(true).open(rt, path)?;
    file.try_lock()?;
    FileDisk::new(SystemFile::new(file))
}

// Syncs a folder, so that the files that were made in it are there after a crash. Where it cannot be synced a line says why.
fn is_synced<R: Files<File = File> + Eprint>(rt: &R, folder: &str) -> bool {
    match sync_folder(rt, folder) {
        Ok(()) => true,
        Err(error) => {
            tell(rt, folder, error);
            false
        }
    }
}

fn sync_folder<R: Files<File = File>>(rt: &R, folder: &str) -> io::Result<()> {
    File::open(rt, folder)?.sync_all()
}

// Says on standard error which file could not be had, and why. Where even that fails, the disk tells by its calls.
fn tell(rt: &impl Eprint, path: &str, why: impl Display + Drop) {
    let _ = eprintln!(rt; "upspin: {path}: {why}");
}

/// The file that enrols users, or none, and then each read fails.
#[derive(Drop)]
pub struct EnrolFile {
    file: Option<File>,
}

impl Read for EnrolFile {
    ghost remaining = { λ _. None };

    fn read(&mut self, buf: &mut [u8]) -> io::Result<usize> {
        match &mut self.file {
            Some(file) => file.read(buf),
            None => Err(io::Error::from(io::ErrorKind::NotFound)),
        }
    }
}

/// The file at a path as a source. One that cannot be opened is a source whose every read fails, and a line on standard error says
/// why.
pub fn open_enrol<R: Files<File = File> + Eprint>(rt: &R, path: &str) -> StdSource<EnrolFile>
    ensures { result.faults ≡ 0 }
{
    let file = match File::open(rt, path) {
        Ok(file) => Some(file),
        Err(error) => {
            tell(rt, path, error);
            None
        }
    };
    StdSource::new(EnrolFile { file })
}
