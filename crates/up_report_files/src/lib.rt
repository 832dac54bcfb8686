//! The logs of a stopped server's folder, for the reports over them: opened for reading only, and locked.
//!
//! [`open_for_reading`] opens files under their names as disks in that order. Each is locked, exclusively and without waiting, for as long as
//! its disk lives, as a server locks it: so no report reads a log to which a server writes. Nothing is made, and nothing can be written: a
//! sync works on such a file, a write fails. A file that is not there, cannot be opened or is locked is a disk whose every call fails.
//! [`logs_of_trees`] and [`log_of_tree`] are the names that `upspin serve` gives its logs.
//!
//! What a file of the system holds is outside of every proof; a report over these disks is proved over any disks.
#![tactic(auto)]

ghost use Rattle.std.specs.Prelude.{◌≡◌, ◌+◌, length, IfOk};

use std::alloc::{AllocError, Global};
use std::fs::{File, Files};
use std::io;
use std::io::Eprint;
use up_disk::{Ahead, Disks};
use up_net::{FileDisk, LogDisk, SystemFile};

/// Opens the logs with these names in a folder for reading, as disks in the order of the names, each locked. One that cannot be had is a
/// disk whose every call fails, and a line on standard error says why.
pub fn open_for_reading<R: Files<File = File> + Eprint>(
    alloc: Global,
    rt: &R,
    folder: &str,
    names: &[String],
) -> Result<Disks<LogDisk>, AllocError>
    ensures { IfOk result (λ disks. length disks.disks ≡ length names.now) }
{
    let mut disks = Disks::new(alloc);
    for name in names {
        let disk = log_at(alloc, rt, folder, name)?;
        disks.push(Ahead::new(alloc, disk))?;
    }
    Ok(disks)
}

// The log of this name in a folder. Where it cannot be had a line says why.
fn log_at<R: Files<File = File> + Eprint>(
    alloc: Global,
    rt: &R,
    folder: &str,
    name: &str,
) -> Result<FileDisk<SystemFile>, AllocError> {
    let path = format!(in alloc; "{folder}/{name}")?;
    match try_open(rt, path.as_str()) {
        Ok(disk) => Ok(disk),
        Err(error) => {
            // Where even that fails, the disk tells by its calls.
            let _ = eprintln!(rt; "upspin: {path}: {error}");
            Ok(FileDisk::missing())
        }
    }
}

// The file at a path, open for reading, and locked.
fn try_open<R: Files<File = File>>(rt: &R, path: &str) -> io::Result<FileDisk<SystemFile>> {
    let file = File::open(rt, path)?;
    file.try_lock()?;
    FileDisk::new(SystemFile::new(file))
}

/// The name of the log of the tree at this place, from 0.
pub fn log_of_tree(alloc: Global, which: u64) -> Result<String, AllocError> {
    format!(in alloc; "tree-{which}.log2")
}

/// The names of the logs of so many trees, and of the store behind them.
pub fn logs_of_trees(alloc: Global, trees: u64) -> Result<Vec<String>, AllocError>
    ensures { IfOk result (λ names. length names.items ≡ trees + 1) }
{
    let mut names = Vec::new(alloc);
    for which in 0..trees {
        names.push(log_of_tree(alloc, which)?)?;
    }
    names.push(String::from_str(alloc, "store.log2")?)?;
    Ok(names)
}
