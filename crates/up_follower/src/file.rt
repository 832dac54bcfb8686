//! The file of a follower's log.
ghost use Rattle.std.specs.Prelude.{◌≡◌, length, IfOk};

use std::alloc::{AllocError, Global};
use up_disk::{Ahead, Disks};
use up_net::{FileDisk, LogDisk, open_logs};

/// The log in the file that the words of `upspin follow` name last, as the one disk of a follower: made where it is missing, locked, and
/// synced into its folder. A file that cannot be had is a disk whose every call fails, and a line on standard error says why.
pub fn log_of(rt: &HostRuntime, words: &[String]) -> Result<Disks<LogDisk>, AllocError>
    ensures { IfOk result (λ disks. length disks.disks ≡ 1) }
{
    match words.last() {
        Some(path) => log_at(rt.alloc(), rt, path.as_str()),
        None => no_log(rt.alloc()),
    }
}

/// One disk whose every call fails, for words that name no file.
pub fn no_log(alloc: Global) -> Result<Disks<LogDisk>, AllocError>
    ensures { IfOk result (λ disks. length disks.disks ≡ 1) }
{
    let mut disks = Disks::new(alloc);
    disks.push(Ahead::new(alloc, FileDisk::missing()))?;
    Ok(disks)
}

fn log_at(alloc: Global, rt: &HostRuntime, path: &str) -> Result<Disks<LogDisk>, AllocError>
    ensures { IfOk result (λ disks. length disks.disks ≡ 1) }
{
    let (folder, name) = folder_and_name(path);
    let names = one_name(alloc, name)?;
    open_logs(alloc, rt, folder, names.as_slice())
}

fn one_name(alloc: Global, name: &str) -> Result<Vec<String>, AllocError>
    ensures { IfOk result (λ names. length names.items ≡ 1) }
{
    let mut names = Vec::new(alloc);
    names.push(String::from_str(alloc, name)?)?;
    Ok(names)
}

// The folder in which a path is, and its name there.
fn folder_and_name(path: &str) -> (&str, &str) {
    match path.rsplit_once('/') {
        Some((folder, name)) => {
            if folder.is_empty() {
                ("/", name)
            } else {
                (folder, name)
            }
        }
        None => (".", path),
    }
}
