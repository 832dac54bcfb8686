//! The logs of a server are opened, and those of the first format moved.
ghost use Rattle.std.specs.Prelude.{◌≡◌, ◌≤◌, ◌+◌, [], ◌∷◌, length, IfErr, IfOk};
ghost use Rattle.up_command.specs.Statuses.{IsOneOf};
ghost use Rattle.up_journal.specs.Journal.{AreLimits};
ghost use Rattle.up_lists.specs.Counts.{Rose, StaysUnless};
ghost use Rattle.up_server.specs.Endings.{ended_with};

use crate::naming::{Format, Log, file_names};
use crate::told_disk::ToldDisk;
use std::alloc::{AllocError, Global};
use std::fs::File;
use std::io;
use std::io::ErrorKind;
use up_command::Status;
use up_disk::{Ahead, Disks};
use up_ends::Sink;
use up_journal::{Limits, Moved};
use up_net::{FileDisk, LogDisk, SystemFile, open_logs};
use up_serve::serve_move;

/// The disk of a log of a server.
pub type ServedDisk = ToldDisk<LogDisk, HostRuntime>;

/// The limits of the logs of trees and of keys.
const LIMITS: Limits = Limits {
    records: 1_048_576,
    device: 1_073_741_824,
    largest: 131_072,
};

/// Those of the log of a store.
const STORE_LIMITS: Limits = Limits {
    records: 1_048_576,
    device: 1_073_741_824,
    largest: 1_048_640,
};

/// Where the logs of a server with so many trees are.
#[derive(Clone, Copy)]
pub(crate) struct Place<'a> {
    pub rt: HostRuntime,
    pub folder: &'a str,
    pub trees: u64,
}

/// Opens the logs of a server, the missing ones made, each locked. Before that the log of each file of the first format that is there is
/// moved, once both files are locked. An `Err` is the status with which the program ends.
pub(crate) fn served_disks<K: Sink>(
    alloc: Global,
    place: Place<'_>,
    sink: &mut K,
) -> Result<Disks<ServedDisk>, u8>
    ensures long { IfOk result (λ disks. length disks.disks ≡ place.entry.trees + 2) }
    ensures statuses { IsOneOf (0 ∷ 3 ∷ 4 ∷ 6 ∷ 8 ∷ 12 ∷ []) (ended_with result) }
    ensures write_fault { ended_with result ≡ 3 → Rose (K.faults sink.old) (K.faults sink.new) }
    ensures sink_counts { K.faults sink.old ≤ K.faults sink.new }
    ensures sink_quiet { StaysUnless (K.faults sink.old) (K.faults sink.new) (ended_with result ≡ 3) }
{
    match opened(alloc, place) {
        Ok(logs) => all_moved(alloc, place, logs, sink),
        Err(_) => Err(Status::OutOfMemory.code()),
    }
}

// The logs of the second format.
fn opened(alloc: Global, place: Place<'_>) -> Result<Disks<LogDisk>, AllocError>
    ensures { IfOk result (λ disks. length disks.disks ≡ place.entry.trees + 2) }
{
    let names = file_names(alloc, place.trees, Format::Second)?;
    open_logs(alloc, &place.rt, place.folder, names.as_slice())
}

// The same logs, to each of which that of the first format was moved where there is one.
fn all_moved<K: Sink>(
    alloc: Global,
    place: Place<'_>,
    logs: Disks<LogDisk>,
    sink: &mut K,
) -> Result<Disks<ServedDisk>, u8>
    ensures long { IfOk result (λ disks. length disks.disks ≡ length logs.disks) }
    ensures statuses { IsOneOf (0 ∷ 3 ∷ 4 ∷ 6 ∷ 8 ∷ 12 ∷ []) (ended_with result) }
    ensures write_fault { ended_with result ≡ 3 → Rose (K.faults sink.old) (K.faults sink.new) }
    ensures sink_counts { K.faults sink.old ≤ K.faults sink.new }
    ensures sink_quiet { StaysUnless (K.faults sink.old) (K.faults sink.new) (ended_with result ≡ 3) }
{
    let mut left = logs;
    let mut disks = Disks::new(alloc);
    let mut which: u64 = 0;
    while let Some(disk) = left.take() {
        let disk = moved(alloc, place, which, disk, sink)?;
        if disks.push(disk).is_err() {
            return Err(Status::OutOfMemory.code());
        }
        which = which.saturating_add(1);
    }
    Ok(disks)
}

// The disk of the log at a place, to which that of the first format was moved where there is one.
fn moved<K: Sink>(
    alloc: Global,
    place: Place<'_>,
    which: u64,
    disk: LogDisk,
    sink: &mut K,
) -> Result<ServedDisk, u8>
    ensures statuses { IsOneOf (0 ∷ 3 ∷ 4 ∷ 6 ∷ 8 ∷ 12 ∷ []) (ended_with result) }
    ensures write_fault { ended_with result ≡ 3 → Rose (K.faults sink.old) (K.faults sink.new) }
    ensures sink_counts { K.faults sink.old ≤ K.faults sink.new }
    ensures sink_quiet { StaysUnless (K.faults sink.old) (K.faults sink.new) (ended_with result ≡ 3) }
{
    let log = Log::at(place.trees, which);
    match old_disk(alloc, place, log) {
        Ok(Some(old)) => moved_from(alloc, place, which, old, disk, sink),
        Ok(None) => told(alloc, place, log, disk),
        Err(_) => Err(Status::OutOfMemory.code()),
    }
}

// Moves an old log to the disk of the new one at its place.
#[tactic(auto, using(crate::proofs::EndLemmas::ends))]
fn moved_from<K: Sink>(
    alloc: Global,
    place: Place<'_>,
    which: u64,
    old: LogDisk,
    disk: LogDisk,
    sink: &mut K,
) -> Result<ServedDisk, u8>
    ensures statuses { IsOneOf (0 ∷ 3 ∷ 4 ∷ 6 ∷ 8 ∷ 12 ∷ []) (ended_with result) }
    ensures write_fault { ended_with result ≡ 3 → Rose (K.faults sink.old) (K.faults sink.new) }
    ensures sink_counts { K.faults sink.old ≤ K.faults sink.new }
    ensures sink_quiet { StaysUnless (K.faults sink.old) (K.faults sink.new) (ended_with result ≡ 3) }
{
    let log = Log::at(place.trees, which);
    let mut old = told(alloc, place, log, old)?;
    let mut new = told(alloc, place, log, disk)?;
    let moved = serve_move(alloc, &mut old, &mut new, which, limits_of(log), sink)?;
    tell_moved(place, which, moved);
    told(alloc, place, log, new.into_inner())
}

// The limits of a log.
fn limits_of(log: Log) -> Limits
    ensures { AreLimits result }
{
    match log {
        Log::Store => STORE_LIMITS,
        Log::Tree(_) | Log::Keys => LIMITS,
    }
}

// Says that a log was moved. Nothing is said where it had been before.
fn tell_moved(place: Place<'_>, which: u64, moved: Moved) {
    if let Moved::Copied(records) = moved {
        let _ = eprintln!(place.rt;
            "upspin: log {which}: {records} records are moved to the second format"
        );
    }
}

// The disk of a log as one that says how far it was read.
fn told(alloc: Global, place: Place<'_>, log: Log, disk: LogDisk) -> Result<ServedDisk, u8>
    ensures { IfErr result (λ status. status ≡ 4) }
{
    match log.file(alloc, Format::Second) {
        Ok(name) => Ok(ToldDisk::new(disk, place.rt, name)),
        Err(_) => Err(Status::OutOfMemory.code()),
    }
}

// The disk of a log of the first format: `None` where there is no such file, and one whose every call fails where it cannot be opened or
// locked.
fn old_disk(alloc: Global, place: Place<'_>, log: Log) -> Result<Option<LogDisk>, AllocError> {
    let (folder, name) = (place.folder, log.file(alloc, Format::First)?);
    let path = format!(in alloc; "{folder}/{name}")?;
    match try_open(&place.rt, path.as_str()) {
        Ok(disk) => Ok(Some(Ahead::new(alloc, disk))),
        Err(error) if error.kind() == ErrorKind::NotFound => Ok(None),
        Err(error) => {
            let _ = eprintln!(place.rt; "upspin: {path}: {error}");
            Ok(Some(Ahead::new(alloc, FileDisk::missing())))
        }
    }
}

// A file that is there, locked.
fn try_open(rt: &HostRuntime, path: &str) -> io::Result<FileDisk<SystemFile>> {
    let file = File::options().read(true).write(true).open(rt, path)?;
    file.try_lock()?;
    FileDisk::new(SystemFile::new(file))
}
