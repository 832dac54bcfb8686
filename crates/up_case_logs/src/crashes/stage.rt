//! What commands work with.
ghost use Rattle.std.specs.Prelude.{◌<◌, ◌≤◌, ◌^◌, IfOk};
ghost use Rattle.up_journal.specs.Journal.{AreLimits};

use super::on_journal::{Running, add_open_fault};
use super::watched::Watched;
use super::{add_counted, on_disk, on_journal, on_keys, on_store};
use std::alloc::Global;
use up_blocks::Blocks;
use up_case_lines::{Answer, Fault, Words};
use up_journal::{Journal, Limits, OpenFault};
use up_keys::Keys;

/// A disk, or a journal, a store or a key server's log on it.
#[derive(Drop)]
pub enum Stage {
    Disk(Watched),
    Journal(Running),
    Store(Blocks<Watched>),
    Keys(Keys<Watched>),
}

/// Does one command. A command of a disk ends what stands on it.
pub fn stage_turn(
    alloc: Global,
    mut stage: Stage,
    words: Words<'_>,
    answer: &mut Answer,
) -> Result<Stage, Fault> {
    match stage.turn(alloc, words, answer) {
        Ok(true) => Ok(stage),
        Ok(false) => disk_turn(alloc, stage.into_disk(), words, answer),
        Err(fault) => {
            drop(stage);
            Err(fault)
        }
    }
}

impl Stage {
    // Does a command of what stands on the disk, or answers `false` where it is none.
    fn turn(
        &mut self,
        alloc: Global,
        words: Words<'_>,
        answer: &mut Answer,
    ) -> Result<bool, Fault> {
        match self {
            Stage::Disk(_) => Ok(false),
            Stage::Journal(running) => on_journal::turn(alloc, running, words, answer),
            Stage::Store(store) => on_store::turn(alloc, store, words, answer),
            Stage::Keys(keys) => on_keys::turn(alloc, keys, words, answer),
        }
    }

    fn into_disk(self) -> Watched {
        match self {
            Stage::Disk(disk) => disk,
            Stage::Journal(running) => running.journal.into_disk(),
            Stage::Store(store) => store.into_disk(),
            Stage::Keys(keys) => keys.into_disk(),
        }
    }
}

// Does one command of a disk.
fn disk_turn(
    alloc: Global,
    disk: Watched,
    words: Words<'_>,
    answer: &mut Answer,
) -> Result<Stage, Fault> {
    let mut rest = words;
    match service_of(rest.word()?) {
        Some(service) => Ok(open(alloc, disk, service, limits_of(rest)?, answer)),
        None => stay(alloc, disk, words, answer),
    }
}

// Does a command that goes on with the same disk.
fn stay(
    alloc: Global,
    mut disk: Watched,
    words: Words<'_>,
    answer: &mut Answer,
) -> Result<Stage, Fault> {
    on_disk::turn(alloc, &mut disk, words, answer)?;
    Ok(Stage::Disk(disk))
}

/// The limits that three numbers are.
pub fn limits_of(mut words: Words<'_>) -> Result<Limits, Fault>
    ensures { IfOk result (λ limits. AreLimits limits) }
{
    let records = words.number()?;
    let (device, largest) = words.two_numbers()?;
    Ok(limits(records, device, largest))
}

// These limits, or the greatest that a journal takes.
fn limits(records: u64, device: u64, largest: u64) -> Limits
    ensures { AreLimits result }
{
    Limits {
        records,
        device: device.min(1 << 62),
        largest: largest.min(u32::MAX as u64),
    }
}

/// What is opened on a disk.
#[derive(Clone, Copy)]
enum Service {
    Journal,
    Store,
    Keys,
}

// What a keyword opens.
fn service_of(keyword: &str) -> Option<Service> {
    match keyword {
        "open" => Some(Service::Journal),
        "store" => Some(Service::Store),
        "keys" => Some(Service::Keys),
        _ => None,
    }
}

// Opens a service, or keeps the disk that is handed back.
fn open(
    alloc: Global,
    disk: Watched,
    service: Service,
    limits: Limits,
    answer: &mut Answer,
) -> Stage
    requires { AreLimits limits }
{
    match opened(alloc, disk, service, limits) {
        Ok(stage) => {
            add_opened(&stage, answer);
            stage
        }
        Err(fault) => {
            add_open_fault(fault.why, answer);
            Stage::Disk(fault.disk)
        }
    }
}

// The service, whose limits leave room for its largest record.
fn opened(
    alloc: Global,
    disk: Watched,
    service: Service,
    limits: Limits,
) -> Result<Stage, OpenFault<Watched>>
    requires { AreLimits limits }
{
    Ok(match service {
        Service::Journal => Stage::Journal(Running {
            journal: Journal::open(alloc, disk, limits)?,
            limits,
        }),
        Service::Store => {
            Stage::Store(Blocks::open(alloc, disk, with_room(limits, on_store::LARGEST))?)
        }
        Service::Keys => Stage::Keys(Keys::open(alloc, disk, with_room(limits, on_keys::ROOM))?),
    })
}

// What was opened, and how many records it has.
fn add_opened(stage: &Stage, answer: &mut Answer) {
    match stage {
        Stage::Disk(_) => {}
        Stage::Journal(running) => add_counted("open", running.journal.len(), answer),
        Stage::Store(store) => add_counted("store", store.position(), answer),
        Stage::Keys(keys) => add_counted("keys", keys.position(), answer),
    }
}

// The limits, with room for a payload of so many bytes.
fn with_room(limits: Limits, room: u64) -> Limits
    requires limits { AreLimits limits }
    requires room { room < 2 ^ 32 }
    ensures limits { AreLimits result }
    ensures room { room ≤ result.largest }
{
    Limits {
        largest: limits.largest.max(room),
        ..limits
    }
}
