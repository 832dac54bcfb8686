//! A run of the command, over the disk of a follower or over an image of it.
ghost use Rattle.up_journal.specs.Journal.{AreLimits};

use crate::follow_cases::follows::Stage;
use crate::host_cases::stopping::add_alike;
use crate::serve_cases::plans::words_of;
use crate::share_cases::reports::one;
use std::alloc::{AllocError, Global};
use std::mem;
use up_bytes::{Bytes, copy_of};
use up_case_lines::{Answer, Fault};
use up_disk::{Disks, MemDisk};
use up_ends::{MemSink, MemSource};
use up_follow::ListFeed;
use up_following::{follow_owner, follow_run, follow_within};
use up_journal::Limits;
use up_lists::Items;

/// How many images of a disk there are.
const CHOICES: u64 = 8;

/// The words of a run, the feed, and the ends.
#[derive(Drop)]
struct Invocation {
    words: Vec<String>,
    feed: ListFeed,
    source: MemSource,
    sink: MemSink,
}

/// Runs the command over the follower's disk: its words, and behind the first ` |` the lines of its input, parted by `|`. It answers the
/// status, and each line that is printed behind a `|`.
pub fn run(alloc: Global, stage: &mut Stage, text: &str, answer: &mut Answer) -> Result<(), Fault> {
    answer.part();
    let disk = mem::replace(&mut stage.disk, MemDisk::new(alloc, Items::new(alloc)));
    let disk = run_over(alloc, stage, disk, text, answer)?;
    drop(mem::replace(&mut stage.disk, disk));
    Ok(())
}

/// Runs the command over each image of the follower's disk, as [`run`] does over the disk, and leaves the disk as it is. Images of
/// which the same is told stand together, by their numbers.
pub fn images(alloc: Global, stage: &Stage, text: &str, answer: &mut Answer) -> Result<(), Fault> {
    answer.part();
    let mut told = Vec::new(alloc);
    for choice in 0..CHOICES {
        told.push(image_told(alloc, stage, choice, text)?)?;
    }
    let mut alike = Answer::new(alloc);
    add_alike(&told, &mut alike);
    answer.made(alike.finish());
    Ok(())
}

fn image_told(alloc: Global, stage: &Stage, choice: u64, text: &str) -> Result<String, Fault> {
    let image = stage.disk.image(choice)?;
    let mut answer = Answer::new(alloc);
    match run_over(alloc, stage, image, text, &mut answer) {
        Ok(disk) => {
            drop(disk);
            Ok(answer.finish()?)
        }
        Err(fault) => {
            drop(answer);
            Err(fault)
        }
    }
}

fn run_over(
    alloc: Global,
    stage: &Stage,
    disk: MemDisk,
    text: &str,
    answer: &mut Answer,
) -> Result<MemDisk, Fault> {
    let mut disks = Disks::new(alloc);
    disks.push(disk)?;
    let mut called = invocation_of(alloc, stage, text)?;
    let status = status_of(alloc, stage, &mut called, &mut disks)?;
    answer.word("status");
    answer.number(u64::from(status));
    add_printed(alloc, called.sink.bytes(), answer);
    drop(called);
    disks.take().ok_or(Fault::BadLine)
}

fn invocation_of(alloc: Global, stage: &Stage, text: &str) -> Result<Invocation, Fault> {
    let (words, lines) = text.split_once(" |").unwrap_or((text, ""));
    Ok(Invocation {
        words: words_of(alloc, Some(words))?,
        feed: ListFeed::new(copied(alloc, &stage.records)?, one(alloc, stage.pull)?),
        source: source_of(alloc, stage, lines)?,
        sink: MemSink::new(alloc, one(alloc, stage.sink)?),
    })
}

fn source_of(alloc: Global, stage: &Stage, lines: &str) -> Result<MemSource, AllocError> {
    let mut input = lines.to_string(alloc)?.into_bytes();
    for byte in input.iter_mut() {
        if *byte == b'|' {
            *byte = b'\n';
        }
    }
    Ok(MemSource::new(input, Items::new(alloc), one(alloc, stage.source)?))
}

// These records, in memory of their own.
fn copied(alloc: Global, records: &Items<Bytes>) -> Result<Items<Bytes>, AllocError> {
    let mut copy = Items::new(alloc);
    for record in records.as_slice() {
        copy.push(copy_of(alloc, record.as_slice())?)?;
    }
    Ok(copy)
}

fn status_of(
    alloc: Global,
    stage: &Stage,
    called: &mut Invocation,
    disks: &mut Disks<MemDisk>,
) -> Result<u8, Fault> {
    if disks.len() != 1 {
        return Err(Fault::BadLine);
    }
    match stage.limits {
        None => Ok(follow_run(
            alloc,
            stage.random,
            &called.words,
            &mut called.feed,
            disks,
            &mut called.source,
            &mut called.sink,
        )),
        Some(limits) => within(alloc, stage, limits, called, disks),
    }
}

fn within(
    alloc: Global,
    stage: &Stage,
    limits: Limits,
    called: &mut Invocation,
    disks: &mut Disks<MemDisk>,
) -> Result<u8, Fault> {
    let Some(owner) = follow_owner(alloc, &called.words)? else {
        return Err(Fault::BadLine);
    };
    if disks.len() != 1 {
        drop(owner);
        return Err(Fault::BadLine);
    }
    Ok(follow_within(
        alloc,
        stage.random,
        fit(limits),
        owner,
        &mut called.feed,
        disks,
        &mut called.source,
        &mut called.sink,
    ))
}

// These limits, or the greatest that a log takes.
fn fit(limits: Limits) -> Limits
    ensures { AreLimits result }
{
    Limits {
        records: limits.records,
        device: limits.device.min(1 << 62),
        largest: limits.largest.min(u32::MAX as u64),
    }
}

// Each line behind a `|`.
fn add_printed(alloc: Global, bytes: &[u8], answer: &mut Answer) {
    for line in bytes.split(|byte| *byte == b'\n') {
        if !line.is_empty() {
            answer.push("|");
            answer.made(String::from_utf8_lossy(alloc, line));
        }
    }
}
