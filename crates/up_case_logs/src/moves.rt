//! A log that is moved from a disk of the first format to another: calls that fail, crashes, and what is then opened. A line
//! is a case of its own, over two empty disks: commands of the one or of the other, parted by `; `, and so are their answers.
ghost use Rattle.up_journal.specs.Journal.{AreLimits};

use crate::crashes::{Watched, add_counted, add_log_of, limits_of, on_disk_turn};
use std::alloc::{AllocError, Global};
use up_case_lines::{Answer, Fault, Topic, Words};
use up_disk::MemDisk;
use up_journal::{Journal, Limits, MoveWhy, Moved, migrate, same_heads};

/// Lines about two disks.
#[derive(Clone, Copy)]
pub struct Moves;

#[derive(Drop)]
struct Pair {
    old: Watched,
    new: Watched,
}

impl Topic for Moves {
    fn turn(&mut self, alloc: Global, line: &str, answer: &mut Answer) -> Result<(), Fault> {
        let mut pair = Pair {
            old: Watched::empty(alloc),
            new: Watched::empty(alloc),
        };
        for command in line.split("; ") {
            answer.part();
            pair_turn(alloc, &mut pair, Words::new(command), answer)?;
        }
        Ok(())
    }
}

// Does one command.
fn pair_turn(
    alloc: Global,
    pair: &mut Pair,
    mut words: Words<'_>,
    answer: &mut Answer,
) -> Result<(), Fault> {
    match words.word()? {
        "old" => on_disk_turn(alloc, &mut pair.old, words, answer),
        "new" => on_disk_turn(alloc, &mut pair.new, words, answer),
        keyword => both_turn(alloc, pair, keyword, limits_of(words)?, answer),
    }
}

// A command of both disks, with limits.
fn both_turn(
    alloc: Global,
    pair: &mut Pair,
    keyword: &str,
    limits: Limits,
    answer: &mut Answer,
) -> Result<(), Fault>
    requires { AreLimits limits }
{
    match keyword {
        "move" => add_moved(migrate(alloc, &mut pair.old, &mut pair.new, limits), answer),
        "left" => add_left(alloc, pair, limits, answer)?,
        "same" => add_same(alloc, pair, limits, answer)?,
        _ => return Err(Fault::BadLine),
    }
    Ok(())
}

fn add_moved(outcome: Result<Moved, MoveWhy>, answer: &mut Answer) {
    match outcome {
        Ok(Moved::Already) => answer.word("already"),
        Ok(Moved::Copied(records)) => add_counted("copied", records, answer),
        Err(MoveWhy::Old(place)) => add_counted("old", place, answer),
        Err(MoveWhy::Full(records)) => add_counted("full", records, answer),
        Err(MoveWhy::Fault) => answer.word("fault"),
        Err(MoveWhy::OutOfMemory) => answer.word("out of memory"),
    }
}

// `left R D L`: what comes of each image of the new disk that was kept. The old disk's log is moved to it again, and it is
// opened.
fn add_left(
    alloc: Global,
    pair: &Pair,
    limits: Limits,
    answer: &mut Answer,
) -> Result<(), AllocError>
    requires { AreLimits limits }
{
    for image in &pair.new.notes.noted {
        add_moved_to(alloc, &pair.old.disk, image, limits, answer)?;
    }
    Ok(())
}

// Moves the log of a disk to another, which is opened then.
fn add_moved_to(
    alloc: Global,
    old: &MemDisk,
    new: &MemDisk,
    limits: Limits,
    answer: &mut Answer,
) -> Result<(), AllocError>
    requires { AreLimits limits }
{
    let mut old = old.image(1)?;
    let mut new = new.image(0)?;
    add_moved(migrate(alloc, &mut old, &mut new, limits), answer);
    add_log_of(alloc, Watched::new(alloc, new), answer);
    Ok(())
}

// `same R D L`: whether the logs of the two disks have the same heads.
fn add_same(
    alloc: Global,
    pair: &Pair,
    limits: Limits,
    answer: &mut Answer,
) -> Result<(), AllocError>
    requires { AreLimits limits }
{
    let one = opened(alloc, &pair.old.disk, limits)?;
    let told = add_same_as(alloc, &one, &pair.new.disk, limits, answer);
    drop(one);
    told
}

fn add_same_as(
    alloc: Global,
    one: &Option<Journal<MemDisk>>,
    disk: &MemDisk,
    limits: Limits,
    answer: &mut Answer,
) -> Result<(), AllocError>
    requires { AreLimits limits }
{
    let other = opened(alloc, disk, limits)?;
    add_same_heads(one, &other, answer);
    drop(other);
    Ok(())
}

fn add_same_heads(
    one: &Option<Journal<MemDisk>>,
    other: &Option<Journal<MemDisk>>,
    answer: &mut Answer,
) {
    match (one, other) {
        (Some(one), Some(other)) => answer.yes(same_heads(one, other)),
        _ => answer.word("not opened"),
    }
}

// The journal on a disk, if it is opened.
fn opened(
    alloc: Global,
    disk: &MemDisk,
    limits: Limits,
) -> Result<Option<Journal<MemDisk>>, AllocError>
    requires { AreLimits limits }
{
    let disk = disk.image(1)?;
    Ok(Journal::open(alloc, disk, limits).ok())
}
