//! Commands of a disk.
use super::add_counted;
use super::images::{Look, add_content, add_images, add_noted};
use super::others::{add_hooks, add_lists};
use super::watched::{Notes, Watched};
use std::alloc::{AllocError, Global};
use std::mem;
use up_case_lines::{Answer, Fault, Words, bytes_of};
use up_disk::{Disk, Failed, MemDisk};
use up_lists::Items;

/// The greatest place at which a case writes, and the most bytes that it writes there.
const FAR: u64 = 1 << 20;

/// Does a command of a disk: one that changes it, looks at it, or has something noted from now on.
pub fn turn(
    alloc: Global,
    disk: &mut Watched,
    mut words: Words<'_>,
    answer: &mut Answer,
) -> Result<(), Fault> {
    let keyword = words.word()?;
    match keyword {
        "write" => write_line(alloc, disk, words, answer),
        "fail" => fail_line(alloc, disk, words, answer),
        "cut" | "note" | "crash" => number_turn(alloc, disk, keyword, words.last_number()?, answer),
        _ => {
            words.end()?;
            plain_turn(alloc, disk, keyword, answer)
        }
    }
}

// A command with a number.
fn number_turn(
    alloc: Global,
    disk: &mut Watched,
    keyword: &str,
    number: u64,
    answer: &mut Answer,
) -> Result<(), Fault> {
    match keyword {
        "cut" => add_outcome(cut(disk, number), answer),
        "note" => {
            disk.notes.noted_call = Some(number);
            answer.word("ok");
        }
        _ => crash(alloc, disk, number, answer)?,
    }
    Ok(())
}

// A command of one word.
fn plain_turn(
    alloc: Global,
    disk: &mut Watched,
    keyword: &str,
    answer: &mut Answer,
) -> Result<(), Fault> {
    match keyword {
        "sync" => add_outcome(disk.sync(), answer),
        "content" => add_content(alloc, disk, answer)?,
        "watch" => watch(alloc, disk, answer)?,
        "lists" => add_lists(alloc, answer)?,
        "hooks" => add_hooks(alloc, answer)?,
        _ => return look_turn(alloc, disk, keyword, answer),
    }
    Ok(())
}

// A command that looks at images.
fn look_turn(
    alloc: Global,
    disk: &Watched,
    keyword: &str,
    answer: &mut Answer,
) -> Result<(), Fault> {
    match keyword {
        "images" => add_images(alloc, &disk.disk, 9, Look::Bytes, answer)?,
        "logs" => add_images(alloc, &disk.disk, 8, Look::Journal, answer)?,
        "stores" => add_images(alloc, &disk.disk, 8, Look::Store, answer)?,
        "keylogs" => add_images(alloc, &disk.disk, 8, Look::Keys, answer)?,
        "kept" => add_noted(alloc, &disk.notes.noted, Look::Bytes, answer)?,
        "noted" => add_noted(alloc, &disk.notes.noted, Look::Journal, answer)?,
        _ => return count_turn(&disk.notes, keyword, answer),
    }
    Ok(())
}

// A command that answers what was counted.
fn count_turn(notes: &Notes, keyword: &str, answer: &mut Answer) -> Result<(), Fault> {
    match keyword {
        "calls" => add_counted("calls", notes.calls, answer),
        "reads" => add_reads(notes, answer),
        "thrice" => answer.word(if most(&notes.seen) > 2 {
            "some"
        } else {
            "none"
        }),
        _ => return Err(Fault::BadLine),
    }
    Ok(())
}

// `write P BYTES`, where the place lies within the disk.
fn write_line(
    alloc: Global,
    disk: &mut Watched,
    mut words: Words<'_>,
    answer: &mut Answer,
) -> Result<(), Fault> {
    let at = words.number()?;
    let bytes = bytes_of(alloc, words.one()?)?;
    add_outcome(write(disk, at, bytes.as_slice()), answer);
    Ok(())
}

fn write(disk: &mut Watched, at: u64, bytes: &[u8]) -> Result<(), Failed> {
    if at > disk.size().min(FAR) || bytes.len() as u64 > FAR {
        return Err(Failed);
    }
    disk.write_at(at, bytes)
}

// `cut P`, where the size is no more than the disk's.
fn cut(disk: &mut Watched, size: u64) -> Result<(), Failed> {
    if size > disk.size() {
        return Err(Failed);
    }
    disk.cut(size)
}

/// Adds whether a call failed.
pub fn add_outcome(outcome: Result<(), Failed>, answer: &mut Answer) {
    answer.word(if outcome.is_ok() { "ok" } else { "fault" });
}

// `fail N M`: it is an empty disk of which the calls N to N + M - 1 fail.
fn fail_line(
    alloc: Global,
    disk: &mut Watched,
    mut words: Words<'_>,
    answer: &mut Answer,
) -> Result<(), Fault> {
    let (first, count) = words.two_numbers()?;
    let fails = numbers_from(alloc, first, count)?;
    begin(
        disk,
        Watched::new(alloc, MemDisk::new(alloc, fails)),
        answer,
    );
    Ok(())
}

// So many numbers, from one on.
fn numbers_from(alloc: Global, first: u64, count: u64) -> Result<Items<u64>, AllocError> {
    let mut numbers = Items::new(alloc);
    for n in 0..count {
        numbers.push(first.saturating_add(n))?;
    }
    Ok(numbers)
}

// `crash N`: the disk is the image N from now on.
fn crash(
    alloc: Global,
    disk: &mut Watched,
    choice: u64,
    answer: &mut Answer,
) -> Result<(), AllocError> {
    let image = disk.disk.image(choice)?;
    begin(disk, Watched::new(alloc, image), answer);
    Ok(())
}

// Goes on with another disk.
fn begin(disk: &mut Watched, other: Watched, answer: &mut Answer) {
    drop(mem::replace(disk, other));
    answer.word("ok");
}

// `watch`: from now on it is counted how often each byte is read.
fn watch(alloc: Global, disk: &mut Watched, answer: &mut Answer) -> Result<(), AllocError> {
    let seen = vec![in alloc; 0u8; disk.size() as usize]?;
    drop(mem::replace(&mut disk.notes.seen, seen));
    answer.word("ok");
    Ok(())
}

// How many reads there were, and where the last one was.
fn add_reads(notes: &Notes, answer: &mut Answer) {
    let (at, size) = notes.last_read;
    add_counted("reads", notes.reads, answer);
    answer.push(",");
    add_counted("last at", at, answer);
    answer.push(",");
    add_counted("bytes", size, answer);
}

// The greatest of some numbers, 0 where there is none.
fn most(numbers: &[u8]) -> u8 {
    numbers.iter().copied().max().unwrap_or(0)
}
