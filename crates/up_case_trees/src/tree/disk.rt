//! Commands of the disk on which a tree's log is.
ghost use Rattle.std.specs.Prelude.{◌≡◌, ◌≤◌, false, length};
ghost use Rattle.up_journal.specs.Journal.{AreLimits};
ghost use Rattle.up_policy.specs.Trees.{owns_snapshots};

use super::{Stage, empty_disk};
use std::alloc::{AllocError, Global};
use std::mem;
use up_case_asks::{WIDE, owner_of};
use up_case_lines::{Answer, Fault, Words, bytes_of};
use up_case_logs::{add_appended, add_open_fault, limits_of};
use up_disk::{Disk, MemDisk};
use up_journal::{Journal, Limits};
use up_lists::Items;
use up_names::User;
use up_refs::Reference;
use up_tree::TreeState;

/// `open OWNER R D L`: the number of records, or why the disk is refused. The limits are R records, a device of D bytes and payloads
/// of L bytes.
pub fn open_line(
    alloc: Global,
    stage: &mut Stage,
    mut words: Words<'_>,
    answer: &mut Answer,
) -> Result<(), Fault> {
    let owner = words.word()?;
    let limits = limits_of(words)?;
    let owner = owner_of(alloc, owner)?;
    open(alloc, stage, owner, limits, answer);
    Ok(())
}

// Opens a tree, or keeps the disk that is handed back.
fn open(alloc: Global, stage: &mut Stage, owner: User, limits: Limits, answer: &mut Answer)
    requires limits { AreLimits limits }
    requires plain { owns_snapshots owner ≡ false }
{
    let disk = mem::replace(stage.disk(), empty_disk(alloc));
    match TreeState::open(alloc, disk, owner, limits) {
        Ok(tree) => {
            answer.word("open");
            answer.number(tree.position());
            drop(stage.tree.replace(tree));
        }
        Err(fault) => {
            add_open_fault(fault.why, answer);
            drop(mem::replace(&mut stage.disk, fault.disk));
        }
    }
}

/// `fail N M`: an empty disk of which the calls N to N + M - 1 fail.
pub fn fail_line(
    alloc: Global,
    disk: &mut MemDisk,
    mut words: Words<'_>,
    answer: &mut Answer,
) -> Result<(), Fault> {
    let (first, count) = words.two_numbers()?;
    let fails = numbers_from(alloc, first, count)?;
    drop(mem::replace(disk, MemDisk::new(alloc, fails)));
    answer.word("ok");
    Ok(())
}

fn numbers_from(alloc: Global, first: u64, count: u64) -> Result<Items<u64>, AllocError> {
    let mut numbers = Items::new(alloc);
    for n in 0..count {
        numbers.push(first.saturating_add(n))?;
    }
    Ok(numbers)
}

/// `crash N`: the disk is the image N from now on.
pub fn crash_line(
    disk: &mut MemDisk,
    mut words: Words<'_>,
    answer: &mut Answer,
) -> Result<(), Fault> {
    let image = disk.image(words.last_number()?)?;
    drop(mem::replace(disk, image));
    answer.word("ok");
    Ok(())
}

/// `append BYTES`: a payload is appended that may be no record's.
pub fn append_line(
    alloc: Global,
    disk: &mut MemDisk,
    mut words: Words<'_>,
    answer: &mut Answer,
) -> Result<(), Fault> {
    let payload = bytes_of(alloc, words.one()?)?;
    if payload.len() > WIDE.largest {
        return Err(Fault::BadLine);
    }
    let before = mem::replace(disk, empty_disk(alloc));
    drop(mem::replace(disk, append(alloc, before, payload.as_slice(), answer)));
    Ok(())
}

fn append(alloc: Global, disk: MemDisk, payload: &[u8], answer: &mut Answer) -> MemDisk
    requires { length payload.now ≤ 65536 }
{
    match Journal::open(alloc, disk, WIDE) {
        Ok(mut journal) => {
            add_appended(journal.append(payload), answer);
            journal.into_disk()
        }
        Err(fault) => {
            add_open_fault(fault.why, answer);
            fault.disk
        }
    }
}

/// `trees OWNER`: of a tree over each of the crash images 0 to 7 the number of records, or why it is refused.
pub fn trees_line(
    alloc: Global,
    disk: &MemDisk,
    mut words: Words<'_>,
    answer: &mut Answer,
) -> Result<(), Fault> {
    let owner = words.one()?;
    for choice in 0..8 {
        add_image(alloc, disk, owner, choice, answer)?;
    }
    Ok(())
}

fn add_image(
    alloc: Global,
    disk: &MemDisk,
    owner: &str,
    choice: u64,
    answer: &mut Answer,
) -> Result<(), Fault> {
    let owner = owner_of(alloc, owner)?;
    add_opened(alloc, disk.image(choice)?, owner, answer);
    Ok(())
}

fn add_opened(alloc: Global, image: MemDisk, owner: User, answer: &mut Answer)
    requires { owns_snapshots owner ≡ false }
{
    match TreeState::open(alloc, image, owner, WIDE) {
        Ok(tree) => {
            answer.number(tree.position());
            drop(tree);
        }
        Err(fault) => {
            add_open_fault(fault.why, answer);
            drop(fault.disk);
        }
    }
}

/// `digest`: the digest of all bytes of the disk.
pub fn digest_line(
    alloc: Global,
    disk: &mut MemDisk,
    words: Words<'_>,
    answer: &mut Answer,
) -> Result<(), Fault> {
    words.end()?;
    let mut bytes = vec![in alloc; 0u8; disk.size() as usize]?;
    match disk.read(0, bytes.as_mut_slice()) {
        Ok(()) => answer.digits(Reference::of(&bytes).bytes()),
        Err(_) => answer.word("fault"),
    }
    Ok(())
}
