//! Trees over empty disks in memory, and the paths of their owners.
ghost use Rattle.std.specs.Prelude.{◌≡◌, false, IfOk};
ghost use Rattle.up_journal.specs.Journal.{AreLimits};
ghost use Rattle.up_policy.specs.Trees.{owns_snapshots};

use std::alloc::Global;
use up_case_lines::{Fault, Words, number_of, path_of, user_of};
use up_disk::MemDisk;
use up_journal::Limits;
use up_lists::Items;
use up_names::{Path, User};
use up_policy::owns_snapshots;
use up_tree::TreeState;

/// Limits that no case comes to which names none.
pub const WIDE: Limits = Limits {
    records: 1 << 20,
    device: 1 << 30,
    largest: 1 << 16,
};

/// The owner of a tree. One of a snapshot tree does not fit.
pub fn owner_of(alloc: Global, word: &str) -> Result<User, Fault>
    ensures { IfOk result (λ owner. owns_snapshots owner ≡ false) }
{
    let owner = user_of(alloc, word)?;
    if owns_snapshots(&owner) {
        return Err(Fault::BadLine);
    }
    Ok(owner)
}

/// A tree of this owner over an empty disk, with limits that no case comes to.
pub fn empty_tree(alloc: Global, owner: &str) -> Result<TreeState<MemDisk>, Fault> {
    new_tree(alloc, owner, WIDE, Items::new(alloc))
}

/// A tree of this owner over an empty disk, of which the calls with these numbers fail, with these limits.
pub fn new_tree(
    alloc: Global,
    owner: &str,
    limits: Limits,
    fails: Items<u64>,
) -> Result<TreeState<MemDisk>, Fault>
    requires { AreLimits limits }
{
    let owner = owner_of(alloc, owner)?;
    match TreeState::open(alloc, MemDisk::new(alloc, fails), owner, limits) {
        Ok(tree) => Ok(tree),
        Err(fault) => {
            drop(fault);
            Err(Fault::OutOfMemory)
        }
    }
}

/// The tree of the words `OWNER`, `OWNER R D L` or `OWNER R D L CALL ..`, over an empty disk of which these calls fail.
pub fn tree_of(alloc: Global, mut words: Words<'_>) -> Result<TreeState<MemDisk>, Fault> {
    let owner = words.word()?;
    if words.rest().is_none() {
        return empty_tree(alloc, owner);
    }
    let limits = next_limits(&mut words)?;
    new_tree(alloc, owner, limits, rest_of(alloc, words)?)
}

// The limits that the next three words are.
fn next_limits(words: &mut Words<'_>) -> Result<Limits, Fault>
    ensures { IfOk result (λ limits. AreLimits limits) }
{
    let records = words.number()?;
    let device = words.number()?;
    let largest = words.number()?;
    Ok(limits(records, device, largest))
}

// These limits, or the greatest that a log takes.
fn limits(records: u64, device: u64, largest: u64) -> Limits
    ensures { AreLimits result }
{
    Limits {
        records,
        device: device.min(1 << 62),
        largest: largest.min(u32::MAX as u64),
    }
}

// The numbers that are left.
fn rest_of(alloc: Global, words: Words<'_>) -> Result<Items<u64>, Fault> {
    let mut numbers = Items::new(alloc);
    if let Some(rest) = words.rest() {
        for word in rest.split(' ') {
            numbers.push(number_of(word)?)?;
        }
    }
    Ok(numbers)
}

/// The path of a word, of this owner.
pub fn path_in(alloc: Global, owner: &User, word: &str) -> Result<Path, Fault>
    ensures { IfOk result (λ path. path.owner ≡ owner.now) }
{
    let path = path_of(alloc, word)?;
    if path.owner() != owner {
        return Err(Fault::BadLine);
    }
    Ok(path)
}
