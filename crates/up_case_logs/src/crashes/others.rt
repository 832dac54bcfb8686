//! A list of disks with spare room, and a disk with a hook.
use super::add_counted;
use super::on_disk::add_outcome;
use std::alloc::{AllocError, Global};
use up_case_lines::Answer;
use up_disk::{Disk, Disks, Failed, Hook, HookDisk, MemDisk};
use up_lists::Items;

/// `lists`: three disks, known by numbers, are put into a list; the first is taken out and put back.
pub fn add_lists(alloc: Global, answer: &mut Answer) -> Result<(), AllocError> {
    let mut disks = Disks::new(alloc);
    for number in 7..10u64 {
        disks.push(number)?;
    }
    let first = disks.take().unwrap_or(0);
    disks.push(first)?;
    add_counted("took", first, answer);
    answer.push(",");
    add_counted("next", disks.take().unwrap_or(0), answer);
    answer.push(",");
    add_counted("left", disks.len(), answer);
    Ok(())
}

/// Counts how often it is called.
#[derive(Drop)]
struct Count {
    times: u64,
}

impl Hook for Count {
    ghost use Rattle.std.specs.Prelude.{◌≡◌};
    ghost use Rattle.up_lists.specs.Counts.{count_after};

    ghost handed = { λ old disk new. new.times ≡ count_after old.times 1 };

    fn before_sync(&mut self, _disk: &MemDisk) {
        self.times = self.times.saturating_add(1);
    }
}

// Writes and syncs twice on a disk with a hook, whose second sync fails: how often the hook was called, and what that sync
// answered, where the calls before it have not failed.
fn hooked_syncs(alloc: Global) -> Result<(u64, Result<(), Failed>), AllocError> {
    let fails = Items::from_vec([2u64].to_vec(alloc)?);
    let mut disk = HookDisk::new(MemDisk::new(alloc, fails), Count { times: 0 });
    let written = disk.write_at(0, b"ab");
    let synced = disk.sync();
    let again = disk.sync();
    let times = disk.hook().times;
    if written.is_err() || synced.is_err() {
        return Ok((times, Ok(())));
    }
    Ok((times, again))
}

/// `hooks`: how often a hook was called, and what the sync that failed answered.
pub fn add_hooks(alloc: Global, answer: &mut Answer) -> Result<(), AllocError> {
    let (times, outcome) = hooked_syncs(alloc)?;
    add_counted("hook called", times, answer);
    answer.push(",");
    add_outcome(outcome, answer);
    Ok(())
}
