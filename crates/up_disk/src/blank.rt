//! Disks in memory.
ghost use Rattle.std.specs.Prelude.{◌≡◌, ℕ, length, slice_get, IfOk, IfSome};
ghost use Rattle.std.specs.List.{AllByRecursion};
ghost use Rattle.up_lists.specs.Calls.{no_call_made};
ghost use Rattle.up_disk.specs.Leaving.{IsBlank};
ghost use Rattle.up_disk.specs.Memory.{plan_of};
ghost use Rattle.up_disk.specs.Planned.{fails_at};

use crate::disk::Disk;
use crate::disks::Disks;
use crate::memory::MemDisk;
use std::alloc::{AllocError, Global};
use up_lists::Items;

/// How many disks the hosts of a script may take.
const DISKS: u64 = 80;

/// A call of a disk that is to fail.
#[derive(Clone, Copy, Debug)]
pub struct DiskFault {
    /// The place of the disk, from 0.
    pub disk: u64,
    /// The number of the call, from 0. All calls of a disk but `size` count.
    pub call: u64,
}

/// 80 disks in memory, all of them empty and with nothing pending, of which exactly these calls are listed to fail.
#[tactic(auto, using(crate::proofs::BlankLemmas::all_more))]
pub fn blank_disks(alloc: Global, faults: &[DiskFault]) -> Result<Disks<MemDisk>, AllocError>
    ensures eighty { IfOk result (λ disks. length disks.disks ≡ 80) }
    ensures blank { IfOk result (λ disks.
        AllByRecursion (IsBlank ⟦<MemDisk as Disk>⟧) disks.disks) }
    ensures plans { IfOk result (λ disks. (place : ℕ) → IfSome (slice_get disks.disks place)
        (λ disk. plan_of disk ≡ no_call_made (fails_at place faults.now))) }
{
    let mut disks = Disks::new(alloc);
    for place in 0..DISKS {
        disks.push(blank_disk(alloc, faults, place)?)?;
    }
    Ok(disks)
}

// The disk at a place.
fn blank_disk(alloc: Global, faults: &[DiskFault], place: u64) -> Result<MemDisk, AllocError>
    ensures blank { IfOk result (λ disk. IsBlank ⟦<MemDisk as Disk>⟧ disk) }
    ensures plan { IfOk result (λ disk. plan_of disk ≡ no_call_made (fails_at place faults.now)) }
{
    Ok(MemDisk::new(alloc, fails_of(alloc, faults, place)?))
}

// The numbers of the calls that fail at a place.
fn fails_of(alloc: Global, faults: &[DiskFault], place: u64) -> Result<Items<u64>, AllocError>
    ensures { IfOk result (λ fails. fails ≡ fails_at place faults.now) }
{
    let mut fails = Items::new(alloc);
    for fault in faults {
        if fault.disk == place {
            fails.push(fault.call)?;
        }
    }
    Ok(fails)
}
