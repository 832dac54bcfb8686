//! Disks in memory, of which one may wait in each sync.
ghost use Rattle.std.specs.Prelude.{◌≡◌, ◌+◌, length, IfOk, OnOk};

use crate::waits::WaitsInSync;
use std::alloc::{AllocError, Global};
use std::sync::atomic::AtomicU64;
use up_disk::{Disks, HookDisk, MemDisk};
use up_lists::Items;

pub type HostDisk<'a> = HookDisk<WaitsInSync<'a>>;

/// Empty disks, of two trees, a store and keys. That of the first tree waits in each sync while the first flag is armed, the others while
/// the second one is.
pub fn empty_disks<'a>(
    alloc: Global,
    first: &'a AtomicU64,
    others: &'a AtomicU64,
) -> Result<Disks<HostDisk<'a>>, AllocError>
    ensures { IfOk result (λ disks. length disks.disks ≡ 4) }
{
    let mut disks = Disks::new(alloc);
    add_disk(alloc, &mut disks, first)?;
    add_disk(alloc, &mut disks, others)?;
    add_disk(alloc, &mut disks, others)?;
    add_disk(alloc, &mut disks, others)?;
    Ok(disks)
}

fn add_disk<'a>(
    alloc: Global,
    disks: &mut Disks<HostDisk<'a>>,
    flag: &'a AtomicU64,
) -> Result<(), AllocError>
    ensures { OnOk result (length disks.new.disks ≡ length disks.old.disks + 1) }
{
    let disk = MemDisk::new(alloc, Items::new(alloc));
    disks.push(HookDisk::new(disk, WaitsInSync { flag }))?;
    Ok(())
}
