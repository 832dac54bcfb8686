//! A disk in memory that calls a hook before each sync.
ghost use Rattle.std.specs.Prelude.{◌≡◌};
ghost use Rattle.up_disk.specs.declared.memory.MemDisk.{MemDisk as Disks};

use crate::disk::Disk;
use crate::fault::Failed;
use crate::memory::MemDisk;
use std::alloc::AllocError;

/// What is done before each sync.
pub trait Hook {
    /// Whether being handed a disk leads from one state to the other. A hook that tells nothing allows all.
    ghost handed: { Self → Disks → Self → Type 0 };

    /// Is handed the disk as it stands before a sync.
    fn before_sync(&mut self, disk: &MemDisk)
        ensures { handed self.old disk.now self.new };
}

/// A disk in memory that calls its hook once in each sync, also in one that fails, and in no other call: before the disk
/// is synced, with the disk as it stands then. In all else it is that disk.
#[derive(Drop)]
pub struct HookDisk<H: Hook> {
    disk: MemDisk,
    hook: H,
}

impl<H: Hook> HookDisk<H> {
    ghost use Rattle.std.specs.Prelude.{Some, [], IfOk};
    ghost use Rattle.up_lists.specs.Calls.{no_call_made};
    ghost use Rattle.up_disk.specs.Disk.{Only};
    ghost use Rattle.up_disk.specs.Hooked.{disk_of, hook_of};
    ghost use Rattle.up_disk.specs.Memory.{content_of, image_of, may_leave_of, plan_of};

    /// The disk with the hook.
    pub fn new(disk: MemDisk, hook: H) -> HookDisk<H>
        ensures disk { disk_of result ≡ disk }
        ensures hook { hook_of result ≡ hook }
    {
        HookDisk { disk, hook }
    }

    /// The hook.
    pub fn hook(&self) -> &H
        ensures { result.now ≡ hook_of self.now }
    {
        &self.hook
    }

    /// The disk that a crash now may leave, as [`MemDisk::image`] gives it.
    pub fn image(&self, choice: u64) -> Result<MemDisk, AllocError>
        ensures image { IfOk result (λ image.
            content_of image ≡ Some (image_of (disk_of self.now) choice)) }
        ensures settled { IfOk result (λ image. Only (content_of image) (may_leave_of image)) }
        ensures plan { IfOk result (λ image. plan_of image ≡ no_call_made []) }
    {
        self.disk.image(choice)
    }
}

impl<H: Hook> Disk for HookDisk<H> {
    ghost use Rattle.std.specs.Prelude.{◌≤◌, ◌+◌, ◌^◌, length, refl};
    ghost use Rattle.up_disk.specs.Hooked.{disk_of, hook_of};
    ghost use Rattle.up_disk.specs.MemoryCalls.{IsCutTo, IsReadFrom, IsSyncedTo, IsWrittenTo};
    ghost use Rattle.up_disk.specs.Memory.{content_of, faults_of, left_since_of, length_of, may_leave_of, moment_of};
    ghost use Rattle.up_disk.specs.MemoryLaws.{leaves_bytes, now_only, since_now};

    ghost content = { λ hooked. content_of (disk_of hooked) };

    ghost size_of = { λ hooked. length_of (disk_of hooked) };

    ghost may_leave = { λ hooked. may_leave_of (disk_of hooked) };

    ghost moment = { λ hooked. moment_of (disk_of hooked) };

    ghost left_since = { λ hooked. left_since_of (disk_of hooked) };

    ghost faults = { λ hooked. faults_of (disk_of hooked) };

    ghost sized = { λ hooked. refl };

    ghost told = { λ disk image left. refl };

    ghost leaves_read = { λ hooked. leaves_bytes hooked.disk.first
        hooked.disk.bytes.items hooked.disk.calls.items hooked.disk.kept };

    ghost counts_now = { λ hooked t image le left.
        since_now hooked.disk.first hooked.disk.calls.items t image le left };

    ghost only_now = { λ hooked image left.
        now_only hooked.disk.first hooked.disk.calls.items image left };

    fn size(&self) -> u64 {
        self.disk.size()
    }

    fn read(&mut self, at: u64, buf: &mut [u8]) -> Result<(), Failed>
        requires { at + length buf.old ≤ length_of (disk_of self.old) }
        ensures disk { IsReadFrom at buf.old buf.new result (disk_of self.old) (disk_of self.new) }
        ensures hook { hook_of self.new ≡ hook_of self.old }
    {
        self.disk.read(at, buf)
    }

    fn write_at(&mut self, at: u64, bytes: &[u8]) -> Result<(), Failed>
        requires within { at ≤ length_of (disk_of self.old) }
        requires end { at + length bytes.now ≤ 2 ^ 62 }
        ensures disk { IsWrittenTo at bytes.now result (disk_of self.old) (disk_of self.new) }
        ensures hook { hook_of self.new ≡ hook_of self.old }
    {
        self.disk.write_at(at, bytes)
    }

    fn cut(&mut self, size: u64) -> Result<(), Failed>
        requires { size ≤ length_of (disk_of self.old) }
        ensures disk { IsCutTo size result (disk_of self.old) (disk_of self.new) }
        ensures hook { hook_of self.new ≡ hook_of self.old }
    {
        self.disk.cut(size)
    }

    fn sync(&mut self) -> Result<(), Failed>
        ensures disk { IsSyncedTo result (disk_of self.old) (disk_of self.new) }
        // The hook is called once, with the disk as it was before the sync.
        ensures hook { H.handed (hook_of self.old) (disk_of self.old) (hook_of self.new) }
    {
        self.hook.before_sync(&self.disk);
        self.disk.sync()
    }
}
