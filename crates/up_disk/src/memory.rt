//! A disk in memory. It keeps what it had at first and each call, so that it knows what a crash may leave.
ghost use Rattle.std.specs.Prelude.{◌≡◌, ◌<◌, ◌≤◌, ◌-◌, ◌⊎◌, true, length, vec_len, vec_capacity, OnOk, OnErr};
ghost use Rattle.up_lists.specs.Calls.{IsCalled, fails_next};
ghost use Rattle.up_disk.specs.Pending.{content_after, synced_calls};

use crate::call::{Call, Written};
use crate::disk::Disk;
use crate::fault::Failed;
use crate::landing::{copy_of, land_all, landing, overwrite, redo_all};
use std::alloc::{AllocError, Global};
use up_lists::{Calls, Items};

/// A disk in memory, which tells its content. The calls whose numbers are listed fail, and so does one that finds no
/// memory; a write that is listed leaves the front half of its bytes, and any other call that fails changes nothing.
#[derive(Debug, Drop)]
pub struct MemDisk {
    first: Items<u8>,
    calls: Vec<Call>,
    // how many of the calls there are up to the last sync
    synced: usize,
    bytes: Vec<u8>,
    plan: Calls,
    ghost kept: { bytes.items ≡ content_after first calls.items },
    ghost counted: { synced ≡ synced_calls calls.items },
    ghost within: { synced ≤ length calls.items },
}

impl MemDisk {
    ghost use Rattle.std.specs.Prelude.{◌≡◌, ◌≤◌, ◌+◌, ◌^◌, [], Some, IfOk, OnOk, OnErr, length, take};
    ghost use Rattle.up_lists.specs.Calls.{no_call_made};
    ghost use Rattle.up_disk.specs.Disk.{Follows, Only, TimePasses, Torn, written};
    ghost use Rattle.up_disk.specs.Memory.{content_of, image_of, left_since_of, may_leave_of, moment_of, plan_of, IsUntouched, IsWritten};

    /// An empty disk. `fails` has the numbers of the calls that fail: all calls of [`Disk`] but `size` count, from 0,
    /// failed ones too.
    pub fn new(alloc: Global, fails: Items<u64>) -> MemDisk
        ensures empty { content_of result ≡ Some [] }
        ensures settled { Only (content_of result) (may_leave_of result) }
        ensures plan { plan_of result ≡ no_call_made fails }
    {
        MemDisk::settled(Items::new(alloc), Vec::new(alloc), fails)
    }

    // A disk with these bytes, all of them synced.
    fn settled(first: Items<u8>, bytes: Vec<u8>, fails: Items<u64>) -> MemDisk
        requires { first ≡ bytes.items }
        ensures content { content_of result ≡ Some bytes.items }
        ensures settled { Only (content_of result) (may_leave_of result) }
        ensures plan { plan_of result ≡ no_call_made fails }
    {
        MemDisk {
            calls: Vec::new(first.allocator()),
            synced: 0,
            bytes,
            plan: Calls::new(fails),
            first,
        }
    }

    /// The disk that a crash now may leave, by the choice modulo 8. Of the calls since the last sync have landed: 0,
    /// nothing; 1, all; 2, of each write the front half of its bytes; 3, the back half; 4, bytes 01 in place of those
    /// written; 5, bytes FF; 6, what lies within the old size; 7, the greatest size and no byte written, with 00
    /// behind the old size. A cut has happened but in 0, 6 and 7. All is synced, and no call fails.
    pub fn image(&self, choice: u64) -> Result<MemDisk, AllocError>
        ensures image { IfOk result (λ image. content_of image ≡ Some (image_of self.now choice)) }
        ensures possible { IfOk result (λ _. may_leave_of self.now (image_of self.now choice)) }
        ensures settled { IfOk result (λ image. Only (content_of image) (may_leave_of image)) }
        ensures plan { IfOk result (λ image. plan_of image ≡ no_call_made []) }
    {
        let alloc = *self.bytes.allocator();
        let mut image = copy_of(alloc, self.first.as_slice())?.into_vec();
        let (synced, pending) = self.calls.as_slice().split_at(self.synced);
        redo_all(&mut image, synced)?;
        land_all(&mut image, landing(choice), pending)?;
        let first = copy_of(alloc, &image)?;
        Ok(MemDisk::settled(first, image, Items::new(alloc)))
    }

    // Writes, and notes the whole write where only the front of it has landed. An `Err` changes nothing.
    fn write(&mut self, at: u64, bytes: &[u8], landed: usize) -> Result<(), AllocError>
        requires within { at ≤ length self.old.bytes.items }
        requires end { at + length bytes.now ≤ 2 ^ 62 }
        requires part { landed ≤ length bytes.now }
        ensures ok { OnOk result
            (self.new.bytes.items ≡ written at (take landed bytes.now) self.old.bytes.items) }
        ensures torn { Torn at (length bytes.now) self.old.bytes.items self.new.bytes.items }
        ensures lands { OnOk result (IsWritten at bytes.now landed self.old self.new) }
        ensures untouched { OnErr result (IsUntouched self.old self.new) }
        ensures crash { Follows (Torn at (length bytes.now))
            (may_leave_of self.old) (may_leave_of self.new) }
        ensures time { TimePasses moment_of left_since_of may_leave_of self.old self.new }
        ensures err { OnErr result (self.new.bytes.items ≡ self.old.bytes.items) }
        ensures plan { self.new.plan ≡ self.old.plan }
    {
        self.calls.reserve(1)?;
        let whole = copy_of(*self.bytes.allocator(), bytes)?;
        overwrite(&mut self.bytes, at as usize, &bytes[..landed])?;
        self.calls.push_reserved(Call::Write(Written {
            at,
            bytes: whole,
            landed: landed as u64,
        }));
        Ok(())
    }
}

impl Disk for MemDisk {
    ghost use Rattle.std.specs.Prelude.{◌≤◌, ◌+◌, ◌^◌, length, refl};
    ghost use Rattle.up_disk.specs.Memory.{content_of, faults_of, left_since_of, length_of, may_leave_of, moment_of};
    ghost use Rattle.up_disk.specs.MemoryCalls.{IsCutTo, IsReadFrom, IsSyncedTo, IsWrittenTo};
    ghost use Rattle.up_disk.specs.MemoryLaws.{leaves_bytes, now_only, since_now};

    ghost content = { content_of };

    ghost size_of = { length_of };

    ghost may_leave = { may_leave_of };

    ghost moment = { moment_of };

    ghost left_since = { left_since_of };

    ghost faults = { faults_of };

    ghost sized = { λ disk. refl };

    ghost told = { λ disk image left. refl };

    ghost leaves_read = { λ disk.
        leaves_bytes disk.first disk.bytes.items disk.calls.items disk.kept };

    ghost counts_now = { λ disk t image le left.
        since_now disk.first disk.calls.items t image le left };

    ghost only_now = { λ disk image left. now_only disk.first disk.calls.items image left };

    fn size(&self) -> u64 {
        self.bytes.len() as u64
    }

    /// It fails where its number is listed, and only there.
    fn read(&mut self, at: u64, buf: &mut [u8]) -> Result<(), Failed>
        requires { at + length buf.old ≤ length_of self.old }
        ensures { IsReadFrom at buf.old buf.new result self.old self.new }
    {
        if self.plan.next_fails() {
            return Err(Failed);
        }
        let at = at as usize;
        buf.copy_from_slice(&self.bytes[at..at + buf.len()]);
        Ok(())
    }

    /// Where its number is listed, or there is no memory, it fails. In the first case the front half of its bytes
    /// has landed, if there was memory for the note of it, and in the second nothing.
    fn write_at(&mut self, at: u64, bytes: &[u8]) -> Result<(), Failed>
        requires within { at ≤ length_of self.old }
        requires end { at + length bytes.now ≤ 2 ^ 62 }
        ensures { IsWrittenTo at bytes.now result self.old self.new }
    {
        // Memory is asked for before the call is counted.
        if self.plan.fails_next() {
            let _ = self.write(at, bytes, bytes.len() / 2);
            self.plan.count(true);
            return Err(Failed);
        }
        let failed = self.write(at, bytes, bytes.len()).is_err();
        self.plan.count(failed);
        if failed { Err(Failed) } else { Ok(()) }
    }

    /// Where its number is listed, or there is no memory for a list of calls that has to grow, it fails and has not
    /// happened.
    fn cut(&mut self, size: u64) -> Result<(), Failed>
        requires { size ≤ length_of self.old }
        ensures { IsCutTo size result self.old self.new }
    {
        begin(&mut self.plan, &mut self.calls)?;
        self.bytes.truncate(size as usize);
        self.calls.push_reserved(Call::Cut(size));
        Ok(())
    }

    /// Where its number is listed, or there is no memory for a list of calls that has to grow, it fails and has not
    /// happened.
    fn sync(&mut self) -> Result<(), Failed>
        ensures { IsSyncedTo result self.old self.new }
    {
        begin(&mut self.plan, &mut self.calls)?;
        self.calls.push_reserved(Call::Sync);
        self.synced = self.calls.len();
        Ok(())
    }
}

// Counts a call that is to be noted. It fails where it is listed, or where there is no memory for the note.
fn begin(plan: &mut Calls, calls: &mut Vec<Call>) -> Result<(), Failed>
    ensures called { IsCalled plan.old plan.new result }
    ensures only { OnErr result ((fails_next plan.old ≡ true)
        ⊎ (vec_capacity calls.old - vec_len calls.old ≡ 0)) }
    ensures items { calls.new.items ≡ calls.old.items }
    ensures room { OnOk result (vec_len calls.new < vec_capacity calls.new) }
{
    let fails = plan.fails_next() || calls.reserve(1).is_err();
    plan.count(fails);
    if fails { Err(Failed) } else { Ok(()) }
}
