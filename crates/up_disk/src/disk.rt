//! A disk: what a read gives, and what a crash may leave.
ghost use Rattle.std.specs.Prelude.{◌≡◌, ◌≤◌, ◌+◌, ◌^◌, ℕ, max, List, length, take, Option, option_map, IfSome, IsSome, IsErr, OnOk, OnErr};
ghost use Rattle.up_lists.specs.Counts.{HasCause, StaysUnless};
ghost use Rattle.up_disk.specs.Disk.{CutShort, Follows, Only, Steps, TimePasses, Torn, part, written};

use crate::fault::Failed;

/// A disk holds bytes. A call that fails raises the count of faults, which stays at 2^64 - 1.
///
/// Between two syncs each range that was written, and the part past the old size, may hold any bytes after a
/// crash, and the size may be any between; a cut may have happened or not; all other bytes stay. After a sync
/// that succeeds a crash leaves what a read gives.
pub trait Disk {
    /// The bytes that a read gives, where the disk tells them. One that tells nothing has no images either.
    ghost content: { Self → Option (List ℕ) };

    /// The number of bytes, which every disk tells.
    ghost size_of: { Self → ℕ };

    /// What a crash at this moment may leave.
    ghost may_leave: { Self → List ℕ → Type 0 };

    /// The moment, as a number that does not fall.
    ghost moment: { Self → ℕ };

    /// What a crash at some moment from that one on might have left, during a call or between two.
    ghost left_since: { Self → ℕ → List ℕ → Type 0 };

    /// A count of faults, which never falls and rises in each call that fails. At 2^64 - 1 it stays.
    ghost faults: { Self → ℕ };

    /// The number of bytes.
    fn size(&self) -> u64
        ensures { result ≡ size_of self.now };

    /// Reads the bytes at `at`, as many as the buffer has. The range lies within the size. What a crash may leave stays.
    fn read(&mut self, at: u64, buf: &mut [u8]) -> Result<(), Failed>
        requires { at + length buf.old ≤ size_of self.old }
        ensures bytes { OnOk result (IfSome (content self.old)
            (λ bytes. buf.new ≡ part at (length buf.old) bytes)) }
        ensures content { content self.new ≡ content self.old }
        ensures size { size_of self.new ≡ size_of self.old }
        ensures crash { (image : List ℕ) → may_leave self.new image → may_leave self.old image }
        ensures keeps { (image : List ℕ) → may_leave self.old image → may_leave self.new image }
        ensures time { TimePasses moment left_since may_leave self.old self.new }
        ensures cause { HasCause (faults self.old) (faults self.new) (IsErr result) }
        ensures quiet { StaysUnless (faults self.old) (faults self.new) (IsErr result) };

    /// Writes over what is there, and past the end. `at` is at most the size, and the end at most 2^62. A write
    /// that fails leaves any bytes in its range.
    fn write_at(&mut self, at: u64, bytes: &[u8]) -> Result<(), Failed>
        requires within { at ≤ size_of self.old }
        requires end { at + length bytes.now ≤ 2 ^ 62 }
        ensures written { OnOk result
            (content self.new ≡ option_map (written at bytes.now) (content self.old)) }
        ensures failed { OnErr result
            (Steps (Torn at (length bytes.now)) (content self.old) (content self.new)) }
        ensures size { OnOk result
            (size_of self.new ≡ max (size_of self.old) (at + length bytes.now)) }
        ensures no_shorter { size_of self.old ≤ size_of self.new }
        ensures no_longer { size_of self.new ≤ max (size_of self.old) (at + length bytes.now) }
        ensures crash { Follows (Torn at (length bytes.now))
            (may_leave self.old) (may_leave self.new) }
        ensures time { TimePasses moment left_since may_leave self.old self.new }
        ensures cause { HasCause (faults self.old) (faults self.new) (IsErr result) }
        ensures quiet { StaysUnless (faults self.old) (faults self.new) (IsErr result) };

    /// Cuts the disk to a size, which is at most the one that it has. A cut that fails may have happened or not.
    fn cut(&mut self, size: u64) -> Result<(), Failed>
        requires { size ≤ size_of self.old }
        ensures cut { OnOk result (content self.new ≡ option_map (take size) (content self.old)) }
        ensures failed { OnErr result
            (Steps (CutShort size) (content self.old) (content self.new)) }
        ensures size { OnOk result (size_of self.new ≡ size) }
        ensures no_shorter { size ≤ size_of self.new }
        ensures no_longer { size_of self.new ≤ size_of self.old }
        ensures crash { Follows (CutShort size) (may_leave self.old) (may_leave self.new) }
        ensures time { TimePasses moment left_since may_leave self.old self.new }
        ensures cause { HasCause (faults self.old) (faults self.new) (IsErr result) }
        ensures quiet { StaysUnless (faults self.old) (faults self.new) (IsErr result) };

    /// After it has succeeded, a crash leaves what a read gives.
    fn sync(&mut self) -> Result<(), Failed>
        ensures durable { OnOk result (Only (content self.new) (may_leave self.new)) }
        ensures content { content self.new ≡ content self.old }
        ensures size { size_of self.new ≡ size_of self.old }
        ensures crash { (image : List ℕ) → may_leave self.new image → may_leave self.old image }
        ensures time { TimePasses moment left_since may_leave self.old self.new }
        ensures cause { HasCause (faults self.old) (faults self.new) (IsErr result) }
        ensures quiet { StaysUnless (faults self.old) (faults self.new) (IsErr result) };

    /// The size is that of the bytes.
    ghost sized: { (disk : Self) → IfSome (content disk) (λ bytes. length bytes ≡ size_of disk) };

    /// A disk that tells images tells its content.
    ghost told: { (disk : Self) (image : List ℕ) → may_leave disk image → IsSome (content disk) };

    /// What a read gives is one of the images.
    ghost leaves_read: { (disk : Self) → IfSome (content disk) (may_leave disk) };

    /// This moment is one of those since an earlier one.
    ghost counts_now: { (disk : Self) (t : ℕ) (image : List ℕ) →
        t ≤ moment disk → may_leave disk image → left_since disk t image };

    /// Since this moment there is no other.
    ghost only_now: { (disk : Self) (image : List ℕ) →
        left_since disk (moment disk) image → may_leave disk image };
}
