//! The writes of a whole image, of which the first byte is the switch.
ghost use Rattle.std.specs.Prelude.{◌≡◌, ◌≤◌, ◌+◌, ◌^◌, false, is_some, length, max, take, option_map, IfSome, IsErr, OnOk};
ghost use Rattle.up_disk.specs.Disk.{CutShort, LeavesOnly, Only, Torn, written};
ghost use Rattle.up_lists.specs.Counts.{HasCause, StaysUnless};
ghost use Rattle.up_journal.specs.Format2.{format2};
ghost use Rattle.up_journal.specs.Gates.{first_gate, has_name};
ghost use Rattle.up_journal.specs.Moving.{IsSwitched, MayStep};

use crate::format::CLOSED;
use up_disk::{Disk, Failed};

/// Writes an image with the name of the second format over all that a device has: it is emptied, a byte 00 stands first
/// while all behind it is written, and then the first byte is written.
pub fn write_image<D: Disk>(disk: &mut D, image: &[u8]) -> Result<(), Failed>
    requires named { take first_gate image.now ≡ format2.name }
    requires small { length image.now ≤ 2 ^ 62 }
    ensures content { OnOk result (IfSome (D.content disk.new) (λ bytes. bytes ≡ image.now)) }
    ensures durable { OnOk result (Only (D.content disk.new) (D.may_leave disk.new)) }
    ensures told { is_some (D.content disk.new) ≡ is_some (D.content disk.old) }
    ensures counts { HasCause (D.faults disk.old) (D.faults disk.new) (IsErr result) }
    ensures quiet { StaysUnless (D.faults disk.old) (D.faults disk.new) (IsErr result) }
    ensures any_moment { Only (D.content disk.old) (D.may_leave disk.old)
        → IfSome (D.content disk.old) (λ bytes. has_name format2 bytes ≡ false)
        → LeavesOnly D.moment D.left_since disk.old disk.new (IsSwitched image.now) }
{
    empty(disk)?;
    write(disk, 0, &[CLOSED])?;
    write(disk, 1, &image[1..])?;
    write(disk, 0, &image[..1])
}

// Cuts to nothing, and syncs.
fn empty<D: Disk>(disk: &mut D) -> Result<(), Failed>
    ensures content { OnOk result (D.content disk.new ≡ option_map (take 0) (D.content disk.old)) }
    ensures size { OnOk result (D.size_of disk.new ≡ 0) }
    ensures durable { OnOk result (Only (D.content disk.new) (D.may_leave disk.new)) }
    ensures told { is_some (D.content disk.new) ≡ is_some (D.content disk.old) }
    ensures counts { HasCause (D.faults disk.old) (D.faults disk.new) (IsErr result) }
    ensures quiet { StaysUnless (D.faults disk.old) (D.faults disk.new) (IsErr result) }
    ensures any_moment { LeavesOnly D.moment D.left_since disk.old disk.new
        (MayStep (CutShort 0) (D.may_leave disk.old)) }
{
    disk.cut(0)?;
    disk.sync()
}

// Writes, and syncs.
fn write<D: Disk>(disk: &mut D, at: u64, bytes: &[u8]) -> Result<(), Failed>
    requires within { at ≤ D.size_of disk.old }
    requires end { at + length bytes.now ≤ 2 ^ 62 }
    ensures content { OnOk result
        (D.content disk.new ≡ option_map (written at bytes.now) (D.content disk.old)) }
    ensures size { OnOk result
        (D.size_of disk.new ≡ max (D.size_of disk.old) (at + length bytes.now)) }
    ensures durable { OnOk result (Only (D.content disk.new) (D.may_leave disk.new)) }
    ensures told { is_some (D.content disk.new) ≡ is_some (D.content disk.old) }
    ensures counts { HasCause (D.faults disk.old) (D.faults disk.new) (IsErr result) }
    ensures quiet { StaysUnless (D.faults disk.old) (D.faults disk.new) (IsErr result) }
    ensures any_moment { LeavesOnly D.moment D.left_since disk.old disk.new
        (MayStep (Torn at (length bytes.now)) (D.may_leave disk.old)) }
{
    disk.write_at(at, bytes)?;
    disk.sync()
}
