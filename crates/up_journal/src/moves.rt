//! A log is moved from a device of the first format to one of the second.
ghost use Rattle.std.specs.Prelude.{◌≡◌, ◌≢◌, ◌<◌, ℕ, Ok, Err, false, is_some, IfOk, IfSome, IsErr, IsErrOf};
ghost use Rattle.up_disk.specs.Disk.{LeavesOnly, Only};
ghost use Rattle.up_lists.specs.Counts.{HasCause, StaysUnless};
ghost use Rattle.up_journal.specs.Cells.{OnlyRead};
ghost use Rattle.up_journal.specs.Damages.{Damaged};
ghost use Rattle.up_journal.specs.Format1.{old_log_of};
ghost use Rattle.up_journal.specs.Format2.{format2};
ghost use Rattle.up_journal.specs.Gates.{has_name};
ghost use Rattle.up_journal.specs.Journal.{AreLimits};
ghost use Rattle.up_journal.specs.Moving.{HaveCause, IsCopied, IsMoving, IsOver, IsSyncedFirst, is_already};

use crate::fault::MoveWhy;
use crate::format::{FIRST_GATE, NAME};
use crate::image::{gathered, image_size};
use crate::limits::Limits;
use crate::old::old_spans;
use crate::read::read_name;
use crate::switch::write_image;
use std::alloc::Global;
use up_disk::{Disk, Failed};

/// What became of a log that was to be moved.
#[derive(Clone, Copy, Debug, PartialEq, Eq)]
pub enum Moved {
    /// The new device has a log of the second format already.
    Already,
    /// So many records were copied.
    Copied(u64),
}

/// Moves the log of a device of the first format to a device of the second, which is to be opened from then on. The
/// old device is synced, and never written. The new one is overwritten, unless it begins with the name of the second
/// format: its first byte, the switch, is written last, and once all else is synced. All memory is taken before the
/// new device is touched.
pub fn migrate<D: Disk>(
    alloc: Global,
    old: &mut D,
    new: &mut D,
    limits: Limits,
) -> Result<Moved, MoveWhy>
    requires { AreLimits limits }

    // What it answers: Already exactly where the new device begins with the name, but for a fault; else the old device's
    // log was copied, or is damaged there, or has so many records that keep the limits, and more.
    ensures already { result ≢ Err MoveWhy.Fault
        → IfSome (D.content new.old) (λ bytes. is_already result ≡ has_name format2 bytes) }
    ensures copied { (n : ℕ) → result ≡ Ok (Moved.Copied n)
        → IfSome (D.content old.old) (λ bytes. IsCopied D.Disk limits n bytes new.new) }
    ensures damaged { (place : ℕ) → result ≡ Err (MoveWhy.Old place)
        → IfSome (D.content old.old)
        (λ bytes. old_log_of limits.largest bytes ≡ Err (Damaged place)) }
    ensures full { (n : ℕ) → result ≡ Err (MoveWhy.Full n)
        → IfSome (D.content old.old) (IsOver limits n) }
    ensures counts { HaveCause (D.faults old.old) (D.faults old.new)
        (D.faults new.old) (D.faults new.new) (IsErrOf result MoveWhy.Fault) }
    ensures old_quiet { StaysUnless (D.faults old.old) (D.faults old.new)
        (IsErrOf result MoveWhy.Fault) }
    ensures new_quiet { StaysUnless (D.faults new.old) (D.faults new.new)
        (IsErrOf result MoveWhy.Fault) }

    // The old device stays as it is, and the new one where nothing was copied and no disk failed.
    ensures old_stays { OnlyRead D.Disk old.old old.new }
    ensures new_stays { ((n : ℕ) → result ≢ Ok (Moved.Copied n)) → result ≢ Err MoveWhy.Fault
        → OnlyRead D.Disk new.old new.new }
    ensures told { is_some (D.content new.new) ≡ is_some (D.content new.old) }

    // A crash at any moment. The old device is settled before the new one is written. The new one, with nothing pending
    // and another beginning at first, begins with the name only once it has the old one's log.
    ensures synced { IsSyncedFirst D.Disk old.old old.new new.old new.new result }
    ensures crash { Only (D.content new.old) (D.may_leave new.old)
        → IfSome (D.content new.old) (λ bytes. has_name format2 bytes ≡ false)
        → LeavesOnly D.moment D.left_since new.old new.new
        (IsMoving limits.largest (D.content old.old)) }
{
    if is_begun(new)? {
        return Ok(Moved::Already);
    }
    old.sync()?;
    copy(alloc, old, new, limits)
}

// Whether a device begins with the name of the second format.
fn is_begun<D: Disk>(disk: &mut D) -> Result<bool, Failed>
    ensures begun { IfOk result (λ begun. IfSome (D.content disk.old)
        (λ bytes. begun ≡ has_name format2 bytes)) }
    ensures read { OnlyRead D.Disk disk.old disk.new }
    ensures counts { HasCause (D.faults disk.old) (D.faults disk.new) (IsErr result) }
    ensures quiet { StaysUnless (D.faults disk.old) (D.faults disk.new) (IsErr result) }
{
    if disk.size() < FIRST_GATE {
        return Ok(false);
    }
    let name = read_name(disk)?;
    Ok(name.as_slice() == NAME.as_slice())
}

// Copies the log of a device that was synced to one that begins with another name.
fn copy<D: Disk>(alloc: Global, old: &mut D, new: &mut D, limits: Limits) -> Result<Moved, MoveWhy>
    requires { AreLimits limits }
    ensures not_already { result ≢ Ok Moved.Already }
    ensures copied { (n : ℕ) → result ≡ Ok (Moved.Copied n)
        → IfSome (D.content old.old) (λ bytes. IsCopied D.Disk limits n bytes new.new) }
    ensures damaged { (place : ℕ) → result ≡ Err (MoveWhy.Old place)
        → IfSome (D.content old.old)
        (λ bytes. old_log_of limits.largest bytes ≡ Err (Damaged place)) }
    ensures full { (n : ℕ) → result ≡ Err (MoveWhy.Full n)
        → IfSome (D.content old.old) (IsOver limits n) }
    ensures counts { HaveCause (D.faults old.old) (D.faults old.new)
        (D.faults new.old) (D.faults new.new) (IsErrOf result MoveWhy.Fault) }
    ensures old_quiet { StaysUnless (D.faults old.old) (D.faults old.new)
        (IsErrOf result MoveWhy.Fault) }
    ensures new_quiet { StaysUnless (D.faults new.old) (D.faults new.new)
        (IsErrOf result MoveWhy.Fault) }
    ensures old_stays { OnlyRead D.Disk old.old old.new }
    ensures new_stays { ((n : ℕ) → result ≢ Ok (Moved.Copied n)) → result ≢ Err MoveWhy.Fault
        → new.new ≡ new.old }
    ensures told { is_some (D.content new.new) ≡ is_some (D.content new.old) }
    ensures crash { Only (D.content new.old) (D.may_leave new.old)
        → IfSome (D.content new.old) (λ bytes. has_name format2 bytes ≡ false)
        → LeavesOnly D.moment D.left_since new.old new.new
        (IsMoving limits.largest (D.content old.old)) }
{
    let spans = old_spans(alloc, old, limits.largest)?;
    let size = match image_size(limits, &spans) {
        Ok(size) => size,
        Err(records) => return Err(MoveWhy::Full(records)),
    };
    let image = gathered(alloc, old, &spans, size)?;
    write_image(new, &image)?;
    Ok(Moved::Copied(spans.len() as u64))
}
