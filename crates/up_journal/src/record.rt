//! The writes of one record, and of its gate.
ghost use Rattle.std.specs.Prelude.{◌≡◌, ◌⊎◌, ◌<◌, ◌≤◌, ◌+◌, ◌^◌, [], ◌∷◌, ℕ, List, length, Option, None, Some, is_some, option_map, IsErr, IsNone, IsSome, OnOk, OnErr};
ghost use Rattle.up_disk.specs.Disk.{LeavesOnly, written};
ghost use Rattle.up_journal.specs.Cells.{EachAsOne, EachShape, EachWhole, Rests, RestsAsOne, Stands};
ghost use Rattle.up_journal.specs.Format2.{head_size};
ghost use Rattle.up_lists.specs.Counts.{HasCause, StaysUnless};

use crate::format::{CLOSED, OPEN};
use up_disk::{Disk, Failed};

// Writes the gate of a record that stands whole behind it, and syncs.
fn set_gate<D: Disk>(disk: &mut D, gate: u64, byte: u8) -> Result<(), Failed>
    requires within { gate < D.size_of disk.old }
    requires end { gate < 2 ^ 62 }
    ensures size { D.size_of disk.new ≡ D.size_of disk.old }
    ensures told { is_some (D.content disk.new) ≡ is_some (D.content disk.old) }
    ensures content { OnOk result
        (D.content disk.new ≡ option_map (written gate (byte ∷ [])) (D.content disk.old)) }
    ensures cause { HasCause (D.faults disk.old) (D.faults disk.new) (IsErr result) }
    ensures quiet { StaysUnless (D.faults disk.old) (D.faults disk.new) (IsErr result) }
    ensures any_moment { (behind front : List ℕ) → length front ≡ gate
        → EachShape (Some behind) front (D.may_leave disk.old)
        → LeavesOnly D.moment D.left_since disk.old disk.new
        (Rests (D.content disk.old) (Some behind) front) }
    ensures set { OnOk result ((behind front : List ℕ) → length front ≡ gate
        → EachShape (Some behind) front (D.may_leave disk.old)
        → EachWhole byte behind front (D.may_leave disk.new)) }
{
    disk.write_at(gate, &[byte])?;
    disk.sync()
}

// Writes behind a closed gate, and syncs.
fn write_behind<D: Disk>(disk: &mut D, gate: u64, behind: &[u8]) -> Result<(), Failed>
    requires within { gate < D.size_of disk.old }
    requires end { gate + 1 + length behind.now ≤ 2 ^ 62 }
    ensures size { OnOk result (gate + 1 + length behind.now ≤ D.size_of disk.new) }
    ensures no_shorter { D.size_of disk.old ≤ D.size_of disk.new }
    ensures told { is_some (D.content disk.new) ≡ is_some (D.content disk.old) }
    ensures content { OnOk result
        (D.content disk.new ≡ option_map (written (gate + 1) behind.now) (D.content disk.old)) }
    ensures cause { HasCause (D.faults disk.old) (D.faults disk.new) (IsErr result) }
    ensures quiet { StaysUnless (D.faults disk.old) (D.faults disk.new) (IsErr result) }
    ensures any_moment { (front : List ℕ) → length front ≡ gate
        → EachShape None front (D.may_leave disk.old)
        → LeavesOnly D.moment D.left_since disk.old disk.new
        (Rests (D.content disk.old) None front) }
    ensures written { OnOk result ((front : List ℕ) → length front ≡ gate
        → EachShape None front (D.may_leave disk.old)
        → EachShape (Some behind.now) front (D.may_leave disk.new)) }
{
    disk.write_at(gate + 1, behind)?;
    disk.sync()
}

/// Closes the gate of a doubtful record.
pub fn settle<D: Disk>(disk: &mut D, gate: u64, doubtful: &mut Option<u64>) -> Result<(), Failed>
    requires within { gate < D.size_of disk.old }
    requires end { IsSome doubtful.old → gate < 2 ^ 62 }
    ensures size { D.size_of disk.new ≡ D.size_of disk.old }
    ensures told { is_some (D.content disk.new) ≡ is_some (D.content disk.old) }
    ensures content { OnOk result (IsSome doubtful.old
        → D.content disk.new ≡ option_map (written gate (0 ∷ [])) (D.content disk.old)) }
    ensures counts { HasCause (D.faults disk.old) (D.faults disk.new) (IsErr result) }
    ensures quiet { StaysUnless (D.faults disk.old) (D.faults disk.new) (IsErr result) }
    ensures settled { OnOk result (doubtful.new ≡ None) }
    ensures doubtful { OnErr result ((doubtful.new ≡ doubtful.old) × IsSome doubtful.old) }
    ensures untouched { IsNone doubtful.old → disk.new ≡ disk.old }
    ensures any_moment { (held : Option (List ℕ)) (front : List ℕ)
        → Stands held front gate doubtful.old (D.may_leave disk.old)
        → LeavesOnly D.moment D.left_since disk.old disk.new
        (Rests (D.content disk.old) held front) }
    ensures closed { OnOk result ((held : Option (List ℕ)) (front : List ℕ)
        → Stands held front gate doubtful.old (D.may_leave disk.old)
        → EachShape None front (D.may_leave disk.new)) }
{
    if doubtful.is_some() {
        set_gate(disk, gate, CLOSED)?;
        *doubtful = None;
    }
    Ok(())
}

/// Writes a record and a closed gate behind the closed gate, and then opens the gate, once a doubtful record is
/// settled. From the opening on until its sync has succeeded the record is doubtful.
pub fn write_record<D: Disk>(
    disk: &mut D,
    gate: u64,
    doubtful: &mut Option<u64>,
    behind: &[u8],
    size: u64,
) -> Result<(), Failed>
    requires within { gate < D.size_of disk.old }
    requires end { gate + 1 + length behind.now ≤ 2 ^ 62 }
    requires sized { length behind.now ≡ size + head_size }
    ensures size { OnOk result (gate + 1 + length behind.now ≤ D.size_of disk.new) }
    ensures no_shorter { D.size_of disk.old ≤ D.size_of disk.new }
    ensures told { is_some (D.content disk.new) ≡ is_some (D.content disk.old) }
    ensures content { OnOk result (D.content disk.new
        ≡ option_map (written gate (1 ∷ behind.now)) (D.content disk.old)) }
    ensures counts { HasCause (D.faults disk.old) (D.faults disk.new) (IsErr result) }
    ensures quiet { StaysUnless (D.faults disk.old) (D.faults disk.new) (IsErr result) }
    ensures settled { OnOk result (doubtful.new ≡ None) }
    ensures doubtful { OnErr result ((doubtful.new ≡ None) ⊎ ((doubtful.new ≡ doubtful.old)
        ⊎ ((doubtful.new ≡ Some size) × (gate + 1 + length behind.now ≤ D.size_of disk.new)))) }
    ensures any_moment { (held : Option (List ℕ)) (front : List ℕ)
        → Stands held front gate doubtful.old (D.may_leave disk.old)
        → LeavesOnly D.moment D.left_since disk.old disk.new
        (RestsAsOne (D.content disk.old) held behind.now front) }
    ensures written { OnOk result ((held : Option (List ℕ)) (front : List ℕ)
        → Stands held front gate doubtful.old (D.may_leave disk.old)
        → EachWhole 1 behind.now front (D.may_leave disk.new)) }
    ensures refused { OnErr result ((held : Option (List ℕ)) (front : List ℕ)
        → Stands held front gate doubtful.old (D.may_leave disk.old)
        → EachAsOne held behind.now front doubtful.new (D.may_leave disk.new)) }
{
    settle(disk, gate, doubtful)?;
    write_behind(disk, gate, behind)?;
    *doubtful = Some(size);
    set_gate(disk, gate, OPEN)?;
    *doubtful = None;
    Ok(())
}
