//! What stands on a device of the first format.
ghost use Rattle.std.specs.Prelude.{◌≡◌, ◌<◌, ◌≤◌, ◌^◌, ◌+◌, ℕ, [], Err, Ok, true, false, drop, IfOk, IfSome, IsErrOf, OnOk};
ghost use Rattle.std.specs.List.{AllByRecursion};
ghost use Rattle.up_lists.specs.Counts.{HasCause, StaysUnless};
ghost use Rattle.up_journal.specs.Cells.{OnlyRead};
ghost use Rattle.up_journal.specs.Damages.{Damaged};
ghost use Rattle.up_journal.specs.Format1.{format1, old_log_of};
ghost use Rattle.up_journal.specs.Gates.{has_name, is_open, new_size};
ghost use Rattle.up_journal.specs.Kept.{AreGates, EndsBy, log_seen, sizes_of};
ghost use Rattle.up_journal.specs.Moving.{IsOldLogOf};

use crate::fault::MoveWhy;
use crate::format::{FIRST_GATE, NEW, OLD_HEAD, OLD_NAME};
use crate::limits::Span;
use crate::read::{Gate, read_gate, read_name};
use std::alloc::Global;
use up_disk::Disk;

// The records that were found so far, and the place of the gate behind them.
#[derive(Drop)]
struct OldFound {
    spans: Vec<Span>,
    gate: u64,
}

/// The places of the payloads of the log. A device of at most 9 bytes is new, and has none.
pub fn old_spans<D: Disk>(alloc: Global, disk: &mut D, largest: u64) -> Result<Vec<Span>, MoveWhy>
    requires { largest < 2 ^ 32 }
    ensures log { IfOk result (λ spans. IsOldLogOf largest (D.content disk.old)
        (log_seen (D.content disk.old) spans.items)) }
    ensures within { IfOk result (λ spans.
        AllByRecursion (EndsBy (D.size_of disk.old)) spans.items) }
    ensures fitting { IfOk result (λ spans.
        AllByRecursion (λ size. size ≤ largest) (sizes_of spans.items)) }
    ensures damaged { (place : ℕ) → result ≡ Err (MoveWhy.Old place) → IfSome (D.content disk.old)
        (λ bytes. old_log_of largest bytes ≡ Err (Damaged place)) }
    ensures not_full { (n : ℕ) → result ≡ Err (MoveWhy.Full n) → ⊥ }
    ensures read { OnlyRead D.Disk disk.old disk.new }
    ensures counts { HasCause (D.faults disk.old) (D.faults disk.new)
        (IsErrOf result MoveWhy.Fault) }
    ensures quiet { StaysUnless (D.faults disk.old) (D.faults disk.new)
        (IsErrOf result MoveWhy.Fault) }
{
    let device = disk.size();
    if device <= NEW.len() as u64 {
        return Ok(Vec::new(alloc));
    }
    let name = read_name(disk)?;
    if name.as_slice() != OLD_NAME.as_slice() {
        return Err(MoveWhy::Old(0));
    }
    read_old_gates(alloc, disk, device, largest)
}

// Reads the gates up to the first closed one.
fn read_old_gates<D: Disk>(
    alloc: Global,
    disk: &mut D,
    device: u64,
    largest: u64,
) -> Result<Vec<Span>, MoveWhy>
    requires long { new_size < device }
    requires device { device ≡ D.size_of disk.old }
    requires small { largest < 2 ^ 32 }
    requires named { IfSome (D.content disk.old) (λ bytes. has_name format1 bytes ≡ true) }
    ensures log { IfOk result (λ spans. IsOldLogOf largest (D.content disk.old)
        (log_seen (D.content disk.old) spans.items)) }
    ensures within { IfOk result (λ spans.
        AllByRecursion (EndsBy (D.size_of disk.old)) spans.items) }
    ensures fitting { IfOk result (λ spans.
        AllByRecursion (λ size. size ≤ largest) (sizes_of spans.items)) }
    ensures damaged { (place : ℕ) → result ≡ Err (MoveWhy.Old place) → IfSome (D.content disk.old)
        (λ bytes. old_log_of largest bytes ≡ Err (Damaged place)) }
    ensures not_full { (n : ℕ) → result ≡ Err (MoveWhy.Full n) → ⊥ }
    ensures read { OnlyRead D.Disk disk.old disk.new }
    ensures counts { HasCause (D.faults disk.old) (D.faults disk.new)
        (IsErrOf result MoveWhy.Fault) }
    ensures quiet { StaysUnless (D.faults disk.old) (D.faults disk.new)
        (IsErrOf result MoveWhy.Fault) }
{
    let mut found = OldFound {
        spans: Vec::new(alloc),
        gate: FIRST_GATE,
    };
    while next_old(disk, &mut found, device, largest)? {}
    Ok(found.spans)
}

// Goes on to the next gate, where this one is open.
fn next_old<D: Disk>(
    disk: &mut D,
    found: &mut OldFound,
    device: u64,
    largest: u64,
) -> Result<bool, MoveWhy>
    requires long { new_size < device }
    requires device { device ≡ D.size_of disk.old }
    requires small { largest < 2 ^ 32 }
    requires gates { AreGates format1 largest
        found.old.spans.items found.old.gate [] device (D.content disk.old) }
    ensures gates { OnOk result (AreGates format1 largest
        found.new.spans.items found.new.gate [] device (D.content disk.new)) }
    ensures closed { result ≡ Ok false → IfSome (D.content disk.new)
        (λ bytes. is_open (drop found.new.gate bytes) ≡ false) }
    ensures further { result ≡ Ok true → found.old.gate < found.new.gate }
    ensures damaged { (place : ℕ) → result ≡ Err (MoveWhy.Old place) → IfSome (D.content disk.old)
        (λ bytes. old_log_of largest bytes ≡ Err (Damaged place)) }
    ensures not_full { (n : ℕ) → result ≡ Err (MoveWhy.Full n) → ⊥ }
    ensures read { OnlyRead D.Disk disk.old disk.new }
    ensures counts { HasCause (D.faults disk.old) (D.faults disk.new)
        (IsErrOf result MoveWhy.Fault) }
    ensures quiet { StaysUnless (D.faults disk.old) (D.faults disk.new)
        (IsErrOf result MoveWhy.Fault) }
{
    let size = match read_gate(disk, found.gate, device, OLD_HEAD, largest)? {
        Gate::Closed => return Ok(false),
        Gate::Broken => return Err(MoveWhy::Old(found.gate)),
        Gate::Open(size) => size,
    };
    found.spans.push(Span {
        at: found.gate + OLD_HEAD,
        size,
    })?;
    found.gate += OLD_HEAD + size;
    Ok(true)
}
