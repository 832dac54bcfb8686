//! What stands on a device: the gates are read, or a new device is begun.
ghost use Rattle.std.specs.Prelude.{◌≡◌, ◌<◌, ◌≤◌, ◌+◌, ◌^◌, ◌++◌, ◌∷◌, [], ℕ, List, None, Ok, Err, true, false, drop, length, is_some, ◌≢◌, IfErr, IfOk, IfSome, IsErr, IsErrOf, OnOk};
ghost use Rattle.std.specs.Str.{bytes_eq};
ghost use Rattle.up_disk.specs.Disk.{LeavesOnly, Only, part};
ghost use Rattle.up_journal.specs.Cells.{Closed, OnlyRead};
ghost use Rattle.up_journal.specs.Crashes.{IsOpened};
ghost use Rattle.up_journal.specs.Format2.{format2, log_of};
ghost use Rattle.up_journal.specs.Gates.{first_gate, has_name, is_open, new_size};
ghost use Rattle.up_journal.specs.Journal.{AreLimits, IsReadAs};
ghost use Rattle.up_journal.specs.Kept.{AreGates, IsKept, log_seen};
ghost use Rattle.up_journal.specs.Opened.{IsDamageOf, IsLogOf};
ghost use Rattle.up_lists.specs.Counts.{HasCause, StaysUnless};

use crate::fault::OpenWhy;
use crate::format::{FIRST_GATE, FIRST_LINK, HEAD, NAME, NEW, OLD_NAME};
use crate::limits::{Limits, Span};
use crate::read::{Gate, read_gate, read_name, read_record};
use std::alloc::Global;
use up_disk::{Disk, Failed};
use up_refs::Reference;

/// The records that were found so far: their payloads, the place of the gate behind them, and the link that the next
/// record has to carry.
#[derive(Drop)]
pub struct Found {
    pub spans: Vec<Span>,
    pub gate: u64,
    pub head: Reference,
}

/// Syncs, and finds the log of the device. A device of at most 9 bytes is new, and is begun.
pub fn find<D: Disk>(alloc: Global, disk: &mut D, limits: Limits) -> Result<Found, OpenWhy>
    requires { AreLimits limits }
    ensures kept { IfOk result (λ found.
        IsKept D.Disk disk.new limits found.spans.items found.gate found.head None) }
    ensures log { IfOk result (λ found. IsLogOf limits.largest (D.content disk.old)
        (log_seen (D.content disk.new) found.spans.items)) }
    ensures begun { D.size_of disk.old ≤ new_size → OnOk result (IfSome (D.content disk.new)
        (λ bytes. bytes ≡ format2.name ++ 0 ∷ [])) }
    ensures damaged { IfErr result (IsDamageOf (log_of limits.largest) (D.content disk.old)) }
    ensures synced { IfErr result (λ why. why ≢ OpenWhy.Fault → (image : List ℕ)
        → D.may_leave disk.new image → IsReadAs limits.largest (D.content disk.old) image) }
    ensures opened { IsOpened D.Disk limits.largest disk.old disk.new
        (IsErrOf result OpenWhy.Fault) }
    ensures counts { HasCause (D.faults disk.old) (D.faults disk.new)
        (IsErrOf result OpenWhy.Fault) }
    ensures quiet { StaysUnless (D.faults disk.old) (D.faults disk.new)
        (IsErrOf result OpenWhy.Fault) }
{
    disk.sync()?;
    let device = disk.size();
    if device <= NEW.len() as u64 {
        start(disk)?;
        return Ok(Found {
            spans: Vec::new(alloc),
            gate: FIRST_GATE,
            head: Reference::from_bytes(FIRST_LINK),
        });
    }
    check_name(disk)?;
    read_gates(alloc, disk, device, limits.largest)
}

// Begins a new device.
fn start<D: Disk>(disk: &mut D) -> Result<(), Failed>
    requires { D.size_of disk.old ≤ new_size }
    ensures size { OnOk result (first_gate < D.size_of disk.new) }
    ensures told { is_some (D.content disk.new) ≡ is_some (D.content disk.old) }
    ensures cause { HasCause (D.faults disk.old) (D.faults disk.new) (IsErr result) }
    ensures quiet { StaysUnless (D.faults disk.old) (D.faults disk.new) (IsErr result) }
    ensures begun { OnOk result
        (IfSome (D.content disk.new) (λ bytes. bytes ≡ format2.name ++ 0 ∷ [])) }
    ensures durable { OnOk result (Only (D.content disk.new) (D.may_leave disk.new)) }
    ensures any_moment { Only (D.content disk.old) (D.may_leave disk.old) → (largest : ℕ)
        → LeavesOnly D.moment D.left_since disk.old disk.new
        (IsReadAs largest (D.content disk.old)) }
{
    disk.write_at(0, &NEW)?;
    disk.sync()
}

// Refuses a device of the first format, and one with another name.
fn check_name<D: Disk>(disk: &mut D) -> Result<(), OpenWhy>
    requires { new_size < D.size_of disk.old }
    ensures named { OnOk result
        (IfSome (D.content disk.old) (λ bytes. has_name format2 bytes ≡ true)) }
    ensures damaged { (largest : ℕ)
        → IfErr result (IsDamageOf (log_of largest) (D.content disk.old)) }
    ensures read { OnlyRead D.Disk disk.old disk.new }
    ensures counts { HasCause (D.faults disk.old) (D.faults disk.new)
        (IsErrOf result OpenWhy.Fault) }
    ensures quiet { StaysUnless (D.faults disk.old) (D.faults disk.new)
        (IsErrOf result OpenWhy.Fault) }
{
    let name = read_name(disk)?;
    if name.as_slice() == NAME.as_slice() {
        return Ok(());
    }
    if name.as_slice() == OLD_NAME.as_slice() {
        return Err(OpenWhy::OldFormat);
    }
    Err(OpenWhy::Damaged(0))
}

// Reads the gates up to the first closed one.
fn read_gates<D: Disk>(
    alloc: Global,
    disk: &mut D,
    device: u64,
    largest: u64,
) -> Result<Found, OpenWhy>
    requires long { new_size < device }
    requires device { device ≡ D.size_of disk.old }
    requires small { largest < 2 ^ 32 }
    requires named { IfSome (D.content disk.old) (λ bytes. has_name format2 bytes ≡ true) }
    ensures gates { IfOk result (λ found. AreGates format2 largest
        found.spans.items found.gate found.head device (D.content disk.new)) }
    ensures closed { IfOk result (λ found.
        IfSome (D.content disk.new) (λ bytes. is_open (drop found.gate bytes) ≡ false)) }
    ensures damaged { IfErr result (IsDamageOf (log_of largest) (D.content disk.old)) }
    ensures read { OnlyRead D.Disk disk.old disk.new }
    ensures counts { HasCause (D.faults disk.old) (D.faults disk.new)
        (IsErrOf result OpenWhy.Fault) }
    ensures quiet { StaysUnless (D.faults disk.old) (D.faults disk.new)
        (IsErrOf result OpenWhy.Fault) }
{
    let mut buffer = Vec::new(alloc);
    let mut found = Found {
        spans: Vec::new(alloc),
        gate: FIRST_GATE,
        head: Reference::from_bytes(FIRST_LINK),
    };
    while next_record(disk, &mut found, &mut buffer, device, largest)? {}
    Ok(found)
}

// Goes on to the next gate, where this one is open. The record between them has to be whole, and then to carry the
// link of the one before it.
fn next_record<D: Disk>(
    disk: &mut D,
    found: &mut Found,
    buffer: &mut Vec<u8>,
    device: u64,
    largest: u64,
) -> Result<bool, OpenWhy>
    requires long { new_size < device }
    requires device { device ≡ D.size_of disk.old }
    requires small { largest < 2 ^ 32 }
    requires gates { AreGates format2 largest
        found.old.spans.items found.old.gate found.old.head device (D.content disk.old) }
    ensures gates { OnOk result (AreGates format2 largest
        found.new.spans.items found.new.gate found.new.head device (D.content disk.new)) }
    ensures closed { result ≡ Ok false → IfSome (D.content disk.new)
        (λ bytes. is_open (drop found.new.gate bytes) ≡ false) }
    ensures further { result ≡ Ok true → found.old.gate < found.new.gate }
    ensures damaged { IfErr result (IsDamageOf (log_of largest) (D.content disk.old)) }
    ensures read { OnlyRead D.Disk disk.old disk.new }
    ensures counts { HasCause (D.faults disk.old) (D.faults disk.new)
        (IsErrOf result OpenWhy.Fault) }
    ensures quiet { StaysUnless (D.faults disk.old) (D.faults disk.new)
        (IsErrOf result OpenWhy.Fault) }
{
    let size = match read_gate(disk, found.gate, device, HEAD, largest)? {
        Gate::Closed => return Ok(false),
        Gate::Broken => return Err(OpenWhy::Damaged(found.gate)),
        Gate::Open(size) => size,
    };
    read_record(disk, buffer, found.gate + 1, (HEAD - 1 + size) as usize)?;
    if let Some(other) = other_link(buffer, found.head) {
        return Err(OpenWhy::Chain(found.gate, found.head, other));
    }
    found.spans.push(Span {
        at: found.gate + HEAD,
        size,
    })?;
    found.gate += HEAD + size;
    found.head = Reference::of(buffer);
    Ok(true)
}

// The link that a record carries, where it is another one than this.
fn other_link(bytes: &[u8], link: Reference) -> Option<Reference>
    requires { 36 ≤ length bytes.now }
    ensures same { result ≡ None → bytes_eq (part 4 32 bytes.now) link ≡ true }
    ensures other { IfSome result
        (λ other. (other ≡ part 4 32 bytes.now) × (bytes_eq other link ≡ false)) }
{
    let carried = &bytes[4..36];
    if carried == link.bytes().as_slice() {
        return None;
    }
    let mut other = [0u8; 32];
    other.copy_from_slice(carried);
    Some(Reference::from_bytes(other))
}
