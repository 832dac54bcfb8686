//! Reads of a disk.
ghost use Rattle.std.specs.Prelude.{◌≡◌, ◌<◌, ◌≤◌, ◌+◌, ◌^◌, ℕ, length, take, drop, vec_len, IfOk, IfSome, IsErr, IsErrOf, Ok, OnOk};
ghost use Rattle.up_disk.specs.Disk.{part};
ghost use Rattle.up_disk.specs.Leaving.{LeavesNow};
ghost use Rattle.up_journal.specs.Cells.{OnlyRead};
ghost use Rattle.up_journal.specs.Gates.{first_gate, length_bytes};
ghost use Rattle.up_journal.specs.Reading.{IsWithin, gate_at};
ghost use Rattle.up_lists.specs.Counts.{HasCause, StaysUnless};

use crate::fault::ReadWhy;
use crate::format::{OPEN, length_of};
use crate::limits::Span;
use std::alloc::Global;
use up_bytes::Bytes;
use up_disk::{Disk, Failed};

/// The bytes at a place. Memory is taken before the call of the disk.
pub fn read_span<D: Disk>(alloc: Global, disk: &mut D, span: Span) -> Result<Bytes, ReadWhy>
    requires { span.at + span.size ≤ D.size_of disk.old }
    ensures size { IfOk result (λ bytes. length bytes ≡ span.size) }
    ensures bytes { IfOk result (λ found. IfSome (D.content disk.old)
        (λ bytes. found ≡ part span.at span.size bytes)) }
    ensures read { OnlyRead D.Disk disk.old disk.new }
    ensures no_fewer { LeavesNow D.Disk disk.old (D.may_leave disk.new) }
    ensures counts { HasCause (D.faults disk.old) (D.faults disk.new)
        (IsErrOf result ReadWhy.Fault) }
    ensures quiet { StaysUnless (D.faults disk.old) (D.faults disk.new)
        (IsErrOf result ReadWhy.Fault) }
    ensures memory { IsErrOf result ReadWhy.OutOfMemory → disk.new ≡ disk.old }
{
    let mut bytes = vec![in alloc; 0u8; span.size as usize]?;
    disk.read(span.at, bytes.as_mut_slice())?;
    Ok(Bytes::from_vec(bytes))
}

/// Reads so many bytes at a place into a buffer, which is then as long.
pub fn read_record<D: Disk>(
    disk: &mut D,
    buffer: &mut Vec<u8>,
    at: u64,
    length: usize,
) -> Result<(), ReadWhy>
    requires { at + length ≤ D.size_of disk.old }
    ensures long { OnOk result (vec_len buffer.new ≡ length) }
    ensures bytes { OnOk result (IfSome (D.content disk.old)
        (λ bytes. buffer.new.items ≡ part at length bytes)) }
    ensures read { OnlyRead D.Disk disk.old disk.new }
    ensures counts { HasCause (D.faults disk.old) (D.faults disk.new)
        (IsErrOf result ReadWhy.Fault) }
    ensures quiet { StaysUnless (D.faults disk.old) (D.faults disk.new)
        (IsErrOf result ReadWhy.Fault) }
{
    buffer.resize(length, 0)?;
    disk.read(at, buffer.as_mut_slice())?;
    Ok(())
}

/// The first 8 bytes of a device.
pub fn read_name<D: Disk>(disk: &mut D) -> Result<[u8; 8], Failed>
    requires { first_gate ≤ D.size_of disk.old }
    ensures name { IfOk result (λ name. IfSome (D.content disk.old)
        (λ bytes. name ≡ take first_gate bytes)) }
    ensures read { OnlyRead D.Disk disk.old disk.new }
    ensures counts { HasCause (D.faults disk.old) (D.faults disk.new) (IsErr result) }
    ensures quiet { StaysUnless (D.faults disk.old) (D.faults disk.new) (IsErr result) }
{
    let mut name = [0u8; 8];
    disk.read(0, &mut name)?;
    Ok(name)
}

/// What stands at a gate.
#[derive(Clone, Copy, Debug, PartialEq, Eq)]
pub enum Gate {
    Closed,
    /// It is open, and no whole record stands behind it.
    Broken,
    /// It is open, and the payload of the record behind it has so many bytes.
    Open(u64),
}

/// What stands at the gate at a place, on a device of that size, where so many bytes stand from a gate on before the
/// payload.
pub fn read_gate<D: Disk>(
    disk: &mut D,
    place: u64,
    device: u64,
    head: u64,
    largest: u64,
) -> Result<Gate, Failed>
    requires inside { place < device }
    requires device { device ≡ D.size_of disk.old }
    requires head { 5 ≤ head }
    requires small { head + largest < 2 ^ 63 }
    ensures gate { IfOk result (λ gate. IfSome (D.content disk.old)
        (λ bytes. gate ≡ gate_at head largest (drop place bytes))) }
    ensures canonical { (n : ℕ) → result ≡ Ok (Gate.Open n) → IfSome (D.content disk.old)
        (λ bytes. part 1 4 (drop place bytes) ≡ length_bytes n) }
    ensures within { (n : ℕ) → result ≡ Ok (Gate.Open n) → IsWithin head largest device place n }
    ensures read { OnlyRead D.Disk disk.old disk.new }
    ensures counts { HasCause (D.faults disk.old) (D.faults disk.new) (IsErr result) }
    ensures quiet { StaysUnless (D.faults disk.old) (D.faults disk.new) (IsErr result) }
{
    let left = device - place;
    if left < 5 {
        return read_last(disk, place);
    }
    let mut bytes = [0u8; 5];
    disk.read(place, &mut bytes)?;
    let [gate, first, second, third, fourth] = bytes;
    if gate != OPEN {
        return Ok(Gate::Closed);
    }
    let size = length_of([first, second, third, fourth]) as u64;
    if size > largest || left <= head + size {
        return Ok(Gate::Broken);
    }
    Ok(Gate::Open(size))
}

// The same for a gate so near the end that no length stands behind it.
fn read_last<D: Disk>(disk: &mut D, place: u64) -> Result<Gate, Failed>
    requires inside { place < D.size_of disk.old }
    requires short { D.size_of disk.old < place + 5 }
    ensures gate { (head largest : ℕ) → 5 ≤ head → IfOk result (λ gate. IfSome (D.content disk.old)
        (λ bytes. gate ≡ gate_at head largest (drop place bytes))) }
    ensures small { (n : ℕ) → result ≡ Ok (Gate.Open n) → ⊥ }
    ensures read { OnlyRead D.Disk disk.old disk.new }
    ensures counts { HasCause (D.faults disk.old) (D.faults disk.new) (IsErr result) }
    ensures quiet { StaysUnless (D.faults disk.old) (D.faults disk.new) (IsErr result) }
{
    let mut last = [0u8; 1];
    disk.read(place, &mut last)?;
    if last[0] == OPEN {
        return Ok(Gate::Broken);
    }
    Ok(Gate::Closed)
}
