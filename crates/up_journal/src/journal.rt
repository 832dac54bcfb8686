//! A journal: the log of payloads on a disk.
ghost use Rattle.std.specs.Prelude.{◌≡◌, ◌≢◌, ◌⊎◌, ◌<◌, ◌≤◌, ◌^◌, ◌+◌, ◌-◌, ◌↔◌, ℕ, [], ◌∷◌, ◌++◌, None, Some, Ok, Err, true, false, length, map, drop, take, slice_get, is_ok, is_some, if◌then◌else◌, option_map, IfErr, IfOk, IfSome, IsErr, IsErrOf, IsOk, IsSome, IsTrue, OnErr, OnOk, vec_len, vec_capacity};
ghost use Rattle.std.specs.List.{AllByRecursion};
ghost use Rattle.up_refs.specs.Sha256.{sha256};
ghost use Rattle.up_disk.specs.Disk.{written};
ghost use Rattle.up_disk.specs.Leaving.{Leaves, LeavesNow};
ghost use Rattle.up_journal.specs.Crashes.{IsOpened};
ghost use Rattle.up_journal.specs.Format2.{format2, head_of, log_of};
ghost use Rattle.up_journal.specs.Gates.{behind_gate, new_size, record_bytes};
ghost use Rattle.up_journal.specs.Journal.{AreLimits, HasLog, IsReadAs, IsSettled, MayHave, StandsFor, bytes_of, gate_behind, is_full, with_further};
ghost use Rattle.up_journal.specs.Opened.{IsDamageOf, IsLogOf, IsRefusedFor};
ghost use Rattle.up_lists.specs.Counts.{HasCause, StaysUnless};

use crate::fault::{AppendWhy, OpenFault, OpenWhy, ReadWhy};
use crate::format::{HEAD, framed};
use crate::limits::{Limits, Span, is_full};
use crate::open::find;
use crate::read::read_span;
use crate::record::{settle, write_record};
use std::alloc::{AllocError, Global};
use std::marker::Model;
use up_bytes::Bytes;
use up_disk::{Disk, Failed};
use up_refs::Reference;

/// A journal on a disk. It is settled: each crash leaves its log; or one record is doubtful: a crash leaves the log,
/// or the log with that record behind it. It tells its log and the doubtful payload where the disk tells its content.
#[derive(Drop)]
pub struct Journal<D: Disk> {
    disk: D,
    limits: Limits,
    // the payloads of the log, in order
    spans: Vec<Span>,
    // the place of the closed gate
    gate: u64,
    // the link that the next record will carry
    head: Reference,
    // the bytes of the doubtful payload behind the gate
    doubtful: Option<u64>,
}

impl<D: Disk> Model for Journal<D> {
    ghost use Rattle.std.specs.Prelude.{is_some};
    ghost use Rattle.up_journal.specs.Journal.{State};
    ghost use Rattle.up_journal.specs.Kept.{IsKept, further_seen, log_seen, sizes_of};

    ghost Value = { State D };

    ghost view = { λ journal. record {
      disk = journal.disk;
      limits = journal.limits;
      sizes = sizes_of journal.spans.items;
      head = journal.head;
      log = log_seen (D.content journal.disk) journal.spans.items;
      doubtful = is_some journal.doubtful;
      further = further_seen (D.content journal.disk) journal.gate journal.doubtful;
    } };

    ghost invariant = { λ journal. IsKept D.Disk journal.disk
        journal.limits journal.spans.items journal.gate journal.head journal.doubtful };
}

// The bytes that are written for a payload behind the gate, once there is room for its span.
fn made_ready(spans: &mut Vec<Span>, head: Reference, payload: &[u8]) -> Result<Vec<u8>, AllocError>
    requires { length payload.now < 2 ^ 32 }
    ensures bytes { IfOk result (λ behind. behind.items ≡ behind_gate head payload.now) }
    ensures spans { spans.new.items ≡ spans.old.items }
    ensures room { OnOk result (vec_len spans.new < vec_capacity spans.new) }
{
    spans.reserve(1)?;
    framed(*spans.allocator(), head, payload)
}

impl<D: Disk> Journal<D> {
    ghost use Rattle.up_journal.specs.Opened.{disk_after};

    /// Opens a device. It is synced first; one of at most 9 bytes is new, and is begun. Neither `records` nor
    /// `device` is tested: a longer log opens, and is then full. A refused device is handed back. Gates are tested in
    /// order, and at one gate that a whole record stands behind it before that this carries the digest of the one
    /// before it.
    pub fn open(alloc: Global, mut disk: D, limits: Limits) -> Result<Journal<D>, OpenFault<D>>
        requires { AreLimits limits }

        // The log is that of the content, where it is told.
        ensures log { IfOk result (λ journal. IsLogOf limits.largest (D.content disk) journal.log) }
        ensures settled { IfOk result IsSettled }
        ensures limits { IfOk result (λ journal. journal.limits ≡ limits) }
        ensures within { IfOk result (λ journal.
            (bytes_of journal.sizes ≤ D.size_of journal.disk) × (bytes_of journal.sizes < 2 ^ 64)) }

        // A new device is begun, byte for byte, where its content is told.
        ensures begun { D.size_of disk ≤ new_size → IfOk result (λ journal.
            IfSome (D.content journal.disk) (λ bytes. bytes ≡ format2.name ++ 0 ∷ [])) }

        // Why it is refused: for the damage of the content, where it is told, or for a fault of the disk, or for want of
        // memory. But for a fault, the disk was synced.
        ensures damaged { IfErr result (λ fault.
            IsDamageOf (log_of limits.largest) (D.content disk) fault.why) }
        ensures synced { IfErr result (λ fault. fault.why ≢ OpenWhy.Fault
            → LeavesNow D.Disk fault.disk (IsReadAs limits.largest (D.content disk))) }

        // What becomes of the disk, whatever the answer. A crash now leaves the log.
        ensures opened { IsOpened D.Disk limits.largest disk (disk_after result)
            (IsRefusedFor result OpenWhy.Fault) }
        ensures counts { HasCause (D.faults disk) (D.faults (disk_after result))
            (IsRefusedFor result OpenWhy.Fault) }
        ensures quiet { StaysUnless (D.faults disk) (D.faults (disk_after result))
            (IsRefusedFor result OpenWhy.Fault) }
        ensures safe { IfOk result (λ journal.
            LeavesNow D.Disk journal.disk (HasLog limits.largest journal.log)) }
    {
        match find(alloc, &mut disk, limits) {
            Ok(found) => Ok(Journal {
                disk,
                limits,
                spans: found.spans,
                gate: found.gate,
                head: found.head,
                doubtful: None,
            }),
            Err(why) => Err(OpenFault { disk, why }),
        }
    }

    /// The number of records. What it says besides holds of every journal at every moment.
    pub fn len(&self) -> u64
        ensures count { result ≡ length self.now.sizes }
        ensures told { is_some self.now.log ≡ is_some (D.content self.now.disk) }
        ensures sizes { IfSome self.now.log (λ log. map length log ≡ self.now.sizes) }
        ensures head { IfSome self.now.log (λ log. self.now.head ≡ head_of log) }
        ensures digest { length self.now.head ≡ 32 }
        ensures largest { AllByRecursion (λ size. size ≤ self.now.limits.largest) self.now.sizes }
        ensures limits { AreLimits self.now.limits }
        ensures device { bytes_of self.now.sizes ≤ D.size_of self.now.disk }
        ensures doubtful { IsSome self.now.log → is_some self.now.further ≡ self.now.doubtful }
        ensures safe { LeavesNow D.Disk self.now.disk
            (StandsFor self.now.limits.largest self.now.log self.now.further) }
    {
        self.spans.len() as u64
    }

    /// The limits.
    pub fn limits(&self) -> Limits
        ensures { result ≡ self.now.limits }
    {
        self.limits
    }

    /// Whether there is no record.
    pub fn is_empty(&self) -> bool
        ensures { IsTrue result ↔ (length self.now.sizes ≡ 0) }
    {
        self.spans.is_empty()
    }

    /// The bytes of the log on the device, up to and with the closed gate: 9, and of each record its length and 37. A
    /// doubtful record is not counted.
    pub fn bytes(&self) -> u64
        ensures { result ≡ bytes_of self.now.sizes }
    {
        self.gate + 1
    }

    /// The link that the next record will carry: the SHA-256 of the last record, or 32 bytes 00. It takes no memory.
    pub fn head(&self) -> Reference
        ensures head { result ≡ self.now.head }
        ensures meaning { IfSome self.now.log (λ log. result ≡ head_of log) }
    {
        self.head
    }

    /// The place of the gate of record `n`, from 1.
    pub fn gate_of(&self, n: u64) -> u64
        requires first { 1 ≤ n }
        requires last { n ≤ length self.now.sizes }
        ensures { result ≡ gate_behind (take (n - 1) self.now.sizes) }
    {
        self.spans[n as usize - 1].at - HEAD
    }

    /// Whether a payload of so many bytes would be answered `Full`.
    pub fn would_be_full(&self, size: u64) -> bool
        ensures { result ≡ is_full self.now.limits self.now.sizes size }
    {
        is_full(self.limits, self.spans.len() as u64, self.gate, size)
    }

    /// The payload of record `n`, from 1: one read at its place. It changes nothing of the log or the images. Memory
    /// is taken before the call of the disk.
    pub fn payload(&mut self, n: u64) -> Result<Bytes, ReadWhy>
        requires first { 1 ≤ n }
        requires last { n ≤ length self.old.sizes }
        ensures payload { IfOk result (λ bytes.
            IfSome self.old.log (λ log. slice_get log (n - 1) ≡ Some bytes)) }
        ensures size { IfOk result
            (λ bytes. slice_get self.old.sizes (n - 1) ≡ Some (length bytes)) }
        ensures unchanged { self.new ≡ record self.old { disk = self.new.disk } }
        ensures content { D.content self.new.disk ≡ D.content self.old.disk }
        ensures fewer { LeavesNow D.Disk self.new.disk (D.may_leave self.old.disk) }
        ensures no_fewer { LeavesNow D.Disk self.old.disk (D.may_leave self.new.disk) }
        ensures counts { HasCause (D.faults self.old.disk) (D.faults self.new.disk)
            (IsErrOf result ReadWhy.Fault) }
        ensures quiet { StaysUnless (D.faults self.old.disk) (D.faults self.new.disk)
            (IsErrOf result ReadWhy.Fault) }
        ensures memory { IsErrOf result ReadWhy.OutOfMemory → self.new ≡ self.old }
        ensures crash { Leaves D.Disk self.old.disk self.new.disk
            (StandsFor self.new.limits.largest self.new.log self.new.further)
            (StandsFor self.old.limits.largest self.old.log self.old.further) }
    {
        let alloc = *self.spans.allocator();
        let span = self.spans[n as usize - 1];
        read_span(alloc, &mut self.disk, span)
    }

    /// The payload of record `n`, from 1, without its first byte; in all else as `payload`.
    pub fn payload_tail(&mut self, n: u64) -> Result<Bytes, ReadWhy>
        requires first { 1 ≤ n }
        requires last { n ≤ length self.old.sizes }
        ensures payload { IfOk result (λ bytes.
            IfSome self.old.log (λ log. option_map (drop 1) (slice_get log (n - 1)) ≡ Some bytes)) }
        ensures size { IfOk result (λ bytes.
            option_map (λ size. size - 1) (slice_get self.old.sizes (n - 1))
            ≡ Some (length bytes)) }
        ensures unchanged { self.new ≡ record self.old { disk = self.new.disk } }
        ensures content { D.content self.new.disk ≡ D.content self.old.disk }
        ensures fewer { LeavesNow D.Disk self.new.disk (D.may_leave self.old.disk) }
        ensures no_fewer { LeavesNow D.Disk self.old.disk (D.may_leave self.new.disk) }
        ensures counts { HasCause (D.faults self.old.disk) (D.faults self.new.disk)
            (IsErrOf result ReadWhy.Fault) }
        ensures quiet { StaysUnless (D.faults self.old.disk) (D.faults self.new.disk)
            (IsErrOf result ReadWhy.Fault) }
        ensures memory { IsErrOf result ReadWhy.OutOfMemory → self.new ≡ self.old }
        ensures crash { Leaves D.Disk self.old.disk self.new.disk
            (StandsFor self.new.limits.largest self.new.log self.new.further)
            (StandsFor self.old.limits.largest self.old.log self.old.further) }
    {
        let alloc = *self.spans.allocator();
        let span = self.spans[n as usize - 1];
        let first = span.size.min(1);
        read_span(
            alloc,
            &mut self.disk,
            Span {
                at: span.at + first,
                size: span.size - first,
            },
        )
    }

    /// Appends a payload, after a doubtful record is settled. `Ok` is the record's position, from 1: from then on
    /// each crash leaves the log with it. `Full` comes exactly at the limits, and before any call of the disk, as
    /// does want of memory. After a `Fault` the log is as before, and the journal is settled or has one doubtful
    /// record.
    pub fn append(&mut self, payload: &[u8]) -> Result<u64, AppendWhy>
        requires { length payload.now ≤ self.old.limits.largest }

        ensures appended { OnOk result
            (self.new.log ≡ with_further self.old.log (Some payload.now)) }
        ensures sizes { self.new.sizes
            ≡ (if is_ok result then self.old.sizes ++ length payload.now ∷ [] else self.old.sizes) }
        ensures head { self.new.head
            ≡ (if is_ok result then sha256 (record_bytes self.old.head payload.now)
            else self.old.head) }
        ensures position { IfOk result (λ position. position ≡ length self.new.sizes) }
        ensures settled { OnOk result (IsSettled self.new) }
        ensures limits { self.new.limits ≡ self.old.limits }

        // Byte for byte: the device is as it was, but for an open gate in place of the closed one, and the record and a
        // closed gate behind it.
        ensures written { OnOk result (D.content self.new.disk
            ≡ option_map (written (gate_behind self.old.sizes)
            (1 ∷ behind_gate self.old.head payload.now))
            (D.content self.old.disk)) }

        // When it is refused, and what stays then.
        ensures full { is_full self.old.limits self.old.sizes (length payload.now) ≡ true
            → result ≡ Err (AppendWhy.Full (length self.old.sizes)) }
        ensures full_only { (n : ℕ) → result ≡ Err (AppendWhy.Full n)
            → (is_full self.old.limits self.old.sizes (length payload.now) ≡ true)
            × (n ≡ length self.old.sizes) }
        ensures untouched { IfErr result (λ why. why ≢ AppendWhy.Fault → self.new ≡ self.old) }
        ensures log { OnErr result (self.new.log ≡ self.old.log) }
        ensures further { OnErr result ((self.new.further ≡ None)
            ⊎ ((self.new.further ≡ self.old.further) ⊎ (self.new.further ≡ Some payload.now))) }
        ensures told { is_some (D.content self.new.disk) ≡ is_some (D.content self.old.disk) }
        ensures counts { HasCause (D.faults self.old.disk) (D.faults self.new.disk)
            (IsErrOf result AppendWhy.Fault) }
        ensures quiet { StaysUnless (D.faults self.old.disk) (D.faults self.new.disk)
            (IsErrOf result AppendWhy.Fault) }

        // What a crash leaves now, and what it might have left since the call began.
        ensures crash { Leaves D.Disk self.old.disk self.new.disk
            (StandsFor self.new.limits.largest self.new.log self.new.further)
            (MayHave self.old.limits.largest self.old.log self.old.further payload.now) }
    {
        let size = payload.len() as u64;
        if self.would_be_full(size) {
            return Err(AppendWhy::Full(self.len()));
        }
        let behind = made_ready(&mut self.spans, self.head, payload)?;
        write_record(&mut self.disk, self.gate, &mut self.doubtful, &behind, size)?;
        self.spans.push_reserved(Span {
            at: self.gate + HEAD,
            size,
        });
        self.head = Reference::of(&behind[..behind.len() - 1]);
        self.gate += HEAD + size;
        Ok(self.spans.len() as u64)
    }

    /// Settles the journal: the gate of a doubtful record is closed and synced. It takes no memory, and without a
    /// doubtful record calls no disk.
    pub fn resolve(&mut self) -> Result<(), Failed>
        ensures settled { OnOk result (IsSettled self.new) }
        ensures refused { OnErr result
            ((self.new.doubtful ≡ self.old.doubtful) × (self.new.further ≡ self.old.further)) }
        ensures untouched { self.old.doubtful ≡ false → IsOk result × (self.new ≡ self.old) }
        ensures closed { OnOk result (self.old.doubtful ≡ true → D.content self.new.disk
            ≡ option_map (written (gate_behind self.old.sizes) (0 ∷ []))
            (D.content self.old.disk)) }
        ensures log { self.new.log ≡ self.old.log }
        ensures sizes { self.new.sizes ≡ self.old.sizes }
        ensures head { self.new.head ≡ self.old.head }
        ensures limits { self.new.limits ≡ self.old.limits }
        ensures told { is_some (D.content self.new.disk) ≡ is_some (D.content self.old.disk) }
        ensures counts { HasCause (D.faults self.old.disk) (D.faults self.new.disk) (IsErr result) }
        ensures quiet { StaysUnless (D.faults self.old.disk) (D.faults self.new.disk) (IsErr result) }
        ensures crash { Leaves D.Disk self.old.disk self.new.disk
            (StandsFor self.new.limits.largest self.new.log self.new.further)
            (StandsFor self.old.limits.largest self.old.log self.old.further) }
    {
        settle(&mut self.disk, self.gate, &mut self.doubtful)
    }

    /// The disk.
    pub fn into_disk(self) -> D
        ensures disk { result ≡ self.disk }
        ensures safe { LeavesNow D.Disk result
            (StandsFor self.limits.largest self.log self.further) }
    {
        let Journal {
            disk,
            limits: _,
            spans: _,
            gate: _,
            head: _,
            doubtful: _,
        } = self;
        disk
    }
}
