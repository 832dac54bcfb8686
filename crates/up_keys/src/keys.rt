//! The records of users, kept over a journal.
ghost use Rattle.std.specs.Prelude.{◌≡◌, ◌≤◌, ◌<◌, Some, true, false, length, is_some, IfErr, IfOk, IsErr, IsErrOf, IsOk, IsSome, OnOk, slice_get, vec_capacity, vec_len};
ghost use Rattle.std.specs.Option.{option_copied};
ghost use Rattle.up_ends.specs.Growing.{OnlyGrows};
ghost use Rattle.up_lists.specs.Counts.{HasCause, StaysUnless};
ghost use Rattle.up_disk.specs.Leaving.{LeavesNow};
ghost use Rattle.up_journal.specs.Crashes.{IsOpened};
ghost use Rattle.up_journal.specs.Journal.{AreLimits};
ghost use Rattle.up_journal.specs.Opened.{IsRefusedFor};
ghost use Rattle.up_journal.specs.Logs.{EachFits, OpensLog, RefusesLog, ResolvesLog, StandsForLog};
ghost use Rattle.up_keys.specs.Keys.{PutsRecord, disk_after, limits_of, log_of};
ghost use Rattle.up_keys.specs.Records.{decoded, fits, has_bounds, largest_room, record_in, records_in};
ghost use Rattle.up_wire.specs.Keys.{IsSpelledKeyRecord, logged};

use crate::replay::{enter, replay};
use std::alloc::{AllocError, Global};
use std::marker::Model;
use up_bytes::Bytes;
use up_disk::{Disk, Failed};
use up_ends::Grows;
use up_journal::{AppendWhy, Journal, Limits, OpenFault, OpenWhy};
use up_maps::OrderedMap;
use up_names::User;
use up_wire::{KeyRecord, write_key_record};

/// The records of a key server, over a journal. It is seen as the log of its records. After a fault the last record may be
/// doubtful: a crash then leaves the log, or it with that one.
#[derive(Drop)]
pub struct Keys<D: Disk> {
    journal: Journal<D>,
    records: Vec<KeyRecord>,
    // of each user the number of its last record, from 0
    last: OrderedMap<User, u64>,
}

impl<D: Disk> Model for Keys<D> {
    ghost use Rattle.up_journal.specs.Logs.{LogState, log_state};
    ghost use Rattle.up_keys.specs.Keys.{IsKeys};
    ghost use Rattle.up_keys.specs.Records.{decoded};
    ghost use Rattle.up_wire.specs.declared.keys.KeyRecord.{KeyRecord as OneRecord};

    ghost Value = { LogState D OneRecord };

    ghost view = { λ keys. log_state decoded keys.journal keys.records.items };

    ghost invariant = { λ keys. IsKeys D.Disk keys.journal keys.records.items keys.last.entries };
}

impl<D: Disk> Grows for Keys<D> {
    type Entry = KeyRecord;

    type Fixed = Limits;

    ghost entries = { λ keys. log_of keys };

    ghost faults = { λ keys. D.faults keys.disk };

    ghost fixed = { λ keys. limits_of keys };

    fn length(&self) -> u64 {
        self.position()
    }
}

// What a record needs before it is appended: its bytes, its user for the map, and room in both lists.
fn made_ready(
    records: &mut Vec<KeyRecord>,
    last: &mut OrderedMap<User, u64>,
    card: &KeyRecord,
) -> Result<(User, Bytes), AllocError>
    requires { has_bounds card.now ≡ true }
    ensures user { IfOk result (λ made. made.0 ≡ card.now.user) }
    ensures bytes { IfOk result (λ made. made.1 ≡ logged card.now) }
    ensures again { OnOk result (decoded (logged card.now) ≡ Some card.now) }
    ensures size { length (logged card.now) ≤ largest_room }
    ensures records { records.new.items ≡ records.old.items }
    ensures entries { last.new.entries ≡ last.old.entries }
    ensures room { OnOk result (vec_len records.new < vec_capacity records.new) }
    ensures ready { OnOk result (last.new.ready ≡ true) }
{
    is_small(card);
    let user = card.user.clone()?;
    let bytes = write_key_record(*records.allocator(), card)?;
    records.reserve(1)?;
    last.reserve_one()?;
    Ok((user, bytes))
}

impl<D: Disk> Keys<D> {
    /// Opens a device, which is new or has the records of a key server. A refused device is handed back. `Damaged` names its first
    /// damaged gate, or that of the first record that does not decode or does not keep its bounds.
    pub fn open(alloc: Global, disk: D, limits: Limits) -> Result<Keys<D>, OpenFault<D>>
        requires limits { AreLimits limits }
        requires room { largest_room ≤ limits.largest }
        ensures opens { IfOk result (OpensLog D.Disk records_in limits disk) }
        ensures refuses { IfErr result (RefusesLog D.Disk records_in limits disk) }
        ensures opened { IsOpened D.Disk limits.largest disk (disk_after result)
            (IsRefusedFor result OpenWhy.Fault) }
        ensures counts { HasCause (D.faults disk) (D.faults (disk_after result))
            (IsRefusedFor result OpenWhy.Fault) }
        ensures quiet { StaysUnless (D.faults disk) (D.faults (disk_after result))
            (IsRefusedFor result OpenWhy.Fault) }
    {
        let mut journal = match Journal::open(alloc, disk, limits) {
            Ok(journal) => journal,
            Err(fault) => return Err(fault),
        };
        match replay(alloc, &mut journal) {
            Ok(known) => Ok(Keys {
                journal,
                records: known.records,
                last: known.last,
            }),
            Err(why) => Err(OpenFault {
                disk: journal.into_disk(),
                why,
            }),
        }
    }

    /// The limits.
    pub fn limits(&self) -> Limits
        ensures { result ≡ self.now.limits }
    {
        self.journal.limits()
    }

    /// The number of records. What it says besides holds of every key server's log at every moment.
    pub fn position(&self) -> u64
        ensures count { result ≡ length self.now.log }
        ensures fitting { EachFits fits self.now.log }
        ensures limits { AreLimits self.now.limits }
        ensures room { largest_room ≤ self.now.limits.largest }
        ensures doubtful { IsSome (D.content self.now.disk)
            → is_some self.now.further ≡ self.now.doubtful }
        ensures safe { LeavesNow D.Disk self.now.disk
            (StandsForLog (records_in self.now.limits.largest) self.now.log self.now.further) }
    {
        self.journal.len()
    }

    /// The record of a user: its last one, or `None` exactly where it has none. It costs the logarithm of the number of users.
    pub fn lookup(&self, user: &User) -> Option<&KeyRecord>
        ensures { option_copied result ≡ record_in self.now.log user.now }
    {
        let Some(number) = self.last.get(user) else {
            return None;
        };
        record_at(&self.records, *number)
    }

    /// Adds a record, which is its user's from then on, after a doubtful one is settled. `Ok` is its position, from 1: from then
    /// on each crash leaves the log with it. `Full` comes exactly at the limits. Then, and for want of memory, no call of the disk
    /// is made. After a `Fault` the log is as before, and one record may be doubtful.
    pub fn put(&mut self, card: KeyRecord) -> Result<u64, AppendWhy>
        requires { has_bounds card ≡ true }
        ensures puts { PutsRecord D.Disk card self.old self.new result }
        ensures quiet { StaysUnless (D.faults self.old.disk) (D.faults self.new.disk)
            (IsErrOf result AppendWhy.Fault) }
        ensures grows { OnlyGrows log_of (λ keys. D.faults keys.disk) limits_of self.old self.new }
    {
        self.add(card)
    }

    // Adds a record. The records are changed last, by what cannot fail.
    fn add(&mut self, card: KeyRecord) -> Result<u64, AppendWhy>
        requires { has_bounds card ≡ true }
        ensures puts { PutsRecord D.Disk card self.old self.new result }
        ensures quiet { StaysUnless (D.faults self.old.disk) (D.faults self.new.disk)
            (IsErrOf result AppendWhy.Fault) }
    {
        let (user, payload) = made_ready(&mut self.records, &mut self.last, &card)?;
        let position = self.journal.append(payload.as_slice())?;
        enter(&mut self.records, &mut self.last, user, card);
        Ok(position)
    }

    /// Settles the log: a doubtful record is closed. It takes no memory, and without a doubtful record calls no disk.
    pub fn resolve(&mut self) -> Result<(), Failed>
        ensures resolves { ResolvesLog D.Disk records_in self.old self.new result }
        ensures untouched { self.old.doubtful ≡ false → IsOk result × (self.new ≡ self.old) }
        ensures cause { HasCause (D.faults self.old.disk) (D.faults self.new.disk) (IsErr result) }
        ensures quiet { StaysUnless (D.faults self.old.disk) (D.faults self.new.disk) (IsErr result) }
        ensures grows { OnlyGrows log_of (λ keys. D.faults keys.disk) limits_of self.old self.new }
    {
        self.journal.resolve()
    }

    /// The disk.
    pub fn into_disk(self) -> D
        ensures disk { result ≡ self.disk }
        ensures safe { LeavesNow D.Disk result
            (StandsForLog (records_in self.limits.largest) self.log self.further) }
    {
        let Keys {
            journal,
            records: _,
            last: _,
        } = self;
        journal.into_disk()
    }
}

// The record with a number, from 0.
fn record_at(records: &Vec<KeyRecord>, number: u64) -> Option<&KeyRecord>
    ensures { option_copied result ≡ slice_get records.now.items number }
{
    records.get(number as usize)
}

// A record that keeps its bounds has a spelling, of few bytes.
fn is_small(card: &KeyRecord)
    requires { has_bounds card.now ≡ true }
    ensures spelled { IsSpelledKeyRecord card.now }
    ensures size { length (logged card.now) ≤ largest_room }
{
    let _user = card.user.text();
}
