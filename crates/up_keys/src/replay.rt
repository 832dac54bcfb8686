//! The records of a journal's log.
ghost use Rattle.std.specs.Prelude.{◌≡◌, ◌<◌, ◌++◌, ◌∷◌, [], ℕ, List, Ok, Some, None, true, false, length, IfErr, IfOk, IfSome, IsErrOf, OnOk, vec_capacity, vec_len};
ghost use Rattle.std.specs.FinMap.Entries.{put};
ghost use Rattle.up_lists.specs.Counts.{HasCause, StaysUnless};
ghost use Rattle.up_journal.specs.Logs.{EachFits, log_step};
ghost use Rattle.up_journal.specs.Opened.{IsDamageOf};
ghost use Rattle.up_journal.specs.Records.{OnlyPayloads, replay};
ghost use Rattle.up_keys.specs.Keys.{AreLast, sizes_of};
ghost use Rattle.up_keys.specs.Records.{decoded, fits, user_cmp};
ghost use Rattle.up_wire.specs.Keys.{logged};

use crate::bounds::keeps_bounds;
use std::alloc::{AllocError, Global};
use up_bytes::FieldFault;
use up_disk::Disk;
use up_journal::{Journal, OpenWhy};
use up_maps::OrderedMap;
use up_names::User;
use up_wire::{KeyRecord, read_key_record};

/// Records, and of each user the number of its last one, from 0.
#[derive(Drop)]
pub struct Known {
    pub records: Vec<KeyRecord>,
    pub last: OrderedMap<User, u64>,
}

/// Adds a record at the end, for which there is room. It takes no memory.
pub fn enter(
    records: &mut Vec<KeyRecord>,
    last: &mut OrderedMap<User, u64>,
    user: User,
    card: KeyRecord,
)
    requires room { vec_len records.old < vec_capacity records.old }
    requires ready { last.old.ready ≡ true }
    ensures records { records.new.items ≡ records.old.items ++ card ∷ [] }
    ensures entries { last.new.entries
        ≡ put user_cmp user (length records.old.items) last.old.entries }
{
    last.put_reserved(user, records.len() as u64);
    records.push_reserved(card);
}

// Adds a record.
fn add(known: &mut Known, card: KeyRecord) -> Result<(), AllocError>
    requires { AreLast known.old.records.items known.old.last.entries }
    ensures last { OnOk result (AreLast known.new.records.items known.new.last.entries) }
    ensures added { OnOk result (known.new.records.items ≡ known.old.records.items ++ card ∷ []) }
{
    let user = card.user.clone()?;
    known.records.reserve(1)?;
    known.last.reserve_one()?;
    enter(&mut known.records, &mut known.last, user, card);
    Ok(())
}

// The record that a payload is, where it is one.
fn decoded(alloc: Global, payload: &[u8]) -> Result<Option<KeyRecord>, AllocError>
    ensures card { IfOk result (λ found. found ≡ decoded payload.now) }
    ensures spelled { IfOk result (λ found. IfSome found (λ card. payload.now ≡ logged card)) }
{
    match read_key_record(alloc, payload) {
        Ok(card) => Ok(Some(card)),
        Err(FieldFault::OutOfMemory) => Err(AllocError),
        Err(_) => Ok(None),
    }
}

// Takes the record that a payload is; `false` where it is none, or does not keep its bounds.
fn take(alloc: Global, known: &mut Known, payload: &[u8]) -> Result<bool, AllocError>
    requires { AreLast known.old.records.items known.old.last.entries }
    ensures last { OnOk result (AreLast known.new.records.items known.new.last.entries) }
    ensures taken { result ≡ Ok true
        → log_step decoded fits known.old.records.items payload.now ≡ Some known.new.records.items }
    ensures not_taken { result ≡ Ok false
        → log_step decoded fits known.old.records.items payload.now ≡ None }
    ensures sizes { result ≡ Ok true
        → sizes_of known.new.records.items ≡ sizes_of known.old.records.items
        ++ length payload.now ∷ [] }
{
    let Some(card) = decoded(alloc, payload)? else {
        return Ok(false);
    };
    if !keeps_bounds(
        card.dirs.as_slice(),
        card.stores.as_slice(),
        card.key.as_slice(),
    ) {
        return Ok(false);
    }
    add(known, card)?;
    Ok(true)
}

// Takes all records. `Damaged` names the gate of the first one that does not decode or does not keep its bounds.
fn take_all<D: Disk>(
    alloc: Global,
    known: &mut Known,
    journal: &mut Journal<D>,
) -> Result<(), OpenWhy>
    requires none { known.old.records.items ≡ [] }
    requires last { AreLast known.old.records.items known.old.last.entries }
    ensures last { OnOk result (AreLast known.new.records.items known.new.last.entries) }
    ensures log { OnOk result ((log : List (List ℕ)) → journal.old.log ≡ Some log
        → replay (log_step decoded fits) [] log ≡ Ok known.new.records.items) }
    ensures fitting { OnOk result (EachFits fits known.new.records.items) }
    ensures sizes { OnOk result (journal.old.sizes ≡ sizes_of known.new.records.items) }
    ensures damaged { IfErr result
        (IsDamageOf (replay (log_step decoded fits) []) journal.old.log) }
    ensures read { OnlyPayloads D.Disk journal.old journal.new }
    ensures counts { HasCause (D.faults journal.old.disk) (D.faults journal.new.disk)
        (IsErrOf result OpenWhy.Fault) }
    ensures quiet { StaysUnless (D.faults journal.old.disk) (D.faults journal.new.disk)
        (IsErrOf result OpenWhy.Fault) }
{
    for n in 0..journal.len() {
        let payload = journal.payload(n + 1)?;
        if !take(alloc, known, payload.as_slice())? {
            return Err(OpenWhy::Damaged(journal.gate_of(n + 1)));
        }
    }
    Ok(())
}

/// All records. `Damaged` names the gate of the first one that does not decode or does not keep its bounds.
pub fn replay<D: Disk>(alloc: Global, journal: &mut Journal<D>) -> Result<Known, OpenWhy>
    ensures last { IfOk result (λ known. AreLast known.records.items known.last.entries) }
    ensures log { IfOk result (λ known. (log : List (List ℕ)) → journal.old.log ≡ Some log
        → replay (log_step decoded fits) [] log ≡ Ok known.records.items) }
    ensures fitting { IfOk result (λ known. EachFits fits known.records.items) }
    ensures sizes { IfOk result (λ known. journal.old.sizes ≡ sizes_of known.records.items) }
    ensures damaged { IfErr result
        (IsDamageOf (replay (log_step decoded fits) []) journal.old.log) }
    ensures read { OnlyPayloads D.Disk journal.old journal.new }
    ensures counts { HasCause (D.faults journal.old.disk) (D.faults journal.new.disk)
        (IsErrOf result OpenWhy.Fault) }
    ensures quiet { StaysUnless (D.faults journal.old.disk) (D.faults journal.new.disk)
        (IsErrOf result OpenWhy.Fault) }
{
    let mut known = Known {
        records: Vec::new(alloc),
        last: OrderedMap::new(alloc),
    };
    match take_all(alloc, &mut known, journal) {
        Ok(()) => Ok(known),
        Err(why) => {
            drop(known);
            Err(why)
        }
    }
}
