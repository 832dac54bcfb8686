//! The records of a journal's log.
ghost use Rattle.std.specs.Prelude.{◌≡◌, ◌++◌, ◌∷◌, [], ℕ, List, Ok, Some, None, true, false, length, map, IfErr, IfOk, IsErrOf, OnOk};
ghost use Rattle.up_blocks.specs.Kept.{IsIndex, IsTaken, log_seen, record_of, size_kept};
ghost use Rattle.up_blocks.specs.Records.{decoded, fits};
ghost use Rattle.up_blocks.specs.declared.record.BlockRecord.{BlockRecord as OneRecord};
ghost use Rattle.up_lists.specs.Counts.{HasCause, StaysUnless};
ghost use Rattle.up_journal.specs.Logs.{EachFits, log_step};
ghost use Rattle.up_journal.specs.Opened.{IsDamageOf};
ghost use Rattle.up_journal.specs.Records.{OnlyPayloads, replay};

use crate::index::Index;
use crate::payload::read_payload;
use std::alloc::{AllocError, Global};
use up_disk::Disk;
use up_journal::{Journal, OpenWhy};

/// Takes the record that a payload is; `false` where it is none, or does not fit.
fn take(index: &mut Index, payload: &[u8]) -> Result<bool, AllocError>
    ensures taken { result ≡ Ok true → (log : List OneRecord)
        → IsIndex log index.old.records.items index.old.numbers.entries
        → IsTaken log payload.now
        index.old.records.items index.new.records.items index.new.numbers.entries }
    ensures not_taken { result ≡ Ok false → (log : List OneRecord)
        → IsIndex log index.old.records.items index.old.numbers.entries
        → log_step decoded fits log payload.now ≡ None }
    ensures sizes { result ≡ Ok true
        → map size_kept index.new.records.items ≡ map size_kept index.old.records.items
        ++ length payload.now ∷ [] }
{
    let Some(change) = read_payload(payload) else {
        return Ok(false);
    };
    if !index.fits(&change) {
        return Ok(false);
    }
    index.make_room()?;
    index.enter(change);
    Ok(true)
}

// Takes all records. `Damaged` names the gate of the first one that does not decode or does not fit.
fn take_all<D: Disk>(index: &mut Index, journal: &mut Journal<D>) -> Result<(), OpenWhy>
    requires none { index.old.records.items ≡ [] }
    requires empty { IsIndex [] index.old.records.items index.old.numbers.entries }
    ensures index { OnOk result (IsIndex (log_seen journal.old.log index.new.records.items)
        index.new.records.items index.new.numbers.entries) }
    ensures fitting { OnOk result
        (EachFits fits (log_seen journal.old.log index.new.records.items)) }
    ensures log { OnOk result ((payloads : List (List ℕ)) → journal.old.log ≡ Some payloads
        → replay (log_step decoded fits) [] payloads ≡ Ok (map record_of payloads)) }
    ensures sizes { OnOk result (journal.old.sizes ≡ map size_kept index.new.records.items) }
    ensures damaged { IfErr result
        (IsDamageOf (replay (log_step decoded fits) []) journal.old.log) }
    ensures read { OnlyPayloads D.Disk journal.old journal.new }
    ensures counts { HasCause (D.faults journal.old.disk) (D.faults journal.new.disk)
        (IsErrOf result OpenWhy.Fault) }
    ensures quiet { StaysUnless (D.faults journal.old.disk) (D.faults journal.new.disk)
        (IsErrOf result OpenWhy.Fault) }
{
    for n in 0..journal.len() {
        let payload = journal.payload(n + 1)?;
        if !take(index, payload.as_slice())? {
            return Err(OpenWhy::Damaged(journal.gate_of(n + 1)));
        }
    }
    Ok(())
}

/// All records. `Damaged` names the gate of the first one that does not decode or does not fit.
pub fn replay<D: Disk>(alloc: Global, journal: &mut Journal<D>) -> Result<Index, OpenWhy>
    ensures index { IfOk result (λ index.
        IsIndex (log_seen journal.old.log index.records.items)
        index.records.items index.numbers.entries) }
    ensures fitting { IfOk result (λ index.
        EachFits fits (log_seen journal.old.log index.records.items)) }
    ensures log { IfOk result (λ index. (payloads : List (List ℕ)) → journal.old.log ≡ Some payloads
        → replay (log_step decoded fits) [] payloads ≡ Ok (map record_of payloads)) }
    ensures sizes { IfOk result (λ index. journal.old.sizes ≡ map size_kept index.records.items) }
    ensures damaged { IfErr result
        (IsDamageOf (replay (log_step decoded fits) []) journal.old.log) }
    ensures read { OnlyPayloads D.Disk journal.old journal.new }
    ensures counts { HasCause (D.faults journal.old.disk) (D.faults journal.new.disk)
        (IsErrOf result OpenWhy.Fault) }
    ensures quiet { StaysUnless (D.faults journal.old.disk) (D.faults journal.new.disk)
        (IsErrOf result OpenWhy.Fault) }
{
    let mut index = Index::new(alloc);
    match take_all(&mut index, journal) {
        Ok(()) => Ok(index),
        Err(why) => {
            drop(index);
            Err(why)
        }
    }
}
