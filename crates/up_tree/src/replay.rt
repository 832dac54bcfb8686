//! The tree of a journal's records.
ghost use Rattle.std.specs.Prelude.{◌≡◌, ◌++◌, ◌∷◌, [], ℕ, List, Ok, Some, None, true, false, length, IfErr, IfOk, IfSome, IsErrOf, OnOk};
ghost use Rattle.up_entry.specs.Spelling as spelling;
ghost use Rattle.up_lists.specs.Counts.{HasCause, StaysUnless};
ghost use Rattle.up_journal.specs.Logs.{log_step};
ghost use Rattle.up_journal.specs.Opened.{IsDamageOf};
ghost use Rattle.up_journal.specs.Records.{OnlyPayloads, replay};
ghost use Rattle.up_policy.specs.Trees.{owns_snapshots};
ghost use Rattle.up_log_tree.specs.Fits.{Fits, fits};
ghost use Rattle.up_log_tree.specs.Sizes.{sizes_of};
ghost use Rattle.up_tree.specs.States.{record_in, told};

use std::alloc::{AllocError, Global};
use up_bytes::FieldFault;
use up_disk::Disk;
use up_entry::{Rec, read_rec};
use up_journal::{Journal, OpenWhy};
use up_mem_tree::MemTree;
use up_names::User;

/// The record that a payload spells, or `None` where it is none's.
fn spelled(alloc: Global, payload: &[u8]) -> Result<Option<Rec>, AllocError>
    ensures record { IfOk result (λ found. found ≡ record_in payload.now) }
    ensures spelled { IfOk result (λ found. IfSome found (λ rec. payload.now ≡ spelling.rec rec)) }
{
    told(read_rec(alloc, payload))
}

/// The record that was read, or `None` where the bytes are none's. Memory is wanting only where it was for the reading.
fn told(read: Result<Rec, FieldFault>) -> Result<Option<Rec>, AllocError>
    ensures { result ≡ told read }
{
    match read {
        Ok(rec) => Ok(Some(rec)),
        Err(FieldFault::OutOfMemory) => Err(AllocError),
        Err(FieldFault::Short | FieldFault::Spelling(_)) => Ok(None),
    }
}

/// Adds a record that fits.
fn add(tree: &mut MemTree, rec: Rec) -> Result<(), AllocError>
    requires { Fits tree.old.owner tree.old.log rec }
    ensures owner { tree.new.owner ≡ tree.old.owner }
    ensures log { result ≡ Ok tt → tree.new.log ≡ tree.old.log ++ rec ∷ [] }
{
    tree.make_ready(rec)?;
    tree.enter();
    Ok(())
}

/// Adds a record if it fits; `false` where it does not.
fn add_fitting(tree: &mut MemTree, rec: Rec) -> Result<bool, AllocError>
    ensures owner { tree.new.owner ≡ tree.old.owner }
    ensures added { result ≡ Ok true → tree.new.log ≡ tree.old.log ++ rec ∷ [] }
    ensures fits { IfOk result (λ added. added ≡ fits tree.old.owner tree.old.log rec) }
{
    match tree.fits(&rec) {
        Ok(true) => {
            add(tree, rec)?;
            Ok(true)
        }
        Ok(false) => {
            drop(rec);
            Ok(false)
        }
        Err(fault) => {
            drop(rec);
            Err(fault)
        }
    }
}

/// Takes the record that a payload spells; `false` where it spells none, or the record does not fit.
fn take(alloc: Global, tree: &mut MemTree, payload: &[u8]) -> Result<bool, AllocError>
    ensures owner { tree.new.owner ≡ tree.old.owner }
    ensures taken { result ≡ Ok true
        → log_step record_in (fits tree.old.owner) tree.old.log payload.now ≡ Some tree.new.log }
    ensures not_taken { result ≡ Ok false
        → log_step record_in (fits tree.old.owner) tree.old.log payload.now ≡ None }
    ensures sizes { result ≡ Ok true → sizes_of tree.new.log ≡ sizes_of tree.old.log
        ++ length payload.now ∷ [] }
{
    match spelled(alloc, payload)? {
        Some(rec) => add_fitting(tree, rec),
        None => Ok(false),
    }
}

/// Takes all records. `Damaged` names the gate of the first one that is no record's or does not fit.
fn take_all<D: Disk>(
    alloc: Global,
    tree: &mut MemTree,
    journal: &mut Journal<D>,
) -> Result<(), OpenWhy>
    requires { tree.old.log ≡ [] }
    ensures owner { tree.new.owner ≡ tree.old.owner }
    ensures log { OnOk result ((log : List (List ℕ)) → journal.old.log ≡ Some log
        → replay (log_step record_in (fits tree.old.owner)) [] log ≡ Ok tree.new.log) }
    ensures sizes { OnOk result (journal.old.sizes ≡ sizes_of tree.new.log) }
    ensures damaged { IfErr result
        (IsDamageOf (replay (log_step record_in (fits tree.old.owner)) []) journal.old.log) }
    ensures read { OnlyPayloads D.Disk journal.old journal.new }
    ensures counts { HasCause (D.faults journal.old.disk) (D.faults journal.new.disk)
        (IsErrOf result OpenWhy.Fault) }
    ensures quiet { StaysUnless (D.faults journal.old.disk) (D.faults journal.new.disk)
        (IsErrOf result OpenWhy.Fault) }
{
    for n in 0..journal.len() {
        let payload = journal.payload(n + 1)?;
        if !take(alloc, tree, payload.as_slice())? {
            return Err(OpenWhy::Damaged(journal.gate_of(n + 1)));
        }
    }
    Ok(())
}

/// The tree of all records. `Damaged` names the gate of the first one that is no record's or does not fit.
pub fn replay<D: Disk>(
    alloc: Global,
    owner: User,
    journal: &mut Journal<D>,
) -> Result<MemTree, OpenWhy>
    requires { owns_snapshots owner ≡ false }
    ensures owner { IfOk result (λ tree. tree.owner ≡ owner) }
    ensures log { IfOk result (λ tree. (log : List (List ℕ)) → journal.old.log ≡ Some log
        → replay (log_step record_in (fits owner)) [] log ≡ Ok tree.log) }
    ensures sizes { IfOk result (λ tree. journal.old.sizes ≡ sizes_of tree.log) }
    ensures damaged { IfErr result
        (IsDamageOf (replay (log_step record_in (fits owner)) []) journal.old.log) }
    ensures read { OnlyPayloads D.Disk journal.old journal.new }
    ensures counts { HasCause (D.faults journal.old.disk) (D.faults journal.new.disk)
        (IsErrOf result OpenWhy.Fault) }
    ensures quiet { StaysUnless (D.faults journal.old.disk) (D.faults journal.new.disk)
        (IsErrOf result OpenWhy.Fault) }
{
    let mut tree = MemTree::new(alloc, owner);
    match take_all(alloc, &mut tree, journal) {
        Ok(()) => Ok(tree),
        Err(why) => {
            drop(tree);
            Err(why)
        }
    }
}
