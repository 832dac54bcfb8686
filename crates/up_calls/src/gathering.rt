//! The group texts that are loaded for a request, whoever has the logs.
ghost use Rattle.std.specs.Prelude.{◌≡◌, ◌≤◌, ◌++◌, ◌∷◌, [], if◌then◌else◌, is_ok, None, length, OnOk};
ghost use Rattle.std.specs.Result.{result_ok};
ghost use Rattle.up_calls.specs.Asks.{Tries};
ghost use Rattle.up_calls.specs.Gathered.{AddsName, Gathered, NameLoaded};
ghost use Rattle.up_calls.specs.Rounds.{AreNew, IsMissing, LoadsRound, bound};
ghost use Rattle.up_calls.specs.Shown.{AllQuiet};
ghost use Rattle.up_policy.specs.Loadings.{answer_for};

use crate::logs::Logs;
use std::alloc::{AllocError, Global};
use up_edits::log_owner;
use up_names::Path;
use up_peer::Loader;
use up_policy::{LoadAnswer, Loaded, Names};

/// The most names that one call loads.
pub const BOUND: u64 = 1024;

/// One round: loads all that is missing, in order, up to the bound.
pub(crate) fn gather_round<B: Logs, L: Loader>(
    alloc: Global,
    logs: &mut B,
    loader: &mut L,
    missing: &Names,
    loaded: &mut Loaded,
) -> Result<(), AllocError>
    requires ready { B.ready logs.old }
    requires few { length loaded.old ≤ bound }
    requires new { AreNew missing.now loaded.old }
    ensures gathered { OnOk result (Gathered L.Loader (B.operator_of logs.old)
        (B.views logs.old) (B.views logs.new) (IsMissing missing.now)
        loader.old loader.new loaded.old loaded.new) }
    ensures round { OnOk result (LoadsRound missing.now loaded.old loaded.new) }
    ensures quiet { AllQuiet (λ log. B.quiet log logs.old logs.new) }
    ensures tie { B.tied None logs.old logs.new }
    ensures tried { Tries L.loads L.faults L.tied loader.old loader.new }
{
    let count = missing.len();
    for i in 0..count {
        let Some(name) = missing.get(i) else {
            return Ok(());
        };
        if loaded.len() == BOUND {
            return Ok(());
        }
        gather_new(alloc, logs, loader, name, loaded)?;
    }
    Ok(())
}

// Loads a name that was not loaded, and notes it behind the others.
fn gather_new<B: Logs, L: Loader>(
    alloc: Global,
    logs: &mut B,
    loader: &mut L,
    name: &Path,
    loaded: &mut Loaded,
) -> Result<(), AllocError>
    requires ready { B.ready logs.old }
    requires new { answer_for loaded.old name.now ≡ None }
    ensures adds { OnOk result (AddsName L.Loader (B.operator_of logs.old)
        (B.views logs.old) (B.views logs.new) loader.old loader.new
        name.now loaded.old loaded.new) }
    ensures quiet { AllQuiet (λ log. B.quiet log logs.old logs.new) }
    ensures tie { B.tied None logs.old logs.new }
    ensures tried { Tries L.loads L.faults L.tied loader.old loader.new }
{
    let answer = gather_one(alloc, logs, loader, name)?;
    note(name, answer, loaded)
}

// Loads one name: from the host's own tree of its owner, or else as `gather_elsewhere` says.
fn gather_one<B: Logs, L: Loader>(
    alloc: Global,
    logs: &mut B,
    loader: &mut L,
    name: &Path,
) -> Result<LoadAnswer, AllocError>
    requires ready { B.ready logs.old }
    ensures loaded { NameLoaded L.Loader (B.operator_of logs.old)
        (B.views logs.old) (B.views logs.new)
        loader.old loader.new name.now (result_ok result) }
    ensures quiet { AllQuiet (λ log. B.quiet log logs.old logs.new) }
    ensures tie { B.tied None logs.old logs.new }
{
    match logs.text(alloc, name)? {
        Some(answer) => Ok(answer),
        None => gather_elsewhere(alloc, logs, loader, name),
    }
}

// Loads a name whose owner's tree the host lacks. A group of the snapshot user of an owner whose tree it has is missing: the snapshots
// of a group give nobody a right. For all others the loader is asked.
fn gather_elsewhere<B: Logs, L: Loader>(
    alloc: Global,
    logs: &B,
    loader: &mut L,
    name: &Path,
) -> Result<LoadAnswer, AllocError>
    requires ready { B.ready logs.now }
    requires elsewhere { (B.views logs.now).tree name.now.owner ≡ None }
    ensures { NameLoaded L.Loader (B.operator_of logs.now)
        (B.views logs.now) (B.views logs.now)
        loader.old loader.new name.now (result_ok result) }
{
    let Ok(owner) = log_owner(name.owner()) else {
        return Err(AllocError);
    };
    if logs.has(&owner) {
        return Ok(LoadAnswer::Missing);
    }
    loader.load(alloc, logs.operator(), name)
}

// Notes a name with its answer behind the others.
fn note(name: &Path, answer: LoadAnswer, loaded: &mut Loaded) -> Result<(), AllocError>
    requires { answer_for loaded.old name.now ≡ None }
    ensures { loaded.new
        ≡ (if is_ok result then loaded.old ++ (name.now, answer) ∷ [] else loaded.old) }
{
    let name = name.clone()?;
    loaded.add(name, answer)
}
