//! What a log uses, by its records one after the other.
ghost use Rattle.std.specs.Prelude.{◌≡◌, ◌+◌, ◌≤◌, ◌<◌, ◌-◌, OnOk};
ghost use Rattle.std.specs.Option.{option_and_then, option_copied};
ghost use Rattle.up_audit.specs.Audits.{used_in};
ghost use Rattle.up_audit.specs.Marks.{Notes, gone_at, is_position, last_snap, snap_after, stands_at, standing_at, told_at};
ghost use Rattle.up_log_tree.specs.Changes.{path_of_change};

use crate::used::Used;
use std::alloc::AllocError;
use up_entry::Rec;
use up_mem_tree::MemTree;
use up_names::Path;

/// Notes all references that a tree's log uses.
pub(crate) fn note_log(used: &mut Used, tree: &MemTree) -> Result<(), AllocError>
    ensures { OnOk result (Notes used.old.noted.entries used.new.noted.entries
        (used_in tree.now.log)) }
{
    let mut snap = 0;
    for i in 0..tree.position() {
        note_told(used, tree, i + 1, snap)?;
        snap = snap_after(tree.rec_at(i + 1), i + 1, snap);
    }
    Ok(())
}

// Notes what record `n` tells to be used, `snap` being the position of the last snapshot record before it.
fn note_told(used: &mut Used, tree: &MemTree, n: u64, snap: u64) -> Result<(), AllocError>
    requires { snap ≡ last_snap tree.now.log (n - 1) }
    ensures { OnOk result (Notes used.old.noted.entries used.new.noted.entries
        (told_at tree.now.log n)) }
{
    note_gone(used, tree, n, snap)?;
    note_standing(used, tree, n)?;
    Ok(())
}

// Notes the entry that stood where record `n` changes a path, where a snapshot was taken behind it.
#[tactic(auto, using(crate::proofs::NoteLemmas::gones))]
fn note_gone(used: &mut Used, tree: &MemTree, n: u64, snap: u64) -> Result<(), AllocError>
    ensures { OnOk result (Notes used.old.noted.entries used.new.noted.entries
        (gone_at tree.now.log snap n)) }
{
    let Some(before) = tree.change_before(n) else {
        return Ok(());
    };
    if before < snap {
        used.note_put(tree.rec_at(before))?;
    }
    Ok(())
}

// Notes the entry that record `n` puts, where no later record changes its path.
#[tactic(auto, using(crate::proofs::NoteLemmas::standings))]
fn note_standing(used: &mut Used, tree: &MemTree, n: u64) -> Result<(), AllocError>
    ensures { OnOk result (Notes used.old.noted.entries used.new.noted.entries
        (standing_at tree.now.log n)) }
{
    if stands_at(tree, n) {
        used.note_put(tree.rec_at(n))?;
    }
    Ok(())
}

// Whether record `n` changes a path, and no later one changes it.
fn stands_at(tree: &MemTree, n: u64) -> bool
    ensures { result ≡ stands_at tree.now.log n }
{
    match changed_path(tree.rec_at(n)) {
        Some(path) => is_position(n, tree.last_change(path)),
        None => false,
    }
}

fn is_position(n: u64, at: Option<u64>) -> bool
    ensures { result ≡ is_position n at }
{
    match at {
        Some(at) => at == n,
        None => false,
    }
}

// The path that a record changes.
fn changed_path(rec: Option<&Rec>) -> Option<&Path>
    ensures { option_copied result
        ≡ option_and_then path_of_change (option_copied rec.entry) }
{
    match rec {
        Some(Rec::Put(entry, _)) => Some(&entry.name),
        Some(Rec::Delete(path)) => Some(path),
        Some(Rec::Snap(_)) | None => None,
    }
}

// The position of the last snapshot record, after one more record.
fn snap_after(rec: Option<&Rec>, position: u64, last: u64) -> u64
    ensures { result ≡ snap_after (option_copied rec.entry) position last }
{
    match rec {
        Some(Rec::Snap(_)) => position,
        Some(Rec::Put(_, _)) | Some(Rec::Delete(_)) | None => last,
    }
}
