//! Which blocks nobody names any more.
ghost use Rattle.std.specs.Prelude.{◌≡◌, ◌++◌, filter, map, option_to_list, IfOk, OnOk};
ghost use Rattle.std.specs.List.{flat_map};
ghost use Rattle.std.specs.Option.{option_copied};
ghost use Rattle.up_audit.specs.Audits.{audit_of, held_in, used_in};
ghost use Rattle.up_audit.specs.Marks.{Notes, is_loose};
ghost use Rattle.up_tree.specs.States.{entries_of};

use crate::marks::note_log;
use crate::used::Used;
use std::alloc::{AllocError, Global};
use up_blocks::Blocks;
use up_disk::Disk;
use up_lists::Items;
use up_refs::Reference;
use up_tree::TreeState;

/// How many blocks a store holds, and which of them no tree uses, in order of their bytes.
#[derive(Debug, Drop, PartialEq, Eq)]
pub struct Audit {
    pub held: u64,
    pub loose: Items<Reference>,
}

/// Goes through the logs of trees, and through the blocks that a store holds. No old tree is made, and no disk is called.
#[tactic(auto, using(crate::proofs::NoteLemmas::audit_is))]
pub fn audit_of<D: Disk>(
    alloc: Global,
    trees: &[TreeState<D>],
    blocks: &Blocks<D>,
) -> Result<Audit, AllocError>
    ensures { IfOk result (λ audit. audit ≡ audit_of (map entries_of trees.now) blocks.now.log) }
{
    let mut used = Used::new(alloc);
    note_logs(&mut used, trees)?;
    let loose = loose_blocks(alloc, blocks, &used)?;
    let held = blocks.len();
    Ok(Audit { held, loose })
}

// Notes all references that the logs of trees use.
fn note_logs<D: Disk>(used: &mut Used, trees: &[TreeState<D>]) -> Result<(), AllocError>
    ensures { OnOk result (Notes used.old.noted.entries used.new.noted.entries
        (flat_map used_in (map entries_of trees.now))) }
{
    for tree in trees {
        note_log(used, tree.memory())?;
    }
    Ok(())
}

// The references of the held blocks that were not noted.
fn loose_blocks<D: Disk>(
    alloc: Global,
    blocks: &Blocks<D>,
    used: &Used,
) -> Result<Items<Reference>, AllocError>
    ensures { IfOk result (λ loose. loose
        ≡ filter (is_loose used.now.noted.entries) (held_in blocks.now.log)) }
{
    let mut loose = Items::new(alloc);
    for i in 0..blocks.len() {
        add_loose(&mut loose, used, blocks.reference(i))?;
    }
    Ok(loose)
}

// Adds a reference where it was not noted.
fn add_loose(
    loose: &mut Items<Reference>,
    used: &Used,
    reference: Option<&Reference>,
) -> Result<(), AllocError>
    ensures { OnOk result (loose.new ≡ loose.old
        ++ filter (is_loose used.now.noted.entries) (option_to_list (option_copied reference.entry))) }
{
    let Some(reference) = reference else {
        return Ok(());
    };
    if !used.has(reference) {
        loose.push(*reference)?;
    }
    Ok(())
}
