//! A tree in memory.
ghost use Rattle.std.specs.Prelude.{◌≡◌, ◌≤◌, ◌+◌, [], ◌∷◌, ◌++◌, false, true, None, Some, filter, length, option_map, slice_get, IfOk, IfSome, IsSome, OnOk};
ghost use Rattle.std.specs.Option.{option_and_then, option_copied};
ghost use Rattle.up_policy.specs.Trees.{owns_snapshots};
ghost use Rattle.std.specs.Map.{keys_of};
ghost use Rattle.up_names.specs.PathNames.{cut};
ghost use Rattle.up_policy.specs.Governors.{first_text, prefixes};
ghost use Rattle.up_mem_tree.specs.Groups.{StayTexts};
ghost use Rattle.up_mem_tree.specs.Kept.{IsReadyFor, IsSameKept, Stands, slots_of};
ghost use Rattle.up_mem_tree.specs.Nodes.{node_of};
ghost use Rattle.up_mem_tree.specs.Others.{Grows, HasAllOthers, HasStepOthers, is_foreign, named_by};
ghost use Rattle.up_mem_tree.specs.Namings.{IsFirstNaming};
ghost use Rattle.up_mem_tree.specs.Slots.{named_paths};
ghost use Rattle.up_mem_tree.specs.ChangesBelow.{AreNoted, CanNoteRecord, noted_all};
ghost use Rattle.up_log_tree.specs.Changes.{change_before, changes_under, last_change, record_at};
ghost use Rattle.up_log_tree.specs.Fits.{Fits, IsLog, fits};
ghost use Rattle.up_log_tree.specs.Rights.{facts_of, governing_prefix};
ghost use Rattle.up_log_tree.specs.Snapshots.{snap_at, snapshots_of};
ghost use Rattle.up_log_tree.specs.Trees.{children, is_parent, node_at, standing_prefix, tree_at, tree_of};

use crate::changes_below::{Under, changes_above, make_room, note, reserve_one};
use crate::groups::{group_change_at, note_group};
use crate::kept::Kept;
use crate::namings::{earlier, first_met, first_now};
use crate::nodes::{NodeRef, record_at};
use crate::others::{Others, add_step};
use crate::starts::start_of;
use crate::steps::Step;
use std::alloc::{AllocError, Global};
use std::marker::Model;
use std::mem;
use up_access::AccessText;
use up_entry::Rec;
use up_group::GroupText;
use up_lists::Items;
use up_maps::OrderedMap;
use up_names::{Path, User};

/// A record that was made ready, and its step.
#[derive(Drop)]
pub(crate) struct Ready {
    pub(crate) rec: Rec,
    pub(crate) step: Option<Step>,
}

/// A tree in memory: the records of its log, and what they give. It is seen as its owner, its log, and the record that was made
/// ready to be entered next, where one was.
#[derive(Drop)]
pub struct MemTree {
    kept: Kept,
    /// At the number of each slot the changes at and below its path.
    changes_below: Vec<Under>,
    /// For each record the position of the last one up to it that changes a Group path, or 0.
    groups: Vec<u64>,
    /// The groups of other owners that Access and Group texts have named; perhaps also some of a record that was made ready and never
    /// entered.
    others: Others,
    ready: Option<Ready>,
}

impl Model for MemTree {
    ghost use Rattle.up_mem_tree.specs.MemTrees.{IsMemTree, TreeLog, ready_record};

    ghost Value = { TreeLog };

    ghost view = { λ tree. record { owner = tree.kept.owner; log = tree.kept.log.items; ready = ready_record tree.ready } };

    ghost invariant = { λ tree. IsMemTree tree.kept tree.changes_below.items tree.groups
        tree.others tree.ready };
}

/// Puts what was made ready in the place of what is there.
fn hold(place: &mut Option<Ready>, made: Option<Ready>)
    ensures { place.new ≡ made }
{
    drop(mem::replace(place, made));
}

/// Makes a record ready: its step, and all memory that it takes to enter and to note it.
fn made_ready(
    kept: &mut Kept,
    changes_below: &mut Vec<Under>,
    rec: Rec,
) -> Result<Ready, AllocError>
    requires stands { Stands kept.old }
    requires noted { AreNoted kept.old.log.items (slots_of kept.old) (noted_all changes_below.old.items) }
    requires fits { Fits kept.old.owner kept.old.log.items rec }
    ensures same { IsSameKept kept.old kept.new }
    ensures noted { AreNoted kept.new.log.items (slots_of kept.new) (noted_all changes_below.new.items) }
    ensures rec { IfOk result (λ ready. ready.rec ≡ rec) }
    ensures enters { IfOk result (λ ready. IsReadyFor kept.new rec ready.step) }
    ensures notes { OnOk result (CanNoteRecord changes_below.new.items (slots_of kept.new) rec) }
{
    match kept.make_ready(&rec) {
        Ok(step) => match make_room(changes_below, kept, &rec, start_of(&rec, &step)) {
            Ok(()) => Ok(Ready { rec, step }),
            Err(fault) => {
                drop(rec);
                drop(step);
                Err(fault)
            }
        },
        Err(fault) => {
            drop(rec);
            Err(fault)
        }
    }
}

/// Makes a record ready, and adds the groups of other owners that its text names.
#[tactic(auto, using(crate::proofs::Held::grows_all))]
fn made_known(
    kept: &mut Kept,
    changes_below: &mut Vec<Under>,
    others: &mut Others,
    rec: Rec,
) -> Result<Ready, AllocError>
    requires stands { Stands kept.old }
    requires noted { AreNoted kept.old.log.items (slots_of kept.old) (noted_all changes_below.old.items) }
    requires fits { Fits kept.old.owner kept.old.log.items rec }
    ensures same { IsSameKept kept.old kept.new }
    ensures noted { AreNoted kept.new.log.items (slots_of kept.new) (noted_all changes_below.new.items) }
    ensures rec { IfOk result (λ ready. ready.rec ≡ rec) }
    ensures enters { IfOk result (λ ready. IsReadyFor kept.new rec ready.step) }
    ensures notes { OnOk result (CanNoteRecord changes_below.new.items (slots_of kept.new) rec) }
    ensures kept { Grows others.old others.new }
    ensures others { IfOk result (λ ready. HasStepOthers kept.new.owner
        (named_by others.new (length kept.new.log.items + 1)) ready.step) }
{
    match made_ready(kept, changes_below, rec) {
        Ok(ready) => match add_step(&kept.owner, others, kept.log.len() as u64 + 1, &ready.step) {
            Ok(()) => Ok(ready),
            Err(fault) => {
                drop(ready);
                Err(fault)
            }
        },
        Err(fault) => Err(fault),
    }
}

impl MemTree {
    /// The tree of an empty log. It takes no memory.
    pub fn new(alloc: Global, owner: User) -> MemTree
        requires { owns_snapshots owner ≡ false }
        ensures owner { result.owner ≡ owner }
        ensures log { result.log ≡ [] }
    {
        MemTree {
            kept: Kept::new(alloc, owner),
            changes_below: Vec::new(alloc),
            groups: Vec::new(alloc),
            others: Others::new(alloc),
            ready: None,
        }
    }

    /// The owner.
    pub fn owner(&self) -> &User
        ensures { result.now ≡ self.now.owner }
    {
        &self.kept.owner
    }

    /// Does nothing. What it says holds of every tree at every moment: each record fits those before it, and the owner is no snapshot
    /// user. Whoever builds on that calls it for what it says.
    pub fn recall(&self)
        ensures log { IsLog self.now.owner self.now.log }
    {
        let _kept = &self.kept;
    }

    /// The number of records. What it says besides holds of every tree at every moment, as [`MemTree::recall`] has it.
    pub fn position(&self) -> u64
        ensures count { result ≡ length self.now.log }
        ensures log { IsLog self.now.owner self.now.log }
    {
        self.kept.log.len() as u64
    }

    /// Record `n`, from 1, or `None` exactly where there is none.
    pub fn rec_at(&self, n: u64) -> Option<&Rec>
        ensures { option_copied result ≡ record_at self.now.log n }
    {
        record_at(self.kept.log.as_slice(), n)
    }

    /// What stands at a path, in the record that has put it.
    pub fn node(&self, path: &Path) -> Option<NodeRef<'_>>
        ensures { option_map node_of result ≡ node_at (tree_of self.now.log) path.now }
    {
        self.kept.node(path)
    }

    /// What stands at the longest prefix of a path at which something stands, the path itself included. It takes no memory, and reads
    /// the path's text once.
    pub fn standing(&self, path: &Path) -> Option<NodeRef<'_>>
        ensures { option_map node_of result ≡ option_and_then (node_at (tree_of self.now.log))
            (standing_prefix (tree_of self.now.log) path.now) }
    {
        self.kept.standing(path)
    }

    /// The path of child `i` of a directory, from 0, in the order of paths.
    pub fn child(&self, dir: &Path, i: u64) -> Option<&Path>
        ensures { option_copied result ≡ slice_get (children (tree_of self.now.log) dir.now) i }
    {
        self.kept.child(dir, i)
    }

    /// The rules of the Access file in a directory after the first `n` records. It takes no memory and parses nothing.
    pub fn access_at(&self, dir: &Path, n: u64) -> Option<&AccessText>
        requires { n ≤ length self.now.log }
        ensures { option_copied result
            ≡ (facts_of self.now.owner (tree_at self.now.log n)).access dir.now }
    {
        self.kept.access_at(dir, n)
    }

    /// The items of the Group file at a path after the first `n` records. It takes no memory and parses nothing.
    pub fn group_at(&self, path: &Path, n: u64) -> Option<&GroupText>
        requires { n ≤ length self.now.log }
        ensures { option_copied result
            ≡ (facts_of self.now.owner (tree_at self.now.log n)).group path.now }
    {
        self.kept.group_at(path, n)
    }

    /// The rules of the Access file that governed a path after the first `n` records, and the number of elements of the directory in
    /// which it stood. It takes no memory, and reads the path's text once.
    pub fn nearest_at(&self, path: &Path, n: u64) -> Option<(u64, &AccessText)>
        requires { n ≤ length self.now.log }
        ensures text { option_map (λ found. found.1.now) result
            ≡ first_text (facts_of self.now.owner (tree_at self.now.log n)).access
            (prefixes path.now) }
        ensures dir { option_map (λ found. cut found.0 path.now) result
            ≡ governing_prefix (tree_at self.now.log n) path.now }
    {
        self.kept.nearest_at(path, n)
    }

    /// Whether no record behind the first `m`, up to record `n`, changes the Access file in a directory or any Group file: then their
    /// texts are the same after the first `m` records as after the first `n`. It takes no memory, and goes through no records.
    pub fn texts_stay(&self, dir: &Path, m: u64, n: u64) -> bool
        requires { n ≤ length self.now.log }
        ensures { result ≡ true → StayTexts self.now.owner self.now.log dir.now m n }
    {
        if n < m {
            return false;
        }
        if group_change_at(self.groups.as_slice(), &self.kept, n) > m {
            return false;
        }
        self.kept.access_stays(dir, m, n)
    }

    /// The path `i`, from 0, in the order of paths, of those in a directory that some record changes: what stands there now, and what
    /// stood there once.
    pub fn named(&self, dir: &Path, i: u64) -> Option<&Path>
        ensures { option_copied result
            ≡ slice_get (filter (is_parent dir.now) (named_paths self.now.log)) i }
    {
        self.kept.named(dir, i)
    }

    /// The position of the last record that changes a path.
    pub fn last_change(&self, path: &Path) -> Option<u64>
        ensures { result ≡ last_change self.now.log path.now }
    {
        self.kept.last_change(path)
    }

    /// The position of the last record before record `n`, from 1, that changes the path which that one changes.
    pub fn change_before(&self, n: u64) -> Option<u64>
        ensures { result ≡ change_before self.now.log n }
    {
        self.kept.change_before(n)
    }

    /// The positions above `above` of the records that change a path under this one, in order. It takes no memory.
    pub fn positions_under(&self, path: &Path, above: u64) -> &[u64]
        ensures { result.now ≡ changes_under self.now.log path.now above }
    {
        changes_above(self.changes_below.as_slice(), &self.kept, path, above)
    }

    /// The positions above `above` of the records that change a path under this one, in order, in a list of their own.
    pub fn changes_under(&self, path: &Path, above: u64) -> Result<Items<u64>, AllocError>
        ensures { IfOk result (λ found. found ≡ changes_under self.now.log path.now above) }
    {
        let positions = self.positions_under(path, above);
        Ok(Items::from_vec(Vec::from_slice(*self.groups.allocator(), positions)?))
    }

    /// The groups of other owners that a text of an Access or Group file names, or has named once: each of them is among these, with a
    /// number of the tree's own, which says nothing to the caller. It takes no memory.
    pub fn others(&self) -> &OrderedMap<Path, usize>
        ensures { HasAllOthers self.now.owner self.now.log (keys_of result.now.entries) }
    {
        &self.others.numbers
    }

    /// A position before which no change of a path under this one, of those above `above`, can meet a group of another owner by the tree's
    /// own texts: as the tree is directly after the change, or later. `None` where none above `above` can. It need not be the first such
    /// change.
    ///
    /// It looks at the texts that name the group, and at those that have named it and were replaced above `above`: each costs two walks
    /// down and a bisection. It is `above` where these are more than `most`, and where one of them is a Group file's, or an Access file's
    /// at the path or above it. It takes no memory.
    pub fn first_naming(&self, group: &Path, path: &Path, above: u64, most: u64) -> Option<u64>
        ensures { is_foreign self.now.owner group.now ≡ true
            → IsFirstNaming self.now.owner self.now.log group.now path.now above result }
    {
        let Some(named) = self.others.kept_of(group) else {
            return None;
        };
        let gone = named.gone.after(above);
        let texts = named.by.len().saturating_add(gone.len() as u64);
        if named.until > above || texts > most {
            return Some(above);
        }
        let below = self.changes_below.as_slice();
        let now = first_now(below, &self.kept, &named.by, path, above);
        earlier(now, first_met(below, &self.kept, gone, path, above))
    }

    /// The position of the snapshot of that time.
    pub fn snap_at(&self, time: u64) -> Option<u64>
        ensures { result ≡ snap_at self.now.log time }
    {
        self.kept.snap_at(time)
    }

    /// The time of snapshot `i`, from 0, in the order of times.
    pub fn snap_time(&self, i: u64) -> Option<u64>
        ensures { result ≡ slice_get (keys_of (snapshots_of self.now.log)) i }
    {
        self.kept.snap_time(i)
    }

    /// Whether a record fits as the next one.
    pub fn fits(&self, rec: &Rec) -> Result<bool, AllocError>
        ensures { IfOk result (λ fitting. fitting ≡ fits self.now.owner self.now.log rec.now) }
    {
        self.kept.fits(rec)
    }

    /// Makes a record ready to be entered: all memory that this takes. The tree stays as it is, whatever the answer.
    pub fn make_ready(&mut self, rec: Rec) -> Result<(), AllocError>
        requires { Fits self.old.owner self.old.log rec }
        ensures owner { self.new.owner ≡ self.old.owner }
        ensures log { self.new.log ≡ self.old.log }
        ensures ready { OnOk result (self.new.ready ≡ Some rec) }
    {
        hold(&mut self.ready, None);
        if let Err(fault) = reserve_one(&mut self.groups) {
            drop(rec);
            return Err(fault);
        }
        match made_known(
            &mut self.kept,
            &mut self.changes_below,
            &mut self.others,
            rec,
        ) {
            Ok(ready) => {
                hold(&mut self.ready, Some(ready));
                Ok(())
            }
            Err(fault) => Err(fault),
        }
    }

    /// Enters the record that was made ready. It takes no memory.
    pub fn enter(&mut self)
        requires { IsSome self.old.ready }
        ensures owner { self.new.owner ≡ self.old.owner }
        ensures log { IfSome self.old.ready (λ rec. self.new.log ≡ self.old.log ++ rec ∷ []) }
    {
        if let Some(made) = self.ready.take() {
            let start = start_of(&made.rec, &made.step);
            note(&mut self.changes_below, &self.kept, &made.rec, start);
            note_group(&mut self.groups, &self.kept, &made.rec);
            self.others.release(&self.kept, &made.rec, &made.step);
            self.kept.enter(made.rec, made.step);
        }
    }
}
