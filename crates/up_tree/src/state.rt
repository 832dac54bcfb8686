//! A tree over its log.
ghost use Rattle.std.specs.Prelude.{◌≡◌, ◌≤◌, false, length, option_map, slice_get, is_some, IfErr, IfOk, IsErr, IsErrOf, IsOk, IsSome, Ok, OnOk, Some};
ghost use Rattle.std.specs.Option.{option_copied};
ghost use Rattle.up_ends.specs.Growing.{OnlyGrows};
ghost use Rattle.up_entry.specs.Reading.{rec_of};
ghost use Rattle.up_entry.specs.Spelling as spelling;
ghost use Rattle.up_entry.specs.Spelling.{IsSpelledRec};
ghost use Rattle.up_lists.specs.Counts.{HasCause, StaysUnless};
ghost use Rattle.up_disk.specs.Leaving.{LeavesNow};
ghost use Rattle.up_journal.specs.Crashes.{IsOpened};
ghost use Rattle.up_journal.specs.Journal.{AreLimits};
ghost use Rattle.up_journal.specs.Logs.{RefusesLog, StandsForLog};
ghost use Rattle.up_journal.specs.Opened.{IsRefusedFor};
ghost use Rattle.up_policy.specs.Trees.{owns_snapshots};
ghost use Rattle.std.specs.Map.{keys_of};
ghost use Rattle.up_names.specs.PathNames.{cut};
ghost use Rattle.up_policy.specs.Governors.{first_text, prefixes};
ghost use Rattle.up_log_tree.specs.Changes.{change_before, changes_under, record_at};
ghost use Rattle.up_log_tree.specs.Snapshots.{snap_at, snapshots_of};
ghost use Rattle.up_log_tree.specs.Fits.{Fits, IsLog, fits};
ghost use Rattle.up_log_tree.specs.Logs.{bytes_of};
ghost use Rattle.up_log_tree.specs.Rights.{facts_of, governing_prefix};
ghost use Rattle.up_log_tree.specs.Sizes.{size_of};
ghost use Rattle.up_log_tree.specs.Trees.{children, node_at, tree_at, tree_of};
ghost use Rattle.up_mem_tree.specs.Nodes.{node_of};
ghost use Rattle.up_tree.specs.States.{Applies, IsKept, Opens, Resolves, disk_after, entries_of, fixed_of, read_by, records_in};

use crate::old::{Old, old_tree};
use crate::replay::replay;
use std::alloc::{AllocError, Global};
use std::marker::Model;
use up_access::AccessText;
use up_bytes::Bytes;
use up_disk::{Disk, Failed};
use up_ends::Grows;
use up_entry::{Rec, write_rec};
use up_group::GroupText;
use up_journal::{AppendWhy, Journal, Limits, OpenFault, OpenWhy};
use up_lists::Items;
use up_mem_tree::{MemTree, NodeRef};
use up_names::{Path, User};

/// A tree over its log. It is seen as its owner, its limits and the records of its log, each of which fits those before it. After a
/// fault the last record may be doubtful: a crash then leaves the log, or the log with that record.
#[derive(Drop)]
pub struct TreeState<D: Disk> {
    journal: Journal<D>,
    limits: Limits,
    tree: MemTree,
}

impl<D: Disk> Model for TreeState<D> {
    ghost use Rattle.up_tree.specs.States.{IsKept, State, state_of};

    ghost Value = { State D };

    ghost view = { λ state. state_of state.tree.owner state.journal state.tree.log };

    ghost invariant = { λ state. IsKept D.Disk state.tree.owner state.journal state.tree.log state.limits };
}

impl<D: Disk> Grows for TreeState<D> {
    type Entry = Rec;

    type Fixed = (User, Limits);

    ghost entries = { λ state. entries_of state };

    ghost faults = { λ state. D.faults state.disk };

    ghost fixed = { λ state. fixed_of state };

    fn length(&self) -> u64 {
        self.position()
    }
}

impl<D: Disk> TreeState<D> {
    /// Opens a device, which is new or has the log of a tree of this owner. A refused device is handed back. `Damaged` names its first
    /// damaged gate, or, where the journal finds no fault, that of the first record that does not decode or does not fit.
    pub fn open(
        alloc: Global,
        disk: D,
        owner: User,
        limits: Limits,
    ) -> Result<TreeState<D>, OpenFault<D>>
        requires limits { AreLimits limits }
        requires plain { owns_snapshots owner ≡ false }
        ensures opens { IfOk result (Opens D.Disk owner limits disk) }
        ensures refuses { IfErr result (RefusesLog D.Disk (records_in owner) limits disk) }
        ensures opened { IsOpened D.Disk limits.largest disk (disk_after result)
            (IsRefusedFor result OpenWhy.Fault) }
        ensures counts { HasCause (D.faults disk) (D.faults (disk_after result))
            (IsRefusedFor result OpenWhy.Fault) }
        ensures quiet { StaysUnless (D.faults disk) (D.faults (disk_after result))
            (IsRefusedFor result OpenWhy.Fault) }
    {
        let mut journal = match Journal::open(alloc, disk, limits) {
            Ok(journal) => journal,
            Err(fault) => return Err(fault),
        };
        let replayed = replay(alloc, owner, &mut journal);
        read_by(journal, limits, replayed)
    }

    /// The owner.
    pub fn owner(&self) -> &User
        ensures { result.now ≡ self.now.owner }
    {
        self.tree.owner()
    }

    /// Does nothing. What it says holds of every tree at every moment: each record fits those before it, the limits are some that a log
    /// may have, and of the disk it says what a crash may leave, and whether a further record may stand there. Whoever builds on that
    /// calls it for what it says.
    pub fn recall(&self)
        ensures log { IsLog self.now.owner self.now.log }
        ensures limits { AreLimits self.now.limits }
        ensures doubtful { IsSome (D.content self.now.disk)
            → is_some self.now.further ≡ self.now.doubtful }
        ensures safe { LeavesNow D.Disk self.now.disk
            (StandsForLog (records_in self.now.owner self.now.limits.largest)
            self.now.log self.now.further) }
    {
        self.tree.recall();
        let _records = self.journal.len();
    }

    /// The number of records. What it says besides holds of every tree at every moment, as [`TreeState::recall`] has it.
    pub fn position(&self) -> u64
        ensures count { result ≡ length self.now.log }
        ensures log { IsLog self.now.owner self.now.log }
        ensures limits { AreLimits self.now.limits }
        ensures doubtful { IsSome (D.content self.now.disk)
            → is_some self.now.further ≡ self.now.doubtful }
        ensures safe { LeavesNow D.Disk self.now.disk
            (StandsForLog (records_in self.now.owner self.now.limits.largest)
            self.now.log self.now.further) }
    {
        self.recall();
        self.tree.position()
    }

    /// The bytes of the log on the device: 9, and of each record its own and 37. A doubtful record is not counted.
    pub fn bytes(&self) -> u64
        ensures { result ≡ bytes_of self.now.log }
    {
        self.journal.bytes()
    }

    /// How many bytes a record may have.
    pub fn largest(&self) -> u64
        ensures { result ≡ self.now.limits.largest }
    {
        self.limits.largest
    }

    /// The limits.
    pub fn limits(&self) -> Limits
        ensures { result ≡ self.now.limits }
    {
        self.limits
    }

    /// The tree in memory: what answers from a tree alone is proved over it.
    pub fn memory(&self) -> &MemTree
        ensures owner { result.now.owner ≡ self.now.owner }
        ensures log { result.now.log ≡ self.now.log }
    {
        &self.tree
    }

    /// What stands at a path.
    pub fn node(&self, path: &Path) -> Option<NodeRef<'_>>
        ensures { option_map node_of result ≡ node_at (tree_of self.now.log) path.now }
    {
        self.tree.node(path)
    }

    /// The path of child `i` of a directory, from 0, in the order of paths.
    pub fn child(&self, dir: &Path, i: u64) -> Option<&Path>
        ensures { option_copied result ≡ slice_get (children (tree_of self.now.log) dir.now) i }
    {
        self.tree.child(dir, i)
    }

    /// Record `n`, from 1, or `None` exactly where there is none.
    pub fn rec_at(&self, n: u64) -> Option<&Rec>
        ensures { option_copied result ≡ record_at self.now.log n }
    {
        self.tree.rec_at(n)
    }

    /// The rules of the Access file in a directory. It takes no memory and parses nothing.
    pub fn access(&self, dir: &Path) -> Option<&AccessText>
        ensures { option_copied result
            ≡ (facts_of self.now.owner (tree_of self.now.log)).access dir.now }
    {
        self.tree.access_at(dir, self.tree.position())
    }

    /// The items of the Group file at a path. It takes no memory and parses nothing.
    pub fn group(&self, path: &Path) -> Option<&GroupText>
        ensures { option_copied result
            ≡ (facts_of self.now.owner (tree_of self.now.log)).group path.now }
    {
        self.tree.group_at(path, self.tree.position())
    }

    /// The rules of the Access file in a directory after the first `n` records. It takes no memory and parses nothing.
    pub fn access_at(&self, dir: &Path, n: u64) -> Option<&AccessText>
        requires { n ≤ length self.now.log }
        ensures { option_copied result
            ≡ (facts_of self.now.owner (tree_at self.now.log n)).access dir.now }
    {
        self.tree.access_at(dir, n)
    }

    /// The items of the Group file at a path after the first `n` records. It takes no memory and parses nothing.
    pub fn group_at(&self, path: &Path, n: u64) -> Option<&GroupText>
        requires { n ≤ length self.now.log }
        ensures { option_copied result
            ≡ (facts_of self.now.owner (tree_at self.now.log n)).group path.now }
    {
        self.tree.group_at(path, n)
    }

    /// The rules of the Access file that governed a path after the first `n` records, and the number of elements of the directory in
    /// which it stood. It takes no memory, and reads the path's text once.
    pub fn nearest_at(&self, path: &Path, n: u64) -> Option<(u64, &AccessText)>
        requires { n ≤ length self.now.log }
        ensures text { option_map (λ found. found.1.now) result
            ≡ first_text (facts_of self.now.owner (tree_at self.now.log n)).access
            (prefixes path.now) }
        ensures dir { option_map (λ found. cut found.0 path.now) result
            ≡ governing_prefix (tree_at self.now.log n) path.now }
    {
        self.tree.nearest_at(path, n)
    }

    /// The position of the last record before record `n`, from 1, that changes the path which that one changes.
    pub fn change_before(&self, n: u64) -> Option<u64>
        ensures { result ≡ change_before self.now.log n }
    {
        self.tree.change_before(n)
    }

    /// The positions above `above` of the records that change a path under this one, in order.
    pub fn changes_under(&self, path: &Path, above: u64) -> Result<Items<u64>, AllocError>
        ensures { IfOk result (λ found. found ≡ changes_under self.now.log path.now above) }
    {
        self.tree.changes_under(path, above)
    }

    /// The position of the snapshot of that time.
    pub fn snap_at(&self, time: u64) -> Option<u64>
        ensures { result ≡ snap_at self.now.log time }
    {
        self.tree.snap_at(time)
    }

    /// The time of snapshot `i`, from 0, in the order of times.
    pub fn snap_time(&self, i: u64) -> Option<u64>
        ensures { result ≡ slice_get (keys_of (snapshots_of self.now.log)) i }
    {
        self.tree.snap_time(i)
    }

    /// The tree as it was after its first `n` records. It costs what entering them costs.
    pub fn tree_at(&self, n: u64) -> Result<Old, AllocError>
        requires { n ≤ length self.now.log }
        ensures { IfOk result (λ old. old ≡ tree_at self.now.log n) }
    {
        old_tree(&self.tree, n)
    }

    /// Whether a record fits as the next one.
    pub fn fits(&self, rec: &Rec) -> Result<bool, AllocError>
        ensures { IfOk result (λ fitting. fitting ≡ fits self.now.owner self.now.log rec.now) }
    {
        self.tree.fits(rec)
    }

    /// Adds a record that fits, after a doubtful one is settled. `Ok` is its position, from 1: from then on each crash leaves the log
    /// with it. `Full` comes at the limits; then, and for want of memory, no call of the disk is made. After a `Fault` the tree and
    /// its log are as before, and one record may be doubtful.
    #[tactic(auto, using(crate::proofs::Applying::applied_grows))]
    pub fn apply(&mut self, rec: Rec) -> Result<u64, AppendWhy>
        requires fits { Fits self.old.owner self.old.log rec }
        requires size { size_of rec ≤ self.old.limits.largest }
        ensures applies { Applies D.Disk rec self.old self.new result }
        ensures quiet { StaysUnless (D.faults self.old.disk) (D.faults self.new.disk)
            (IsErrOf result AppendWhy.Fault) }
        ensures grows { OnlyGrows entries_of
            (λ state. D.faults state.disk) fixed_of self.old self.new }
    {
        self.add(rec)
    }

    // Adds a record, for which all memory is made ready before the first call of the disk.
    fn add(&mut self, rec: Rec) -> Result<u64, AppendWhy>
        requires fits { Fits self.old.owner self.old.log rec }
        requires size { size_of rec ≤ self.old.limits.largest }
        ensures applies { Applies D.Disk rec self.old self.new result }
        ensures quiet { StaysUnless (D.faults self.old.disk) (D.faults self.new.disk)
            (IsErrOf result AppendWhy.Fault) }
    {
        let payload = made_ready(&mut self.tree, rec)?;
        let position = self.journal.append(payload.as_slice())?;
        self.tree.enter();
        Ok(position)
    }

    /// Settles the log: a doubtful record is closed. It takes no memory, and without a doubtful record calls no disk.
    pub fn resolve(&mut self) -> Result<(), Failed>
        ensures resolves { Resolves D.Disk self.old self.new result }
        ensures untouched { self.old.doubtful ≡ false → IsOk result × (self.new ≡ self.old) }
        ensures cause { HasCause (D.faults self.old.disk) (D.faults self.new.disk) (IsErr result) }
        ensures quiet { StaysUnless (D.faults self.old.disk) (D.faults self.new.disk) (IsErr result) }
        ensures grows { OnlyGrows entries_of
            (λ state. D.faults state.disk) fixed_of self.old self.new }
    {
        self.journal.resolve()
    }

    /// The disk.
    pub fn into_disk(self) -> D
        ensures disk { result ≡ self.disk }
        ensures safe { LeavesNow D.Disk result
            (StandsForLog (records_in self.owner self.limits.largest) self.log self.further) }
    {
        let TreeState {
            journal,
            limits: _,
            tree,
        } = self;
        drop(tree);
        journal.into_disk()
    }
}

// The tree, once its records are read; or the disk, handed back for the reason for which they were not.
fn read_by<D: Disk>(
    journal: Journal<D>,
    limits: Limits,
    replayed: Result<MemTree, OpenWhy>,
) -> Result<TreeState<D>, OpenFault<D>>
    requires { IfOk replayed (λ tree. IsKept D.Disk tree.owner journal tree.log limits) }
    ensures { result ≡ read_by journal replayed }
{
    match replayed {
        Ok(tree) => Ok(TreeState {
            journal,
            limits,
            tree,
        }),
        Err(why) => Err(OpenFault {
            disk: journal.into_disk(),
            why,
        }),
    }
}

// A record's bytes, once the record is ready to be entered. The tree stays as it is, whatever the answer.
fn made_ready(tree: &mut MemTree, rec: Rec) -> Result<Bytes, AllocError>
    requires { Fits tree.old.owner tree.old.log rec }
    ensures owner { tree.new.owner ≡ tree.old.owner }
    ensures log { tree.new.log ≡ tree.old.log }
    ensures ready { OnOk result (tree.new.ready ≡ Some rec) }
    ensures written { IfOk result (λ bytes. bytes ≡ spelling.rec rec) }
    ensures again { IfOk result (λ bytes. IsSpelledRec rec → rec_of bytes ≡ Ok rec) }
{
    match write_rec(tree.owner().allocator(), &rec) {
        Ok(bytes) => {
            tree.make_ready(rec)?;
            Ok(bytes)
        }
        Err(fault) => {
            drop(rec);
            Err(fault)
        }
    }
}
