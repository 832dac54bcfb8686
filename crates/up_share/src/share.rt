//! The top call of `upspin share`.
ghost use Rattle.std.specs.Prelude.{◌≡◌, ◌≤◌, ◌++◌, [], ◌∷◌, false, length, map, string_bytes, IfOk, IfSome, IfNone, Some, option_map, slice_get};
ghost use Rattle.std.specs.Io.KnownBytes.{Appends};
ghost use Rattle.up_command.specs.Statuses.{IsOneOf, usage_line};
ghost use Rattle.up_ends.specs.Writing.{WritesPart};
ghost use Rattle.up_journal.specs.Journal.{AreLimits};
ghost use Rattle.up_lists.specs.Counts.{Rose, StaysUnless};
ghost use Rattle.up_policy.specs.Trees.{owns_snapshots};
ghost use Rattle.up_reports.specs.Opens.{disk_of, report_limits};
ghost use Rattle.up_reports.specs.Telling.{AnswersOne};
ghost use Rattle.up_share.specs.Plans.{plan_of};
ghost use Rattle.up_share.specs.Sharing.{FitsNot, HasCauses, IsComplete, Shares, whole_report};
ghost use Rattle.up_tree.specs.States as tree;

use crate::plan::share_words;
use crate::report::report_text;
use std::alloc::{AllocError, Global};
use std::hash::RandomState;
use up_command::{Status, usage};
use up_disk::{Disk, Disks};
use up_ends::{Sink, write_all};
use up_journal::Limits;
use up_lists::Items;
use up_names::User;
use up_reports::{LIMITS, open_trees, put_trees, tell_refused};
use up_tree::TreeState;

/// Prints who reads each file of the tree whose log stands on the one disk: by its words `share DIR K USER` it is USER's. Nothing of the
/// groups of other owners is loaded. The names of groups are hashed with these keys.
///
/// The status is 0 where all was printed; 3 where the sink failed, and 4 for want of memory, with a front of it printed; 6 where the disk
/// failed; 8 where the log does not open for its content, with the line that tells why; and 64 where the words do not fit or there is not
/// exactly one disk, with the usage line, nothing else being touched. The disk is back in its place whatever the status.
#[tactic(auto, using(crate::proofs::ShareLemmas::by_words))]
pub fn share_run<D: Disk + Drop, K: Sink>(
    alloc: Global,
    random: RandomState,
    words: &[String],
    sink: &mut K,
    disks: &mut Disks<D>,
) -> u8
    // What came of it, where the words fit and there is one disk; and else.
    ensures shares { IfSome (plan_of (map string_bytes words.now)) (λ plan.
        length disks.old.disks ≡ 1 → Shares D.Disk report_limits plan.owner
        disks.old.disks disks.new.disks (K.held sink.old) (K.held sink.new) result) }
    ensures usage { FitsNot (map string_bytes words.now) disks.old.disks
        → IsOneOf (3 ∷ 4 ∷ 64 ∷ []) result × (disks.new ≡ disks.old)
        × WritesPart (K.held sink.old) (K.held sink.new) usage_line }
    ensures usage_only { result ≡ 64 → FitsNot (map string_bytes words.now) disks.old.disks
        × Appends (K.held sink.old) (K.held sink.new) usage_line }

    // The statuses that come, and the cause of each.
    ensures statuses { IsOneOf (0 ∷ 3 ∷ 4 ∷ 6 ∷ 8 ∷ 64 ∷ []) result }
    ensures causes { HasCauses D.Disk disks.old.disks disks.new.disks
        (K.faults sink.old) (K.faults sink.new) result }
    ensures sink_quiet { StaysUnless (K.faults sink.old) (K.faults sink.new) (result ≡ 3) }

    // Where nothing is amiss all was printed, or memory was wanting.
    ensures complete { IfSome (plan_of (map string_bytes words.now)) (λ plan.
        length disks.old.disks ≡ 1 → IsComplete D.Disk report_limits plan.owner
        disks.old.disks disks.new.disks (K.faults sink.old) (K.faults sink.new) result) }
{
    match owner_told(alloc, words, disks) {
        Ok(Some(owner)) => share_within(alloc, random, owner, LIMITS, sink, disks),
        Ok(None) => usage(sink).code(),
        Err(_) => Status::OutOfMemory.code(),
    }
}

// Whose tree it is, where the words fit and there is one disk.
fn owner_told<D>(
    alloc: Global,
    words: &[String],
    disks: &Disks<D>,
) -> Result<Option<User>, AllocError>
    ensures fits { IfOk result (λ found. IfSome found (λ owner.
        (length disks.now.disks ≡ 1) × (owns_snapshots owner ≡ false)
        × (option_map (λ plan. plan.owner) (plan_of (map string_bytes words.now)) ≡ Some owner))) }
    ensures not { IfOk result (λ found. IfNone found
        (FitsNot (map string_bytes words.now) disks.now.disks)) }
{
    if disks.len() != 1 {
        return Ok(None);
    }
    match share_words(alloc, words)? {
        Some(plan) => Ok(Some(plan.owner)),
        None => Ok(None),
    }
}

// Does the same once the words were read, with any limits of the tree.
fn share_within<D: Disk + Drop, K: Sink>(
    alloc: Global,
    random: RandomState,
    owner: User,
    limits: Limits,
    sink: &mut K,
    disks: &mut Disks<D>,
) -> u8
    requires limits { AreLimits limits }
    requires plain { owns_snapshots owner ≡ false }
    requires one { length disks.old.disks ≡ 1 }
    ensures shares { Shares D.Disk limits owner disks.old.disks disks.new.disks
        (K.held sink.old) (K.held sink.new) result }
    ensures statuses { IsOneOf (0 ∷ 3 ∷ 4 ∷ 6 ∷ 8 ∷ []) result }
    ensures causes { HasCauses D.Disk disks.old.disks disks.new.disks
        (K.faults sink.old) (K.faults sink.new) result }
    ensures sink_quiet { StaysUnless (K.faults sink.old) (K.faults sink.new) (result ≡ 3) }
    ensures complete { IsComplete D.Disk limits owner disks.old.disks disks.new.disks
        (K.faults sink.old) (K.faults sink.new) result }
{
    share_tree(alloc, random, owner, limits, sink, disks)
}

// The same, with what its status says of the sink alone: opens the one log, tells of it, and puts the disk back.
#[tactic(auto, using(crate::proofs::ShareLemmas::sharings))]
fn share_tree<D: Disk + Drop, K: Sink>(
    alloc: Global,
    random: RandomState,
    owner: User,
    limits: Limits,
    sink: &mut K,
    disks: &mut Disks<D>,
) -> u8
    requires limits { AreLimits limits }
    requires plain { owns_snapshots owner ≡ false }
    requires one { length disks.old.disks ≡ 1 }
    ensures shares { Shares D.Disk limits owner disks.old.disks disks.new.disks
        (K.held sink.old) (K.held sink.new) result }
    ensures cause { result ≡ 3 → Rose (K.faults sink.old) (K.faults sink.new) }
    ensures later { K.faults sink.old ≤ K.faults sink.new }
    ensures quiet { StaysUnless (K.faults sink.old) (K.faults sink.new) (result ≡ 3) }
{
    let owners = match one_owner(alloc, owner) {
        Ok(owners) => owners,
        Err(_) => return Status::OutOfMemory.code(),
    };
    match open_trees(alloc, disks, owners, limits) {
        Ok(trees) => tell_trees(alloc, random, trees, sink, disks),
        Err(refused) => tell_refused(alloc, sink, refused),
    }
}

// A list of one owner.
fn one_owner(alloc: Global, owner: User) -> Result<Items<User>, AllocError>
    ensures { IfOk result (λ owners. owners ≡ owner ∷ []) }
{
    let mut owners = Items::new(alloc);
    owners.push(owner)?;
    Ok(owners)
}

// Prints the report on the one tree, and puts its disk back.
#[tactic(auto, using(crate::proofs::ShareLemmas::first_told))]
fn tell_trees<D: Disk + Drop, K: Sink>(
    alloc: Global,
    random: RandomState,
    trees: Vec<TreeState<D>>,
    sink: &mut K,
    disks: &mut Disks<D>,
) -> u8
    requires one { length trees.items ≡ 1 }
    requires room { length trees.items ≤ disks.old.spare }
    ensures disks { disks.new.disks ≡ disks.old.disks ++ map disk_of trees.items }
    ensures answers { (state : tree.State D) → slice_get trees.items 0 ≡ Some state
        → AnswersOne (K.held sink.old) (K.held sink.new) (whole_report state) result }
    ensures cause { result ≡ 3 → Rose (K.faults sink.old) (K.faults sink.new) }
    ensures later { K.faults sink.old ≤ K.faults sink.new }
    ensures quiet { StaysUnless (K.faults sink.old) (K.faults sink.new) (result ≡ 3) }
{
    let Some(state) = trees.get(0) else {
        unreachable!()
    };
    let status = tell_report(alloc, random, state, sink);
    put_trees(disks, trees);
    status
}

// Prints the report on a tree.
#[tactic(auto, using(crate::proofs::ShareLemmas::wanting_one, crate::proofs::ShareLemmas::text_told))]
fn tell_report<D: Disk, K: Sink>(
    alloc: Global,
    random: RandomState,
    state: &TreeState<D>,
    sink: &mut K,
) -> u8
    ensures answers { AnswersOne (K.held sink.old) (K.held sink.new)
        (whole_report state.now) result }
    ensures cause { result ≡ 3 → Rose (K.faults sink.old) (K.faults sink.new) }
    ensures later { K.faults sink.old ≤ K.faults sink.new }
    ensures quiet { StaysUnless (K.faults sink.old) (K.faults sink.new) (result ≡ 3) }
{
    match report_text(alloc, random, state) {
        Ok(text) => tell_text(sink, &text),
        Err(_) => Status::OutOfMemory.code(),
    }
}

// Prints a whole text.
#[tactic(auto, using(up_reports::proofs::TellLemmas::told_whole, up_reports::proofs::TellLemmas::told_part))]
fn tell_text<K: Sink>(sink: &mut K, text: &[u8]) -> u8
    ensures answers { AnswersOne (K.held sink.old) (K.held sink.new)
        (record { text = text.now; status = 0 }) result }
    ensures cause { result ≡ 3 → Rose (K.faults sink.old) (K.faults sink.new) }
    ensures later { K.faults sink.old ≤ K.faults sink.new }
    ensures quiet { StaysUnless (K.faults sink.old) (K.faults sink.new) (result ≡ 3) }
{
    match write_all(sink, text) {
        Ok(()) => Status::Done.code(),
        Err(_) => Status::WriteFault.code(),
    }
}
