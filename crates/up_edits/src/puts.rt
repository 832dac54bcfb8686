//! Put: the refusal, or the record that is added.
ghost use Rattle.std.specs.Prelude.{◌≡◌, ◌+◌, IfOk, Some, length, option_map};
ghost use Rattle.std.specs.Prelude as std;
ghost use Rattle.up_answers.specs.Puts.{holds, is_in_file, lacks_parent, place_refusal, put_outcome, sequence_refusal};
ghost use Rattle.up_list.specs.Changes.{right_to_put, unless};
ghost use Rattle.up_entry.specs.FixedForm.{HasFixedForm};
ghost use Rattle.up_entry.specs.declared.records.Rec.TheVariants as rec;
ghost use Rattle.up_log_tree.specs.Fits.{Fits};
ghost use Rattle.up_edits.specs.Puts.{may_put, recorded};
ghost use Rattle.up_edits.specs.Trees.{look_in};
ghost use Rattle.up_mem_tree.specs.Nodes.{node_of};
ghost use Rattle.up_log_tree.specs.Trees.{Tree, is_file, kind_of, node_at, tree_of};

use crate::texts::text_put;
use std::alloc::{AllocError, Global};
use up_bytes::Bytes;
use up_entry::{Checked, Entry, Fetch, Kind, Location, Rec};
use up_list::{TreeLook, check};
use up_mem_tree::{MemTree, NodeRef};
use up_names::{Path, User};
use up_policy::Loaded;
use up_rights::Right;
use up_wire::Reply;

/// What stands in the place of a path's directory: nothing, or a file. A root has no directory.
#[derive(Clone, Copy)]
struct Above {
    is_missing: bool,
    is_file: bool,
}

/// What a Put by a user leads to: the record that is to be added, or the refusal. Links and rights are tested first, then what stands
/// at the path and above it, then the text of a control file.
///
/// `fetched` is what the locations that `route_of` answered for the request gave; where one stands in it twice, its first answer
/// counts. A block whose location is not in it is refused with `BadBlock`, as one that is missing.
/// An `Err` is want of memory alone.
#[tactic(auto, using(crate::proofs::ChangeLemmas::put_fitting))]
pub fn put_record(
    alloc: Global,
    tree: &MemTree,
    loaded: &Loaded,
    user: &User,
    fetched: &[(Location, Fetch)],
    put: &Checked,
) -> Result<Result<Rec, Reply>, AllocError>
    requires owned { put.now.entry.name.owner ≡ tree.now.owner }
    requires formed { HasFixedForm put.now.entry }
    ensures outcome { IfOk result (λ outcome. outcome
        ≡ put_outcome (look_in tree.now loaded.now user.now) (length tree.now.log)
        fetched.now put.now) }
    ensures fits { IfOk result (λ led. IfOk led (Fits tree.now.owner tree.now.log)) }
{
    let led = put_leads(alloc, tree, loaded, user, fetched, put)?;
    Ok(led)
}

/// The same, without that the record fits.
#[tactic(auto, using(crate::proofs::ChangeLemmas::put_refused, crate::proofs::ChangeLemmas::put_passed))]
fn put_leads(
    alloc: Global,
    tree: &MemTree,
    loaded: &Loaded,
    user: &User,
    fetched: &[(Location, Fetch)],
    put: &Checked,
) -> Result<Result<Rec, Reply>, AllocError>
    requires { put.now.entry.name.owner ≡ tree.now.owner }
    ensures { IfOk result (λ outcome. outcome
        ≡ put_outcome (look_in tree.now loaded.now user.now) (length tree.now.log)
        fetched.now put.now) }
{
    match refusal_of(alloc, tree, loaded, user, put)? {
        None => record_of(alloc, tree, fetched, &put.entry),
        Some(refusal) => Ok(Err(refusal)),
    }
}

/// The refusal of a Put by links and rights, and then by what stands at the path and above it, where there is one.
#[tactic(auto, unfolding(crate::specs::Puts::may_put))]
fn refusal_of(
    alloc: Global,
    tree: &MemTree,
    loaded: &Loaded,
    user: &User,
    put: &Checked,
) -> Result<Option<Reply>, AllocError>
    requires { put.now.entry.name.owner ≡ tree.now.owner }
    ensures { IfOk result (λ refusal. unless refusal
        ≡ may_put (look_in tree.now loaded.now user.now) put.now) }
{
    let found = tree.node(&put.entry.name);
    let right = right_to_put(found);
    let look = TreeLook::new(tree, loaded, user);
    if let Some(refusal) = check(alloc, &look, &put.entry.name, true, Some(right))? {
        return Ok(Some(refusal));
    }
    place_refusal(tree, found, put)
}

/// The record of a Put that nothing refuses but its text, or that refusal.
#[tactic(auto, unfolding(crate::specs::Puts::recorded))]
fn record_of(
    alloc: Global,
    tree: &MemTree,
    fetched: &[(Location, Fetch)],
    entry: &Entry,
) -> Result<Result<Rec, Reply>, AllocError>
    ensures { IfOk result (λ led. led
        ≡ recorded tree.now.owner (length tree.now.log) fetched.now entry.now) }
{
    match text_put(alloc, tree.owner(), fetched, entry)? {
        Ok(text) => record_with(tree, entry, text),
        Err(refusal) => Ok(Err(refusal)),
    }
}

/// The record of an entry with its text, behind those that the tree has.
fn record_with(tree: &MemTree, entry: &Entry, text: Bytes) -> Result<Result<Rec, Reply>, AllocError>
    ensures { IfOk result (λ led. led
        ≡ std.Ok (rec.Put (record entry.now { sequence = length tree.now.log + 1 }) text)) }
{
    match entry_behind(entry, tree.position()) {
        Ok(entry) => Ok(Ok(Rec::Put(entry, text))),
        Err(fault) => {
            drop(text);
            Err(fault)
        }
    }
}

/// A copy of an entry with the position behind so many records as its sequence.
fn entry_behind(entry: &Entry, records: u64) -> Result<Entry, AllocError>
    ensures { IfOk result (λ copy. copy ≡ record entry.now { sequence = records + 1 }) }
{
    let position = next_position(records)?;
    Ok(at_position(entry.clone()?, position))
}

/// The right that a Put needs, by what stands there.
fn right_to_put(found: Option<NodeRef<'_>>) -> Right
    ensures { result ≡ right_to_put (option_map node_of found.entry) }
{
    match found {
        None => Right::Create,
        Some(_) => Right::Write,
    }
}

/// The position behind so many records.
fn next_position(records: u64) -> Result<u64, AllocError>
    ensures { IfOk result (λ position. position ≡ records + 1) }
{
    // No memory holds so many records.
    records.checked_add(1).ok_or(AllocError)
}

/// An entry with a position as its sequence.
fn at_position(mut entry: Entry, position: u64) -> Entry
    ensures { result ≡ record entry { sequence = position } }
{
    entry.sequence = position;
    entry
}

/// The refusal of a Put by what stands at the path, which was found already, and above it, where there is one.
fn place_refusal(
    tree: &MemTree,
    found: Option<NodeRef<'_>>,
    put: &Checked,
) -> Result<Option<Reply>, AllocError>
    ensures { IfOk result (λ refusal. unless refusal
        ≡ place_refusal (option_map node_of found.entry) (tree_of tree.now.log) put.now) }
{
    let above = place_above(tree, &put.entry.name)?;
    Ok(refusal_at(found, above.is_missing, above.is_file, put))
}

/// The same, once it is known whether the parent is not there, and whether it is a file.
#[tactic(auto, unfolding(up_answers::specs::Puts::place_refusal))]
fn refusal_at(
    found: Option<NodeRef<'_>>,
    orphan: bool,
    in_file: bool,
    put: &Checked,
) -> Option<Reply>
    ensures { (tree : Tree) → orphan ≡ lacks_parent tree put.now.entry.name
        → in_file ≡ is_in_file tree put.now.entry.name
        → unless result ≡ place_refusal (option_map node_of found.entry) tree put.now }
{
    let directory = put.entry.attr.kind == Kind::Directory;
    if orphan || (put.sequence > 0 && found.is_none()) {
        return Some(Reply::NotExist);
    }
    if in_file {
        return Some(Reply::NotDir);
    }
    let there = found?;
    if there.entry.attr.kind == Kind::Directory && !directory {
        return Some(Reply::IsDir);
    }
    if put.sequence < 0 || directory {
        return Some(Reply::Exist);
    }
    sequence_refusal(there, put.sequence)
}

/// The refusal where a sequence was handed in that is not the item's.
fn sequence_refusal(there: NodeRef<'_>, sequence: i64) -> Option<Reply>
    ensures { unless result ≡ sequence_refusal (Some (node_of there.entry)) sequence }
{
    let current = there.entry.sequence;
    if sequence > 0 && sequence as u64 != current {
        return Some(Reply::BadSequence(current));
    }
    None
}

/// What stands in the place of a path's directory.
fn place_above(tree: &MemTree, path: &Path) -> Result<Above, AllocError>
    ensures missing { IfOk result (λ above. above.is_missing ≡ lacks_parent (tree_of tree.now.log) path.now) }
    ensures file { IfOk result (λ above. above.is_file ≡ is_in_file (tree_of tree.now.log) path.now) }
{
    let above = path.parent()?;
    match &above {
        Some(parent) => {
            let found = tree.node(parent);
            Ok(Above {
                is_missing: found.is_none(),
                is_file: is_file(found),
            })
        }
        None => Ok(Above {
            is_missing: false,
            is_file: false,
        }),
    }
}

/// Whether a file stands there.
fn is_file(found: Option<NodeRef<'_>>) -> bool
    ensures { result ≡ holds (option_map node_of found.entry) (λ node. is_file (kind_of node)) }
{
    match found {
        Some(node) => node.entry.attr.kind == Kind::File,
        None => false,
    }
}
