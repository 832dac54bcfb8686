//! The report on a tree.
ghost use Rattle.std.specs.Prelude.{◌≡◌, ◌++◌, [], codes, true, Some, None, IfOk, OnOk, slice_get};
ghost use Rattle.std.specs.List.{flat_map};
ghost use Rattle.std.specs.Map.{keys_of};
ghost use Rattle.std.specs.Option.{option_copied};
ghost use Rattle.up_names.specs.PathNames.{canonical};
ghost use Rattle.up_log_tree.specs.Rights.{governing_prefix};
ghost use Rattle.up_log_tree.specs.Trees.{Tree as OneTree, after_record, tree_of};
ghost use Rattle.up_share.specs.Known.{AreKnown, HasTold, line_of, paths_in};
ghost use Rattle.up_share.specs.Report.{file_line, files_of, is_file_at, readers_at, report, unread_in};
ghost use Rattle.up_text.specs.Words.{coded};

use crate::known::Known;
use crate::search::{PathSet, add_path};
use std::alloc::{AllocError, Global};
use std::hash::RandomState;
use up_disk::Disk;
use up_entry::{Kind, Rec};
use up_maps::OrderedMap;
use up_names::Path;
use up_text::push_word;
use up_tree::TreeState;

/// The whole text of the report: a line for each file in order of paths, and then one for each group that is unread for some file. It
/// costs the records, the files, and each text that governs once, each times a logarithm.
#[tactic(auto, unfolding(crate::specs::Report::report))]
pub(crate) fn report_text<D: Disk>(
    alloc: Global,
    random: RandomState,
    state: &TreeState<D>,
) -> Result<Vec<u8>, AllocError>
    ensures { IfOk result (λ text. text.items
        ≡ report state.now.owner (tree_of state.now.log)) }
{
    let mut text = Vec::new(alloc);
    let mut known = Known::new(alloc, random);
    add_files(alloc, state, &mut known, &mut text)?;
    known.add_unread(&mut text)?;
    Ok(text)
}

/// Adds the lines of the files.
fn add_files<D: Disk>(
    alloc: Global,
    state: &TreeState<D>,
    known: &mut Known,
    text: &mut Vec<u8>,
) -> Result<(), AllocError>
    requires loaded { known.old.loaded ≡ [] }
    requires words { known.old.words.entries ≡ [] }
    requires unread { known.old.unread.entries ≡ [] }
    ensures text { OnOk result (text.new.items ≡ text.old.items
        ++ flat_map (λ path. file_line path
        (readers_at state.now.owner (tree_of state.now.log) path)) (files_of (tree_of state.now.log))) }
    ensures unread { OnOk result (keys_of known.new.unread.entries
        ≡ unread_in state.now.owner (tree_of state.now.log)) }
{
    let mut paths = OrderedMap::new(alloc);
    add_paths(state, &mut paths)?;
    tell_paths(alloc, state, &paths, known, text)
}

/// Adds all paths at which something stands.
#[tactic(auto, using(crate::proofs::PathLemmas::entered_none, crate::proofs::PathLemmas::entered_next, crate::proofs::PathLemmas::entered_all))]
fn add_paths<D: Disk>(state: &TreeState<D>, paths: &mut PathSet) -> Result<(), AllocError>
    requires { paths.old.entries ≡ [] }
    ensures { OnOk result (paths.new.entries ≡ paths_in (tree_of state.now.log)) }
{
    for n in 0..state.position() {
        let Some(rec) = state.rec_at(n + 1) else {
            unreachable!()
        };
        enter(paths, rec)?;
    }
    Ok(())
}

/// What a record makes of the paths.
#[tactic(auto, using(crate::proofs::PathLemmas::entered_put, crate::proofs::PathLemmas::entered_delete, crate::proofs::PathLemmas::entered_snap))]
fn enter(paths: &mut PathSet, rec: &Rec) -> Result<(), AllocError>
    ensures { OnOk result ((tree : OneTree) → paths.old.entries ≡ paths_in tree
        → paths.new.entries ≡ paths_in (after_record tree rec.now)) }
{
    match rec {
        Rec::Put(entry, _) => add_path(paths, &entry.name),
        Rec::Delete(path) => {
            let _was = paths.remove(path);
            Ok(())
        }
        Rec::Snap(_) => Ok(()),
    }
}

/// Adds what is told of each path.
#[tactic(auto, using(crate::proofs::KnownLemmas::told_start, crate::proofs::KnownLemmas::told_next, crate::proofs::KnownLemmas::told_all, crate::proofs::KnownLemmas::unread_all))]
fn tell_paths<D: Disk>(
    alloc: Global,
    state: &TreeState<D>,
    paths: &PathSet,
    known: &mut Known,
    text: &mut Vec<u8>,
) -> Result<(), AllocError>
    requires paths { paths.now.entries ≡ paths_in (tree_of state.now.log) }
    requires loaded { known.old.loaded ≡ [] }
    requires words { known.old.words.entries ≡ [] }
    requires unread { known.old.unread.entries ≡ [] }
    ensures text { OnOk result (text.new.items ≡ text.old.items
        ++ flat_map (λ path. file_line path
        (readers_at state.now.owner (tree_of state.now.log) path)) (files_of (tree_of state.now.log))) }
    ensures unread { OnOk result (keys_of known.new.unread.entries
        ≡ unread_in state.now.owner (tree_of state.now.log)) }
{
    for i in 0..paths.len() {
        let Some(path) = path_at(paths, i) else {
            unreachable!()
        };
        tell_path(alloc, state, path, known, text)?;
    }
    Ok(())
}

/// The path at a place, in order.
fn path_at(paths: &PathSet, place: u64) -> Option<&Path>
    ensures { option_copied result ≡ slice_get (keys_of paths.now.entries) place }
{
    paths.key_at(place)
}

/// Adds the line of a path, where a file stands there.
#[tactic(auto, using(crate::proofs::KnownLemmas::told_nothing))]
fn tell_path<D: Disk>(
    alloc: Global,
    state: &TreeState<D>,
    path: &Path,
    known: &mut Known,
    text: &mut Vec<u8>,
) -> Result<(), AllocError>
    requires { AreKnown state.now.owner (tree_of state.now.log) known.old }
    ensures { OnOk result (HasTold state.now.owner (tree_of state.now.log) path.now
        known.old known.new text.old.items text.new.items) }
{
    if is_file_at(state, path) {
        tell_file(alloc, state, path, known, text)?;
    }
    Ok(())
}

/// Whether a file stands at a path.
fn is_file_at<D: Disk>(state: &TreeState<D>, path: &Path) -> bool
    ensures { result ≡ is_file_at (tree_of state.now.log) path.now }
{
    match state.node(path) {
        Some(node) => matches!(node.entry.attr.kind, Kind::File),
        None => false,
    }
}

/// Adds the line of a file.
fn tell_file<D: Disk>(
    alloc: Global,
    state: &TreeState<D>,
    path: &Path,
    known: &mut Known,
    text: &mut Vec<u8>,
) -> Result<(), AllocError>
    requires known { AreKnown state.now.owner (tree_of state.now.log) known.old }
    requires file { is_file_at (tree_of state.now.log) path.now ≡ true }
    ensures { OnOk result (HasTold state.now.owner (tree_of state.now.log) path.now
        known.old known.new text.old.items text.new.items) }
{
    match governing_dir(state, path)? {
        Some(dir) => tell_governed(alloc, state, path, &dir, known, text),
        None => tell_ungoverned(alloc, state, path, known, text),
    }
}

/// Adds the line of a file that the text in a directory governs.
#[tactic(auto, using(crate::proofs::KnownLemmas::told_governed))]
fn tell_governed<D: Disk>(
    alloc: Global,
    state: &TreeState<D>,
    path: &Path,
    dir: &Path,
    known: &mut Known,
    text: &mut Vec<u8>,
) -> Result<(), AllocError>
    requires known { AreKnown state.now.owner (tree_of state.now.log) known.old }
    requires file { is_file_at (tree_of state.now.log) path.now ≡ true }
    requires governs { governing_prefix (tree_of state.now.log) path.now ≡ Some dir.now }
    ensures { OnOk result (HasTold state.now.owner (tree_of state.now.log) path.now
        known.old known.new text.old.items text.new.items) }
{
    // That the owner is no snapshot user is told here.
    state.recall();
    known.learn(alloc, state, dir)?;
    let Some(word) = known.words.get(dir) else {
        unreachable!()
    };
    push_line(text, path, word.as_slice())
}

/// Adds the line of a file that no text governs.
#[tactic(auto, using(crate::proofs::KnownLemmas::told_ungoverned))]
fn tell_ungoverned<D: Disk>(
    alloc: Global,
    state: &TreeState<D>,
    path: &Path,
    known: &mut Known,
    text: &mut Vec<u8>,
) -> Result<(), AllocError>
    requires known { AreKnown state.now.owner (tree_of state.now.log) known.old }
    requires file { is_file_at (tree_of state.now.log) path.now ≡ true }
    requires none { governing_prefix (tree_of state.now.log) path.now ≡ None }
    ensures { OnOk result (HasTold state.now.owner (tree_of state.now.log) path.now
        known.old known.new text.old.items text.new.items) }
{
    // That the owner is no snapshot user is told here.
    state.recall();
    let word = known.search(alloc, state, &[])?;
    push_line(text, path, word.as_slice())
}

/// The directory of the text that governs a path, where one does.
#[tactic(auto, using(up_list::proofs::ViewLemmas::cut_past, crate::proofs::PathLemmas::tree_whole))]
fn governing_dir<D: Disk>(state: &TreeState<D>, path: &Path) -> Result<Option<Path>, AllocError>
    ensures { IfOk result (λ dir. dir ≡ governing_prefix (tree_of state.now.log) path.now) }
{
    let Some((len, _)) = state.nearest_at(path, state.position()) else {
        return Ok(None);
    };
    let mut dir = path.clone()?;
    if len < dir.len() {
        dir.shorten(len);
    }
    Ok(Some(dir))
}

/// Adds the line of a file, of whose readers this is the word.
fn push_line(text: &mut Vec<u8>, path: &Path, word: &[u8]) -> Result<(), AllocError>
    ensures { OnOk result (text.new.items ≡ text.old.items
        ++ (coded (canonical path.now) ++ codes " " ++ word.now ++ codes "\n")) }
{
    push_word(text, path.as_str().as_bytes())?;
    text.push(b' ')?;
    text.extend_from_slice(word)?;
    text.push(b'\n')?;
    Ok(())
}
