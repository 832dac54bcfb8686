//! Which groups have to be loaded for a request.
ghost use Rattle.std.specs.Prelude.{◌≡◌, ◌≤◌, ◌<◌, ◌∷◌, true, IfOk, OnOk, length, map, slice_get};
ghost use Rattle.std.specs.List.{flat_map};
ghost use Rattle.std.specs.Map.{keys_of};
ghost use Rattle.up_answers.specs.Needs.{event_places_to, items_where, needs, needs_asked, owner_places, places, places_for, watch_places, where_ordinary};
ghost use Rattle.std.specs.Option.{option_and_then, option_copied};
ghost use Rattle.up_list.specs.Globs.{is_candidate, literal_path};
ghost use Rattle.up_names.specs.PathNames.{extended, is_under};
ghost use Rattle.up_foreign.specs.Items.{AreOwned};
ghost use Rattle.up_foreign.specs.Kept.{Keeps};
ghost use Rattle.up_foreign.specs.Watched.{watched_by};
ghost use Rattle.up_log_tree.specs.Changes.{changes_under, path_of_change};
ghost use Rattle.up_log_tree.specs.Logs.{Limits};
ghost use Rattle.up_list.specs.Asking.{owner_asked};
ghost use Rattle.up_policy.specs.Reached.{with_paths};
ghost use Rattle.up_log_tree.specs.Trees.{tree_at, tree_of};
ghost use Rattle.up_foreign.specs.Foreign.{IsOwnChange, in_tree, needed_in, places_at};
ghost use Rattle.up_foreign.specs.Noted.{AreNoted};
ghost use Rattle.up_foreign.specs.Reaching.{NeedsNothing};
ghost use Rattle.up_foreign.specs.Times.{AreBothNoted};
ghost use Rattle.up_foreign.specs.Trees.{log_over};
ghost use Rattle.up_tree.specs.States.{log_of};

use crate::items::{items_matching, items_under};
use crate::kept::KeptSearch;
use crate::left::{Left, Range};
use crate::noted::{Noted, Times};
use std::alloc::{AllocError, Global};
use up_disk::Disk;
use up_entry::{EntryFault, Rec};
use up_list::{MemView, ReadRequest, asked_of};
use up_maps::OrderedMap;
use up_mem_tree::MemTree;
use up_names::{Control, Path, User};
use up_pattern::Pattern;
use up_policy::{Loaded, Names, needs};
use up_tree::TreeState;
use up_wire::Request;

/// The groups that have to be loaded for a user's request: those of other owners that are reached from the texts that govern the
/// places that the request looks at, in order of first mention, and that have no answer yet.
pub fn foreign<D: Disk>(
    alloc: Global,
    state: &TreeState<D>,
    user: &User,
    request: &Request,
    loaded: &Loaded,
) -> Result<Names, AllocError>
    ensures { IfOk result (λ names. names
        ≡ needs (log_of state.now) loaded.now user.now request.now) }
{
    foreign_in(alloc, state.memory(), user, request, loaded)
}

/// The groups that have to be loaded for a user's request whose texts were read: those that [`foreign`] gives. It goes on from what was
/// kept of the call before with less loaded, where the tree still has as many records, and keeps as much for the next. After an `Err`
/// nothing is known of what is kept.
pub fn foreign_asked<D: Disk>(
    alloc: Global,
    state: &TreeState<D>,
    user: &User,
    asked: &ReadRequest,
    loaded: &Loaded,
    kept: &mut KeptSearch,
) -> Result<Names, AllocError>
    requires { Keeps state.now.owner state.now.log loaded.now kept.old }
    ensures needed { IfOk result (λ names. names
        ≡ needs_asked (log_of state.now) loaded.now user.now asked.now) }
    ensures kept { OnOk result (Keeps state.now.owner state.now.log loaded.now kept.new) }
{
    names_for(alloc, state.memory(), user, asked, loaded, kept)
}

/// The groups that have to be loaded for a user's request over a tree in memory: those of other owners that are reached from the texts
/// that govern the places that the request looks at, in order of first mention, and that have no answer yet.
#[tactic(auto, unfolding(up_answers::specs::Needs::needs))]
pub fn foreign_in(
    alloc: Global,
    tree: &MemTree,
    user: &User,
    request: &Request,
    loaded: &Loaded,
) -> Result<Names, AllocError>
    ensures { (limits : Limits) → IfOk result (λ names. names
        ≡ needs (log_over limits tree.now) loaded.now user.now request.now) }
{
    match asked_of(alloc, user, request) {
        Ok(asked) => {
            let names = names_once(alloc, tree, user, &asked, loaded);
            drop(asked);
            names
        }
        Err(EntryFault::Invalid(_)) => Ok(Names::new(alloc, loaded.random())),
        Err(EntryFault::OutOfMemory) => Err(AllocError),
    }
}

/// The same over a tree in memory, for a request whose texts were read.
fn names_once(
    alloc: Global,
    tree: &MemTree,
    user: &User,
    asked: &ReadRequest,
    loaded: &Loaded,
) -> Result<Names, AllocError>
    ensures { (limits : Limits) → IfOk result (λ names. names
        ≡ needs_asked (log_over limits tree.now) loaded.now user.now asked.now) }
{
    let mut kept = KeptSearch::new(alloc, loaded.random());
    let names = names_for(alloc, tree, user, asked, loaded, &mut kept);
    drop(kept);
    names
}

/// The same, which goes on from what was kept.
#[tactic(auto, unfolding(up_answers::specs::Needs::needs_asked))]
fn names_for(
    alloc: Global,
    tree: &MemTree,
    user: &User,
    asked: &ReadRequest,
    loaded: &Loaded,
    kept: &mut KeptSearch,
) -> Result<Names, AllocError>
    requires { Keeps tree.now.owner tree.now.log loaded.now kept.old }
    ensures needed { (limits : Limits) → IfOk result (λ names. names
        ≡ needs_asked (log_over limits tree.now) loaded.now user.now asked.now) }
    ensures kept { OnOk result (Keeps tree.now.owner tree.now.log loaded.now kept.new) }
{
    let mut names = Names::new(alloc, loaded.random());
    match note_asked(alloc, tree, user, asked, loaded, kept, &mut names) {
        Ok(()) => Ok(names),
        Err(fault) => {
            drop(names);
            Err(fault)
        }
    }
}

/// Adds what is needed at the places of a request: nothing, where no text names a group of another owner.
fn note_asked(
    alloc: Global,
    tree: &MemTree,
    user: &User,
    asked: &ReadRequest,
    loaded: &Loaded,
    kept: &mut KeptSearch,
    names: &mut Names,
) -> Result<(), AllocError>
    requires { Keeps tree.now.owner tree.now.log loaded.now kept.old }
    ensures added { (limits : Limits) → OnOk result (names.new
        ≡ with_paths names.old (flat_map (needed_in tree.now.owner loaded.now)
        (places_for (log_over limits tree.now) user.now asked.now))) }
    ensures kept { OnOk result (Keeps tree.now.owner tree.now.log loaded.now kept.new) }
{
    if needs_nothing(tree, loaded) {
        return Ok(());
    }
    note_places(alloc, tree, user, asked, loaded, kept, names)
}

/// Whether no text of the tree names a group of another owner, or has named one once, and no group was loaded: then nothing is needed,
/// whatever is looked at. It looks at no text.
fn needs_nothing(tree: &MemTree, loaded: &Loaded) -> bool
    ensures { result ≡ true → NeedsNothing tree.now loaded.now }
{
    let given = loaded.len();
    if given == 0 {
        return tree.others().len() == 0;
    }
    false
}

/// Adds what is needed at the places of a request: none where its path is not of the tree.
fn note_places(
    alloc: Global,
    tree: &MemTree,
    user: &User,
    asked: &ReadRequest,
    loaded: &Loaded,
    kept: &mut KeptSearch,
    names: &mut Names,
) -> Result<(), AllocError>
    requires { Keeps tree.now.owner tree.now.log loaded.now kept.old }
    ensures added { (limits : Limits) → OnOk result (names.new
        ≡ with_paths names.old (flat_map (needed_in tree.now.owner loaded.now)
        (places_for (log_over limits tree.now) user.now asked.now))) }
    ensures kept { OnOk result (Keeps tree.now.owner tree.now.log loaded.now kept.new) }
{
    if asked.owner() != tree.owner() {
        return Ok(());
    }
    if user == tree.owner() {
        note_for_owner(tree, asked, loaded, kept, names)
    } else {
        note_for_others(alloc, tree, user, asked, loaded, kept, names)
    }
}

/// Adds what the tree's owner needs: at the ordinary path of a Put or a Delete.
#[tactic(auto, unfolding(up_answers::specs::Needs::owner_places))]
fn note_for_owner(
    tree: &MemTree,
    asked: &ReadRequest,
    loaded: &Loaded,
    kept: &mut KeptSearch,
    names: &mut Names,
) -> Result<(), AllocError>
    requires { Keeps tree.now.owner tree.now.log loaded.now kept.old }
    ensures added { (limits : Limits) → OnOk result (names.new
        ≡ with_paths names.old (flat_map (needed_in tree.now.owner loaded.now)
        (owner_places (log_over limits tree.now) asked.now))) }
    ensures kept { OnOk result (Keeps tree.now.owner tree.now.log loaded.now kept.new) }
{
    match asked {
        ReadRequest::Delete(path) => note_ordinary(tree, path, loaded, kept, names),
        ReadRequest::Put(put) => note_ordinary(tree, &put.entry.name, loaded, kept, names),
        ReadRequest::Lookup(_)
        | ReadRequest::WhichAccess(_)
        | ReadRequest::GroupText(_)
        | ReadRequest::Glob(_)
        | ReadRequest::Watch(_, _) => Ok(()),
    }
}

/// Adds what anybody else needs.
#[tactic(auto, unfolding(up_answers::specs::Needs::places))]
fn note_for_others(
    alloc: Global,
    tree: &MemTree,
    user: &User,
    asked: &ReadRequest,
    loaded: &Loaded,
    kept: &mut KeptSearch,
    names: &mut Names,
) -> Result<(), AllocError>
    requires owned { owner_asked asked.now ≡ tree.now.owner }
    requires kept { Keeps tree.now.owner tree.now.log loaded.now kept.old }
    ensures added { (limits : Limits) → OnOk result (names.new
        ≡ with_paths names.old (flat_map (needed_in tree.now.owner loaded.now)
        (places (log_over limits tree.now) asked.now))) }
    ensures kept { OnOk result (Keeps tree.now.owner tree.now.log loaded.now kept.new) }
{
    match asked {
        ReadRequest::GroupText(_) => Ok(()),
        ReadRequest::Lookup(path) | ReadRequest::WhichAccess(path) | ReadRequest::Delete(path) => {
            kept.note(tree, path, loaded, names)
        }
        ReadRequest::Put(put) => kept.note(tree, &put.entry.name, loaded, names),
        ReadRequest::Glob(pattern) => note_glob(alloc, tree, user, pattern, loaded, kept, names),
        ReadRequest::Watch(path, sequence) => {
            note_watch(alloc, tree, user, path, *sequence, loaded, kept, names)
        }
    }
}

/// Adds what was needed at a path, as the tree was after its first `n` records.
#[tactic(auto, unfolding(up_log_tree::specs::Rights::facts_of))]
pub(crate) fn note_then(
    alloc: Global,
    tree: &MemTree,
    n: u64,
    user: &User,
    path: &Path,
    loaded: &Loaded,
    names: &mut Names,
) -> Result<(), AllocError>
    requires owned { path.now.owner ≡ tree.now.owner }
    requires within { n ≤ length tree.now.log }
    ensures { OnOk result (names.new
        ≡ with_paths names.old (needed_in tree.now.owner loaded.now
        (tree_at tree.now.log n, path.now))) }
{
    needs(alloc, &MemView::at(tree, n), loaded, user, path, names)
}

/// Adds what is needed at a path that is ordinary; at any other nothing is.
fn note_ordinary(
    tree: &MemTree,
    path: &Path,
    loaded: &Loaded,
    kept: &mut KeptSearch,
    names: &mut Names,
) -> Result<(), AllocError>
    requires { Keeps tree.now.owner tree.now.log loaded.now kept.old }
    ensures added { (limits : Limits) → OnOk result (names.new
        ≡ with_paths names.old (flat_map (needed_in tree.now.owner loaded.now)
        (where_ordinary (log_over limits tree.now) path.now))) }
    ensures kept { OnOk result (Keeps tree.now.owner tree.now.log loaded.now kept.new) }
{
    match path.control_kind() {
        Control::Ordinary => kept.note(tree, path, loaded, names),
        Control::Access | Control::Group => Ok(()),
    }
}

/// Adds what is needed at each of these paths, in order. A text that governs several of them is looked at once, and one that was looked at
/// before not at all.
#[tactic(auto, using(crate::proofs::PlaceLemmas::key_owned, crate::proofs::PlaceLemmas::each_next, crate::proofs::PlaceLemmas::each_end))]
fn note_each(
    alloc: Global,
    tree: &MemTree,
    user: &User,
    paths: &OrderedMap<Path, ()>,
    loaded: &Loaded,
    known: Noted,
    names: &mut Names,
) -> Result<(), AllocError>
    requires owned { AreOwned tree.now.owner (keys_of paths.now.entries) }
    requires noted { AreNoted tree.now loaded.now known names.old }
    ensures { OnOk result (names.new
        ≡ with_paths names.old (flat_map (needed_in tree.now.owner loaded.now)
        (map (in_tree (tree_of tree.now.log)) (keys_of paths.now.entries)))) }
{
    let mut noted = known;
    for i in 0..u64::MAX {
        let Some(path) = paths.key_at(i) else {
            return Ok(());
        };
        noted.note_now(alloc, tree, user, path, loaded, names)?;
    }
    // No memory holds so many.
    Err(AllocError)
}

/// Adds what a Glob needs: at the path of its literal front, and then at the items that match.
#[tactic(auto, using(crate::proofs::PlaceLemmas::glob_noted, crate::proofs::PlaceLemmas::front_owned))]
fn note_glob(
    alloc: Global,
    tree: &MemTree,
    user: &User,
    pattern: &Pattern,
    loaded: &Loaded,
    kept: &mut KeptSearch,
    names: &mut Names,
) -> Result<(), AllocError>
    requires owned { pattern.now.owner ≡ tree.now.owner }
    requires kept { Keeps tree.now.owner tree.now.log loaded.now kept.old }
    ensures added { OnOk result (names.new
        ≡ with_paths names.old (flat_map (needed_in tree.now.owner loaded.now)
        ((tree_of tree.now.log, literal_path pattern.now)
        ∷ items_where (is_candidate pattern.now) (tree_of tree.now.log)))) }
    ensures kept { OnOk result (Keeps tree.now.owner tree.now.log loaded.now kept.new) }
{
    let front = literal_path(alloc, pattern)?;
    let items = items_matching(alloc, tree, pattern, &front)?;
    note_front(alloc, tree, user, &front, &items, loaded, kept, names)
}

/// Adds what is needed at a path and then at others, by the search that is kept for the first.
fn note_front(
    alloc: Global,
    tree: &MemTree,
    user: &User,
    front: &Path,
    items: &OrderedMap<Path, ()>,
    loaded: &Loaded,
    kept: &mut KeptSearch,
    names: &mut Names,
) -> Result<(), AllocError>
    requires owned { AreOwned tree.now.owner (keys_of items.now.entries) }
    requires kept { Keeps tree.now.owner tree.now.log loaded.now kept.old }
    ensures added { OnOk result (names.new
        ≡ with_paths names.old (flat_map (needed_in tree.now.owner loaded.now)
        (in_tree (tree_of tree.now.log) front.now
        ∷ map (in_tree (tree_of tree.now.log)) (keys_of items.now.entries)))) }
    ensures kept { OnOk result (Keeps tree.now.owner tree.now.log loaded.now kept.new) }
{
    let mut noted = Noted::new(alloc);
    noted.note_kept(tree, front, loaded, kept, names)?;
    note_each(alloc, tree, user, items, loaded, noted, names)?;
    Ok(())
}

/// The path of the literal elements in front of a pattern.
///
/// A pattern's text has at most 4,096 bytes, and so this path is never too long.
fn literal_path(alloc: Global, pattern: &Pattern) -> Result<Path, AllocError>
    ensures { IfOk result (λ path. path ≡ literal_path pattern.now) }
{
    let mut path = Path::root(pattern.owner().clone()?)?;
    for at in 0..pattern.len() {
        let Some(name) = pattern.literal(at) else {
            return Ok(path);
        };
        path = within(&path, name)?;
    }
    Ok(path)
}

/// The path with one element more.
#[tactic(auto, using(up_list::proofs::GlobLemmas::joined_is))]
fn within(dir: &Path, name: &str) -> Result<Path, AllocError>
    ensures { IfOk result (λ path. path ≡ extended dir.now name.now) }
{
    match dir.join(name) {
        Ok(path) => Ok(path),
        Err(_) => Err(AllocError),
    }
}

/// Adds what a Watch needs: at its path, by the search that is kept, and behind it.
fn note_watch(
    alloc: Global,
    tree: &MemTree,
    user: &User,
    path: &Path,
    sequence: i64,
    loaded: &Loaded,
    kept: &mut KeptSearch,
    names: &mut Names,
) -> Result<(), AllocError>
    requires owned { path.now.owner ≡ tree.now.owner }
    requires kept { Keeps tree.now.owner tree.now.log loaded.now kept.old }
    ensures added { (limits : Limits) → OnOk result (names.new
        ≡ with_paths names.old (flat_map (needed_in tree.now.owner loaded.now)
        ((tree_of tree.now.log, path.now)
        ∷ watch_places (log_over limits tree.now) path.now sequence))) }
    ensures kept { OnOk result (Keeps tree.now.owner tree.now.log loaded.now kept.new) }
{
    let mut noted = Noted::new(alloc);
    noted.note_kept(tree, path, loaded, kept, names)?;
    note_watched(alloc, tree, user, path, sequence, loaded, noted, names)?;
    Ok(())
}

/// Adds what a Watch needs behind its path: at the paths of its events, each now and directly after its record; or at the items that
/// there are.
fn note_watched(
    alloc: Global,
    tree: &MemTree,
    user: &User,
    path: &Path,
    sequence: i64,
    loaded: &Loaded,
    noted: Noted,
    names: &mut Names,
) -> Result<(), AllocError>
    requires owned { path.now.owner ≡ tree.now.owner }
    requires noted { AreNoted tree.now loaded.now noted names.old }
    ensures { (limits : Limits) → OnOk result (names.new
        ≡ with_paths names.old (flat_map (needed_in tree.now.owner loaded.now)
        (watch_places (log_over limits tree.now) path.now sequence))) }
{
    match looked_at(sequence) {
        Watched::Above(above) => note_events(alloc, tree, user, path, above, loaded, noted, names),
        Watched::Items => note_under(alloc, tree, user, path, loaded, noted, names),
        Watched::Nothing => {
            drop(noted);
            Ok(())
        }
    }
}

/// What a Watch looks at behind its path: the records above a sequence, the items that there are, or nothing.
pub(crate) enum Watched {
    Above(u64),
    Items,
    Nothing,
}

/// What a Watch looks at, by its sequence.
fn looked_at(sequence: i64) -> Watched
    ensures { result ≡ watched_by sequence }
{
    if sequence >= 0 {
        Watched::Above(sequence as u64)
    } else if sequence == -1 {
        Watched::Items
    } else {
        Watched::Nothing
    }
}

/// Adds what is needed at the items under a path.
#[tactic(auto, using(crate::proofs::PlaceLemmas::items_noted))]
fn note_under(
    alloc: Global,
    tree: &MemTree,
    user: &User,
    path: &Path,
    loaded: &Loaded,
    noted: Noted,
    names: &mut Names,
) -> Result<(), AllocError>
    requires owned { path.now.owner ≡ tree.now.owner }
    requires noted { AreNoted tree.now loaded.now noted names.old }
    ensures { OnOk result (names.new
        ≡ with_paths names.old (flat_map (needed_in tree.now.owner loaded.now)
        (items_where (λ name. is_under name path.now) (tree_of tree.now.log)))) }
{
    let items = items_under(alloc, tree, path)?;
    note_each(alloc, tree, user, &items, loaded, noted, names)
}

/// Adds what is needed at the paths of the records above a sequence that are under a path. It goes through these records alone.
fn note_events(
    alloc: Global,
    tree: &MemTree,
    user: &User,
    path: &Path,
    above: u64,
    loaded: &Loaded,
    noted: Noted,
    names: &mut Names,
) -> Result<(), AllocError>
    requires owned { path.now.owner ≡ tree.now.owner }
    requires noted { AreNoted tree.now loaded.now noted names.old }
    ensures { (limits : Limits) → OnOk result (names.new
        ≡ with_paths names.old (flat_map (needed_in tree.now.owner loaded.now)
        (event_places_to (log_over limits tree.now) above path.now (length tree.now.log)))) }
{
    tree.recall();
    let positions = tree.positions_under(path, above);
    let range = Range {
        path,
        above,
        changes: positions.len(),
    };
    note_positions(alloc, tree, user, positions, range, loaded, noted, names)
}

/// Adds what is needed at the paths that the records at these positions change: those above a position that change a path under this one. A
/// text is looked at once, and again where it or a Group file has changed since. From the 256th position on, those before the first at
/// which something that is left can be needed are passed over by bisection; and once all was found, those behind are not looked at.
fn note_positions(
    alloc: Global,
    tree: &MemTree,
    user: &User,
    positions: &[u64],
    range: Range,
    loaded: &Loaded,
    noted: Noted,
    names: &mut Names,
) -> Result<(), AllocError>
    requires owned { range.path.now.owner ≡ tree.now.owner }
    requires are { positions.now ≡ changes_under tree.now.log range.path.now range.above }
    requires noted { AreNoted tree.now loaded.now noted names.old }
    ensures { OnOk result (names.new
        ≡ with_paths names.old (flat_map (needed_in tree.now.owner loaded.now)
        (flat_map (places_at tree.now.log) positions.now))) }
{
    let mut times = Times::new(alloc, noted);
    let mut left = Left::new(alloc, tree, loaded, range, 0)?;
    let mut next = 0;
    for count in 0..u64::MAX {
        left.look_ahead(alloc, tree, loaded, range, count)?;
        next = left.next(names, positions, next);
        let Some(position) = position_at(positions, next) else {
            return Ok(());
        };
        note_record(alloc, tree, user, position, loaded, &mut times, names)?;
        next += 1;
    }
    // No memory holds so many.
    Err(AllocError)
}

/// The position at a place, where there is one.
fn position_at(positions: &[u64], i: usize) -> Option<u64>
    ensures { result ≡ slice_get positions.now i }
{
    positions.get(i).copied()
}

/// Adds what is needed at the path that record `n`, from 1, changes: as the tree is now, and as it was directly after the record.
fn note_record(
    alloc: Global,
    tree: &MemTree,
    user: &User,
    n: u64,
    loaded: &Loaded,
    times: &mut Times,
    names: &mut Names,
) -> Result<(), AllocError>
    requires change { IsOwnChange tree.now n }
    requires noted { AreBothNoted tree.now loaded.now times.old names.old }
    ensures added { OnOk result (names.new
        ≡ with_paths names.old (flat_map (needed_in tree.now.owner loaded.now)
        (places_at tree.now.log n))) }
    ensures noted { OnOk result (AreBothNoted tree.now loaded.now times.new names.new) }
{
    let Some(path) = changed_path(tree.rec_at(n)) else {
        return Ok(());
    };
    times.note_both(alloc, tree, n, user, path, loaded, names)
}

/// The path that a record changes.
fn changed_path(rec: Option<&Rec>) -> Option<&Path>
    ensures { option_copied result ≡ option_and_then path_of_change (option_copied rec.entry) }
{
    match rec? {
        Rec::Put(entry, _) => Some(&entry.name),
        Rec::Delete(path) => Some(path),
        Rec::Snap(_) => None,
    }
}
