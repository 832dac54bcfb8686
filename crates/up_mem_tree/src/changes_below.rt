//! The changes at and below each path.
ghost use Rattle.std.specs.Prelude.{◌≡◌, ◌≢◌, ◌≤◌, ◌<◌, ◌+◌, ◌++◌, ◌∷◌, [], ℕ, List, IfSome, OnOk, None, length, slice_get};
ghost use Rattle.std.specs.List.{AllByRecursion};
ghost use Rattle.std.specs.Option.{option_copied};
ghost use Rattle.std.specs.Vec.{vec_capacity, vec_len};
ghost use Rattle.up_mem_tree.specs.Kept.{Stands, paths_of, slots_of};
ghost use Rattle.up_mem_tree.specs.Slots.{IsDeepest};
ghost use Rattle.up_mem_tree.specs.Starts.{IsStartOf};
ghost use Rattle.up_mem_tree.specs.ChangesBelow.{AreNoted, CanNote, CanNoteRecord, HasRoomAt, HasRoomFrom, Notes, NotesWay, noted_all, noted_in};
ghost use Rattle.up_log_tree.specs.Changes.{changes_under, path_of_change};
ghost use Rattle.up_log_tree.specs.Orders.{has_path};

use crate::kept::Kept;
use std::alloc::AllocError;
use up_entry::Rec;
use up_names::Path;

/// The positions of the records that change a path or one below it, in order. It stands at the number of the path's slot.
#[derive(Drop)]
pub(crate) struct Under {
    pub(crate) positions: Vec<u64>,
}

/// The path that a record changes.
pub(crate) fn path_of_change(rec: &Rec) -> Option<&Path>
    ensures { option_copied result ≡ path_of_change rec.now }
{
    match rec {
        Rec::Put(entry, _) => Some(&entry.name),
        Rec::Delete(name) => Some(name),
        Rec::Snap(_) => None,
    }
}

// ---- room

/// Makes room for one more position.
pub(crate) fn reserve_one(positions: &mut Vec<u64>) -> Result<(), AllocError>
    ensures items { positions.new.items ≡ positions.old.items }
    ensures room { OnOk result (vec_len positions.new < vec_capacity positions.new) }
{
    positions.reserve(1)
}

/// Makes room for one more position at a number.
fn reserve_at(changes_below: &mut Vec<Under>, id: usize) -> Result<(), AllocError>
    requires { id < length changes_below.old.items }
    ensures same { noted_all changes_below.new.items ≡ noted_all changes_below.old.items }
    ensures others { (i : ℕ) → i ≢ id → slice_get changes_below.new.items i
        ≡ slice_get changes_below.old.items i }
    ensures room { OnOk result (HasRoomAt changes_below.new.items id) }
{
    reserve_one(&mut changes_below[id].positions)
}

/// Makes room at the slots of the first elements of a path. The way up begins at the slot of the longest prefix that has one.
fn reserve_way(
    changes_below: &mut Vec<Under>,
    kept: &Kept,
    path: &Path,
    start: Option<(u64, usize)>,
) -> Result<(), AllocError>
    requires stands { Stands kept.now }
    requires deepest { IsDeepest (paths_of kept.now) (slots_of kept.now) path.now start }
    requires enough { length (slots_of kept.now) ≤ length changes_below.old.items }
    ensures same { noted_all changes_below.new.items ≡ noted_all changes_below.old.items }
    ensures room { OnOk result (HasRoomFrom changes_below.new.items (slots_of kept.now) path.now 0) }
{
    let Some((depth, deepest)) = start else {
        return Ok(());
    };
    let mut id = deepest;
    for _up in 0..depth {
        if let Err(fault) = reserve_at(changes_below, id) {
            return Err(fault);
        }
        let Some(above) = kept.id_above(id) else {
            unreachable!()
        };
        id = above;
    }
    reserve_at(changes_below, id)
}

/// Puts an empty list behind the others, where there is none at the next number yet.
fn add_spare(changes_below: &mut Vec<Under>, next: usize) -> Result<(), AllocError>
    requires { next ≤ length changes_below.old.items }
    ensures noted { (i : ℕ) → noted_in (noted_all changes_below.new.items) i
        ≡ noted_in (noted_all changes_below.old.items) i }
    ensures others { (i : ℕ) → i < next → slice_get changes_below.new.items i
        ≡ slice_get changes_below.old.items i }
    ensures size { length changes_below.old.items ≤ length changes_below.new.items }
    ensures some { OnOk result (next < length changes_below.new.items) }
{
    if next < changes_below.len() {
        return Ok(());
    }
    if let Err(fault) = changes_below.reserve(1) {
        return Err(fault);
    }
    let alloc = *changes_below.allocator();
    changes_below.push_reserved(Under {
        positions: Vec::new(alloc),
    });
    Ok(())
}

/// Makes room at the next number, where a path that has no slot yet gets one.
fn reserve_spare(changes_below: &mut Vec<Under>, next: usize) -> Result<(), AllocError>
    requires { next ≤ length changes_below.old.items }
    ensures noted { (i : ℕ) → noted_in (noted_all changes_below.new.items) i
        ≡ noted_in (noted_all changes_below.old.items) i }
    ensures others { (i : ℕ) → i < next → slice_get changes_below.new.items i
        ≡ slice_get changes_below.old.items i }
    ensures size { length changes_below.old.items ≤ length changes_below.new.items }
    ensures room { OnOk result (HasRoomAt changes_below.new.items next) }
{
    match add_spare(changes_below, next) {
        Ok(()) => reserve_at(changes_below, next),
        Err(fault) => Err(fault),
    }
}

/// Makes room to note a record. What is noted stays as it is, whatever the answer.
pub(crate) fn make_room(
    changes_below: &mut Vec<Under>,
    kept: &Kept,
    rec: &Rec,
    start: Option<(u64, usize)>,
) -> Result<(), AllocError>
    requires stands { Stands kept.now }
    requires start { IsStartOf kept.now rec.now start }
    requires noted { AreNoted kept.now.log.items (slots_of kept.now)
        (noted_all changes_below.old.items) }
    ensures noted { AreNoted kept.now.log.items (slots_of kept.now)
        (noted_all changes_below.new.items) }
    ensures room { OnOk result (CanNoteRecord changes_below.new.items (slots_of kept.now) rec.now) }
{
    match path_of_change(rec) {
        Some(path) => make_room_for(changes_below, kept, path, start),
        None => Ok(()),
    }
}

/// Makes room to note a record that changes a path.
fn make_room_for(
    changes_below: &mut Vec<Under>,
    kept: &Kept,
    path: &Path,
    start: Option<(u64, usize)>,
) -> Result<(), AllocError>
    requires stands { Stands kept.now }
    requires deepest { IsDeepest (paths_of kept.now) (slots_of kept.now) path.now start }
    requires enough { length (slots_of kept.now) ≤ length changes_below.old.items }
    ensures noted { (i : ℕ) → noted_in (noted_all changes_below.new.items) i
        ≡ noted_in (noted_all changes_below.old.items) i }
    ensures size { length changes_below.old.items ≤ length changes_below.new.items }
    ensures room { OnOk result (CanNote changes_below.new.items (slots_of kept.now) path.now) }
{
    match reserve_way(changes_below, kept, path, start) {
        Ok(()) => reserve_spare(changes_below, kept.slots.len()),
        Err(fault) => Err(fault),
    }
}

// ---- notes

/// Notes a position at a number.
fn note_at(changes_below: &mut Vec<Under>, id: usize, position: u64)
    requires { HasRoomAt changes_below.old.items id }
    ensures more { noted_in (noted_all changes_below.new.items) id
        ≡ noted_in (noted_all changes_below.old.items) id ++ position ∷ [] }
    ensures others { (i : ℕ) → i ≢ id → slice_get changes_below.new.items i
        ≡ slice_get changes_below.old.items i }
    ensures size { length changes_below.new.items ≡ length changes_below.old.items }
{
    changes_below[id].positions.push_reserved(position);
}

/// Notes a position at the slots of the first elements of a path, and answers whether the path has a slot.
fn note_way(
    changes_below: &mut Vec<Under>,
    kept: &Kept,
    path: &Path,
    start: Option<(u64, usize)>,
    position: u64,
) -> bool
    requires stands { Stands kept.now }
    requires deepest { IsDeepest (paths_of kept.now) (slots_of kept.now) path.now start }
    requires room { HasRoomFrom changes_below.old.items (slots_of kept.now) path.now 0 }
    ensures notes { NotesWay (slots_of kept.now) path.now 0 position
        changes_below.old.items changes_below.new.items }
    ensures named { result ≡ has_path (paths_of kept.now) path.now }
{
    let Some((depth, deepest)) = start else {
        return false;
    };
    let mut id = deepest;
    for _up in 0..depth {
        note_at(changes_below, id, position);
        let Some(above) = kept.id_above(id) else {
            unreachable!()
        };
        id = above;
    }
    note_at(changes_below, id, position);
    depth == path.len()
}

/// Notes the position of a record that changes a path. It takes no memory.
fn note_for(
    changes_below: &mut Vec<Under>,
    kept: &Kept,
    path: &Path,
    start: Option<(u64, usize)>,
    position: u64,
)
    requires stands { Stands kept.now }
    requires deepest { IsDeepest (paths_of kept.now) (slots_of kept.now) path.now start }
    requires room { CanNote changes_below.old.items (slots_of kept.now) path.now }
    ensures { Notes (slots_of kept.now) (paths_of kept.now) path.now position
        changes_below.old.items changes_below.new.items }
{
    if !note_way(changes_below, kept, path, start, position) {
        note_at(changes_below, kept.slots.len(), position);
    }
}

/// Notes a record that is to be entered next. It takes no memory.
pub(crate) fn note(
    changes_below: &mut Vec<Under>,
    kept: &Kept,
    rec: &Rec,
    start: Option<(u64, usize)>,
)
    requires stands { Stands kept.now }
    requires start { IsStartOf kept.now rec.now start }
    requires room { CanNoteRecord changes_below.old.items (slots_of kept.now) rec.now }
    ensures path { IfSome (path_of_change rec.now) (λ path. Notes (slots_of kept.now)
        (paths_of kept.now) path (length kept.now.log.items + 1)
        changes_below.old.items changes_below.new.items) }
    ensures none { path_of_change rec.now ≡ None → changes_below.new ≡ changes_below.old }
{
    if let Some(path) = path_of_change(rec) {
        note_for(changes_below, kept, path, start, kept.log.len() as u64 + 1);
    }
}

// ---- what was noted

/// The positions above `above` of the records that change a path or one below it, in order. They are found by bisection.
pub(crate) fn changes_above<'a>(
    changes_below: &'a [Under],
    kept: &Kept,
    path: &Path,
    above: u64,
) -> &'a [u64]
    requires stands { Stands kept.now }
    requires noted { AreNoted kept.now.log.items (slots_of kept.now) (noted_all changes_below.now) }
    ensures { result.now ≡ changes_under kept.now.log.items path.now above }
{
    match kept.id_of(path) {
        Some(id) => positions_above(positions_at(changes_below, id), above),
        None => &[],
    }
}

/// The positions at a number.
fn positions_at(changes_below: &[Under], id: usize) -> &[u64]
    ensures { result.now ≡ noted_in (noted_all changes_below.now) id }
{
    match changes_below.get(id) {
        Some(under) => under.positions.as_slice(),
        None => &[],
    }
}

/// Those of some positions that are above `above`: the last ones.
fn positions_above(positions: &[u64], above: u64) -> &[u64]
    ensures { (front rest : List ℕ) → positions.now ≡ front ++ rest
        → AllByRecursion (λ position. position ≤ above) front
        → AllByRecursion (λ position. above < position) rest
        → result.now ≡ rest }
{
    let first = first_above(positions, above);
    &positions[first..]
}

/// The place from which on they are above `above`.
fn first_above(positions: &[u64], above: u64) -> usize
    ensures within { result ≤ length positions.now }
    ensures first { (front rest : List ℕ) → positions.now ≡ front ++ rest
        → AllByRecursion (λ position. position ≤ above) front
        → AllByRecursion (λ position. above < position) rest
        → result ≡ length front }
{
    let mut low = 0;
    let mut high = positions.len();
    while low < high {
        let middle = low + (high - low) / 2;
        if positions[middle] <= above {
            low = middle + 1;
        } else {
            high = middle;
        }
    }
    low
}
