//! The walk that finds the rows of a Glob: from the directory of the literal elements in front, level by level down.
ghost use Rattle.std.specs.Prelude.{◌≡◌, ◌++◌, ◌<◌, ◌-◌, ℕ, suc, [], ◌∷◌, IfOk, OnOk, Some, is_some, filter, length, map};
ghost use Rattle.std.specs.List.{AllByRecursion};
ghost use Rattle.std.specs.Option.{option_map, option_to_list};
ghost use Rattle.up_entry.specs.Showing.{shown_as};
ghost use Rattle.up_names.specs.PathNames.{PathName};
ghost use Rattle.up_log_tree.specs.Rights.{access_node};
ghost use Rattle.up_list.specs.Entries.{entry_at};
ghost use Rattle.up_list.specs.Deciding.{IsDecided};
ghost use Rattle.up_list.specs.Founds.{entry_found};
ghost use Rattle.up_list.specs.Globs.{is_literal};
ghost use Rattle.up_list.specs.Places.{ArePlaces, IsBelow, IsIn, IsNextLevel, IsOwned, IsPlace, Meets, path_in};
ghost use Rattle.up_list.specs.Rooted.{IsRooted};
ghost use Rattle.up_list.specs.Walking.{element_at, goes_on, has_row, is_match, met_from, met_in, row_held, walked};

use crate::decided::Decided;
use crate::found::Found;
use crate::onlooker::Onlooker;
use std::alloc::{AllocError, Global};
use std::mem::replace;
use up_entry::{Entry, Kind};
use up_names::Path;
use up_pattern::Pattern;
use up_rights::{Right, RightSet};
use up_wire::Row;

/// A directory that is still to be looked into, and what was decided of rights under the text that governs it.
#[derive(Drop)]
pub(crate) struct Place {
    pub(crate) path: Path,
    pub(crate) decided: Decided,
}

/// What a walk has found so far, and where it goes on.
#[derive(Drop)]
pub(crate) struct Walk {
    pub(crate) rows: Vec<Row>,
    pub(crate) places: Vec<Place>,
}

/// The rights of the user on an item in a directory, and what is decided with them for the paths below it: anew where the item
/// is a directory with an Access file of its own, else what was decided for the directory.
fn rights_below<O: Onlooker>(
    alloc: Global,
    onlooker: &O,
    entry: &Entry,
    decided: &mut Decided,
) -> Result<(RightSet, Decided), AllocError>
    requires owned { entry.now.name.owner ≡ (O.look onlooker.now).owner }
    requires rooted { IsRooted (O.look onlooker.now).owner (O.look onlooker.now).tree }
    ensures { (at : ℕ) (dir : PathName) → IsIn (O.look onlooker.now) at dir entry.now
        → IsDecided (O.look onlooker.now) dir decided.old
        → IsBelow (O.look onlooker.now) dir entry.now decided.new result }
{
    if has_own_access(alloc, onlooker, entry)? {
        let mut own = Decided::nothing();
        let held = own.rights(alloc, onlooker, &entry.name)?;
        return Ok((held, own));
    }
    let held = decided.rights(alloc, onlooker, &entry.name)?;
    Ok((held, *decided))
}

/// Whether an item is a directory with an Access file in it. In nothing else there can be one.
fn has_own_access<O: Onlooker>(
    alloc: Global,
    onlooker: &O,
    entry: &Entry,
) -> Result<bool, AllocError>
    requires rooted { IsRooted (O.look onlooker.now).owner (O.look onlooker.now).tree }
    ensures { IfOk result (λ has. entry_at (O.look onlooker.now).tree entry.now.name
        ≡ Some entry.now
        → has ≡ is_some (access_node (O.look onlooker.now).tree entry.now.name)) }
{
    if entry.attr.kind != Kind::Directory {
        return Ok(false);
    }
    onlooker.has_access(alloc, &entry.name)
}

/// Meets an item in a directory of `at` elements: its row is found, where it matches the last element of the pattern or is a link;
/// a directory that matches another is walked into.
fn meet<O: Onlooker>(
    alloc: Global,
    onlooker: &O,
    pattern: &Pattern,
    at: u64,
    found: &Found,
    decided: &mut Decided,
    walk: &mut Walk,
) -> Result<(), AllocError>
    requires owned { (entry_found found.now).name.owner ≡ (O.look onlooker.now).owner }
    requires rooted { IsRooted (O.look onlooker.now).owner (O.look onlooker.now).tree }
    requires at { at < length pattern.now.elements }
    ensures { (dir : PathName) → IsIn (O.look onlooker.now) at dir (entry_found found.now)
        → IsDecided (O.look onlooker.now) dir decided.old
        → OnOk result
        (Meets (O.look onlooker.now) pattern.now at walk.old walk.new (entry_found found.now ∷ []))
        × IsDecided (O.look onlooker.now) dir decided.new }
{
    let entry = found.entry();
    let (held, below) = rights_below(alloc, onlooker, entry, decided)?;
    if has_row(pattern, at, entry) {
        return walk.find(pattern, at, found, held);
    }
    if goes_on(pattern, at, entry) {
        return walk.go_on(entry, below);
    }
    Ok(())
}

/// Meets an item in a directory, where its name matches the element of the pattern.
fn meet_matching<O: Onlooker>(
    alloc: Global,
    onlooker: &O,
    pattern: &Pattern,
    at: u64,
    found: &Found,
    decided: &mut Decided,
    walk: &mut Walk,
) -> Result<(), AllocError>
    requires owned { (entry_found found.now).name.owner ≡ (O.look onlooker.now).owner }
    requires rooted { IsRooted (O.look onlooker.now).owner (O.look onlooker.now).tree }
    requires at { at < length pattern.now.elements }
    ensures { (dir : PathName) → IsIn (O.look onlooker.now) at dir (entry_found found.now)
        → IsDecided (O.look onlooker.now) dir decided.old
        → OnOk result
        (Meets (O.look onlooker.now) pattern.now at walk.old walk.new
        (filter (is_match pattern.now at) (entry_found found.now ∷ [])))
        × IsDecided (O.look onlooker.now) dir decided.new }
{
    if !is_match(pattern, at, found.entry()) {
        return Ok(());
    }
    meet(alloc, onlooker, pattern, at, found, decided, walk)
}

/// Meets the items of a directory, in order, whose names match the element of the pattern.
fn meet_all<O: Onlooker>(
    alloc: Global,
    onlooker: &O,
    pattern: &Pattern,
    at: u64,
    items: &[Found],
    mut decided: Decided,
    walk: &mut Walk,
) -> Result<(), AllocError>
    requires owned { AllByRecursion (IsOwned (O.look onlooker.now)) (map entry_found items.now) }
    requires rooted { IsRooted (O.look onlooker.now).owner (O.look onlooker.now).tree }
    requires at { at < length pattern.now.elements }
    ensures { (dir : PathName)
        → AllByRecursion (IsIn (O.look onlooker.now) at dir) (map entry_found items.now)
        → IsDecided (O.look onlooker.now) dir decided
        → OnOk result
        (Meets (O.look onlooker.now) pattern.now at walk.old walk.new
        (filter (is_match pattern.now at) (map entry_found items.now))) }
{
    for item in items {
        meet_matching(alloc, onlooker, pattern, at, item, &mut decided, walk)?;
    }
    Ok(())
}

/// Meets the item of a name, where there is one.
fn meet_named<O: Onlooker>(
    alloc: Global,
    onlooker: &O,
    pattern: &Pattern,
    at: u64,
    named: Option<Found>,
    mut decided: Decided,
    walk: &mut Walk,
) -> Result<(), AllocError>
    requires owned { AllByRecursion (IsOwned (O.look onlooker.now))
        (option_to_list (option_map entry_found named)) }
    requires rooted { IsRooted (O.look onlooker.now).owner (O.look onlooker.now).tree }
    requires at { at < length pattern.now.elements }
    ensures { (dir : PathName)
        → AllByRecursion (IsIn (O.look onlooker.now) at dir)
        (option_to_list (option_map entry_found named.entry))
        → IsDecided (O.look onlooker.now) dir decided
        → OnOk result
        (Meets (O.look onlooker.now) pattern.now at walk.old walk.new
        (option_to_list (option_map entry_found named.entry))) }
{
    let met = match &named {
        Some(found) => meet(alloc, onlooker, pattern, at, found, &mut decided, walk),
        None => Ok(()),
    };
    drop(named);
    met
}

/// Looks into a directory on the way: into the one item whose name is the element of the pattern, where that is literal; else,
/// where the user may list, into all whose names match.
fn look_into<O: Onlooker>(
    alloc: Global,
    onlooker: &O,
    pattern: &Pattern,
    at: u64,
    place: &Place,
    walk: &mut Walk,
) -> Result<(), AllocError>
    requires place { IsPlace (O.look onlooker.now) at place.now }
    requires rooted { IsRooted (O.look onlooker.now).owner (O.look onlooker.now).tree }
    requires at { at < length pattern.now.elements }
    ensures { OnOk result
        (Meets (O.look onlooker.now) pattern.now at walk.old walk.new
        (met_in (O.look onlooker.now) pattern.now at place.now.path)) }
{
    let mut decided = place.decided;
    if let Some(name) = pattern.literal(at) {
        let named = onlooker.item_in(alloc, &place.path, name)?;
        return meet_named(alloc, onlooker, pattern, at, named, decided, walk);
    }
    let held = decided.rights(alloc, onlooker, &place.path)?;
    if !held.has(Right::List) {
        return Ok(());
    }
    let items = onlooker.items_in(alloc, &place.path)?;
    meet_all(alloc, onlooker, pattern, at, &items, decided, walk)
}

/// Looks into all directories of a level, in order. Those that are walked into from them are the next level.
fn look_into_level<O: Onlooker>(
    alloc: Global,
    onlooker: &O,
    pattern: &Pattern,
    at: u64,
    walk: &mut Walk,
) -> Result<(), AllocError>
    requires places { ArePlaces (O.look onlooker.now) at walk.old.places.items }
    requires rooted { IsRooted (O.look onlooker.now).owner (O.look onlooker.now).tree }
    requires at { at < length pattern.now.elements }
    ensures { OnOk result (IsNextLevel (O.look onlooker.now) pattern.now at walk.old walk.new) }
{
    let places = replace(&mut walk.places, Vec::new(alloc));
    look_into_all(alloc, onlooker, pattern, at, &places, walk)
}

/// Looks into these directories, in order.
fn look_into_all<O: Onlooker>(
    alloc: Global,
    onlooker: &O,
    pattern: &Pattern,
    at: u64,
    places: &[Place],
    walk: &mut Walk,
) -> Result<(), AllocError>
    requires places { ArePlaces (O.look onlooker.now) at places.now }
    requires rooted { IsRooted (O.look onlooker.now).owner (O.look onlooker.now).tree }
    requires at { at < length pattern.now.elements }
    ensures { OnOk result
        (Meets (O.look onlooker.now) pattern.now at walk.old walk.new
        (met_from (O.look onlooker.now) pattern.now at (map path_in places.now))) }
{
    for place in places {
        look_into(alloc, onlooker, pattern, at, place, walk)?;
    }
    Ok(())
}

/// The rows that a walk finds from a directory on, level by level: it has the first elements of the pattern.
pub(crate) fn walk_from<O: Onlooker>(
    alloc: Global,
    onlooker: &O,
    pattern: &Pattern,
    front: Path,
) -> Result<Vec<Row>, AllocError>
    requires owned { front.owner ≡ (O.look onlooker.now).owner }
    requires rooted { IsRooted (O.look onlooker.now).owner (O.look onlooker.now).tree }
    ensures { IfOk result (λ rows. rows.items
        ≡ walked (O.look onlooker.now) pattern.now
        (length pattern.now.elements - length front.elements) (length front.elements)
        (front ∷ [])) }
{
    let first = front.len();
    let mut walk = Walk {
        rows: Vec::new(alloc),
        places: Vec::new(alloc),
    };
    walk.places.push(Place {
        path: front,
        decided: Decided::nothing(),
    })?;
    for at in first..pattern.len() {
        look_into_level(alloc, onlooker, pattern, at, &mut walk)?;
    }
    Ok(walk.rows)
}

/// Whether the name of an item matches the element of the pattern.
fn is_match(pattern: &Pattern, at: u64, entry: &Entry) -> bool
    requires { at < length pattern.now.elements }
    ensures { at < length entry.now.name.elements → result ≡ is_match pattern.now at entry.now }
{
    let Some(name) = entry.name.element(at) else {
        return false;
    };
    match pattern.literal(at) {
        Some(text) => name == text,
        None => pattern.matches(at, name),
    }
}

/// Whether an item that matches an element of a pattern may have a row: where it matches the last, or is a link.
fn has_row(pattern: &Pattern, at: u64, entry: &Entry) -> bool
    requires { at < length pattern.now.elements }
    ensures { result ≡ has_row pattern.now at entry.now }
{
    let len = pattern.len();
    at + 1 == len || entry.attr.kind == Kind::Link
}

/// Whether an item that matches an element of a pattern is walked into: a directory that does not match the last.
fn goes_on(pattern: &Pattern, at: u64, entry: &Entry) -> bool
    requires { at < length pattern.now.elements }
    ensures { result ≡ goes_on pattern.now at entry.now }
{
    let len = pattern.len();
    entry.attr.kind == Kind::Directory && at + 1 != len
}

/// Whether the element of a pattern at a place is literal.
#[tactic(auto, using(crate::proofs::PatternLemmas::literal_here))]
fn is_literal(pattern: &Pattern, at: u64) -> bool
    requires { at < length pattern.now.elements }
    ensures { result ≡ is_literal (element_at pattern.now at) }
{
    pattern.literal(at).is_some()
}

impl Walk {
    /// Goes on in a directory later.
    fn go_on(&mut self, entry: &Entry, decided: Decided) -> Result<(), AllocError>
        ensures rows { OnOk result (self.new.rows.items ≡ self.old.rows.items) }
        ensures places { OnOk result (self.new.places.items
            ≡ self.old.places.items ++ record { path = entry.now.name; decided = decided } ∷ []) }
    {
        let path = entry.name.clone()?;
        self.places.push(Place { path, decided })?;
        Ok(())
    }

    /// Finds the row of an item that matches an element of the pattern: where that is literal, a right has to be held on it.
    fn find(
        &mut self,
        pattern: &Pattern,
        at: u64,
        found: &Found,
        held: RightSet,
    ) -> Result<(), AllocError>
        requires { at < length pattern.now.elements }
        ensures rows { OnOk result (self.new.rows.items
            ≡ self.old.rows.items
            ++ option_to_list (row_held pattern.now at held (entry_found found.now))) }
        ensures places { self.new.places.items ≡ self.old.places.items }
    {
        if is_literal(pattern, at) && held.is_empty() {
            return Ok(());
        }
        self.push_row(pattern, at, found, held)
    }

    /// Adds the row of an item, as it is shown by these rights on it.
    fn push_row(
        &mut self,
        pattern: &Pattern,
        at: u64,
        found: &Found,
        held: RightSet,
    ) -> Result<(), AllocError>
        requires { at < length pattern.now.elements }
        ensures rows { OnOk result (self.new.rows.items
            ≡ self.old.rows.items ++ record {
              entry = shown_as held.read (entry_found found.now);
              rest = length pattern.now.elements - suc at;
            } ∷ []) }
        ensures places { self.new.places.items ≡ self.old.places.items }
    {
        let entry = found.shown(*self.rows.allocator(), held.has(Right::Read))?;
        let len = pattern.len();
        let rest = len - (at + 1);
        self.rows.push(Row { entry, rest })?;
        Ok(())
    }
}
