//! The items of a tree that are looked at for a request: a walk down from a path.
ghost use Rattle.std.specs.Prelude.{◌≡◌, ◌+◌, ◌++◌, ◌∷◌, [], ◌<◌, ◌&&◌, IfOk, OnOk, drop, filter, if◌then◌else◌, is_some, length};
ghost use Rattle.std.specs.Map.{keys_of};
ghost use Rattle.up_list.specs.Globs.{is_candidate, literal_path, matches_front};
ghost use Rattle.up_names.specs.PathNames.{is_under};
ghost use Rattle.up_log_tree.specs.Orders.{with_path};
ghost use Rattle.up_log_tree.specs.Trees.{children, node_at, tree_of};
ghost use Rattle.up_foreign.specs.Items.{AreOwned, IsStart, wanted};
ghost use Rattle.up_foreign.specs.Walks.{noted};

use std::alloc::{AllocError, Global};
use up_maps::OrderedMap;
use up_mem_tree::MemTree;
use up_names::Path;
use up_pattern::Pattern;

/// Which items are looked for.
#[derive(Drop)]
pub(crate) enum Wanted<'a> {
    /// Those under a path, itself included.
    Under(&'a Path),
    /// Those of more than so many elements that match the first elements of a pattern.
    Matching(&'a Pattern, u64),
}

/// What a walk has found so far, and the places whose children it has still to look at.
#[derive(Drop)]
pub(crate) struct Walk {
    pub(crate) found: OrderedMap<Path, ()>,
    pub(crate) places: Vec<Path>,
}

impl Wanted<'_> {
    /// Whether a path is looked for.
    fn holds(&self, path: &Path) -> bool
        ensures { result ≡ wanted self.now path.now }
    {
        match self {
            Wanted::Under(above) => path.is_under(above),
            Wanted::Matching(pattern, front) => *front < path.len() && matches_front(pattern, path),
        }
    }
}

/// Whether the elements of a path match the first elements of a pattern.
#[tactic(auto, using(crate::proofs::FrontLemmas::matched_all))]
fn matches_front(pattern: &Pattern, path: &Path) -> bool
    ensures { result ≡ matches_front pattern.now.elements path.now.elements }
{
    for at in 0..path.len() {
        if !matches_at(pattern, path, at) {
            return false;
        }
    }
    true
}

/// Whether the element of a path at a place matches that of a pattern.
#[tactic(auto, using(crate::proofs::FrontLemmas::at_literal, crate::proofs::FrontLemmas::at_pattern, crate::proofs::FrontLemmas::at_past))]
fn matches_at(pattern: &Pattern, path: &Path, at: u64) -> bool
    requires { at < length path.now.elements }
    ensures { matches_front (drop at pattern.now.elements) (drop at path.now.elements)
        ≡ (result && matches_front (drop (at + 1) pattern.now.elements)
        (drop (at + 1) path.now.elements)) }
{
    let Some(name) = path.element(at) else {
        return false;
    };
    if at >= pattern.len() {
        return false;
    }
    match pattern.literal(at) {
        Some(text) => name == text,
        None => pattern.matches(at, name),
    }
}

impl Walk {
    /// Notes an item: it is found, and its children are still to be looked at.
    #[tactic(auto, using(crate::proofs::WalkLemmas::put_keys))]
    fn note(&mut self, path: &Path) -> Result<(), AllocError>
        ensures found { OnOk result
            (keys_of self.new.found.entries ≡ with_path path.now (keys_of self.old.found.entries)) }
        ensures places { OnOk result
            (self.new.places.items ≡ self.old.places.items ++ path.now ∷ []) }
    {
        self.places.push(path.clone()?)?;
        self.found.reserve_one()?;
        self.found.put_reserved(path.clone()?, ());
        Ok(())
    }

    /// Meets an item, which is noted where it is looked for.
    fn meet(&mut self, looked_for: &Wanted, path: &Path) -> Result<(), AllocError>
        ensures found { OnOk result (keys_of self.new.found.entries
            ≡ noted (keys_of self.old.found.entries)
            (filter (wanted looked_for.now) (path.now ∷ []))) }
        ensures places { OnOk result (self.new.places.items
            ≡ self.old.places.items ++ filter (wanted looked_for.now) (path.now ∷ [])) }
    {
        if !looked_for.holds(path) {
            return Ok(());
        }
        self.note(path)
    }
}

/// Looks at the children of a place.
#[tactic(auto, using(crate::proofs::WalkLemmas::kids_all))]
fn look_into(
    tree: &MemTree,
    looked_for: &Wanted,
    dir: &Path,
    walk: &mut Walk,
) -> Result<(), AllocError>
    ensures found { OnOk result (keys_of walk.new.found.entries
        ≡ noted (keys_of walk.old.found.entries)
        (filter (wanted looked_for.now) (children (tree_of tree.now.log) dir.now))) }
    ensures places { OnOk result (walk.new.places.items
        ≡ walk.old.places.items
        ++ filter (wanted looked_for.now) (children (tree_of tree.now.log) dir.now)) }
{
    for i in 0..u64::MAX {
        let Some(path) = tree.child(dir, i) else {
            return Ok(());
        };
        walk.meet(looked_for, path)?;
    }
    // No memory holds so many.
    Err(AllocError)
}

/// The items under a path, itself included, in order of paths.
pub(crate) fn items_under(
    alloc: Global,
    tree: &MemTree,
    path: &Path,
) -> Result<OrderedMap<Path, ()>, AllocError>
    requires { path.now.owner ≡ tree.now.owner }
    ensures found { IfOk result (λ found. keys_of found.entries
        ≡ filter (λ name. is_under name path.now) (keys_of (tree_of tree.now.log))) }
    ensures owned { IfOk result (λ found. AreOwned tree.now.owner (keys_of found.entries)) }
{
    let looked_for = Wanted::Under(path);
    items_from(alloc, tree, path, &looked_for)
}

/// The items that match the first elements of a pattern, and more of them than its literal front has, in order of paths.
pub(crate) fn items_matching(
    alloc: Global,
    tree: &MemTree,
    pattern: &Pattern,
    front: &Path,
) -> Result<OrderedMap<Path, ()>, AllocError>
    requires owned { pattern.now.owner ≡ tree.now.owner }
    requires front { front.now ≡ literal_path pattern.now }
    ensures found { IfOk result (λ found. keys_of found.entries
        ≡ filter (is_candidate pattern.now) (keys_of (tree_of tree.now.log))) }
    ensures owned { IfOk result (λ found. AreOwned tree.now.owner (keys_of found.entries)) }
{
    let looked_for = Wanted::Matching(pattern, front.len());
    items_from(alloc, tree, front, &looked_for)
}

/// The items that are looked for, in order of paths, by a walk down from a path.
fn items_from(
    alloc: Global,
    tree: &MemTree,
    start: &Path,
    looked_for: &Wanted,
) -> Result<OrderedMap<Path, ()>, AllocError>
    requires start { IsStart looked_for.now start.now }
    requires owned { start.now.owner ≡ tree.now.owner }
    ensures found { IfOk result (λ found. keys_of found.entries
        ≡ filter (wanted looked_for.now) (keys_of (tree_of tree.now.log))) }
    ensures owned { IfOk result (λ found. AreOwned tree.now.owner (keys_of found.entries)) }
{
    tree.recall();
    let mut walk = begun(alloc, tree, start, looked_for)?;
    for _ in 0..u64::MAX {
        let Some(dir) = walk.places.pop() else {
            return Ok(walk.found);
        };
        look_into(tree, looked_for, &dir, &mut walk)?;
    }
    // No memory holds so many.
    Err(AllocError)
}

/// A walk that begins at a path.
fn begun(
    alloc: Global,
    tree: &MemTree,
    start: &Path,
    looked_for: &Wanted,
) -> Result<Walk, AllocError>
    ensures found { IfOk result (λ walk. keys_of walk.found.entries
        ≡ (if is_some (node_at (tree_of tree.now.log) start.now) && wanted looked_for.now start.now
        then start.now ∷ [] else [])) }
    ensures places { IfOk result (λ walk. walk.places.items ≡ start.now ∷ []) }
{
    let mut walk = Walk {
        found: OrderedMap::new(alloc),
        places: Vec::new(alloc),
    };
    if tree.node(start).is_some() && looked_for.holds(start) {
        walk.note(start)?;
    } else {
        walk.places.push(start.clone()?)?;
    }
    Ok(walk)
}
