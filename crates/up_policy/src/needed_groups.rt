//! Which groups of other owners have to be loaded.
ghost use Rattle.std.specs.Prelude.{◌≡◌, if◌then◌else◌, OnErr, OnOk};
ghost use Rattle.up_policy.specs.Reached.{AddsPart, is_wanted, needed, needed_by, with_path, with_paths};

use crate::facts::Facts;
use crate::governors::governor;
use crate::loaded::Loaded;
use crate::members::items_in;
use crate::met::Met;
use crate::names::Names;
use std::alloc::{AllocError, Global};
use up_access::Rule;
use up_names::{Path, User};

/// Adds the groups whose texts have to be loaded before the rights on a path can be told, behind what the list holds:
/// those of other owners that are reached from the text that governs the path and that have no answer yet, in order of
/// first mention and without repeats. They are the same for each user. The path's owner is the tree's; a path of a
/// snapshot tree needs none.
///
/// An `Err` may have added the first of them.
#[tactic(auto, unfolding(crate::specs::Reached::needed), using(crate::proofs::NeedLemmas::adds_none))]
pub fn needs<F: Facts>(
    alloc: Global,
    facts: &F,
    loaded: &Loaded,
    _user: &User,
    path: &Path,
    out: &mut Names,
) -> Result<(), AllocError>
    requires { path.now.owner ≡ (F.tree facts.now).owner }
    ensures added { OnOk result
        (out.new ≡ with_paths out.old
        (needed (F.tree facts.now) (F.group_paths facts.now) loaded.now path.now)) }
    ensures part { OnErr result
        (AddsPart out.old out.new
        (needed (F.tree facts.now) (F.group_paths facts.now) loaded.now path.now)) }
{
    match governor(facts, path) {
        Some(text) => add_needed(alloc, facts, loaded, text.rules(), out),
        None => Ok(()),
    }
}

/// Adds the needed groups of a text with these rules.
fn add_needed<F: Facts>(
    alloc: Global,
    facts: &F,
    loaded: &Loaded,
    rules: &[Rule],
    out: &mut Names,
) -> Result<(), AllocError>
    ensures added { OnOk result
        (out.new ≡ with_paths out.old
        (needed_by (F.tree facts.now) (F.group_paths facts.now) loaded.now rules.now)) }
    ensures part { OnErr result
        (AddsPart out.old out.new
        (needed_by (F.tree facts.now) (F.group_paths facts.now) loaded.now rules.now)) }
{
    let mut met = Met::new(alloc, loaded.random());
    met.add_named(rules)?;
    let mut next = 0;
    while let Some(group) = met.get(next) {
        add_wanted(facts, loaded, group, out)?;
        let items = items_in(facts, loaded, group);
        met.add_groups(items)?;
        next += 1;
    }
    Ok(())
}

/// Adds a group, where it has to be loaded.
fn add_wanted<F: Facts>(
    facts: &F,
    loaded: &Loaded,
    group: &Path,
    out: &mut Names,
) -> Result<(), AllocError>
    ensures added { OnOk result
        (out.new ≡ (if is_wanted (F.tree facts.now) loaded.now group.now
        then with_path out.old group.now
        else out.old)) }
    ensures unchanged { OnErr result (out.new ≡ out.old) }
{
    if is_wanted(facts, loaded, group) {
        out.add(group.clone()?)?;
    }
    Ok(())
}

/// Whether a group has to be loaded: it is another owner's, and has no answer yet.
fn is_wanted<F: Facts>(facts: &F, loaded: &Loaded, group: &Path) -> bool
    ensures { result ≡ is_wanted (F.tree facts.now) loaded.now group.now }
{
    group.owner() != facts.owner() && loaded.answer(group).is_none()
}
