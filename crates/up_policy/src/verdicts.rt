//! Who has which right where.
ghost use Rattle.std.specs.Prelude.{◌≡◌, ◌↔◌, ◌&&◌, ◌++◌, IsTrue, IfOk, if◌then◌else◌, true};
ghost use Rattle.std.specs.List.{list_any};
ghost use Rattle.std.specs.Map.{keys_of};
ghost use Rattle.std.specs.Option.{option_copied};
ghost use Rattle.std.specs.Str.{bytes_eq};
ghost use Rattle.up_names.specs.UserNames.{base_of};
ghost use Rattle.up_rights.specs.RightSets.{has_right, with_right};
ghost use Rattle.up_policy.specs.Trees.{owns_snapshots};
ghost use Rattle.up_policy.specs.Governors.{governor};
ghost use Rattle.up_policy.specs.Members.{groups_in, has_user, is_user, text_of};
ghost use Rattle.up_policy.specs.Reached.{reached};
ghost use Rattle.up_policy.specs.Verdicts.{HasRight, is_control, items_for, only_looks, right_test, rights_held, text_decides, without_text};

use crate::facts::Facts;
use crate::governors::{governor_unless, owns_snapshots};
use crate::loaded::Loaded;
use crate::members::{has_user, items_in};
use crate::met::Met;
use std::alloc::{AllocError, Global};
use up_access::{AccessText, Rule};
use up_names::{Control, Path, User};
use up_rights::{Right, RightSet};

/// Whether a user has a right on a path of a tree, whose owner is the path's, under the texts that were loaded.
///
/// In a snapshot tree the base user has read and list, and nobody anything else. Otherwise the first case that fits
/// decides: the owner reads and lists; on an Access or a Group path write, create and delete are the owner's; where no
/// text governs the path, all is the owner's; and else those have the right to whom a rule of the governing text grants
/// it, by name, by domain, as everyone, or as members of a group. A group of the owner has the text of the tree, any
/// other the text that was loaded.
///
/// It costs the depth of the path and the groups that it looks at, each once; it follows groups only where no item
/// that needs none decides, and takes memory for them only then.
pub fn can<F: Facts>(
    alloc: Global,
    facts: &F,
    loaded: &Loaded,
    user: &User,
    right: Right,
    path: &Path,
) -> Result<bool, AllocError>
    requires { path.now.owner ≡ (F.tree facts.now).owner }
    ensures test { IfOk result
        (λ yes. yes
        ≡ right_test (F.tree facts.now) (F.group_paths facts.now)
        loaded.now user.now right path.now) }
    ensures meaning { IfOk result
        (λ yes. IsTrue yes ↔ HasRight (F.tree facts.now) loaded.now user.now right path.now) }
{
    right_test(alloc, facts, loaded, user, right, path)
}

/// The test of a right, case by case.
#[tactic(auto, unfolding(crate::specs::Verdicts::right_test))]
fn right_test<F: Facts>(
    alloc: Global,
    facts: &F,
    loaded: &Loaded,
    user: &User,
    right: Right,
    path: &Path,
) -> Result<bool, AllocError>
    ensures { IfOk result (λ yes. yes
        ≡ right_test (F.tree facts.now) (F.group_paths facts.now)
        loaded.now user.now right path.now) }
{
    let asker = Asker::of(user, facts.owner());
    let early = without_text(asker, facts.owner(), right, path)?;
    if let Some(answer) = early {
        return Ok(answer);
    }
    let text = governor_unless(asker.snapshots, facts, path);
    text_decides(alloc, facts, loaded, asker, right, text)
}

/// A user who asks of a tree, and what is found once for all rights.
#[derive(Clone, Copy)]
struct Asker<'a> {
    user: &'a User,
    /// Whether the tree is a snapshot tree.
    snapshots: bool,
    /// Whether the user is the tree's owner.
    owns: bool,
}

impl<'a> Asker<'a> {
    /// A user who asks of the tree of this owner.
    fn of(user: &'a User, owner: &User) -> Asker<'a>
        ensures user { result.user.now ≡ user.now }
        ensures snapshots { result.snapshots ≡ owns_snapshots owner.now }
        ensures owns { result.owns ≡ bytes_eq user.now owner.now }
    {
        Asker {
            user,
            snapshots: owns_snapshots(owner),
            owns: user == owner,
        }
    }
}

/// The set of all rights that a user has on a path of a tree, by the rules of [`can`]. The walk to the text that governs
/// the path is made once.
pub fn rights_of<F: Facts>(
    alloc: Global,
    facts: &F,
    loaded: &Loaded,
    user: &User,
    path: &Path,
) -> Result<RightSet, AllocError>
    requires { path.now.owner ≡ (F.tree facts.now).owner }
    ensures test { IfOk result
        (λ rights. rights
        ≡ rights_held (F.tree facts.now) (F.group_paths facts.now) loaded.now user.now path.now) }
    ensures meaning { IfOk result
        (λ rights. (right : Right) → IsTrue (has_right rights right)
        ↔ HasRight (F.tree facts.now) loaded.now user.now right path.now) }
{
    rights_held(alloc, facts, loaded, user, path)
}

/// The set of the rights whose test holds.
#[tactic(auto, unfolding(crate::specs::Verdicts::rights_held), using(crate::proofs::VerdictLemmas::all_held))]
fn rights_held<F: Facts>(
    alloc: Global,
    facts: &F,
    loaded: &Loaded,
    user: &User,
    path: &Path,
) -> Result<RightSet, AllocError>
    ensures { IfOk result (λ rights. rights
        ≡ rights_held (F.tree facts.now) (F.group_paths facts.now) loaded.now user.now path.now) }
{
    let asker = Asker::of(user, facts.owner());
    let text = governor_unless(asker.snapshots, facts, path);
    let read = right_by(alloc, facts, loaded, asker, Right::Read, path, text)?;
    let write = right_by(alloc, facts, loaded, asker, Right::Write, path, text)?;
    let list = right_by(alloc, facts, loaded, asker, Right::List, path, text)?;
    let create = right_by(alloc, facts, loaded, asker, Right::Create, path, text)?;
    let delete = right_by(alloc, facts, loaded, asker, Right::Delete, path, text)?;
    let rights = with_held(RightSet::empty(), Right::Read, read);
    let rights = with_held(rights, Right::Write, write);
    let rights = with_held(rights, Right::List, list);
    let rights = with_held(rights, Right::Create, create);
    Ok(with_held(rights, Right::Delete, delete))
}

/// A set with one right more, where it is held.
fn with_held(rights: RightSet, right: Right, held: bool) -> RightSet
    ensures { result ≡ (if held then with_right rights right else rights) }
{
    if held { rights.with(right) } else { rights }
}

/// The test of a right, by the text that governs the path.
#[tactic(auto, unfolding(crate::specs::Verdicts::right_test))]
fn right_by<F: Facts>(
    alloc: Global,
    facts: &F,
    loaded: &Loaded,
    asker: Asker<'_>,
    right: Right,
    path: &Path,
    text: Option<&AccessText>,
) -> Result<bool, AllocError>
    requires text { option_copied text ≡ governor (F.tree facts.now) path.now }
    requires snapshots { asker.snapshots ≡ owns_snapshots (F.tree facts.now).owner }
    requires owns { asker.owns ≡ bytes_eq asker.user.now (F.tree facts.now).owner }
    ensures { IfOk result (λ yes. yes
        ≡ right_test (F.tree facts.now) (F.group_paths facts.now)
        loaded.now asker.entry.user.now right path.now) }
{
    match without_text(asker, facts.owner(), right, path)? {
        Some(answer) => Ok(answer),
        None => text_decides(alloc, facts, loaded, asker, right, text),
    }
}

/// What is decided without the text that governs: in a snapshot tree all, and else that the owner reads and lists, and
/// that on an Access or a Group path write, create and delete are the owner's.
#[tactic(auto, unfolding(crate::specs::Verdicts::without_text))]
fn without_text(
    asker: Asker<'_>,
    owner: &User,
    right: Right,
    path: &Path,
) -> Result<Option<bool>, AllocError>
    requires snapshots { asker.snapshots ≡ owns_snapshots owner.now }
    requires owns { asker.owns ≡ bytes_eq asker.user.now owner.now }
    ensures { IfOk result
        (λ found. found ≡ without_text owner.now asker.entry.user.now right path.now) }
{
    if asker.snapshots {
        Ok(Some(only_looks(right) && is_base_of(asker.user, owner)?))
    } else if asker.owns && only_looks(right) {
        Ok(Some(true))
    } else if is_control(path) && !only_looks(right) {
        Ok(Some(asker.owns))
    } else {
        Ok(None)
    }
}

/// What the last two cases decide, by the text that governs.
#[tactic(auto, unfolding(crate::specs::Verdicts::text_decides, crate::specs::Verdicts::grants))]
fn text_decides<F: Facts>(
    alloc: Global,
    facts: &F,
    loaded: &Loaded,
    asker: Asker<'_>,
    right: Right,
    text: Option<&AccessText>,
) -> Result<bool, AllocError>
    requires { asker.owns ≡ bytes_eq asker.user.now (F.tree facts.now).owner }
    ensures { IfOk result (λ yes. yes
        ≡ text_decides (F.tree facts.now) (F.group_paths facts.now) loaded.now
        asker.entry.user.now right (option_copied text.entry)) }
{
    let Some(text) = text else {
        return Ok(asker.owns);
    };
    let rules = text.rules();
    if names_user(rules, right, asker.user) {
        return Ok(true);
    }
    reaches_user(alloc, facts, loaded, asker.user, right, rules)
}

/// Read and list leave a tree as it is.
fn only_looks(right: Right) -> bool
    ensures { result ≡ only_looks right }
{
    matches!(right, Right::Read | Right::List)
}

/// Whether a path is for an Access or a Group file.
pub fn is_control(path: &Path) -> bool
    ensures { result ≡ is_control path.now }
{
    match path.control_kind() {
        Control::Ordinary => false,
        Control::Access | Control::Group => true,
    }
}

/// Whether a user is the owner of a snapshot tree without its suffix.
fn is_base_of(user: &User, owner: &User) -> Result<bool, AllocError>
    ensures { IfOk result (λ yes. yes ≡ bytes_eq user.now (base_of owner.now)) }
{
    Ok(*user == owner.base()?)
}

/// Whether a rule that holds the right has an item that is the user, the user's domain or everyone.
fn names_user(rules: &[Rule], right: Right, user: &User) -> bool
    ensures { result ≡ list_any (is_user user.now) (items_for right rules.now) }
{
    let domain = user.domain();
    for rule in rules {
        if rule.rights.has(right) && has_user(rule.items.as_slice(), user, domain) {
            return true;
        }
    }
    false
}

/// Whether a group that is named by a rule that holds the right, or reached from one, has a text that names the user.
/// No group is looked at twice, each of its items once, and none after the first that names the user.
fn reaches_user<F: Facts>(
    alloc: Global,
    facts: &F,
    loaded: &Loaded,
    user: &User,
    right: Right,
    rules: &[Rule],
) -> Result<bool, AllocError>
    ensures { IfOk result (λ yes. yes
        ≡ list_any (has_user (text_of (F.tree facts.now) loaded.now) user.now)
        (reached (text_of (F.tree facts.now) loaded.now)
        (F.group_paths facts.now ++ keys_of loaded.now)
        (groups_in (items_for right rules.now)))) }
{
    let mut met = Met::new(alloc, loaded.random());
    met.add_granted(rules, right)?;
    let domain = user.domain();
    let mut next = 0;
    while let Some(group) = met.get(next) {
        let items = items_in(facts, loaded, group);
        if met.look(items, user, domain)? {
            return Ok(true);
        }
        next += 1;
    }
    Ok(false)
}
