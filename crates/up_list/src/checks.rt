//! What each request on a tree is tested for first: links, and then rights.
ghost use Rattle.std.specs.Prelude.{◌≡◌, IfOk, IsSome, true};
ghost use Rattle.std.specs.Option.{option_and_then, option_map};
ghost use Rattle.up_list.specs.Entries.{if_link};
ghost use Rattle.up_list.specs.Checks.{at_link, check, first_link, IsChecked, lacking, tested};
ghost use Rattle.up_list.specs.Founds.{entry_found};
ghost use Rattle.up_list.specs.Looks.{rights};
ghost use Rattle.up_list.specs.Rooted.{IsRooted};

use crate::found::Found;
use crate::onlooker::Onlooker;
use std::alloc::{AllocError, Global};
use up_entry::Kind;
use up_names::Path;
use up_rights::{Right, RightSet};
use up_wire::Reply;

/// The refusal for want of a right, where `None` stands for any right.
#[tactic(auto, unfolding(crate::specs::Checks::lacking))]
fn lacking(held: RightSet, needed: Option<Right>) -> Option<Reply>
    ensures { result ≡ lacking held needed }
{
    if held.is_empty() {
        return Some(Reply::Private);
    }
    match needed {
        Some(right) if !held.has(right) => Some(Reply::Permission(right)),
        _ => None,
    }
}

/// The link that is met on the way to a path: at its shortest prefix at which one stands. Where `itself` is false, the path
/// itself is not looked at.
///
/// Nothing stands below a link, so that it can only be the last item on the way.
#[tactic(auto, unfolding(crate::specs::Checks::ways_before))]
pub(crate) fn link_met<'a, O: Onlooker>(
    alloc: Global,
    onlooker: &'a O,
    path: &Path,
    itself: bool,
) -> Result<Option<Found<'a>>, AllocError>
    ensures rooted { IfOk result (λ found. IsSome found
        → IsRooted (O.look onlooker.now).owner (O.look onlooker.now).tree) }
    ensures found { IfOk result (λ found. option_map entry_found found
        ≡ first_link (O.look onlooker.now).tree (tested itself path.now)) }
{
    if itself {
        return link_on_way(alloc, onlooker, path);
    }
    let above = path.parent()?;
    match &above {
        Some(parent) => link_on_way(alloc, onlooker, parent),
        None => Ok(None),
    }
}

/// The link that is met on the way to a path or at it.
#[tactic(auto, using(crate::proofs::LinkLemmas::first_link_on_way))]
fn link_on_way<'a, O: Onlooker>(
    alloc: Global,
    onlooker: &'a O,
    path: &Path,
) -> Result<Option<Found<'a>>, AllocError>
    ensures rooted { IsRooted (O.look onlooker.now).owner (O.look onlooker.now).tree }
    ensures found { IfOk result (λ found. option_map entry_found found
        ≡ first_link (O.look onlooker.now).tree (tested true path.now)) }
{
    Ok(if_link(onlooker.item_on_way(alloc, path)?))
}

/// The item, where it is a link.
fn if_link(found: Option<Found>) -> Option<Found>
    ensures { option_map entry_found result
        ≡ option_and_then if_link (option_map entry_found found.entry) }
{
    let found = found?;
    match found.entry().attr.kind {
        Kind::Link => Some(found),
        Kind::File | Kind::Directory => {
            drop(found);
            None
        }
    }
}

/// The reply at a link that is met.
fn at_link<O: Onlooker>(alloc: Global, onlooker: &O, link: &Found) -> Result<Reply, AllocError>
    requires { (entry_found link.now).name.owner ≡ (O.look onlooker.now).owner }
    ensures { IfOk result (λ reply. reply ≡ at_link (O.look onlooker.now) (entry_found link.now)) }
{
    let held = onlooker.rights(alloc, &link.entry().name)?;
    if held.is_empty() {
        return Ok(Reply::Private);
    }
    Ok(Reply::FollowLink(link.shown(alloc, held.has(Right::Read))?))
}

/// The same, of a link that is let go.
fn at_met_link<O: Onlooker>(alloc: Global, onlooker: &O, link: Found) -> Result<Reply, AllocError>
    requires { (entry_found link).name.owner ≡ (O.look onlooker.now).owner }
    ensures { IfOk result (λ reply. reply ≡ at_link (O.look onlooker.now) (entry_found link.entry)) }
{
    let reply = at_link(alloc, onlooker, &link);
    drop(link);
    reply
}

/// The refusal for want of a right on a path, or else the rights of the user on it. `None` stands for any right.
fn pass_rights<O: Onlooker>(
    alloc: Global,
    onlooker: &O,
    path: &Path,
    needed: Option<Right>,
) -> Result<Result<RightSet, Reply>, AllocError>
    requires { path.now.owner ≡ (O.look onlooker.now).owner }
    ensures { IfOk result
        (λ passed. IsChecked (lacking (rights (O.look onlooker.now) path.now) needed)
        (rights (O.look onlooker.now) path.now) passed) }
{
    let held = onlooker.rights(alloc, path)?;
    match lacking(held, needed) {
        Some(refusal) => Ok(Err(refusal)),
        None => Ok(Ok(held)),
    }
}

/// Tests links and then rights: a refusal, or else the rights of the user on the path. `None` stands for any right.
#[tactic(auto, using(crate::proofs::LinkLemmas::link_owned), unfolding(crate::specs::Checks::check))]
pub(crate) fn pass<O: Onlooker>(
    alloc: Global,
    onlooker: &O,
    path: &Path,
    itself: bool,
    needed: Option<Right>,
) -> Result<Result<RightSet, Reply>, AllocError>
    requires { path.now.owner ≡ (O.look onlooker.now).owner }
    ensures { IfOk result
        (λ passed. IsChecked (check (O.look onlooker.now) (tested itself path.now) path.now needed)
        (rights (O.look onlooker.now) path.now) passed) }
{
    match link_met(alloc, onlooker, path, itself)? {
        Some(link) => Ok(Err(at_met_link(alloc, onlooker, link)?)),
        None => pass_rights(alloc, onlooker, path, needed),
    }
}

/// Tests links and then rights: a refusal, or `None` where all is passed. Where `itself` is false, a link at the path itself is
/// not met. As the right that is needed, `None` stands for any.
pub fn check<O: Onlooker>(
    alloc: Global,
    onlooker: &O,
    path: &Path,
    itself: bool,
    needed: Option<Right>,
) -> Result<Option<Reply>, AllocError>
    requires { path.now.owner ≡ (O.look onlooker.now).owner }
    ensures { IfOk result (λ refusal. refusal
        ≡ check (O.look onlooker.now) (tested itself path.now) path.now needed) }
{
    match pass(alloc, onlooker, path, itself, needed)? {
        Ok(_) => Ok(None),
        Err(refusal) => Ok(Some(refusal)),
    }
}
