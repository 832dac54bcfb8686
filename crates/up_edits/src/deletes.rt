//! Delete: the refusal, or the record that is added.
ghost use Rattle.std.specs.Prelude.{◌≡◌, IfOk, IfSome, None, Ok, Err};
ghost use Rattle.up_entry.specs.declared.records.Rec.TheVariants.{Delete};
ghost use Rattle.up_answers.specs.Deletes.{delete_outcome};
ghost use Rattle.up_log_tree.specs.Fits.{Fits};
ghost use Rattle.up_edits.specs.Trees.{look_in};

use std::alloc::{AllocError, Global};
use up_entry::Rec;
use up_list::{TreeLook, check};
use up_mem_tree::MemTree;
use up_names::{Path, User};
use up_policy::Loaded;
use up_rights::Right;
use up_wire::Reply;

/// What a Delete by a user leads to: the record that is to be added, or the refusal. Links above the path and the right are tested
/// first; a link at the path is itself deleted. An `Err` is want of memory alone.
#[tactic(auto, using(crate::proofs::ChangeLemmas::delete_fitting))]
pub fn delete_record(
    alloc: Global,
    tree: &MemTree,
    loaded: &Loaded,
    user: &User,
    path: &Path,
) -> Result<Result<Rec, Reply>, AllocError>
    requires { path.now.owner ≡ tree.now.owner }
    ensures outcome { IfOk result (λ outcome. outcome
        ≡ delete_outcome (look_in tree.now loaded.now user.now) path.now) }
    ensures fits { IfOk result (λ led. IfOk led (Fits tree.now.owner tree.now.log)) }
{
    let led = delete_leads(alloc, tree, loaded, user, path)?;
    Ok(led)
}

/// The same, without that the record fits.
fn delete_leads(
    alloc: Global,
    tree: &MemTree,
    loaded: &Loaded,
    user: &User,
    path: &Path,
) -> Result<Result<Rec, Reply>, AllocError>
    requires { path.now.owner ≡ tree.now.owner }
    ensures { IfOk result (λ outcome. outcome
        ≡ delete_outcome (look_in tree.now loaded.now user.now) path.now) }
{
    match refusal_of(alloc, tree, loaded, user, path)? {
        None => Ok(Ok(Rec::Delete(path.clone()?))),
        Some(refusal) => Ok(Err(refusal)),
    }
}

/// The refusal of a Delete, if it is refused.
#[tactic(auto, unfolding(up_answers::specs::Deletes::delete_outcome))]
fn refusal_of(
    alloc: Global,
    tree: &MemTree,
    loaded: &Loaded,
    user: &User,
    path: &Path,
) -> Result<Option<Reply>, AllocError>
    requires { path.now.owner ≡ tree.now.owner }
    ensures refused { IfOk result (λ found. IfSome found (λ refusal.
        delete_outcome (look_in tree.now loaded.now user.now) path.now ≡ Err refusal)) }
    ensures led { result ≡ Ok None
        → delete_outcome (look_in tree.now loaded.now user.now) path.now ≡ Ok (Delete path.now) }
{
    let look = TreeLook::new(tree, loaded, user);
    if let Some(refusal) = check(alloc, &look, path, false, Some(Right::Delete))? {
        return Ok(Some(refusal));
    }
    if tree.node(path).is_none() {
        return Ok(Some(Reply::NotExist));
    }
    if tree.child(path, 0).is_some() {
        return Ok(Some(Reply::NotEmpty));
    }
    Ok(None)
}
