//! What a request on a path of a tree leads to.
ghost use Rattle.std.specs.Prelude.{◌≡◌, IfOk};
ghost use Rattle.up_answers.specs.Answers.{tree_outcome};
ghost use Rattle.up_edits.specs.Trees.{look_in};
ghost use Rattle.up_dir.specs.Forms.{IsFormed};
ghost use Rattle.up_list.specs.Asking.{owner_asked};
ghost use Rattle.up_list.specs.Reads.{group_text_reply};
ghost use Rattle.up_foreign.specs.Trees.{log_over};
ghost use Rattle.up_policy.specs.Loadings.{Loading};
ghost use Rattle.up_log_tree.specs.Fits.{Fits};
ghost use Rattle.up_log_tree.specs.Logs.{Limits};

use std::alloc::{AllocError, Global};
use std::hash::RandomState;
use up_edits::{Fetched, delete_record, put_record};
use up_entry::Rec;
use up_list::{ReadRequest, TreeLook, glob_for, group_text, lookup, which_access};
use up_mem_tree::MemTree;
use up_names::{Path, User};
use up_policy::Loaded;
use up_watch::watch_in;
use up_wire::Reply;

/// A reply; or a record that is to be added first.
pub(crate) type Led = Result<Rec, Reply>;

/// What a user's request leads to on a path of a tree in memory, with what was loaded and fetched for it. Nothing is changed. An `Err`
/// is want of memory.
#[tactic(auto, unfolding(up_answers::specs::Answers::tree_outcome))]
pub(crate) fn led_in(
    alloc: Global,
    tree: &MemTree,
    loaded: &Loaded,
    fetched: &Fetched,
    user: &User,
    asked: &ReadRequest,
) -> Result<Led, AllocError>
    requires owned { owner_asked asked.now ≡ tree.now.owner }
    requires formed { IsFormed asked.now }
    ensures led { (limits : Limits) → IfOk result (λ led. led
        ≡ tree_outcome (log_over limits tree.now) loaded.now fetched.now user.now asked.now) }
    ensures fits { IfOk result (λ led. IfOk led (Fits tree.now.owner tree.now.log)) }
{
    let look = TreeLook::new(tree, loaded, user);
    match asked {
        ReadRequest::Lookup(path) => Ok(Err(lookup(alloc, &look, path)?)),
        ReadRequest::WhichAccess(path) => Ok(Err(which_access(alloc, &look, path)?)),
        ReadRequest::GroupText(path) => Ok(Err(text_alone(
            alloc,
            loaded.random(),
            tree,
            user,
            path,
        )?)),
        ReadRequest::Glob(pattern) => Ok(Err(glob_for(alloc, &look, pattern)?)),
        ReadRequest::Watch(path, sequence) => {
            Ok(Err(watch_in(alloc, tree, loaded, user, path, *sequence)?))
        }
        ReadRequest::Delete(path) => delete_record(alloc, tree, loaded, user, path),
        ReadRequest::Put(put) => put_record(alloc, tree, loaded, user, fetched.as_slice(), put),
    }
}

/// The reply to a GroupText: nothing is loaded for it, whatever was.
#[tactic(auto, unfolding(up_list::specs::Reads::group_text_reply))]
fn text_alone(
    alloc: Global,
    random: RandomState,
    tree: &MemTree,
    user: &User,
    path: &Path,
) -> Result<Reply, AllocError>
    requires { path.now.owner ≡ tree.now.owner }
    ensures { (loaded : Loading) → IfOk result (λ reply. reply
        ≡ group_text_reply (look_in tree.now loaded user.now) path.now) }
{
    let nothing = Loaded::new(alloc, random);
    group_text(alloc, &TreeLook::new(tree, &nothing, user), path)
}
