//! What is loaded by the text of a group.
ghost use Rattle.std.specs.Prelude.{◌≡◌, ◌≢◌, IfOk};
ghost use Rattle.up_calls.specs.Loads.{group_text_answer, load_of};
ghost use Rattle.up_group.specs.GroupTexts.{group_of};
ghost use Rattle.up_peer.specs.Loading.{text_answer};
ghost use Rattle.up_tree.specs.States.{log_of};

use std::alloc::{AllocError, Global};
use std::hash::RandomState;
use up_disk::Disk;
use up_entry::What;
use up_group::parse_group;
use up_list::{TreeLook, group_text, is_group};
use up_names::{Path, TextFault, User};
use up_policy::{LoadAnswer, Loaded};
use up_tree::TreeState;
use up_wire::{Done, Reply, bounded};

/// What a tree answers a user who asks for the text of a group of its owner, with nothing loaded.
pub fn group_text_of<D: Disk>(
    alloc: Global,
    random: RandomState,
    state: &TreeState<D>,
    user: &User,
    path: &Path,
) -> Reply
    requires { path.now.owner ≡ state.now.owner }
    ensures { result ≢ Reply.OutOfMemory
        → result ≡ group_text_answer (log_of state.now) user.now path.now }
{
    let _text = path.as_str();
    if !is_group(path) {
        return Reply::Invalid(What::GroupName);
    }
    let nothing = Loaded::new(alloc, random);
    let look = TreeLook::new(state.memory(), &nothing, user);
    match group_text(alloc, &look, path) {
        Ok(reply) => bounded(reply),
        Err(_) => Reply::OutOfMemory,
    }
}

/// What is loaded by the reply to a GroupText of this owner's tree: a text is read, `Io` is a failure, want of memory is wanted, and all
/// else is missing.
pub fn load_of(owner: &User, reply: Reply) -> Result<LoadAnswer, AllocError>
    ensures { IfOk result (λ answer. (reply ≢ Reply.OutOfMemory)
        × (answer ≡ load_of owner.now reply)) }
{
    let answer = load_by(owner, &reply);
    drop(reply);
    answer
}

// The same by a reply that is only looked at: its caller lets it go as a whole.
fn load_by(owner: &User, reply: &Reply) -> Result<LoadAnswer, AllocError>
    ensures { IfOk result (λ answer. (reply.now ≢ Reply.OutOfMemory)
        × (answer ≡ load_of owner.now reply.now)) }
{
    match reply {
        Reply::Ok(Done::Text(text)) => load_text(owner, text.as_slice()),
        Reply::Io => Ok(LoadAnswer::Failed),
        Reply::OutOfMemory => Err(AllocError),
        _ => Ok(LoadAnswer::Missing),
    }
}

// What is loaded by a text.
fn load_text(owner: &User, text: &[u8]) -> Result<LoadAnswer, AllocError>
    ensures { IfOk result (λ answer. answer ≡ text_answer (group_of owner.now text.now)) }
{
    match parse_group(owner, text) {
        Ok(group) => Ok(LoadAnswer::Text(group)),
        Err(TextFault::BadText(line)) => Ok(LoadAnswer::BadText(line)),
        Err(TextFault::OutOfMemory) => Err(AllocError),
    }
}
