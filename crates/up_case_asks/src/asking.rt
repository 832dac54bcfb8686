//! One request of a user on a tree.
ghost use Rattle.std.specs.Prelude.{◌≡◌, IfOk, Ok, true};
ghost use Rattle.up_list.specs.Asking.{asked_of, owner_asked};
ghost use Rattle.up_list.specs.declared.asking.ReadRequest.{ReadRequest};
ghost use Rattle.up_snap.specs.Outcomes.{IsOfSnapshots};

use crate::given::{Given, moment};
use crate::replies::add_reply;
use std::alloc::{AllocError, Global};
use up_case_lines::{Answer, Fault, Words};
use up_dir::step;
use up_disk::MemDisk;
use up_edits::log_owner;
use up_list::asked_of;
use up_names::User;
use up_snap::snap_step;
use up_tree::TreeState;
use up_wire::Request;

/// Asks a tree what the words ask for a user, and adds the lines of the reply.
pub fn ask(
    alloc: Global,
    tree: &mut TreeState<MemDisk>,
    given: &mut Given,
    user: &User,
    words: Words<'_>,
    answer: &mut Answer,
) -> Result<(), Fault> {
    let now = moment(given.now)?;
    let request = given.request(alloc, user, words)?;
    let reply = step(
        alloc,
        tree,
        user,
        &request,
        &given.loaded,
        &given.fetched,
        now,
    );
    drop(request);
    let added = add_reply(alloc, &reply, answer);
    drop(reply);
    added
}

/// Asks the snapshots of a tree what the words ask for a user, and adds the lines of the reply. It has to be asked of them.
pub fn ask_snapshots(
    alloc: Global,
    tree: &mut TreeState<MemDisk>,
    given: &mut Given,
    user: &User,
    words: Words<'_>,
    answer: &mut Answer,
) -> Result<(), Fault> {
    let now = moment(given.now)?;
    let request = given.request(alloc, user, words)?;
    if !is_of_snapshots(alloc, tree.owner(), user, &request)? {
        drop(request);
        return Err(Fault::BadLine);
    }
    let reply = snap_step(alloc, tree, user, &request, now);
    drop(request);
    let added = add_reply(alloc, &reply, answer);
    drop(reply);
    added
}

/// Whether a request is asked of the snapshots of an owner's tree.
fn is_of_snapshots(
    alloc: Global,
    owner: &User,
    user: &User,
    request: &Request,
) -> Result<bool, AllocError>
    ensures { IfOk result (λ yes. yes ≡ true → (asked : ReadRequest)
        → asked_of user.now request.now ≡ Ok asked
        → IsOfSnapshots owner.now (owner_asked asked)) }
{
    let Ok(asked) = asked_of(alloc, user, request) else {
        return Ok(false);
    };
    let found = shows_snapshots(owner, asked.owner());
    drop(asked);
    found
}

/// Whether a user's tree shows the snapshots of an owner's.
fn shows_snapshots(owner: &User, user: &User) -> Result<bool, AllocError>
    ensures { IfOk result (λ yes. yes ≡ true → IsOfSnapshots owner.now user.now) }
{
    if user == owner {
        return Ok(false);
    }
    let found = log_owner(user)?;
    let same = found == *owner;
    drop(found);
    Ok(same)
}
