//! The user whose tree shows the snapshots of a user's tree, and the roots of snapshots in it.
ghost use Rattle.std.specs.Prelude.{◌≡◌, ◌≤◌, length, None, IfOk};
ghost use Rattle.up_answers.specs.SnapshotTrees.{moved};
ghost use Rattle.up_ends.specs.Moments.{IsMoment};
ghost use Rattle.up_names.specs.UserNames.{name_part, suffix_of};
ghost use Rattle.up_log_tree.specs.Fits.{root_of, snapshot_user};

use crate::moments::root_at;
use std::alloc::{AllocError, Global};
use up_names::{Path, User, parse_user};

/// The path at which the snapshot of a moment, in seconds since 1970, shows the root of a user's tree. The user has no suffix, and a
/// name to which `+snapshot` can be added.
#[tactic(auto, using(crate::proofs::SnapUserLemmas::root_moved))]
pub fn snap_path(alloc: Global, owner: &User, time: u64) -> Result<Path, AllocError>
    requires plain { suffix_of owner.now ≡ None }
    requires short { length (snapshot_user owner.now) ≤ 254 }
    requires moment { IsMoment time }
    ensures { IfOk result (λ path. path ≡ moved time (root_of owner.now)) }
{
    let snap_user = snapshot_user(alloc, owner)?;
    root_at(alloc, &snap_user, time)
}

/// The user whose tree shows the snapshots of a user's tree.
#[tactic(auto, using(crate::proofs::SnapUserLemmas::snap_user_named))]
fn snapshot_user(alloc: Global, owner: &User) -> Result<User, AllocError>
    requires plain { suffix_of owner.now ≡ None }
    requires short { length (snapshot_user owner.now) ≤ 254 }
    ensures { IfOk result (λ user. user ≡ snapshot_user owner.now) }
{
    // That the owner's name is one is told with its text.
    let _name = owner.text();
    let text = snap_user_text(alloc, owner)?;
    match parse_user(alloc, text.as_slice()) {
        Ok(user) => Ok(user),
        Err(_) => Err(AllocError),
    }
}

/// Its name.
fn snap_user_text(alloc: Global, owner: &User) -> Result<Vec<u8>, AllocError>
    ensures { IfOk result (λ text. text.items ≡ snapshot_user owner.now) }
{
    let mut text = Vec::new(alloc);
    text.extend_from_slice(name_part(owner).as_bytes())?;
    text.extend_from_slice(b"+snapshot")?;
    text.push(b'@')?;
    text.extend_from_slice(owner.domain().as_bytes())?;
    Ok(text)
}

/// What stands before the `@` of its name.
fn name_part(user: &User) -> &str
    ensures { result.now ≡ name_part user.now }
{
    match user.text().split_once('@') {
        Some((name, _)) => name,
        None => user.text(),
    }
}
