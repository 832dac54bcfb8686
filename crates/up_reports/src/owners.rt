//! Whose tree a text names.
ghost use Rattle.std.specs.Prelude.{◌≡◌, false, IfOk, IfSome};
ghost use Rattle.up_policy.specs.Trees.{owns_snapshots};
ghost use Rattle.up_reports.specs.Owners.{if_owner, owner_in};

use std::alloc::{AllocError, Global};
use up_names::{NameFault, User, parse_user};
use up_policy::owns_snapshots;

/// The owner that a text names, as it stands: a user who is no snapshot user. `None` exactly where it names none.
pub fn owner_in(alloc: Global, text: &[u8]) -> Result<Option<User>, AllocError>
    ensures owner { IfOk result (λ found. found ≡ owner_in text.now) }
    ensures plain { IfOk result (λ found. IfSome found (λ owner. owns_snapshots owner ≡ false)) }
{
    match parse_user(alloc, text) {
        Ok(user) => Ok(if_owner(user)),
        Err(NameFault::OutOfMemory) => Err(AllocError),
        Err(_) => Ok(None),
    }
}

// The user, where it may own a tree.
fn if_owner(user: User) -> Option<User>
    ensures owner { result ≡ if_owner user }
    ensures plain { IfSome result (λ owner. owns_snapshots owner ≡ false) }
{
    if owns_snapshots(&user) {
        drop(user);
        None
    } else {
        Some(user)
    }
}
