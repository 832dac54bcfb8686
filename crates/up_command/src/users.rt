//! Lists of users.
ghost use Rattle.std.specs.Prelude.{◌≡◌, IfOk};
ghost use Rattle.up_command.specs.Users.{are_different};

use std::alloc::{AllocError, Global};
use std::collections::BTreeSet;
use up_names::User;

/// Whether no user stands twice.
#[tactic(auto, using(crate::proofs::UserLemmas::seens))]
pub fn are_different(alloc: Global, users: &[User]) -> Result<bool, AllocError>
    ensures { IfOk result (λ are. are ≡ are_different users.now) }
{
    let mut seen = BTreeSet::new(alloc);
    let mut left = users;
    while let Some((first, rest)) = left.split_first() {
        if !seen.insert(first.clone()?)? {
            return Ok(false);
        }
        left = rest;
    }
    Ok(true)
}
