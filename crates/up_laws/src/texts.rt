//! A right with less loaded, and with more.
ghost use Rattle.std.specs.Prelude.{◌≡◌, ◌↔◌, IfOk, IsTrue};
ghost use Rattle.up_policy.specs.Verdicts.{HasRight};
ghost use Rattle.up_laws.specs.Texts.{AreRights};

use std::alloc::{AllocError, Global};
use up_names::{Path, User};
use up_policy::{Facts, Loaded, can};
use up_rights::Right;

/// Whether a user has a right on a path of a tree, whose owner is the path's, with less loaded and with more. More texts take no right
/// away.
pub fn more_texts<F: Facts>(
    alloc: Global,
    facts: &F,
    less: &Loaded,
    more: &Loaded,
    user: &User,
    right: Right,
    path: &Path,
) -> Result<(bool, bool), AllocError>
    requires { path.now.owner ≡ (F.tree facts.now).owner }
    ensures { IfOk result (AreRights (F.tree facts.now) less.now more.now user.now right path.now) }
{
    with_each(alloc, facts, less, more, user, right, path)
}

/// Whether a user has a right on a path with less loaded, and with more.
fn with_each<F: Facts>(
    alloc: Global,
    facts: &F,
    less: &Loaded,
    more: &Loaded,
    user: &User,
    right: Right,
    path: &Path,
) -> Result<(bool, bool), AllocError>
    requires { path.now.owner ≡ (F.tree facts.now).owner }
    ensures with_less { IfOk result (λ yes. IsTrue yes.0
        ↔ HasRight (F.tree facts.now) less.now user.now right path.now) }
    ensures with_more { IfOk result (λ yes. IsTrue yes.1
        ↔ HasRight (F.tree facts.now) more.now user.now right path.now) }
{
    let with_less = can(alloc, facts, less, user, right, path)?;
    let with_more = can(alloc, facts, more, user, right, path)?;
    Ok((with_less, with_more))
}
