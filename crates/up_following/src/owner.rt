//! The words of the command.
ghost use Rattle.std.specs.Prelude.{◌≡◌, map, string_bytes, false, IfOk, IfSome};
ghost use Rattle.up_following.specs.FollowLines.{follow_owner};
ghost use Rattle.up_policy.specs.Trees.{owns_snapshots};

use std::alloc::{AllocError, Global};
use up_names::User;
use up_reports::owner_in;

/// The owner of the log that is followed, by the words `follow`, the leader's address, a helper's path, that owner and a file. `None` where
/// the words are others, or the fourth is no user or a snapshot user.
pub fn follow_owner(alloc: Global, words: &[String]) -> Result<Option<User>, AllocError>
    ensures owner { IfOk result (λ found. found ≡ follow_owner (map string_bytes words.now)) }
    ensures plain { IfOk result (λ found. IfSome found (λ owner. owns_snapshots owner ≡ false)) }
{
    let [command, _address, _helper, user, _file] = words else {
        return Ok(None);
    };
    if command.as_str() != "follow" {
        return Ok(None);
    }
    owner_in(alloc, user.as_bytes())
}
