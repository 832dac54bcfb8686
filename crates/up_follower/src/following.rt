//! Who is followed, by the words of `upspin follow`.
ghost use Rattle.std.specs.Prelude.{◌≡◌, IfOk, is_some, map, string_bytes};
ghost use Rattle.up_following.specs.FollowLines.{follow_owner};

use crate::socket_feed::SocketFeed;
use std::alloc::AllocError;
use up_following::follow_owner;
use up_names::User;
use up_net::Waits;

/// The leader at the address of the words, pulled from as the owner of the tree, for whom the helper of the words signs. Nothing is connected
/// yet. `None` exactly where the words are not those of `upspin follow`.
pub fn leader_of(
    rt: HostRuntime,
    words: &[String],
) -> Result<Option<SocketFeed<HostRuntime>>, AllocError>
    ensures leader { IfOk result (λ leader.
        is_some leader ≡ is_some (follow_owner (map string_bytes words.now))) }
{
    let [_command, address, helper, _owner, _file] = words else {
        return Ok(None);
    };
    match follow_owner(rt.alloc(), words)? {
        Some(owner) => Ok(Some(leader_at(rt, address.as_bytes(), helper, owner)?)),
        None => Ok(None),
    }
}

fn leader_at(
    rt: HostRuntime,
    address: &[u8],
    helper: &String,
    owner: User,
) -> Result<SocketFeed<HostRuntime>, AllocError> {
    let helper = match helper.clone() {
        Ok(helper) => helper,
        Err(failed) => {
            drop(owner);
            return Err(failed);
        }
    };
    SocketFeed::new(rt.alloc(), rt, address, owner, helper, Waits::usual())
}
