//! What the words of `upspin share` say.
ghost use Rattle.std.specs.Prelude.{◌≡◌, false, map, string_bytes, IfOk, IfSome};
ghost use Rattle.up_policy.specs.Trees.{owns_snapshots};
ghost use Rattle.up_share.specs.Plans.{plan_from, plan_of};

use std::alloc::{AllocError, Global};
use up_bytes::{Bytes, copy_of};
use up_names::User;
use up_reports::owner_in;
use up_text::read_num;

/// Which log is reported on, by the words of `upspin share`.
#[derive(Drop)]
pub struct SharePlan {
    /// The folder of a server's logs, as it stands.
    pub folder: Bytes,
    /// The number of the tree's file in it, from 0.
    pub place: u64,
    /// Whose tree it is; no snapshot user.
    pub owner: User,
}

/// The plan that the words `share DIR K USER` say: a folder, a number, and a user who is no snapshot user. `None` exactly where they do
/// not fit. Each word stands for itself.
#[tactic(auto, unfolding(crate::specs::Plans::plan_of))]
pub fn share_words(alloc: Global, words: &[String]) -> Result<Option<SharePlan>, AllocError>
    ensures plan { IfOk result (λ found. found ≡ plan_of (map string_bytes words.now)) }
    ensures plain { IfOk result (λ found. IfSome found
        (λ plan. owns_snapshots plan.owner ≡ false)) }
{
    match words {
        [command, folder, place, user] => {
            if command.as_str() != "share" {
                return Ok(None);
            }
            plan_from(alloc, folder.as_str(), place.as_str(), user.as_str())
        }
        _ => Ok(None),
    }
}

// The plan of a folder, a number and a user.
#[tactic(auto, unfolding(crate::specs::Plans::plan_from))]
fn plan_from(
    alloc: Global,
    folder: &str,
    place: &str,
    user: &str,
) -> Result<Option<SharePlan>, AllocError>
    ensures plan { IfOk result (λ found. found ≡ plan_from folder.now place.now user.now) }
    ensures plain { IfOk result (λ found. IfSome found
        (λ plan. owns_snapshots plan.owner ≡ false)) }
{
    let Some(place) = read_num(place.as_bytes()) else {
        return Ok(None);
    };
    let folder = copy_of(alloc, folder.as_bytes())?;
    match owner_in(alloc, user.as_bytes()) {
        Ok(Some(owner)) => Ok(Some(SharePlan {
            folder,
            place,
            owner,
        })),
        Ok(None) => {
            drop(folder);
            Ok(None)
        }
        Err(fault) => {
            drop(folder);
            Err(fault)
        }
    }
}
