//! The first events, and where to go on.
ghost use Rattle.std.specs.Prelude.{◌≡◌, ◌≤◌, ℕ, IfOk, length, unwrap_or};
ghost use Rattle.std.specs.List.{AllByRecursion, filter_map};
ghost use Rattle.up_answers.specs.Watches.{batch, position_at};
ghost use Rattle.up_wire.specs.declared.replies.Done.TheVariants.{Events};
ghost use Rattle.up_wire.specs.declared.replies.Reply.TheVariants.{Ok};
ghost use Rattle.up_watch.specs.Batches.{IsPosition, Takes};
ghost use Rattle.up_watch.specs.Decided.{Remembers};
ghost use Rattle.up_watch.specs.Watching.{told};

use crate::events::event_by;
use crate::watcher::{Known, Reader};
use std::alloc::{AllocError, Global};
use up_lists::Items;
use up_wire::{Done, Reply, WatchEvent};

/// The most events that a reply has.
const MOST: usize = 256;

/// The events of the records at these positions, in order: the first 256, and the sequence to go on from.
pub(crate) fn batch(
    alloc: Global,
    reader: &Reader,
    known: &mut Known,
    positions: &[u64],
) -> Result<Reply, AllocError>
    requires positions { AllByRecursion (IsPosition reader.now.log) positions.now }
    requires known { Remembers reader.now known.old }
    ensures { IfOk result (λ reply. reply
        ≡ batch (length reader.now.log) (filter_map (told reader.now) positions.now)) }
{
    let mut found = Vec::new(alloc);
    for position in positions {
        let event = event_by(alloc, reader, known, *position)?;
        if !take_event(&mut found, event)? {
            return Ok(full(found));
        }
    }
    let records = reader.tree().position();
    Ok(Reply::Ok(Done::Events(Items::from_vec(found), records)))
}

/// Adds an event, where there is one. Where 256 are there already, it is not taken.
fn take_event(found: &mut Vec<WatchEvent>, event: Option<WatchEvent>) -> Result<bool, AllocError>
    requires { length found.old.items ≤ 256 }
    ensures { IfOk result (λ taken. Takes found.old.items found.new.items event taken) }
{
    let Some(event) = event else {
        return Ok(true);
    };
    if found.len() == MOST {
        drop(event);
        return Ok(false);
    }
    found.push(event)?;
    Ok(true)
}

/// The reply of 256 events, where there are more: it goes on from the last of them.
fn full(found: Vec<WatchEvent>) -> Reply
    requires { length found.items ≡ 256 }
    ensures { (records : ℕ) → result
        ≡ Ok (Events found.items (unwrap_or (position_at found.items 255) records)) }
{
    let next = found[MOST - 1].position;
    Reply::Ok(Done::Events(Items::from_vec(found), next))
}
