//! Events for which no tree answered.
ghost use Rattle.std.specs.Prelude.{◌≡◌, []};

use crate::event::Event;
use std::alloc::Global;
use std::hash::RandomState;
use up_lists::Items;
use up_policy::Loaded;
use up_wire::Reply;

/// An event with nothing loaded or fetched, at this position of its log, or 0 where no log was looked at.
pub(crate) fn bare(
    alloc: Global,
    random: RandomState,
    reply: Reply,
    position: u64,
    now: u64,
) -> Event
    ensures { result ≡ record {
      reply = reply;
      position = position;
      loaded = [];
      fetched = [];
      moment = now;
    } }
{
    Event {
        reply,
        position,
        loaded: Loaded::new(alloc, random),
        fetched: Items::new(alloc),
        moment: now,
    }
}
