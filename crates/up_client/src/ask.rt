//! Who is asked.
ghost use Rattle.std.specs.Prelude.{ℕ, IsErr};
ghost use Rattle.std.specs.Result.{result_ok};
ghost use Rattle.std.specs.declared.option.Option.{Option};
ghost use Rattle.up_lists.specs.Counts.{HasCause, StaysUnless};
ghost use Rattle.up_wire.specs.declared.requests.Request.{Request as Requests};
ghost use Rattle.up_wire.specs.declared.replies.Reply.{Reply as Replies};

use std::alloc::Global;
use up_wire::{Reply, Request};

/// No answer came.
#[derive(Clone, Copy, Debug, PartialEq, Eq)]
pub struct Failed;

/// Who answers requests: a server over a connection, a host in the same process, or a table.
///
/// What it answers is a relation, since servers answer by the state that they are in: a request with its reply, which is none
/// where no answer came, leads from one state to another. One that tells nothing allows all.
pub trait Ask {
    /// Whether a request with its reply, or with none, leads from one state to the other.
    ghost answers: { Self → Requests → Option Replies → Self → Type 0 };

    /// How often no answer came so far. A count that stands at 2^64 - 1 stays there.
    ghost faults: { Self → ℕ };

    /// What every call leaves as it is: of an object that holds a borrowed one, that it is the same one.
    ghost tied: { Self → Self → Type 0 };

    /// Asks a request. Want of memory is a reply.
    fn ask(&mut self, alloc: Global, request: &Request) -> Result<Reply, Failed>
        ensures given { answers self.old request.now (result_ok result) self.new }
        ensures cause { HasCause (faults self.old) (faults self.new) (IsErr result) }
        ensures quiet { StaysUnless (faults self.old) (faults self.new) (IsErr result) }
        ensures tie { tied self.old self.new };

    // No call at all leaves all as it is, and so do two calls, one after the other.
    ghost same: { (a : Self) → tied a a };

    ghost joined: { (a b c : Self) → tied a b → tied b c → tied a c };
}
