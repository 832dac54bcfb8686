//! A sink in memory.
ghost use Rattle.std.specs.Prelude.{◌≡◌, ◌<◌, ◌⊎◌, [], ◌++◌, length, true, is_ok, if◌then◌else◌, IfOk, IsErr, OnErr};
ghost use Rattle.std.specs.Io.{WritesAtMost};
ghost use Rattle.std.specs.Io.KnownBytes.{WriteAppends};
ghost use Rattle.up_lists.specs.Counts.{HasCause, StaysUnless};
ghost use Rattle.up_lists.specs.Calls.{IsCalled, fails_next, no_call_made};

use crate::ends::Sink;
use crate::fault::Failed;
use std::alloc::Global;
use std::marker::Model;
use up_lists::{Calls, Items};

/// A sink in memory.
///
/// Its calls are numbered from 0, those that fail and those of an empty piece too. A call whose number is one
/// of `fails` fails. Any other takes the whole piece; where the sink has to grow for it and there is no memory, that is
/// a fault.
#[derive(Drop)]
pub struct MemSink {
    bytes: Vec<u8>,
    calls: Calls,
}

impl Model for MemSink {
    ghost use Rattle.std.specs.Prelude.{◌-◌, vec_len, vec_capacity};
    ghost use Rattle.up_ends.specs.Sinks.{MemOutput};

    ghost Value = { MemOutput };

    ghost view = { λ s. record {
      held = s.bytes.items;
      room = vec_capacity s.bytes - vec_len s.bytes;
      plan = s.calls;
    } };
}

impl MemSink {
    /// A sink that holds nothing. It takes no memory.
    pub fn new(alloc: Global, fails: Items<u64>) -> Self
        ensures held { result.held ≡ [] }
        ensures plan { result.plan ≡ no_call_made fails }
    {
        MemSink {
            bytes: Vec::new(alloc),
            calls: Calls::new(fails),
        }
    }

    /// All that was written so far.
    pub fn bytes(&self) -> &[u8]
        ensures { result.now ≡ self.now.held }
    {
        self.bytes.as_slice()
    }
}

impl Sink for MemSink {
    ghost use Rattle.std.specs.Prelude.{Some};

    ghost held = { λ s. Some s.held };

    ghost faults = { λ s. s.plan.faults };

    fn write(&mut self, piece: &[u8]) -> Result<usize, Failed>
        // A listed call fails, and any other only where the sink has to grow. One that does not fail takes the
        // whole piece.
        ensures called { IsCalled self.old.plan self.new.plan result }
        ensures only_listed { OnErr result ((fails_next self.old.plan ≡ true)
            ⊎ (self.old.room < length piece.now)) }
        ensures whole { IfOk result (λ n. n ≡ length piece.now) }
        ensures after { self.new.held ≡
            (if is_ok result then self.old.held ++ piece.now else self.old.held) }

        ensures bound { WritesAtMost result piece.now }
        ensures some { IfOk result (λ n. 0 < length piece.now → 0 < n) }
        ensures bytes { WriteAppends (Some self.old.held) (Some self.new.held) result piece.now }
        ensures cause { HasCause self.old.plan.faults self.new.plan.faults (IsErr result) }
        ensures quiet { StaysUnless self.old.plan.faults self.new.plan.faults (IsErr result) }
    {
        let fails = self.calls.fails_next() || self.bytes.extend_from_slice(piece).is_err();
        self.calls.count(fails);
        if fails { Err(Failed) } else { Ok(piece.len()) }
    }
}
